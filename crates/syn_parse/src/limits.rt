// How high syntax trees may be that are read.

/// The greatest height of a term, a formula or an output.
pub(crate) const MAX_HEIGHT: u32 = 1_264;

/// The greatest number of calls that are open at once, so that no term is too high.
pub(crate) const MAX_OPEN: u32 = MAX_HEIGHT - 1;
