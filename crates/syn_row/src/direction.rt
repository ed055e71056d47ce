// Which side of an equality, or of an atom, is looked for.

/// How an equality or an atom of two sides is used: `Lr` looks for its left side and puts the right one there,
/// `Rl` the other way round.
#[derive(Clone, Copy, Debug, PartialEq, Eq)]
pub enum Dir {
    Lr,
    Rl,
}
