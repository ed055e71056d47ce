// Values as contracts see them.
use sqlite_items::Items;

/// A value as a plain tree: a number, a list of values, or a tuple of values. Contracts see this of a
/// `Value`.
#[derive(Drop)]
pub enum ValueTree {
    Num(u64),
    List(Items<ValueTree>),
    Tuple(Items<ValueTree>),
}
