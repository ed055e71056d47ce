// Parts of lists of values, and lists that are cut.
ghost use Rattle.std.specs.Prelude.{◌≡◌, ◌≤◌, ◌-◌, OnOk, ◌++◌, drop, length, take};

use sqlite_items::Items;
use syn_term::NoMemory;
use syn_value::Value;

/// The values from the place on, before the other place.
pub(crate) fn part(values: &[Value], from: usize, to: usize) -> &[Value]
    requires { to ≤ length values.now }
    ensures { result.now ≡ take (to - from) (drop from values.now) }
{
    if from < to { &values[from..to] } else { &[] }
}

/// The values from the place on.
pub(crate) fn behind(values: &[Value], from: usize) -> &[Value]
    requires { from ≤ length values.now }
    ensures { result.now ≡ drop from values.now }
{
    &values[from..]
}

/// Lets go of the values from the place on, one after another.
pub(crate) fn cut(values: &mut Items<Value>, base: usize)
    ensures { values.new ≡ take base values.old }
{
    while base < values.len() {
        let _ = values.pop();
    }
}

/// Puts the values behind these, once more.
pub(crate) fn put_all(values: &[Value], found: &mut Items<Value>) -> Result<(), NoMemory>
    ensures { OnOk result (found.new ≡ found.old ++ values.now) }
{
    for value in values {
        found.push(value.again()?)?;
    }
    Ok(())
}
