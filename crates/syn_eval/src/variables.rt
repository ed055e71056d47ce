// The values of variables, by their numbers, and those of inputs.
ghost use Rattle.std.specs.Prelude.{◌≡◌, ◌-◌, ◌+◌, IfOk, slice_get};
ghost use Rattle.std.specs.Option.{unwrap_or};
ghost use Rattle.syn_value.specs.declared.tree.ValueTree.TheVariants as tree;
ghost use Rattle.syn_model.specs.Calls.{input_value, numbered_values};

use crate::setting::Setting;
use sqlite_items::at;
use syn_term::{NoMemory, SymId};
use syn_value::Value;

/// The value at the place, 0 where there is none.
fn value_at(values: &[Value], place: usize) -> Result<Value, NoMemory>
    ensures { IfOk result (λ v. v ≡ unwrap_or (slice_get values.now place) (tree.Num 0)) }
{
    match at(values, place) {
        None => Ok(Value::number(0)),
        Some(value) => value.again(),
    }
}

/// The value of the variable with this number, where those that are numbered from 1 have these values.
pub fn variable_value(values: &[Value], number: u32) -> Result<Value, NoMemory>
    ensures { IfOk result (λ v. v ≡ numbered_values values.now number) }
{
    if number == 0 {
        Ok(Value::number(0))
    } else {
        value_at(values, number as usize - 1)
    }
}

/// The value of the input.
pub fn input_value(set: &Setting, inputs: &[Value], f: SymId) -> Result<Value, NoMemory>
    ensures { IfOk result (λ v. v ≡ input_value set.now inputs.now f) }
{
    let place = u64::from(f.0).saturating_sub(u64::from(set.program().0) + 1);
    value_at(inputs, place as usize)
}
