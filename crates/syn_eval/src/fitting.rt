// Whether values fit the arguments of a clause, and the values of its variables.
ghost use Rattle.std.specs.Prelude.{◌≡◌, ◌↔◌, ◌∷◌, ◌++◌, [], IfOk, IsTrue, OnOk, Some};
ghost use Rattle.std.specs.Option.{option_and_then};
ghost use Rattle.syn_term.specs.declared.sorts.Head.TheVariants as heads;
ghost use Rattle.syn_term.specs.declared.sorts.Kind.TheVariants as kinds;
ghost use Rattle.syn_term.specs.Symbols.{symbol_at};
ghost use Rattle.syn_term.specs.Terms.{head_of};
ghost use Rattle.syn_value.specs.Values.{list_of, number_of, tuple_of};
ghost use Rattle.syn_value.specs.declared.tree.ValueTree.{out-ValueTree};
ghost use Rattle.syn_model.specs.Calls.{fitting, parts_by, taken_apart};
ghost use Rattle.syn_eval.specs.inner.Fitting.{PutsDown, first_and_rest};

use sqlite_items::Items;
use syn_term::{Head, Kind, NoMemory, SymId, Symbols, Term};
use syn_value::{Value, Values};

/// Whether the value is 0.
fn is_zero(value: &Value) -> bool
    ensures { IsTrue result ↔ (number_of value.now ≡ Some 0) }
{
    matches!(value.as_number(), Some(0))
}

/// Puts down the number before this one. False: it is no number, or 0.
fn put_before(value: &Value, found: &mut Items<Value>) -> Result<bool, NoMemory>
    ensures { IfOk result (PutsDown found.old found.new (taken_apart kinds.Succ (out-ValueTree value.now))) }
{
    match value.as_number() {
        None | Some(0) => Ok(false),
        Some(n) => {
            found.push(Value::number(n - 1))?;
            Ok(true)
        }
    }
}

/// Whether the value is the empty list.
fn is_empty_list(value: &Value) -> Result<bool, NoMemory>
    ensures { IfOk result (λ is. IsTrue is ↔ (list_of value.now ≡ Some [])) }
{
    match value.as_list()? {
        None => Ok(false),
        Some(items) => Ok(items.is_empty()),
    }
}

/// Puts down the first item of a list and the list of the others. False: it is no list, or empty.
fn put_first_and_rest(value: &Value, found: &mut Items<Value>) -> Result<bool, NoMemory>
    ensures { IfOk result (PutsDown found.old found.new (taken_apart kinds.Cons (out-ValueTree value.now))) }
{
    match value.as_list()? {
        None => Ok(false),
        Some(items) => put_parts(&items, found),
    }
}

/// The same of the items of a list.
fn put_parts(items: &Values, found: &mut Items<Value>) -> Result<bool, NoMemory>
    ensures { IfOk result (PutsDown found.old found.new (first_and_rest items.now)) }
{
    match items.parts()? {
        None => Ok(false),
        Some((first, rest)) => {
            put_two(first, Value::list(rest), found)?;
            Ok(true)
        }
    }
}

/// Puts down the two values.
fn put_two(first: Value, second: Value, found: &mut Items<Value>) -> Result<(), NoMemory>
    ensures { OnOk result (found.new ≡ found.old ++ first ∷ second ∷ []) }
{
    match found.push(first) {
        Ok(()) => Ok(found.push(second)?),
        Err(_) => {
            drop(second);
            Err(NoMemory)
        }
    }
}

/// Puts down all these values.
fn put_all(values: Values, found: &mut Items<Value>) -> Result<(), NoMemory>
    ensures { OnOk result (found.new ≡ found.old ++ values) }
{
    let mut rest = values;
    loop {
        match rest.parts()? {
            None => return Ok(()),
            Some((first, more)) => {
                rest = more;
                found.push(first)?;
            }
        }
    }
}

/// Puts down the parts of a tuple. False: it is none.
fn put_tuple(value: &Value, found: &mut Items<Value>) -> Result<bool, NoMemory>
    ensures { IfOk result (PutsDown found.old found.new (taken_apart kinds.Tuple (out-ValueTree value.now))) }
{
    match value.as_tuple()? {
        None => Ok(false),
        Some(parts) => {
            put_all(parts, found)?;
            Ok(true)
        }
    }
}

/// Puts down what the constructor that made the value was given. False: it is of another kind.
fn take_apart(kind: Kind, value: &Value, found: &mut Items<Value>) -> Result<bool, NoMemory>
    ensures { IfOk result (PutsDown found.old found.new (taken_apart kind (out-ValueTree value.now))) }
{
    match kind {
        Kind::Zero => Ok(is_zero(value)),
        Kind::Succ => put_before(value, found),
        Kind::Nil => is_empty_list(value),
        Kind::Cons => put_first_and_rest(value, found),
        Kind::Tuple => put_tuple(value, found),
        _ => Ok(false),
    }
}

/// The same for the constructor with this number.
fn take_apart_by(
    symbols: &Symbols,
    f: SymId,
    value: &Value,
    found: &mut Items<Value>,
) -> Result<bool, NoMemory>
    ensures { IfOk result (PutsDown found.old found.new (parts_by symbols.now (heads.Sym f) value.now)) }
{
    match symbols.get(f) {
        None => Ok(false),
        Some(sym) => take_apart(sym.kind, value, found),
    }
}

/// Puts down the values of the variables of an argument. False: the value doesn't fit it.
fn fit_one(
    symbols: &Symbols,
    arg: &Term,
    value: &Value,
    found: &mut Items<Value>,
) -> Result<bool, NoMemory>
    ensures { IfOk result (PutsDown found.old found.new (parts_by symbols.now (head_of arg.now) value.now)) }
{
    match arg.head() {
        Head::Var(_) => {
            found.push(value.again()?)?;
            Ok(true)
        }
        Head::Sym(f) => take_apart_by(symbols, f, value, found),
    }
}

/// Puts down the values of the variables of a clause's arguments, in their order. False: the values
/// don't fit them.
pub(crate) fn fit(
    symbols: &Symbols,
    args: &[Term],
    values: &[Value],
    found: &mut Items<Value>,
) -> Result<bool, NoMemory>
    ensures { IfOk result (PutsDown found.old found.new (fitting symbols.now args.now values.now)) }
{
    match args {
        [] => Ok(values.is_empty()),
        [arg, more_args @ ..] => match values {
            [] => Ok(false),
            [value, more_values @ ..] => {
                if !fit_one(symbols, arg, value, &mut *found)? {
                    return Ok(false);
                }
                fit(symbols, more_args, more_values, found)
            }
        },
    }
}
