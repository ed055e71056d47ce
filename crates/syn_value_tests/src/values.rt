// Lists that are built, looked at and let go of.
use std::alloc::Global;
use std::process::Abort;
use std::test::Fail;
use syn_value::{Value, Values};

/// The numbers below the end, the greatest first.
fn numbers(alloc: Global, end: u64) -> Result<Values, Fail> {
    let mut values = Values::empty();
    for n in 0..end {
        values = Values::cons(alloc, Value::number(n), values)?;
    }
    Ok(values)
}

/// A list of so many numbers.
fn list(alloc: Global, end: u64) -> Result<Value, Fail> {
    Ok(Value::list(numbers(alloc, end)?))
}

/// The same list, once the first of two owners is gone.
fn kept(alloc: Global, end: u64) -> Result<Value, Fail> {
    let list = list(alloc, end)?;
    Ok(list.again()?)
}

/// Whether the value is the list of so many numbers.
fn is_list_of(alloc: Global, value: &Value, end: u64) -> Result<bool, Fail> {
    let list = list(alloc, end)?;
    Ok(value.same(&list))
}

#[test]
fn lets_go_of_a_million(rt: HostRuntime) -> Result<(), Fail> {
    let other = kept(rt.alloc(), 1_000_000)?;
    assert!(rt; is_list_of(rt.alloc(), &other, 1_000_000)?);
    Ok(())
}

/// The first item as a number, and the number of the first of the rest.
fn first_two(values: &Values) -> Result<Option<(u64, u64)>, Fail> {
    let Some((first, rest)) = values.parts()? else {
        return Ok(None);
    };
    let Some((second, _)) = rest.parts()? else {
        return Ok(None);
    };
    Ok(first.as_number().zip(second.as_number()))
}

/// The first two of so many numbers.
fn first_two_of(alloc: Global, end: u64) -> Result<Option<(u64, u64)>, Fail> {
    let values = numbers(alloc, end)?;
    first_two(&values)
}

/// A tuple of so many numbers.
fn tuple(alloc: Global, end: u64) -> Result<Value, Fail> {
    Ok(Value::tuple(numbers(alloc, end)?))
}

/// The first two parts of the tuple.
fn first_parts(tuple: &Value) -> Result<Option<(u64, u64)>, Fail> {
    match tuple.as_tuple()? {
        None => Ok(None),
        Some(parts) => first_two(&parts),
    }
}

fn show_parts(rt: &impl Abort, alloc: Global, tuple: &Value) -> Result<(), Fail> {
    assert!(rt; tuple.as_list()?.is_none());
    assert!(rt; tuple.as_number().is_none());
    assert!(rt; first_parts(tuple)? == Some((1, 0)));
    assert!(rt; !is_list_of(alloc, tuple, 2)?);
    Ok(())
}

#[test]
fn shows_its_parts(rt: HostRuntime) -> Result<(), Fail> {
    assert!(rt; first_two_of(rt.alloc(), 2)? == Some((1, 0)));
    assert!(rt; first_two_of(rt.alloc(), 1)? == None);
    assert!(rt; Values::empty().is_empty());
    let tuple = tuple(rt.alloc(), 2)?;
    show_parts(&rt, rt.alloc(), &tuple)
}
