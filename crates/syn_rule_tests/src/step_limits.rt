// Steps about the limits of a step, which are those of the instances: a variable becomes a large term at many places, and what
// comes of it is small once it is simplified.
use crate::splitting::{Rule, given_of};
use std::alloc::Global;
use std::process::Abort;
use std::test::Fail;
use syn_row_cases::make_table;
use syn_term::Bank;

/// The texts one after another, the middle one so often.
fn repeated(
    alloc: Global,
    first: &str,
    middle: &str,
    times: u32,
    last: &str,
) -> Result<String, Fail> {
    let mut text = String::from_str(alloc, first)?;
    for _ in 0..times {
        text.push_str(middle)?;
    }
    text.push_str(last)?;
    Ok(text)
}

/// Reflexivity gives this row at the root, or none.
fn reflexes(rt: &impl Abort, alloc: Global, text: &str, want: &str) -> Result<(), Fail> {
    let syms = make_table(alloc)?;
    let got = given_of(alloc, &mut Bank::new(alloc), &syms, text, Rule::Reflex("-"))?;
    assert_eq!(rt; got.as_str(), want);
    Ok(())
}

/// An equality, and an output whose test is 31 of them, of 2,003 nodes each in the instance: 64,096 in all, with 3 for the choice,
/// the chain and the `0`, and 1,006 and as many as the number says in the other arm, whose two arms are one.
fn heavy_row(alloc: Global, number: &str) -> Result<String, Fail> {
    let front = "goal ?1 = 1000 | if ";
    let behind = "?1 = ?1 then 0 else if le(1000, ";
    let mut text = repeated(alloc, front, "?1 = ?1 and ", 30, behind)?;
    text.push_str(number)?;
    text.push_str(") then 0 else 0")?;
    Ok(text)
}

fn weighs(rt: &impl Abort, alloc: Global, number: &str, want: &str) -> Result<(), Fail> {
    let text = heavy_row(alloc, number)?;
    reflexes(rt, alloc, text.as_str(), want)
}

/// 65,536 nodes, and one more.
#[test]
fn weighs_instances(rt: HostRuntime) -> Result<(), Fail> {
    weighs(&rt, rt.alloc(), "431", "goal true | 0")?;
    weighs(&rt, rt.alloc(), "432", "none")
}

fn close(text: &mut String, brackets: u32) -> Result<(), Fail> {
    for _ in 0..brackets {
        text.push_str(")")?;
    }
    Ok(())
}

/// An equality of two lists that makes `?1` a term of depth 601 and some more.
fn deep_front(alloc: Global, more: u32) -> Result<String, Fail> {
    let mut text = repeated(
        alloc,
        "goal cons(?1, cons(?2, nil)) = cons(",
        "s(",
        more,
        "?2",
    )?;
    close(&mut text, more)?;
    text.push_str(", cons(600, nil)) | if ?1 = ?1 then 0 else ")?;
    Ok(text)
}

/// The equality, and an output in which that term stands 1,199 levels deep.
fn deep_row(alloc: Global, more: u32) -> Result<String, Fail> {
    let front = deep_front(alloc, more)?;
    let mut text = repeated(alloc, front.as_str(), "s(", 1198, "?1")?;
    close(&mut text, 1198)?;
    Ok(text)
}

fn measures(rt: &impl Abort, alloc: Global, more: u32, want: &str) -> Result<(), Fail> {
    let text = deep_row(alloc, more)?;
    reflexes(rt, alloc, text.as_str(), want)
}

/// The other arm is 1,198 levels, the levels that come before `?2`, and 601 of `600`; the choice is one more: 2,400 levels, and one
/// more.
#[test]
fn measures_instances(rt: HostRuntime) -> Result<(), Fail> {
    measures(&rt, rt.alloc(), 600, "goal true | 0")?;
    measures(&rt, rt.alloc(), 601, "none")
}
