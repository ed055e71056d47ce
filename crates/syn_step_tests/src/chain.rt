// A chain of definitions: `k1(x)` is `s(x)`, and each further one is `s` of the one before it. The program is `s(.. s(a))`, and the
// derivation unfolds one definition after another.
ghost use Rattle.std.specs.Prelude.{IfSome};
ghost use Rattle.syn_row.specs.Guards.{RuleBelongs};

use crate::reading::derivation_of;
use crate::samples::start_from;
use itoa::Buffer;
use std::alloc::Global;
use std::process::Abort;
use std::test::Fail;
use syn_replay::check;
use syn_start::Start;
use syn_term::Bank;

fn put_number(text: &mut String, number: u32) -> Result<(), Fail> {
    let mut buffer = Buffer::new();
    Ok(text.push_str(buffer.format(number))?)
}

fn put_times(text: &mut String, piece: &str, times: u32) -> Result<(), Fail> {
    for _ in 0..times {
        text.push_str(piece)?;
    }
    Ok(())
}

/// Ends a line, and begins the next with the row's number.
fn put_row_number(text: &mut String, row: u32) -> Result<(), Fail> {
    text.push_str("\n")?;
    put_number(text, row)?;
    Ok(text.push_str(" ")?)
}

/// The function `kj` and its clause.
fn put_function(text: &mut String, j: u32) -> Result<(), Fail> {
    text.push_str("fun k")?;
    put_number(text, j)?;
    text.push_str("(nat): nat\nclause k")?;
    put_number(text, j)?;
    if j == 1 {
        return Ok(text.push_str("(x) = s(x)\n")?);
    }
    text.push_str("(x) = s(k")?;
    put_number(text, j.saturating_sub(1))?;
    Ok(text.push_str("(x))\n")?)
}

fn theory_text(alloc: Global, length: u32) -> Result<String, Fail> {
    let mut text = String::from_str(alloc, "theory chain\n")?;
    for j in 1..=length {
        put_function(&mut text, j)?;
    }
    Ok(text)
}

fn spec_text(alloc: Global, length: u32) -> Result<String, Fail> {
    let mut text = String::from_str(
        alloc,
        "spec chain\nprogram c(a: nat): z: nat\nensures z = k",
    )?;
    put_number(&mut text, length)?;
    text.push_str("(a)\n")?;
    Ok(text)
}

/// `goal ?1 = s(.. kj(a)) | ?1` with so many `s`, and `a` alone in place of `k0(a)`.
fn put_goal(text: &mut String, outer: u32, j: u32) -> Result<(), Fail> {
    text.push_str("goal ?1 = ")?;
    put_times(text, "s(", outer)?;
    if j == 0 {
        text.push_str("a")?;
    } else {
        text.push_str("k")?;
        put_number(text, j)?;
        text.push_str("(a)")?;
    }
    put_times(text, ")", outer)?;
    Ok(text.push_str(" | ?1")?)
}

/// `assertion kj(?1) = s(k(j-1)(?1))`, and `s(?1)` where j is 1.
fn put_assertion(text: &mut String, j: u32) -> Result<(), Fail> {
    text.push_str("assertion k")?;
    put_number(text, j)?;
    text.push_str("(?1) = s(")?;
    if j > 1 {
        text.push_str("k")?;
        put_number(text, j.saturating_sub(1))?;
        return Ok(text.push_str("(?1))")?);
    }
    Ok(text.push_str("?1)")?)
}

/// The two lines of the i-th definition, counted from the last one.
fn put_unfolding(text: &mut String, i: u32, length: u32) -> Result<(), Fail> {
    let j = length.saturating_sub(i);
    let row = i.saturating_mul(2).saturating_add(1);
    put_row_number(text, row.saturating_add(1))?;
    text.push_str("def k")?;
    put_number(text, j)?;
    text.push_str(" 1: ")?;
    put_assertion(text, j)?;
    put_row_number(text, row.saturating_add(2))?;
    text.push_str("equal ")?;
    put_number(text, row.saturating_add(1))?;
    text.push_str(" - lr ")?;
    put_number(text, row)?;
    text.push_str(" 2")?;
    put_times(text, ".1", i)?;
    text.push_str(": ")?;
    put_goal(text, i.saturating_add(1), j.saturating_sub(1))
}

fn lines_text(alloc: Global, length: u32) -> Result<String, Fail> {
    let mut text = String::from_str(alloc, "derivation 1\n1 goal: ")?;
    put_goal(&mut text, 0, length)?;
    for i in 0..length {
        put_unfolding(&mut text, i, length)?;
    }
    put_row_number(&mut text, length.saturating_mul(2).saturating_add(2))?;
    text.push_str("reflex ")?;
    put_number(&mut text, length.saturating_mul(2).saturating_add(1))?;
    text.push_str(" -: goal true | ")?;
    put_times(&mut text, "s(", length)?;
    text.push_str("a")?;
    put_times(&mut text, ")", length)?;
    text.push_str("\n")?;
    Ok(text)
}

/// Whether the derivation of the text is accepted.
#[tactic(auto, using(crate::proofs::Growth::growth))]
fn is_accepted(alloc: Global, bank: &mut Bank, start: &Start, text: &str) -> Result<bool, Fail>
    requires { IfSome (start.now).rule (RuleBelongs bank.old) }
{
    let d = derivation_of(alloc, bank, start, text)?;
    Ok(check(alloc, bank, start, &d).is_ok())
}

fn is_accepted_over(
    alloc: Global,
    bank: &mut Bank,
    theory: &str,
    spec: &str,
    text: &str,
) -> Result<bool, Fail> {
    let start = start_from(alloc, bank, theory, spec)?;
    is_accepted(alloc, bank, &start, text)
}

/// Whether the derivation of the chain is accepted.
fn is_chain_accepted(alloc: Global, length: u32) -> Result<bool, Fail> {
    let theory = theory_text(alloc, length)?;
    let spec = spec_text(alloc, length)?;
    let text = lines_text(alloc, length)?;
    let bank = &mut Bank::new(alloc);
    is_accepted_over(alloc, bank, theory.as_str(), spec.as_str(), text.as_str())
}

#[test]
fn accepts_chains(rt: HostRuntime) -> Result<(), Fail> {
    assert!(rt; is_chain_accepted(rt.alloc(), 1)?);
    assert!(rt; is_chain_accepted(rt.alloc(), 3)?);
    assert!(rt; is_chain_accepted(rt.alloc(), 300)?);
    Ok(())
}
