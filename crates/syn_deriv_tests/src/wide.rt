// A derivation whose rows have many variables.
use crate::answers::printed;
use std::alloc::Global;
use std::process::Abort;
use std::test::Fail;
use syn_model::Theory;
use syn_start_cases::{start_of, theory_of};
use syn_term::Bank;

const WIDE: &str = "\
theory wide
sort L = nil | cons(nat, L)
fun t(nat, nat): nat
clause t(x, y) = s(x)
";

const SPEC: &str = "\
spec g
program g(a: nat): z: nat
ensures z = a
";

/// Puts the row variables from the first to the fortieth as a list, or the application of `t` to each of the next ones twice.
fn put_list(alloc: Global, out: &mut String, twice: bool) -> Result<(), Fail> {
    for i in 1..41u32 {
        if twice {
            let next = i.saturating_add(1);
            out.push_str(format!(in alloc; "cons(t(?{next}, ?{next}), ")?.as_str())?;
        } else {
            out.push_str(format!(in alloc; "cons(?{i}, ")?.as_str())?;
        }
    }
    out.push_str("nil")?;
    for _ in 1..41u32 {
        out.push(')')?;
    }
    Ok(())
}

/// A goal that two such lists are one, and what reflexivity would give where they had a unifier.
fn fan(alloc: Global) -> Result<String, Fail> {
    let mut text = String::from_str(alloc, "derivation 1\n1 goal: goal ")?;
    put_list(alloc, &mut text, false)?;
    text.push_str(" = ")?;
    put_list(alloc, &mut text, true)?;
    text.push_str(" | ?42\n2 reflex 1 -: goal true | ?1\n")?;
    Ok(text)
}

fn print_over(alloc: Global, bank: &mut Bank, theory: &Theory, text: &str) -> Result<String, Fail> {
    let start = start_of(alloc, bank, theory, SPEC)?;
    printed(alloc, bank, &start, text)
}

fn prints_fan(rt: &impl Abort, alloc: Global, theory: &Theory) -> Result<(), Fail> {
    let text = fan(alloc)?;
    let got = print_over(alloc, &mut Bank::new(alloc), theory, text.as_str())?;
    assert!(rt; got.as_str() == text.as_str());
    Ok(())
}

#[test]
fn prints_a_derivation_of_many_variables(rt: HostRuntime) -> Result<(), Fail> {
    let theory = theory_of(rt.alloc(), WIDE)?;
    prints_fan(&rt, rt.alloc(), &theory)
}
