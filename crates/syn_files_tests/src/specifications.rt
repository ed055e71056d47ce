// Texts of specifications, and the line that is refused.
use crate::answers::{BASE, bad_spec_line, case_text, theory_of, wanted_behind};
use std::alloc::Global;
use std::process::Abort;
use std::test::Fail;
use syn_cases::cut;
use syn_model::Theory;

/// Heads of programs.
const HEADS: &str = "\
spec x // ensures z = a => 2
spec x => 2
spec x // program f(a: nat): z: nat => 3
spec nat => 1
spec a b => 1
program f(a: nat): z: nat => 1
spec x // spec x => 2
spec x // program f(a: nat): z: nat // ensures z = a => yes
spec f // program f(a: nat): z: nat // ensures z = a => yes
spec p // program f(a: nat): z: nat // ensures z = a => yes
 // # one // spec x //  // program f ( a : nat ) : z : nat # two // \tensures z=a\r => yes
spec x // program f(a: nat, b: L, c: P, d: nat): z: L // ensures z = b => yes
spec x // program f(a: nat, b: nat, c: nat, d: nat, e: nat): z: nat => 2
spec x // program f(): z: nat => 2
spec x // program f(a: nat, a: nat): z: nat => 2
spec x // program f(f: nat): z: nat => 2
spec x // program f(a: nat): a: nat => 2
spec x // program f(a: nat): f: nat => 2
spec x // program p(a: nat): z: nat => 2
spec x // program f(p: nat): z: nat => 2
spec x // program f(refl: nat): z: nat => 2
spec x // program f(a: nat): trans: nat => 2
spec x // program f(a: nat): L: nat => 2
spec x // program f(a: M): z: nat => 2
spec x // program f(a: nat): z: M => 2
spec x // program f(a: nat): nat => 2
spec x // program f(a): z: nat => 2
spec x // program f(a: nat) z: nat => 2
spec x // program f(a: nat): z: nat // program f(a: nat): z: nat => 3";

/// Parts, behind the head `f(a: nat): z: nat`, with the line counted from the first of them.
const PARTS: &str = "\
requires le(0, a) // ensures z = a => yes
requires true // ensures z = a => yes
requires le(0, z) // ensures z = a => 1
requires all x: nat. le(x, a) // ensures z = a => 1
requires f(a) = a // ensures z = a => 1
requires a // ensures z = a => 1
requires le(0, a) // requires le(0, a) // ensures z = a => 2
requires le(0, a) => 2
ensures z = a // requires le(0, a) => 2
ensures z = a // ensures z = a => 2
ensures all x: nat. le(x, z) -> le(x, a) => yes
ensures f(a) = z => 1
ensures z = nil => 1
ensures z = b => 1
ensures ?1 = a => 1
ensures all a: nat. z = a => 1
ensures all z: nat. z = a => 1
ensures all f: nat. z = f => 1
ensures all p: nat. z = p => 1
ensures all refl: nat. z = refl => 1
ensures all trans: nat. z = trans => 1
order below // ensures z = a => 1
ensures z = a // order below => yes
ensures z = a // order le => 2
ensures z = a // order nothing => 2
ensures z = a // order below below => 2
ensures z = a // order below // order below => 3
ensures z = a // primitive p, le, below => yes
ensures z = a // primitive le => yes
ensures z = a // primitive nothing => 2
ensures z = a // primitive nil => 2
ensures z = a // primitive s => 2
ensures z = a // primitive refl => 2
ensures z = a // primitive f => 2
ensures z = a // primitive p, p => 2
ensures z = a // primitive p le => 2
ensures z = a // primitive p, => 2
ensures z = a // primitive => 2
ensures z = a // use refl, p, le => yes
ensures z = a // use nothing => 2
ensures z = a // use below => 2
ensures z = a // use trans => 2
ensures z = a // use cons => 2
ensures z = a // use refl, refl => 2
ensures z = a // use => 2
ensures z = a // use p // primitive p => 3
ensures z = a // primitive p // order below => 3
ensures z = a // order below // primitive p // use refl => yes
ensures z = a // nothing p => 2";

/// The line of the case behind this text that is refused, 0 where none is.
fn bad_line(alloc: Global, theory: &Theory, before: &str, case: &str) -> Result<u64, Fail> {
    let text = case_text(alloc, before, case)?;
    bad_spec_line(alloc, theory, text.as_bytes())
}

/// Each case of the table, behind this text.
fn walk(
    rt: &impl Abort,
    alloc: Global,
    theory: &Theory,
    before: &str,
    table: &str,
) -> Result<(), Fail> {
    for line in table.split('\n') {
        let (case, want) = cut(line, " => ");
        let got = bad_line(alloc, theory, before, case)?;
        assert!(rt; got == wanted_behind(want, before), "at {case}");
    }
    Ok(())
}

#[test]
fn reads_heads(rt: HostRuntime) -> Result<(), Fail> {
    let theory = theory_of(rt.alloc(), BASE)?;
    walk(&rt, rt.alloc(), &theory, "", HEADS)
}

#[test]
fn reads_parts(rt: HostRuntime) -> Result<(), Fail> {
    let theory = theory_of(rt.alloc(), BASE)?;
    walk(
        &rt,
        rt.alloc(),
        &theory,
        "spec x\nprogram f(a: nat): z: nat\n",
        PARTS,
    )
}

/// Two inputs have no order on one number, nor has one list.
const ORDERED: &str = "\
program f(a: nat, b: nat): z: nat // ensures z = a // order below => 3
program f(a: L): z: nat // ensures z = 0 // order below => 3";

#[test]
fn refuses_orders_of_other_sorts(rt: HostRuntime) -> Result<(), Fail> {
    let theory = theory_of(rt.alloc(), BASE)?;
    walk(&rt, rt.alloc(), &theory, "spec x\n", ORDERED)
}
