// Texts of programs: the line that is refused, the text that is printed, and bodies at the limit.
use crate::answers::{BASE, bad_program_line, case_text, printed_program, theory_of, wanted};
use std::alloc::Global;
use std::process::Abort;
use std::test::Fail;
use syn_cases::cut;
use syn_model::Theory;

/// Texts, with the line that is refused.
const TEXTS: &str = "\
program f(a: nat): nat // a => yes
program f(a: nat): nat => 2
program f(a: nat): nat // b => 2
 program f ( a : nat ) : nat //  a => yes
# one //  // \tprogram f(a:nat):nat # two\r // # three // \ta\t# four\r //  // # five => yes
program t(a: nat): nat // if a = 0 then 0 else s(s(t(p(a)))) => yes
program f(a: nat): nat // a // a => 3
program f(a: nat): nat // a // program f(a: nat): nat => 3
program f(a: nat): nat // program f(a: nat): nat => 2
program f(a: nat, b: L, c: P, d: nat): L // b => yes
program f(a: nat, b: nat, c: nat, d: nat, e: nat): nat // a => 1
program f(): nat // 0 => 1
program f: nat // 0 => 1
program p(a: nat): nat // a => 1
program cons(a: nat): nat // a => 1
program L(a: nat): nat // a => 1
program nat(a: nat): nat // a => 1
program refl(a: nat): nat // a => 1
program trans(a: nat): nat // a => 1
program base(a: nat): nat // a => yes
program program(program1: nat): nat // program(program1) => yes
program f(p: nat): nat // p => 1
program f(L: nat): nat // 0 => 1
program f(s: nat): nat // 0 => 1
program f(refl: nat): nat // 0 => 1
program f(a: nat, a: nat): nat // a => 1
program f(a: nat, b: nat, a: nat): nat // b => 1
program f(f: nat): nat // f => 1
program f(a: nat, f: nat): nat // a => 1
program f(a: M): nat // 0 => 1
program f(a: nat): M // 0 => 1
program f(a: nat): z: nat // a => 1
program f(a: nat) nat // a => 1
program f(a): nat // a => 1
program f(a: nat): // a => 1
program f(a: nat): nat nat // a => 1
program f(a: nat, ): nat // a => 1
a => 1
spec f => 1
program f(a: nat): L // a => 2
program f(a: L): nat // a => 2
program f(a: nat): nat // le(a, a) => 2
program f(a: nat): nat // a = a => 2
program f(a: L): nat // len(a) => yes
program f(a: nat): nat // len(a) => 2
program f(a: L): L // cons(len(a), f(f(a))) => yes
program f(a: nat, b: L): P // pair(a, b) => yes
program f(a: P): P // if a = pair(0, nil) then a else f(a) => yes
program f(a: P): nat // a => 2
program f(a: nat): nat // f(a, a) => 2
program f(a: nat): nat // f => 2
program f(a: nat): nat // a(a) => 2
program f(a: nat): nat // g(a) => 2
program f(a: nat): nat // if f(a) = 0 then f(p(a)) else 1000 => yes
program f(a: nat): nat // if below(a, a) and not le(a, 3) then 0 else if a = 0 then 1 else a => yes
program f(a: nat): nat // if true then 0 else nil => 2
program f(a: nat): nat // if a then 0 else a => 2
program f(a: nat): nat // if a = nil then 0 else a => 2
program f(a: nat): nat // if refl then 0 else a => 2
program f(a: nat): nat // if all x: nat. x = a then 0 else a => 2
program f(a: nat): nat // ?1 => 2
program f(a: nat): nat // !gap.1 => 2
program f(a: nat): nat // 1001 => 2
program f(a: nat): nat // s(1000) => yes
program f(a: nat): nat // a a => 2
program f(a: nat): nat // a $ => 2
program $f(a: nat): nat // a => 1";

/// The line of the case that is refused, 0 where it is read.
fn bad_line(alloc: Global, theory: &Theory, case: &str) -> Result<u64, Fail> {
    let text = case_text(alloc, case)?;
    bad_program_line(alloc, theory, text.as_bytes())
}

fn read_programs(rt: &impl Abort, alloc: Global, theory: &Theory) -> Result<(), Fail> {
    for line in TEXTS.split('\n') {
        let (case, want) = cut(line, " => ");
        let got = bad_line(alloc, theory, case)?;
        assert!(rt; got == wanted(want), "at {case}");
    }
    Ok(())
}

#[test]
fn reads_programs(rt: HostRuntime) -> Result<(), Fail> {
    let theory = theory_of(rt.alloc(), BASE)?;
    read_programs(&rt, rt.alloc(), &theory)
}

/// Texts whose ends are wrong, each `/` a line feed, with the line that is refused.
const ENDS: &str = "\
/ => 2
 => 1
program f(a: nat): nat => 1
program f(a: nat): nat/ => 2
program f(a: nat): nat//# one/ => 4
program f(a: nat): nat/  a => 2
program f(a: nat): nat/  a/  => 3
program f(a: nat): nat/  a/// => yes";

/// The text with line feeds.
fn fed(alloc: Global, case: &str) -> Result<String, Fail> {
    let mut text = String::new(alloc);
    for c in case.chars() {
        text.push(if c == '/' { '\n' } else { c })?;
    }
    Ok(text)
}

fn bad_end(alloc: Global, theory: &Theory, case: &str) -> Result<u64, Fail> {
    let text = fed(alloc, case)?;
    bad_program_line(alloc, theory, text.as_bytes())
}

fn refuse_open_ends(rt: &impl Abort, alloc: Global, theory: &Theory) -> Result<(), Fail> {
    for line in ENDS.split('\n') {
        let (case, want) = cut(line, " => ");
        let got = bad_end(alloc, theory, case)?;
        assert!(rt; got == wanted(want), "at {case}");
    }
    Ok(())
}

#[test]
fn refuses_open_ends(rt: HostRuntime) -> Result<(), Fail> {
    let theory = theory_of(rt.alloc(), BASE)?;
    refuse_open_ends(&rt, rt.alloc(), &theory)
}

/// Texts, and what is printed for their programs.
const PRINTED: &str = "\
program f(a: nat): nat // a => program f(a: nat): nat //   a
 program f ( a : nat ) : nat //  \ta # one => program f(a: nat): nat //   a
# one // program f(a:nat,b:L):P //  // pair(a,b) => program f(a: nat, b: L): P //   pair(a, b)
program n(a: L): nat // len(a) => program n(a: L): nat //   len(a)
program t(a: nat): nat // if a=0 then 0 else s(s(t(p(a)))) => program t(a: nat): nat //   if a = 0 then 0 else s(s(t(p(a))))
program f(a: nat): nat // s(s(0)) => program f(a: nat): nat //   2
program f(a: nat): nat // s(s(1000)) => program f(a: nat): nat //   s(s(1000))
program m(a: nat, b: nat): nat // if (le(a,b)) then b else a => program m(a: nat, b: nat): nat //   if le(a, b) then b else a
program f(a: nat): nat // if a=0<->a=1 then 0 else a => program f(a: nat): nat //   if (a = 0 -> a = 1) and (a = 1 -> a = 0) then 0 else a";

/// Whether the program of the text prints as the other text.
fn prints(alloc: Global, theory: &Theory, text: &str, want: &str) -> Result<bool, Fail> {
    let printed = printed_program(alloc, theory, text)?;
    Ok(printed.as_str() == want)
}

/// Whether the case prints as the wanted one, which prints as itself.
fn print_as(alloc: Global, theory: &Theory, case: &str, want: &str) -> Result<bool, Fail> {
    let text = case_text(alloc, case)?;
    let wanted = case_text(alloc, want)?;
    Ok(
        prints(alloc, theory, text.as_str(), wanted.as_str())?
            && prints(alloc, theory, wanted.as_str(), wanted.as_str())?,
    )
}

fn print_programs(rt: &impl Abort, alloc: Global, theory: &Theory) -> Result<(), Fail> {
    for line in PRINTED.split('\n') {
        let (case, want) = cut(line, " => ");
        let right = print_as(alloc, theory, case, want)?;
        assert!(rt; right, "at {case}");
    }
    Ok(())
}

#[test]
fn prints_programs(rt: HostRuntime) -> Result<(), Fail> {
    let theory = theory_of(rt.alloc(), BASE)?;
    print_programs(&rt, rt.alloc(), &theory)
}

/// 130 choices of 2,005 nodes each, and one that ends in the text.
fn put_choices(out: &mut String, end: &str) -> Result<(), Fail> {
    out.push_str("program f(a: nat): nat\n  ")?;
    for _ in 0..130 {
        out.push_str("if a = 1000 then 1000 else ")?;
    }
    out.push_str("if a = 488 then 500 else ")?;
    out.push_str(end)?;
    out.push('\n')?;
    Ok(())
}

fn choices(alloc: Global, end: &str) -> Result<String, Fail> {
    let mut text = String::new(alloc);
    put_choices(&mut text, end)?;
    Ok(text)
}

/// The text prints as itself, and the other one is refused at its second line.
fn ends_between(
    rt: &impl Abort,
    alloc: Global,
    theory: &Theory,
    text: &str,
    more: &str,
) -> Result<(), Fail> {
    assert!(rt; prints(alloc, theory, text, text)?);
    assert!(rt; bad_program_line(alloc, theory, more.as_bytes())? == 2);
    Ok(())
}

fn limit_nodes(rt: &impl Abort, alloc: Global, theory: &Theory) -> Result<(), Fail> {
    let text = choices(alloc, "500")?;
    let more = choices(alloc, "501")?;
    ends_between(rt, alloc, theory, text.as_str(), more.as_str())
}

/// A body of 262,144 nodes is read and printed, and one with a node more is refused.
#[test]
fn reads_bodies_up_to_the_limit_on_nodes(rt: HostRuntime) -> Result<(), Fail> {
    let theory = theory_of(rt.alloc(), BASE)?;
    limit_nodes(&rt, rt.alloc(), &theory)
}

/// So many times `s` round 1,000.
fn put_successors(out: &mut String, count: usize) -> Result<(), Fail> {
    out.push_str("program f(a: nat): nat\n  ")?;
    for _ in 0..count {
        out.push_str("s(")?;
    }
    out.push_str("1000")?;
    for _ in 0..count {
        out.push(')')?;
    }
    out.push('\n')?;
    Ok(())
}

fn successors(alloc: Global, count: usize) -> Result<String, Fail> {
    let mut text = String::new(alloc);
    put_successors(&mut text, count)?;
    Ok(text)
}

fn limit_depth(rt: &impl Abort, alloc: Global, theory: &Theory) -> Result<(), Fail> {
    let text = successors(alloc, 263)?;
    let more = successors(alloc, 264)?;
    ends_between(rt, alloc, theory, text.as_str(), more.as_str())
}

/// A body of depth 1,264 is read and printed, and one of 1,265 is refused.
#[test]
fn reads_bodies_up_to_the_limit_on_depth(rt: HostRuntime) -> Result<(), Fail> {
    let theory = theory_of(rt.alloc(), BASE)?;
    limit_depth(&rt, rt.alloc(), &theory)
}
