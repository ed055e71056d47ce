// Specifications over a theory of numbers, each a sequence of parts, a line of a table each.
ghost use Rattle.std.specs.Prelude.{IfOk};
ghost use Rattle.syn_model.specs.Specifications.{IsSpec};

use crate::theories::{failed, numbers};
use sqlite_items::Items;
use std::alloc::Global;
use std::process::Abort;
use std::test::Fail;
use syn_cases::cut;
use syn_expr::{Scope, read_form, read_qform};
use syn_form::{Binder, QForm};
use syn_model::{DeclError, Spec, SpecPart, Theory};
use syn_term::{Bank, NoMemory, Shared, Sort, Text, Var};

const NAT: Sort = Sort::Nat;

/// Heads: the names of the specification and of the program, the inputs and the output.
const HEADS: &str = "\
double f a z => yes
double f a;b;c;d z => yes
dbl f a z => yes
f f a z => yes
double f - z => no
double f a;b;c;d;e z => no
double f f z => no
double f z z => no
double f a;a z => no
double f dbl z => no
double f refl z => no
double f trans z => no
double f nat z => no
double dbl a z => no
double refl a z => no
double f a f => no
double f a le => no
double f a gap => no
nat f a z => no";

/// Parts in order, and out of it.
const IN_ORDER: &str = "\
order below => no
primitive dbl => no
use dbl => no
requires le(a, a) => yes
requires true => no
ensures z = dbl(a) => yes
ensures true => no
requires true => no
order below => yes
order below => no
primitive dbl;le;below => yes
use refl;dbl;le => yes
primitive dbl => no
use dbl => no";

/// Conditions.
const CONDITIONS: &str = "\
requires z = a => no
requires f(a) = 0 => no
ensures z = f(a) => no
other z => no
binds z => no
binds a => no
binds f => no
binds dbl => no
binds gap => no
binds trans => no
miscounts q => no
binds q => yes";

/// Names in lines behind the output condition.
const NAMES: &str = "\
ensures all q: nat. (le(q, a) -> le(q, z)) => yes
order le => no
order dbl => no
order none => no
primitive => no
primitive s => no
primitive refl => no
primitive trans => no
primitive none => no
primitive dbl;dbl => no
primitive dbl;refl => no
use => no
use below => no
use trans => no
use s => no
use refl;refl => no
use dbl;le;dbl => no
use gap => yes";

/// The same with two inputs: an order on one argument is none on these.
const TWO: &str = "\
ensures z = b => yes
order below => no
use dbl => yes";

fn inputs(alloc: Global, names: &str) -> Result<Items<(String, Sort)>, NoMemory> {
    let mut inputs = Items::new(alloc);
    if names == "-" {
        return Ok(inputs);
    }
    for name in names.split(';') {
        inputs.push((String::from_str(alloc, name)?, NAT))?;
    }
    Ok(inputs)
}

fn names(alloc: Global, text: &str) -> Result<Items<Text>, NoMemory> {
    let mut names = Items::new(alloc);
    if text.is_empty() {
        return Ok(names);
    }
    for name in text.split(';') {
        names.push(Text::from_str(alloc, name)?)?;
    }
    Ok(names)
}

/// Whether a specification begins with these names.
fn begins(alloc: Global, theory: &Theory, line: &str) -> Result<bool, Fail> {
    let (name, rest) = cut(line, " ");
    let (program, rest) = cut(rest, " ");
    let (params, output) = cut(rest, " ");
    let params = inputs(alloc, params)?;
    match Spec::begin(
        alloc,
        theory,
        name,
        program,
        params.as_slice(),
        (output, NAT),
    ) {
        Ok(_) => Ok(true),
        Err(DeclError::Refused) => Ok(false),
        Err(DeclError::NoMemory) => Err(Fail::new("no memory")),
    }
}

/// The specification of `f` with these inputs and the output `z`.
fn start(alloc: Global, theory: &Theory, params: &str) -> Result<Spec, Fail>
    ensures { IfOk result (IsSpec (theory.now).decls) }
{
    let params = inputs(alloc, params)?;
    match Spec::begin(alloc, theory, "double", "f", params.as_slice(), ("z", NAT)) {
        Ok(spec) => Ok(spec),
        Err(_) => Err(Fail::new("no specification")),
    }
}

/// `requires`, with a formula that may have the output.
fn requires_form(alloc: Global, spec: &Spec, text: &str) -> Result<SpecPart, Fail> {
    let z = Var {
        number: 0,
        sort: NAT,
    };
    let names = [(String::from_str(alloc, "z")?, z)];
    let scope = Scope {
        syms: spec.symbols(),
        names: &names,
        rows: false,
    };
    match read_form(alloc, &mut Bank::new(alloc), &scope, text) {
        Ok(f) => Ok(SpecPart::Requires(f)),
        Err(error) => Err(failed(error)),
    }
}

fn ensures_form(alloc: Global, spec: &Spec, text: &str) -> Result<SpecPart, Fail> {
    let z = Var {
        number: 0,
        sort: NAT,
    };
    let names = [(String::from_str(alloc, "z")?, z)];
    let scope = Scope {
        syms: spec.symbols(),
        names: &names,
        rows: false,
    };
    match read_qform(alloc, &mut Bank::new(alloc), &scope, text) {
        Ok(f) => Ok(SpecPart::Ensures(f)),
        Err(error) => Err(failed(error)),
    }
}

/// `ensures all NAME: nat. true`, where the variable has this number.
fn binding(alloc: Global, name: &str, number: u32) -> Result<SpecPart, NoMemory> {
    let var = Var { number, sort: NAT };
    let binder = Binder {
        var,
        name: Text::from_str(alloc, name)?,
    };
    let body = Shared::new(alloc, QForm::True)?;
    Ok(SpecPart::Ensures(QForm::All(binder, body)))
}

/// `ensures x = x`, where x is another variable than the output.
fn other(alloc: Global) -> Result<SpecPart, NoMemory> {
    let mut bank = Bank::new(alloc);
    let var = Var {
        number: 1,
        sort: NAT,
    };
    let x = bank.var(alloc, var)?;
    let y = x.again()?;
    Ok(SpecPart::Ensures(QForm::Equal(x, y)))
}

/// A part by the words of a line.
fn part(alloc: Global, spec: &Spec, kind: &str, text: &str) -> Result<SpecPart, Fail> {
    match kind {
        "requires" => requires_form(alloc, spec, text),
        "ensures" => ensures_form(alloc, spec, text),
        "binds" => Ok(binding(alloc, text, 1)?),
        "miscounts" => Ok(binding(alloc, text, 2)?),
        "other" => Ok(other(alloc)?),
        "order" => Ok(SpecPart::Order(Text::from_str(alloc, text)?)),
        "primitive" => Ok(SpecPart::Primitive(names(alloc, text)?)),
        "use" => Ok(SpecPart::Taken(names(alloc, text)?)),
        _ => Err(Fail::new("no kind")),
    }
}

/// Whether the specification took the part.
fn takes(alloc: Global, theory: &Theory, spec: &mut Spec, line: &str) -> Result<bool, Fail>
    requires { IsSpec (theory.now).decls spec.old }
    ensures { IsSpec (theory.now).decls spec.new }
{
    let (kind, text) = cut(line, " ");
    let part = part(alloc, spec, kind, text)?;
    match spec.extend(theory, part) {
        Ok(()) => Ok(true),
        Err(DeclError::Refused) => Ok(false),
        Err(DeclError::NoMemory) => Err(Fail::new("no memory")),
    }
}

/// Extends a specification by the lines of a table in order. Each answer is the one behind the arrow.
fn extend_all(
    rt: &impl Abort,
    alloc: Global,
    theory: &Theory,
    spec: &mut Spec,
    table: &str,
) -> Result<(), Fail>
    requires { IsSpec (theory.now).decls spec.old }
{
    for line in table.lines() {
        let (words, want) = cut(line, " => ");
        let got = takes(alloc, theory, spec, words)?;
        assert!(rt; got == (want == "yes"), "at {line}");
    }
    assert!(rt; spec.is_whole());
    Ok(())
}

/// The same for a specification with these inputs.
fn extends(
    rt: &impl Abort,
    alloc: Global,
    theory: &Theory,
    params: &str,
    table: &str,
) -> Result<(), Fail> {
    let mut spec = start(alloc, theory, params)?;
    extend_all(rt, alloc, theory, &mut spec, table)
}

fn begin_with_heads(rt: &impl Abort, alloc: Global, theory: &Theory) -> Result<(), Fail> {
    for line in HEADS.lines() {
        let (words, want) = cut(line, " => ");
        let got = begins(alloc, theory, words)?;
        assert!(rt; got == (want == "yes"), "at {line}");
    }
    Ok(())
}

#[test]
fn begins_with_heads(rt: HostRuntime) -> Result<(), Fail> {
    let theory = numbers(&rt, rt.alloc())?;
    begin_with_heads(&rt, rt.alloc(), &theory)
}

fn extend_by_parts(rt: &impl Abort, alloc: Global, theory: &Theory) -> Result<(), Fail> {
    extends(rt, alloc, theory, "a", IN_ORDER)?;
    extends(rt, alloc, theory, "a", CONDITIONS)?;
    extends(rt, alloc, theory, "a", NAMES)?;
    extends(rt, alloc, theory, "a;b", TWO)
}

#[test]
fn extends_by_parts(rt: HostRuntime) -> Result<(), Fail> {
    let theory = numbers(&rt, rt.alloc())?;
    extend_by_parts(&rt, rt.alloc(), &theory)
}
