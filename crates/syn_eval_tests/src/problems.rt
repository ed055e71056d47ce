// The theory of the tables, and what their texts stand for.
ghost use Rattle.std.specs.Prelude.{◌^◌, IfOk, OnOk};
ghost use Rattle.syn_value.specs.Values.{FitsTurns};
ghost use Rattle.syn_eval.specs.Ending.{AllFit};

use sqlite_items::Items;
use std::alloc::Global;
use std::test::Fail;
use syn_cases::cut;
use syn_expr::{Scope, read_body, read_form};
use syn_files::{read_spec, read_theory};
use syn_form::{Form, Out};
use syn_model::{Program, ProgramHead, Spec, Theory};
use syn_term::{Bank, Sort, SymId, Symbols};
use syn_value::{Value, read_value};

/// A theory with functions on numbers, lists and pairs, relations and orders.
const THEORY: &str = "\
theory sample
sort L = nil | cons(nat, L)
sort P = pair(nat, L)
fun p(nat): nat
clause p(0) = 0
clause p(s(x)) = x
fun dbl(nat): nat
clause dbl(0) = 0
clause dbl(s(x)) = s(s(dbl(x)))
rel le(nat, nat)
clause le(x, 0) <-> x = 0
clause le(x, s(y)) <-> x = s(y) or le(x, y)
rel lt(nat, nat)
clause lt(x, y) <-> le(s(x), y)
order below(x: nat) by x
fun head(L): nat
clause head(nil) = 0
clause head(cons(x, y)) = x
fun tail(L): L
clause tail(nil) = nil
clause tail(cons(x, y)) = y
fun app(L, L): L
clause app(nil, w) = w
clause app(cons(x, y), w) = cons(x, app(y, w))
fun len(L): nat
clause len(nil) = 0
clause len(cons(x, y)) = s(len(y))
order shorter(x: L, w: L) by len(x)
fun swap(P, nat): P
clause swap(pair(x, y), z) = pair(z, cons(x, y))
fun least(nat, nat): nat
clause least(x, y) = if le(x, y) then x else y
";

pub(crate) fn theory_of(alloc: Global) -> Result<Theory, Fail> {
    match read_theory(alloc, &mut Bank::new(alloc), THEORY.as_bytes()) {
        Ok(theory) => Ok(theory),
        Err(_) => Err(Fail::new("no theory")),
    }
}

/// The specification of a program with this head.
pub(crate) fn spec_of(alloc: Global, theory: &Theory, head: &str) -> Result<Spec, Fail> {
    let text = format!(in alloc; "spec x\nprogram {head}\nensures true\n")?;
    match read_spec(alloc, &mut Bank::new(alloc), theory, text.as_bytes()) {
        Ok(spec) => Ok(spec),
        Err(_) => Err(Fail::new("no specification")),
    }
}

/// The name of the symbol and the sort of its values.
fn input_of(alloc: Global, syms: &Symbols, id: SymId) -> Result<(String, Sort), Fail> {
    match syms.get(id) {
        None => Err(Fail::new("no symbol")),
        Some(sym) => match sym.result {
            None => Err(Fail::new("no sort")),
            Some(sort) => Ok((String::from_str(alloc, sym.name.as_str())?, sort)),
        },
    }
}

/// The names of the inputs with their sorts.
fn inputs_of(alloc: Global, spec: &Spec) -> Result<Vec<(String, Sort)>, Fail> {
    let mut inputs = Vec::new(alloc);
    for id in spec.inputs() {
        inputs.push(input_of(alloc, spec.symbols(), *id)?)?;
    }
    Ok(inputs)
}

/// The head with these inputs.
fn head_with(
    alloc: Global,
    theory: &Theory,
    spec: &Spec,
    inputs: &[(String, Sort)],
) -> Result<ProgramHead, Fail> {
    let (name, result) = input_of(alloc, spec.symbols(), spec.program())?;
    match ProgramHead::new(alloc, theory, name.as_str(), inputs, result) {
        Ok(head) => Ok(head),
        Err(_) => Err(Fail::new("no head")),
    }
}

/// The head of the specification's program, as the head of a program.
fn head_of(alloc: Global, theory: &Theory, spec: &Spec) -> Result<ProgramHead, Fail> {
    let inputs = inputs_of(alloc, spec)?;
    head_with(alloc, theory, spec, inputs.as_slice())
}

fn made(head: ProgramHead, body: Out) -> Result<Program, Fail> {
    match Program::new(head, body) {
        Ok(program) => Ok(program),
        Err(_) => Err(Fail::new("no program")),
    }
}

/// The program with the specification's head and this body.
pub(crate) fn program_of(
    alloc: Global,
    theory: &Theory,
    spec: &Spec,
    text: &str,
) -> Result<Program, Fail> {
    let head = head_of(alloc, theory, spec)?;
    match body_of(alloc, head.symbols(), text) {
        Ok(body) => made(head, body),
        Err(fail) => {
            drop(head);
            Err(fail)
        }
    }
}

fn body_of(alloc: Global, syms: &Symbols, text: &str) -> Result<Out, Fail> {
    let scope = Scope {
        syms,
        names: &[],
        rows: false,
    };
    match read_body(alloc, &mut Bank::new(alloc), &scope, text) {
        Ok(body) => Ok(body),
        Err(_) => Err(Fail::new("no body")),
    }
}

pub(crate) fn form_of(alloc: Global, syms: &Symbols, text: &str) -> Result<Form, Fail> {
    let scope = Scope {
        syms,
        names: &[],
        rows: false,
    };
    match read_form(alloc, &mut Bank::new(alloc), &scope, text) {
        Ok(form) => Ok(form),
        Err(_) => Err(Fail::new("no formula")),
    }
}

fn value_of(alloc: Global, syms: &Symbols, sort: Sort, text: &str) -> Result<Value, Fail>
    ensures { IfOk result (λ v. FitsTurns v (2 ^ 32)) }
{
    match read_value(alloc, syms, sort, text) {
        Ok(value) => Ok(value),
        Err(_) => Err(Fail::new("no value")),
    }
}

/// Puts down the value that the word is.
fn push_value(
    alloc: Global,
    syms: &Symbols,
    sort: Sort,
    word: &str,
    values: &mut Items<Value>,
) -> Result<(), Fail>
    requires { AllFit (2 ^ 32) values.old }
    ensures { OnOk result (AllFit (2 ^ 32) values.new) }
{
    let value = value_of(alloc, syms, sort, word)?;
    match values.push(value) {
        Ok(()) => Ok(()),
        Err(_) => Err(Fail::new("no memory")),
    }
}

/// The values of the program's inputs, one for each word.
pub(crate) fn args_of(alloc: Global, spec: &Spec, words: &str) -> Result<Items<Value>, Fail>
    ensures { IfOk result (AllFit (2 ^ 32)) }
{
    let mut values = Items::new(alloc);
    let mut rest = words;
    for id in spec.inputs() {
        let (word, others) = cut(rest, " ");
        rest = others;
        if let Some(sym) = spec.symbols().get(*id) {
            if let Some(sort) = sym.result {
                push_value(alloc, spec.symbols(), sort, word, &mut values)?;
            }
        }
    }
    Ok(values)
}
