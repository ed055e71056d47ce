// The printer of programs. A term is printed by one walk down the tree: where its text is a number
// the number is printed, and elsewhere the symbol's name with the arguments' texts. Each piece is
// put after what stands already, so that the whole is the printed text of the definition.
ghost use Rattle.std.specs.Prelude.{◌≡◌, ◌++◌, ◌==◌, [], codes, decimal, if◌then◌else◌, string_bytes, IfOk, OnOk};
ghost use Rattle.std.specs.Option.{option_map};
ghost use Rattle.syn_term.specs.Symbols.{symbol_at};
ghost use Rattle.syn_app.specs.ProgramText.{printed_program, printed_term};
ghost use Rattle.syn_app.specs.inner.Printing.{name_of};
ghost use Rattle.syn_app.specs.Trees.{TheoryTree};
ghost use Rattle.syn_app.specs.inner.Printing.{nat_program, nat_program_symbols, next_number, printing_of};

use crate::terms::GREATEST_NUMBER;
use itoa::Buffer;
use std::alloc::Global;
use syn_term::{Kind, NoMemory, Node, SymId, Symbols, Term};

/// The text of the program with this name and one input, a number, whose result is the number that
/// the body gives. It asks for the table of the program's symbols. The one error is want of memory.
pub(crate) fn print_program(
    alloc: Global,
    syms: &Symbols,
    name: &str,
    input: &str,
    body: &Term,
) -> Result<String, NoMemory>
    requires { syms.now ≡ nat_program_symbols name.now input.now }
    ensures { IfOk result (λ text. (theory : TheoryTree) → string_bytes text ≡ printed_program theory (nat_program name.now input.now body.now)) }
{
    let mut out = String::new(alloc);
    put(&mut out, "program ")?;
    put(&mut out, name)?;
    put(&mut out, "(")?;
    put(&mut out, input)?;
    put(&mut out, ": nat): nat\n  ")?;
    print_term(&mut out, syms, body)?;
    put(&mut out, "\n")?;
    Ok(out)
}

/// Puts the text of the term after what stands already. The one error is want of memory.
fn print_term(out: &mut String, syms: &Symbols, t: &Term) -> Result<(), NoMemory>
    ensures { OnOk result (string_bytes out.new ≡ string_bytes out.old ++ printed_term syms.now t.now) }
{
    if let Some(number) = number_of(syms, t) {
        return put_number(out, number);
    }
    match t.get() {
        Node::Var(_, v) => {
            put(out, "?")?;
            put_number(out, v.number)
        }
        Node::App(_, f, args) => {
            put(out, name_of(syms, *f))?;
            let args = args.as_slice();
            if args.is_empty() {
                return Ok(());
            }
            put(out, "(")?;
            for i in 0..args.len() {
                put(out, separator(i))?;
                print_term(out, syms, &args[i])?;
            }
            put(out, ")")
        }
    }
}

/// The number that the term's text is, None where it is none.
fn number_of(syms: &Symbols, t: &Term) -> Option<u32>
    ensures { result ≡ (printing_of syms.now t.now).number }
{
    match t.get() {
        Node::Var(_, _) => None,
        Node::App(_, f, args) => match (symbol_kind(syms, *f), args.as_slice()) {
            (Some(Kind::Zero), []) => Some(0),
            (Some(Kind::Succ), [arg]) => next_number(number_of(syms, arg)),
            _ => None,
        },
    }
}

/// The number after this one, None where there is none or it is above 1,000.
fn next_number(number: Option<u32>) -> Option<u32>
    ensures { result ≡ next_number number }
{
    match number {
        Some(n) if n < GREATEST_NUMBER => Some(n + 1),
        _ => None,
    }
}

/// What the symbol is, None where it is not in the table.
fn symbol_kind(syms: &Symbols, f: SymId) -> Option<Kind>
    ensures { result ≡ option_map (λ s. s.kind) (symbol_at syms.now f) }
{
    match syms.get(f) {
        None => None,
        Some(sym) => Some(sym.kind),
    }
}

/// The symbol's name, the empty text where it is not in the table.
fn name_of(syms: &Symbols, f: SymId) -> &str
    ensures { result.now ≡ name_of (symbol_at syms.now f) }
{
    match syms.get(f) {
        None => "",
        Some(sym) => sym.name.as_str(),
    }
}

/// What stands before the argument with this index.
fn separator(i: usize) -> &'static str
    ensures { result.now ≡ (if i == 0 then [] else codes ", ") }
{
    if i == 0 { "" } else { ", " }
}

/// Puts the text after what stands already.
fn put(out: &mut String, text: &str) -> Result<(), NoMemory>
    ensures { OnOk result (string_bytes out.new ≡ string_bytes out.old ++ text.now) }
{
    out.push_str(text)?;
    Ok(())
}

/// Puts the number, in decimal, after what stands already.
fn put_number(out: &mut String, number: u32) -> Result<(), NoMemory>
    ensures { OnOk result (string_bytes out.new ≡ string_bytes out.old ++ decimal number) }
{
    let mut buffer = Buffer::new();
    put(out, buffer.format(number))
}
