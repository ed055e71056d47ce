// The calls of a symbol that stand in terms and formulas.
ghost use Rattle.std.specs.Prelude.{◌≡◌, ◌++◌, OnOk};
ghost use Rattle.std.specs.List.{flat_map};
ghost use Rattle.syn_row.specs.Calls.{calls_standing, calls_standing_form};
ghost use Rattle.syn_row.specs.inner.Guarding.{if_called};

use sqlite_items::Items;
use syn_form::Form;
use syn_term::{NoMemory, Node, SymId, Term};

/// Appends the term, with the symbol g at its top, where that is the symbol f.
fn put_if_called(f: SymId, g: SymId, t: &Term, calls: &mut Items<Term>) -> Result<(), NoMemory>
    ensures { OnOk result (calls.new ≡ calls.old ++ if_called f g t.now) }
{
    if f != g {
        return Ok(());
    }
    Ok(calls.push(t.again()?)?)
}

/// Appends the applications of the symbol that stand in the term, from the left, the outer before the inner: the
/// terms themselves, as they stand there. The one error is `NoMemory`.
#[cycle(calls)]
pub fn put_calls(f: SymId, t: &Term, calls: &mut Items<Term>) -> Result<(), NoMemory>
    ensures { OnOk result (calls.new ≡ calls.old ++ calls_standing f t.now) }
{
    match t.get() {
        Node::Var(_, _) => Ok(()),
        Node::App(_, g, args) => {
            put_if_called(f, *g, t, calls)?;
            put_all_calls(f, args.as_slice(), calls)
        }
    }
}

/// The same for each of the terms.
#[cycle(calls)]
fn put_all_calls(f: SymId, terms: &[Term], calls: &mut Items<Term>) -> Result<(), NoMemory>
    ensures { OnOk result (calls.new ≡ calls.old ++ flat_map (calls_standing f) terms.now) }
{
    for t in terms {
        put_calls(f, t, calls)?;
    }
    Ok(())
}

/// The same for two terms.
fn put_two_calls(f: SymId, s: &Term, t: &Term, calls: &mut Items<Term>) -> Result<(), NoMemory>
    ensures { OnOk result (calls.new ≡ calls.old ++ (calls_standing f s.now ++ calls_standing f t.now)) }
{
    put_calls(f, s, calls)?;
    put_calls(f, t, calls)
}

/// Appends the applications of the symbol that stand in the terms of the formula, in the same order. The one error is
/// `NoMemory`.
#[cycle(forms)]
pub fn put_form_calls(f: SymId, g: &Form, calls: &mut Items<Term>) -> Result<(), NoMemory>
    ensures { OnOk result (calls.new ≡ calls.old ++ calls_standing_form f g.now) }
{
    match g {
        Form::True | Form::False => Ok(()),
        Form::Atom(_, args) => put_all_calls(f, args.get().as_slice(), calls),
        Form::Equal(s, t) => put_two_calls(f, s, t, calls),
        Form::Not(a) => put_form_calls(f, a.get(), calls),
        Form::And(all) | Form::Or(all) => put_forms_calls(f, all.get().as_slice(), calls),
        Form::Implies(a, b) => {
            put_form_calls(f, a.get(), calls)?;
            put_form_calls(f, b.get(), calls)
        }
    }
}

/// The same for each of the formulas.
#[cycle(forms)]
fn put_forms_calls(f: SymId, all: &[Form], calls: &mut Items<Term>) -> Result<(), NoMemory>
    ensures { OnOk result (calls.new ≡ calls.old ++ flat_map (calls_standing_form f) all.now) }
{
    for g in all {
        put_form_calls(f, g, calls)?;
    }
    Ok(())
}
