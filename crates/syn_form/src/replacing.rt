// Formulas with some of their subformulas replaced by a truth value.
ghost use Rattle.std.specs.Prelude.{◌≡◌, ◌++◌, map, IfOk};
ghost use Rattle.syn_form.specs.inner.Joining.{joining, terms_of};
ghost use Rattle.syn_form.specs.Replacing.{replaced_all, truth_form};
ghost use Rattle.syn_form.specs.ReplacingLaws.{ReplacesAll};
ghost use Rattle.syn_form.specs.Same.{OfOneBank};
ghost use Rattle.syn_form.specs.Simplification as rules;
ghost use Rattle.syn_form.specs.Trees.{form_terms};

use crate::form::{implication_of, negation_of};
use crate::joins::{Junction, chained, is_same};
use crate::trees::Form;
use sqlite_items::Items;
use std::alloc::Global;
use syn_term::NoMemory;

/// `true` or `false`.
fn constant(by: bool) -> Form
    ensures { result ≡ truth_form by }
{
    if by { Form::True } else { Form::False }
}

/// The formula with each subformula that is the same as `part` replaced.
#[cycle(forms)]
fn replaced(alloc: Global, f: &Form, part: &Form, by: bool) -> Result<Form, NoMemory>
    requires { OfOneBank (form_terms f.now ++ form_terms part.now) }
    ensures { IfOk result (λ g. g ≡ replaced_all part.now by f.now) }
{
    if is_same(f, part) {
        return Ok(constant(by));
    }
    match f {
        Form::True => Ok(Form::True),
        Form::False => Ok(Form::False),
        Form::Atom(_, _) => f.again(),
        Form::Equal(_, _) => f.again(),
        Form::Not(a) => match replaced(alloc, a.get(), part, by) {
            Ok(a) => negation_of(alloc, a),
            other => other,
        },
        Form::And(all) => replaced_chain(alloc, Junction::And, all.get().as_slice(), part, by),
        Form::Or(all) => replaced_chain(alloc, Junction::Or, all.get().as_slice(), part, by),
        Form::Implies(a, b) => {
            let a = replaced(alloc, a.get(), part, by)?;
            match replaced(alloc, b.get(), part, by) {
                Ok(b) => implication_of(alloc, a, b),
                other => {
                    drop(a);
                    other
                }
            }
        }
    }
}

/// The chain of these members, with the part replaced in each.
#[cycle(forms)]
fn replaced_chain(
    alloc: Global,
    j: Junction,
    fs: &[Form],
    part: &Form,
    by: bool,
) -> Result<Form, NoMemory>
    requires { OfOneBank (terms_of fs.now ++ form_terms part.now) }
    ensures { IfOk result (λ g. g ≡ rules.chain (joining j) (map (replaced_all part.now by) fs.now)) }
{
    match replaced_members(alloc, fs, part, by) {
        Ok(members) => chained(alloc, j, members),
        Err(error) => Err(error),
    }
}

/// The same for each of the formulas.
#[cycle(forms)]
fn replaced_members(
    alloc: Global,
    fs: &[Form],
    part: &Form,
    by: bool,
) -> Result<Items<Form>, NoMemory>
    requires { OfOneBank (terms_of fs.now ++ form_terms part.now) }
    ensures { IfOk result (λ gs. gs ≡ map (replaced_all part.now by) fs.now) }
{
    let mut done = Items::new(alloc);
    for f in fs {
        done.push(replaced(alloc, f, part, by)?)?;
    }
    Ok(done)
}

/// The formula with each subformula that is the same as `part` replaced by `true` or `false`, from
/// the outside in: what stands inside a replaced part is not looked at.
///
/// Two formulas are the same where they are one tree, so the terms have to be of one bank. What is
/// replaced, and what the replacing keeps, is the record `ReplacesAll`: where `part` has the truth
/// value that takes its place, the whole keeps its own. The recursion goes as deep as the tree, and
/// the one error is `NoMemory`.
#[tactic(auto, using(crate::proofs::ReplacingAll::replaces_all_ok))]
pub fn replace_all(alloc: Global, f: &Form, part: &Form, by: bool) -> Result<Form, NoMemory>
    requires { OfOneBank (form_terms f.now ++ form_terms part.now) }
    ensures value { IfOk result (λ g. g ≡ replaced_all part.now by f.now) }
    ensures laws { IfOk result (ReplacesAll part.now by f.now) }
{
    replaced(alloc, f, part, by)
}
