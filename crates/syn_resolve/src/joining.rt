// The row that comes of two instances, with a part of the first replaced.
ghost use Rattle.std.specs.Prelude.{◌≡◌, ◌∷◌, ◌++◌, [], All, IfOk, IfSome, OnOk};
ghost use Rattle.syn_term.specs.Bank.{Belongs, Extends};
ghost use Rattle.syn_form.specs.Replacing.{replaced_all};
ghost use Rattle.syn_form.specs.Same.{OfOneBank};
ghost use Rattle.syn_form.specs.Trees.{form_terms};
ghost use Rattle.syn_row.specs.Results as results;
ghost use Rattle.syn_row.specs.Rows.{IsPlain, IsSimplified, IsWithinRow, row_terms};
ghost use Rattle.syn_resolve.specs.inner.Reflexing.{FigureGives};
ghost use Rattle.syn_resolve.specs.inner.Resolving.{figure_of, figure_of_both, row_joined, row_of_both};

use sqlite_items::Items;
use std::alloc::Global;
use syn_form::{Form, Out, replace_all};
use syn_row::{Row, Weighed, chosen, given, joined, joined_side};
use syn_term::{Bank, NoMemory, Symbols};

/// The formula of the row: the part replaced by `true` or by `false` in the first, this formula in place of the second's, and
/// the guards.
fn joined_formula(
    alloc: Global,
    p: &Form,
    by: bool,
    a: &Row,
    b: &Row,
    g: Form,
    guards: &[Form],
) -> Result<Form, NoMemory>
    requires { OfOneBank (form_terms (a.now).form ++ form_terms p.now) }
    ensures { IfOk result (λ f. f ≡ results.joined_form (a.now).side (replaced_all p.now by (a.now).form) (b.now).side g guards.now) }
{
    match replace_all(alloc, &a.form, p, by) {
        Ok(f) => joined(alloc, a.side, f, b.side, g, guards),
        Err(error) => {
            drop(g);
            Err(error)
        }
    }
}

/// The output once more.
fn output_again(out: &Option<Out>) -> Result<Option<Out>, NoMemory>
    ensures { IfOk result (λ o. o ≡ out.now) }
{
    match out {
        None => Ok(None),
        Some(out) => match out.again() {
            Ok(out) => Ok(Some(out)),
            Err(error) => Err(error),
        },
    }
}

/// The output of the row: `if` the part `then` the one `else` the other, or the one that is there.
fn chosen_output(
    alloc: Global,
    p: &Form,
    u: &Option<Out>,
    v: &Option<Out>,
) -> Result<Option<Out>, NoMemory>
    ensures { IfOk result (λ o. o ≡ results.chosen_out p.now u.now v.now) }
{
    let first = output_again(u)?;
    match output_again(v) {
        Ok(second) => chosen(alloc, p, first, second),
        Err(error) => {
            drop(first);
            Err(error)
        }
    }
}

/// The row.
fn joined_row(
    alloc: Global,
    p: &Form,
    by: bool,
    a: &Row,
    b: &Row,
    g: Form,
    guards: &[Form],
    u: &Option<Out>,
    v: &Option<Out>,
) -> Result<Row, NoMemory>
    requires { OfOneBank (form_terms (a.now).form ++ form_terms p.now) }
    ensures { IfOk result (λ r. r ≡ row_joined p.now by a.now b.now g guards.now u.now v.now) }
{
    let form = joined_formula(alloc, p, by, a, b, g, guards)?;
    match chosen_output(alloc, p, u, v) {
        Ok(out) => Ok(Row {
            side: joined_side(a.side, b.side),
            form,
            out,
        }),
        Err(error) => {
            drop(form);
            Err(error)
        }
    }
}

/// Appends both formulas.
fn put_forms(a: &Row, b: &Row, forms: &mut Items<Form>) -> Result<(), NoMemory>
    ensures { OnOk result (forms.new ≡ forms.old ++ ((a.now).form ∷ (b.now).form ∷ [])) }
{
    forms.push(a.form.again()?)?;
    Ok(forms.push(b.form.again()?)?)
}

/// Both formulas.
fn both_forms(alloc: Global, a: &Row, b: &Row) -> Result<Items<Form>, NoMemory>
    ensures { IfOk result (λ fs. fs ≡ (a.now).form ∷ (b.now).form ∷ []) }
{
    let mut forms = Items::new(alloc);
    put_forms(a, b, &mut forms)?;
    Ok(forms)
}

/// Appends the output, where there is one.
fn put_output(out: &Option<Out>, outs: &mut Items<Out>) -> Result<(), NoMemory>
    ensures { OnOk result (outs.new ≡ outs.old ++ results.out_list out.now) }
{
    match out {
        None => Ok(()),
        Some(out) => Ok(outs.push(out.again()?)?),
    }
}

/// The outputs of both, as far as they are there.
pub(crate) fn both_outputs(alloc: Global, a: &Row, b: &Row) -> Result<Items<Out>, NoMemory>
    ensures { IfOk result (λ os. os ≡ results.out_list (a.now).out ++ results.out_list (b.now).out) }
{
    let mut outs = Items::new(alloc);
    put_output(&a.out, &mut outs)?;
    put_output(&b.out, &mut outs)?;
    Ok(outs)
}

/// The row that is given of this row, made of the two.
#[tactic(auto, using(crate::proofs::Growth::growth))]
fn given_under(
    alloc: Global,
    bank: &mut Bank,
    syms: &Symbols,
    a: &Row,
    b: &Row,
    guards: &[Form],
    under: &Row,
) -> Result<Option<Row>, NoMemory>
    requires plain { IsPlain syms.now under.now }
    requires own { All (Belongs bank.old) (row_terms under.now) }
    ensures row { IfOk result (FigureGives (figure_of a.now b.now guards.now under.now)) }
    ensures extends { Extends bank.old bank.new }
    ensures belongs { IfOk result (λ o. IfSome o (λ q. All (Belongs bank.new) (row_terms q))) }
    ensures plain { IfOk result (λ o. IfSome o (IsPlain syms.now)) }
    ensures simplified { IfOk result (λ o. IfSome o IsSimplified) }
    ensures within { IfOk result (λ o. IfSome o IsWithinRow) }
{
    let forms = both_forms(alloc, a, b)?;
    match both_outputs(alloc, a, b) {
        Ok(outs) => {
            let step = Weighed {
                forms: forms.as_slice(),
                outs: outs.as_slice(),
                guards,
            };
            let made = given(alloc, bank, syms, step, under);
            drop(outs);
            drop(forms);
            made
        }
        Err(error) => {
            drop(forms);
            Err(error)
        }
    }
}

/// The row that is given of the two and the guards, where the part is replaced in the first, this formula stands in place of
/// the second's, and the output is chosen of these.
#[tactic(auto, using(crate::proofs::Growth::growth))]
pub(crate) fn given_with(
    alloc: Global,
    bank: &mut Bank,
    syms: &Symbols,
    p: &Form,
    by: bool,
    a: &Row,
    b: &Row,
    g: Form,
    guards: &[Form],
    u: &Option<Out>,
    v: &Option<Out>,
) -> Result<Option<Row>, NoMemory>
    requires one { OfOneBank (form_terms (a.now).form ++ form_terms p.now) }
    requires plain { IsPlain syms.now (row_joined p.now by a.now b.now g guards.now u.now v.now) }
    requires own { All (Belongs bank.old) (row_terms (row_joined p.now by a.now b.now g guards.now u.now v.now)) }
    ensures row { IfOk result (FigureGives (figure_of a.now b.now guards.now (row_joined p.now by a.now b.now g guards.now u.now v.now))) }
    ensures extends { Extends bank.old bank.new }
    ensures belongs { IfOk result (λ o. IfSome o (λ q. All (Belongs bank.new) (row_terms q))) }
    ensures plain { IfOk result (λ o. IfSome o (IsPlain syms.now)) }
    ensures simplified { IfOk result (λ o. IfSome o IsSimplified) }
    ensures within { IfOk result (λ o. IfSome o IsWithinRow) }
{
    let under = joined_row(alloc, p, by, a, b, g, guards, u, v)?;
    let made = given_under(alloc, bank, syms, a, b, guards, &under);
    drop(under);
    made
}

/// The row that is given of the two and the guards, where the part is `true` in the first and `false` in the second.
#[tactic(auto, using(crate::proofs::Growth::growth))]
pub(crate) fn given_of_both(
    alloc: Global,
    bank: &mut Bank,
    syms: &Symbols,
    p: &Form,
    a: &Row,
    b: &Row,
    guards: &[Form],
) -> Result<Option<Row>, NoMemory>
    requires first { OfOneBank (form_terms (a.now).form ++ form_terms p.now) }
    requires second { OfOneBank (form_terms (b.now).form ++ form_terms p.now) }
    requires plain { IsPlain syms.now (row_of_both p.now a.now b.now guards.now) }
    requires own { All (Belongs bank.old) (row_terms (row_of_both p.now a.now b.now guards.now)) }
    ensures row { IfOk result (FigureGives (figure_of_both p.now a.now b.now guards.now)) }
    ensures extends { Extends bank.old bank.new }
    ensures belongs { IfOk result (λ o. IfSome o (λ q. All (Belongs bank.new) (row_terms q))) }
    ensures plain { IfOk result (λ o. IfSome o (IsPlain syms.now)) }
    ensures simplified { IfOk result (λ o. IfSome o IsSimplified) }
    ensures within { IfOk result (λ o. IfSome o IsWithinRow) }
{
    let g = replace_all(alloc, &b.form, p, false)?;
    given_with(alloc, bank, syms, p, true, a, b, g, guards, &a.out, &b.out)
}
