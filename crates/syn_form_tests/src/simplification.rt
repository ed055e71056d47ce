// Simplification of formulas that are written as codes, of outputs with such tests, and of a deep and a
// large formula. Each row of a table ends with what is tested of it.
ghost use Rattle.std.specs.Prelude.{◌≡◌, [], ◌∷◌, ◌++◌, All, map, IfOk, OnOk};
ghost use Rattle.syn_form_tests.specs.Over.{IsOver, IsOverOut};
ghost use Rattle.syn_form.specs.Same.{OfOneBank};
ghost use Rattle.syn_form.specs.Trees.{all_of, form_terms, out_terms};

use crate::codes::{Pair, make_pair};
use sqlite_items::Items;
use std::alloc::Global;
use std::test::Fail;
use syn_form::{Form, Out, simplify, simplify_out};
use syn_term::{NoMemory, Shared, SymId};

/// A formula, and behind it what it becomes.
const FORMULAS: &str = "TA>A!!& A=
AA& A=
AA| A=
ABAA4 AB&=
AA!| T=
A!A| T=
AA!& F=
A!A& F=
ABA!3 F=
AT&! A!=
AF| A=
AF& F=
TA| T=
TT& T=
AF> A!=
A!F> A=
FA> T=
AT> T=
AA> T=
A!!B> AB>=
ABCA!&&& F=
ABCC!!&&& ABC3=
ABCA|&& ABCA|3=
ABAB&!3 ABAB&!3=
T!F| F=
A A=
TL>L!!& L=
E T=
D D=
DE& D=";

/// Two tests f and g of the output `if f then (if g then a else b) else a`. `?` says that it becomes `a`, and
/// `/` that it does not.
const OUTPUTS: &str = "AT? TT? AA!|T!!? FA? AA!&B? TF/ TA/ AF/";

/// Whether the formula, simplified, is the other one.
fn becomes(alloc: Global, f: &Form, want: &Form) -> Result<bool, Fail>
    requires { OfOneBank (form_terms f.now ++ form_terms want.now) }
{
    Ok(simplify(alloc, f)?.same(want))
}

/// Whether the output, simplified, is the other one.
fn out_becomes(alloc: Global, o: &Out, want: &Out) -> Result<bool, Fail>
    requires { OfOneBank (out_terms o.now ++ out_terms want.now) }
{
    Ok(simplify_out(alloc, o)?.same(want))
}

impl Pair {
    /// Whether the last formula but one becomes the last.
    fn last_becomes(&self, alloc: Global, forms: &mut Items<Form>) -> Result<bool, Fail>
        requires bank { OfOneBank (self.now.a ∷ self.now.b ∷ []) }
        requires forms { All (IsOver self.now) forms.old }
        ensures { OnOk result (All (IsOver self.now) forms.new) }
    {
        let want = self.pop(forms)?;
        match self.pop(forms) {
            Ok(f) => {
                let right = becomes(alloc, &f, &want);
                drop(f);
                drop(want);
                right
            }
            Err(error) => {
                drop(want);
                Err(error)
            }
        }
    }

    /// `if f then u else b`.
    fn inner(&self, alloc: Global, f: Form) -> Result<Shared<Out>, NoMemory>
        requires { IsOver self.now f }
        ensures { IfOk result (IsOverOut self.now) }
    {
        let f = Shared::new(alloc, f)?;
        let u = Shared::new(alloc, Out::Give(self.a.again()?))?;
        let v = Shared::new(alloc, Out::Give(self.b.again()?))?;
        Ok(Shared::new(alloc, Out::If(f, u, v))?)
    }

    /// `if f then u else a`.
    fn outer(&self, alloc: Global, f: Form, u: Shared<Out>) -> Result<Out, NoMemory>
        requires form { IsOver self.now f }
        requires arm { IsOverOut self.now u }
        ensures { IfOk result (IsOverOut self.now) }
    {
        let f = Shared::new(alloc, f)?;
        let v = Shared::new(alloc, Out::Give(self.a.again()?))?;
        Ok(Out::If(f, u, v))
    }

    /// Whether the output becomes `a`.
    fn gives_first(&self, alloc: Global, o: &Out) -> Result<bool, Fail>
        requires bank { OfOneBank (self.now.a ∷ self.now.b ∷ []) }
        requires out { IsOverOut self.now o.now }
    {
        let want = Out::Give(self.a.again()?);
        let right = out_becomes(alloc, o, &want);
        drop(want);
        right
    }

    /// The output by the last two formulas as tests.
    fn last_choice(&self, alloc: Global, forms: &mut Items<Form>) -> Result<Out, Fail>
        requires { All (IsOver self.now) forms.old }
        ensures out { IfOk result (IsOverOut self.now) }
        ensures forms { OnOk result (All (IsOver self.now) forms.new) }
    {
        let inner = self.inner(alloc, self.pop(forms)?)?;
        let f = self.pop(forms)?;
        Ok(self.outer(alloc, f, inner)?)
    }

    /// Whether the output by the last two formulas as tests becomes `a`.
    fn last_gives(&self, alloc: Global, forms: &mut Items<Form>) -> Result<bool, Fail>
        requires bank { OfOneBank (self.now.a ∷ self.now.b ∷ []) }
        requires forms { All (IsOver self.now) forms.old }
        ensures { OnOk result (All (IsOver self.now) forms.new) }
    {
        let o = self.last_choice(alloc, forms)?;
        let right = self.gives_first(alloc, &o);
        drop(o);
        right
    }

    /// What the letter says of the last formulas, or one letter more of a code; None where no more is
    /// said.
    fn test(&self, alloc: Global, forms: &mut Items<Form>, letter: u8) -> Result<Option<bool>, Fail>
        requires bank { OfOneBank (self.now.a ∷ self.now.b ∷ []) }
        requires forms { All (IsOver self.now) forms.old }
        ensures { OnOk result (All (IsOver self.now) forms.new) }
    {
        match letter {
            b'=' => Ok(Some(self.last_becomes(alloc, forms)?)),
            b'?' => Ok(Some(self.last_gives(alloc, forms)?)),
            b'/' => Ok(Some(!self.last_gives(alloc, forms)?)),
            _ => {
                self.step(alloc, forms, letter)?;
                Ok(None)
            }
        }
    }

    /// The number of the first row that is wrong, 0 where none is.
    fn first_wrong(&self, alloc: Global, forms: &mut Items<Form>, table: &str) -> Result<u32, Fail>
        requires bank { OfOneBank (self.now.a ∷ self.now.b ∷ []) }
        requires forms { All (IsOver self.now) forms.old }
    {
        let mut row: u32 = 0;
        for letter in table.as_bytes() {
            if let Some(right) = self.test(alloc, forms, *letter)? {
                row = row.saturating_add(1);
                if !right {
                    return Ok(row);
                }
            }
        }
        Ok(0)
    }
}

/// The number of the first row that is wrong, 0 where none is.
fn wrong_row(alloc: Global, table: &str) -> Result<u32, Fail> {
    let pair = make_pair(alloc)?;
    let mut forms = Items::new(alloc);
    let row = pair.first_wrong(alloc, &mut forms, table);
    drop(forms);
    drop(pair);
    row
}

#[test]
fn simplifies_formulas(rt: HostRuntime) -> Result<(), Fail> {
    assert_eq!(rt; wrong_row(rt.alloc(), FORMULAS)?, 0);
    Ok(())
}

#[test]
fn simplifies_outputs(rt: HostRuntime) -> Result<(), Fail> {
    assert_eq!(rt; wrong_row(rt.alloc(), OUTPUTS)?, 0);
    Ok(())
}

fn leaf(alloc: Global, number: u32) -> Result<Shared<Form>, NoMemory>
    ensures { IfOk result (λ f. form_terms f ≡ []) }
{
    let args = Shared::new(alloc, Items::new(alloc))?;
    Ok(Shared::new(alloc, Form::Atom(SymId(number), args))?)
}

/// `A -> (A -> .. -> B)` with so many arrows.
fn tower(alloc: Global, arrows: u32) -> Result<Shared<Form>, NoMemory>
    ensures { IfOk result (λ f. form_terms f ≡ []) }
{
    let mut f = leaf(alloc, 3)?;
    for _ in 0..arrows {
        f = Shared::new(alloc, Form::Implies(leaf(alloc, 2)?, f))?;
    }
    Ok(f)
}

/// A chain of 16 towers, of over 65,536 nodes.
fn towers(alloc: Global) -> Result<Items<Form>, NoMemory>
    ensures { IfOk result (λ all. all_of (map form_terms all) ≡ []) }
{
    let mut all = Items::new(alloc);
    for k in 0..16 {
        all.push(tower(alloc, 2100 + k)?.get().again()?)?;
    }
    Ok(all)
}

/// The size of the formula, its depth, and whether it stays as it is.
fn measured(alloc: Global, f: &Form) -> Result<(u64, u64, bool), NoMemory>
    requires { form_terms f.now ≡ [] }
{
    let simple = simplify(alloc, f)?;
    let same = simple.same(f);
    drop(simple);
    Ok((f.size(65_536), f.depth(5000), same))
}

fn measured_tower(alloc: Global) -> Result<(u64, u64, bool), NoMemory> {
    measured(alloc, tower(alloc, 2399)?.get())
}

fn measured_chain(alloc: Global) -> Result<(u64, u64, bool), NoMemory> {
    let f = Form::And(Shared::new(alloc, towers(alloc)?)?);
    let answer = measured(alloc, &f);
    drop(f);
    answer
}

#[test]
fn leaves_deep_and_large_formulas(rt: HostRuntime) -> Result<(), Fail> {
    assert!(rt; measured_tower(rt.alloc())? == (4799, 2400, true));
    assert!(rt; measured_chain(rt.alloc())? == (65_537, 2117, true));
    Ok(())
}
