// Formulas written as short codes, each operation behind its operands. `T` and `F` are the truth values,
// `A`, `B` and `C` atoms without arguments, `L` is `le(a, b)`, `D` is `a = b` and `E` is `a = a`; `!` is
// `not`, `>` an implication, `|` and `&` join the last two formulas, `3` and `4` so many by `and`.
ghost use Rattle.std.specs.Prelude.{◌≡◌, [], ◌∷◌, All, IfOk, OnOk};
ghost use Rattle.syn_form_tests.specs.Over.{IsOver};
ghost use Rattle.syn_form.specs.Same.{OfOneBank};
ghost use Rattle.syn_form.specs.Trees.{form_terms};

use sqlite_items::Items;
use std::alloc::Global;
use std::test::Fail;
use syn_form::Form;
use syn_term::{Bank, NoMemory, Shared, Sort, SymId, Term, Var};

/// Two variables of one bank, which are the terms of codes.
#[derive(Drop)]
pub(crate) struct Pair {
    pub(crate) a: Term,
    pub(crate) b: Term,
}

fn variable(number: u32) -> Var {
    let sort = Sort::Nat;
    Var { number, sort }
}

pub(crate) fn make_pair(alloc: Global) -> Result<Pair, NoMemory>
    ensures { IfOk result (λ pair. OfOneBank (pair.a ∷ pair.b ∷ [])) }
{
    let mut bank = Bank::new(alloc);
    let a = bank.var(alloc, variable(1))?;
    let b = bank.var(alloc, variable(2))?;
    Ok(Pair { a, b })
}

fn leaf(alloc: Global, number: u32) -> Result<Form, NoMemory>
    ensures { IfOk result (λ f. form_terms f ≡ []) }
{
    Ok(Form::Atom(SymId(number), Shared::new(alloc, Items::new(alloc))?))
}

impl Pair {
    /// `le(a, b)`.
    fn less(&self, alloc: Global) -> Result<Form, NoMemory>
        ensures { IfOk result (λ f. form_terms f ≡ self.now.a ∷ self.now.b ∷ []) }
    {
        let mut args = Items::new(alloc);
        args.push(self.a.again()?)?;
        args.push(self.b.again()?)?;
        Ok(Form::Atom(SymId(5), Shared::new(alloc, args)?))
    }

    /// `a = b`.
    fn different(&self) -> Result<Form, NoMemory>
        ensures { IfOk result (λ f. form_terms f ≡ self.now.a ∷ self.now.b ∷ []) }
    {
        let a = self.a.again()?;
        Ok(Form::Equal(a, self.b.again()?))
    }

    /// `a = a`.
    fn equal(&self) -> Result<Form, NoMemory>
        ensures { IfOk result (λ f. form_terms f ≡ self.now.a ∷ self.now.a ∷ []) }
    {
        let a = self.a.again()?;
        Ok(Form::Equal(a, self.a.again()?))
    }

    fn push(&self, forms: &mut Items<Form>, f: Form) -> Result<(), Fail>
        requires form { IsOver self.now f }
        requires forms { All (IsOver self.now) forms.old }
        ensures { OnOk result (All (IsOver self.now) forms.new) }
    {
        forms.push(f)?;
        Ok(())
    }

    pub(crate) fn pop(&self, forms: &mut Items<Form>) -> Result<Form, Fail>
        requires { All (IsOver self.now) forms.old }
        ensures form { IfOk result (IsOver self.now) }
        ensures forms { OnOk result (All (IsOver self.now) forms.new) }
    {
        match forms.pop() {
            None => Err(Fail::new("no formula")),
            Some(f) => Ok(f),
        }
    }

    fn negate(&self, alloc: Global, forms: &mut Items<Form>) -> Result<(), Fail>
        requires { All (IsOver self.now) forms.old }
        ensures { OnOk result (All (IsOver self.now) forms.new) }
    {
        let f = Shared::new(alloc, self.pop(forms)?)?;
        self.push(forms, Form::Not(f))
    }

    fn imply(&self, alloc: Global, forms: &mut Items<Form>) -> Result<(), Fail>
        requires { All (IsOver self.now) forms.old }
        ensures { OnOk result (All (IsOver self.now) forms.new) }
    {
        let b = Shared::new(alloc, self.pop(forms)?)?;
        let a = Shared::new(alloc, self.pop(forms)?)?;
        self.push(forms, Form::Implies(a, b))
    }

    /// Takes the last `count` formulas.
    fn take(&self, alloc: Global, forms: &mut Items<Form>, count: u8) -> Result<Items<Form>, Fail>
        requires { All (IsOver self.now) forms.old }
        ensures taken { IfOk result (All (IsOver self.now)) }
        ensures forms { OnOk result (All (IsOver self.now) forms.new) }
    {
        if count == 0 {
            return Ok(Items::new(alloc));
        }
        let last = self.pop(forms)?;
        match self.take(alloc, forms, count - 1) {
            Ok(mut taken) => {
                self.push(&mut taken, last)?;
                Ok(taken)
            }
            other => {
                drop(last);
                other
            }
        }
    }

    fn conjoin(&self, alloc: Global, forms: &mut Items<Form>, count: u8) -> Result<(), Fail>
        requires { All (IsOver self.now) forms.old }
        ensures { OnOk result (All (IsOver self.now) forms.new) }
    {
        let members = Shared::new(alloc, self.take(alloc, forms, count)?)?;
        self.push(forms, Form::And(members))
    }

    fn disjoin(&self, alloc: Global, forms: &mut Items<Form>) -> Result<(), Fail>
        requires { All (IsOver self.now) forms.old }
        ensures { OnOk result (All (IsOver self.now) forms.new) }
    {
        let members = Shared::new(alloc, self.take(alloc, forms, 2)?)?;
        self.push(forms, Form::Or(members))
    }

    /// What the letter of a formula without parts stands for.
    fn simple(&self, alloc: Global, letter: u8) -> Result<Form, Fail>
        ensures { IfOk result (IsOver self.now) }
    {
        match letter {
            b'T' => Ok(Form::True),
            b'F' => Ok(Form::False),
            b'A' => Ok(leaf(alloc, 2)?),
            b'B' => Ok(leaf(alloc, 3)?),
            b'C' => Ok(leaf(alloc, 4)?),
            b'L' => Ok(self.less(alloc)?),
            b'D' => Ok(self.different()?),
            b'E' => Ok(self.equal()?),
            _ => Err(Fail::new("no such letter")),
        }
    }

    /// One letter of a code: a formula without parts, or an operation on the last formulas.
    pub(crate) fn step(
        &self,
        alloc: Global,
        forms: &mut Items<Form>,
        letter: u8,
    ) -> Result<(), Fail>
        requires { All (IsOver self.now) forms.old }
        ensures { OnOk result (All (IsOver self.now) forms.new) }
    {
        match letter {
            b' ' | b'\n' => Ok(()),
            b'!' => self.negate(alloc, forms),
            b'>' => self.imply(alloc, forms),
            b'|' => self.disjoin(alloc, forms),
            b'&' => self.conjoin(alloc, forms, 2),
            b'3' => self.conjoin(alloc, forms, 3),
            b'4' => self.conjoin(alloc, forms, 4),
            _ => self.push(forms, self.simple(alloc, letter)?),
        }
    }
}
