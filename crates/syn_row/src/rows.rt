// Rows, the same row once more, and when two rows are one.
ghost use Rattle.std.specs.Prelude.{◌≡◌, ◌↔◌, [], ◌++◌, IfOk, IsTrue};
ghost use Rattle.std.specs.Option.{option_map, option_map_or};
ghost use Rattle.syn_form.specs.Same.{OfOneBank};
ghost use Rattle.syn_form.specs.Trees.{bare_out, out_terms};
ghost use Rattle.syn_row.specs.Rows.{bare_row, row_terms};

use syn_form::{Form, Out, Side};
use syn_term::NoMemory;

/// A row of a deductive tableau, after Manna and Waldinger: a goal or an assertion, with a formula and
/// maybe an output entry. Its variables stand for any values of their sorts. Where an instance of a goal
/// is true, or one of an assertion false, the same instance of the output is one that is wanted.
///
/// Contracts see formula and output as trees; two rows are one where they are with the places of their
/// terms left out.
#[derive(Drop)]
pub struct Row {
    pub side: Side,
    pub form: Form,
    pub out: Option<Out>,
}

impl Row {
    /// The same row once more. It takes no memory; the one error, NoMemory, is that a pointer's count
    /// of owners is at its end.
    pub fn again(&self) -> Result<Row, NoMemory>
        ensures { IfOk result (λ r. r ≡ self.now) }
    {
        let form = self.form.again()?;
        match output_again(&self.out) {
            Ok(out) => Ok(Row {
                side: self.side,
                form,
                out,
            }),
            Err(error) => {
                drop(form);
                Err(error)
            }
        }
    }

    /// Whether the two are one row: both goals or both assertions, with one tree for a formula, and
    /// with one tree for an output or both without. It asks that their terms are of one bank.
    pub fn same(&self, other: &Row) -> bool
        requires { OfOneBank (row_terms self.now ++ row_terms other.now) }
        ensures same { IsTrue result ↔ (bare_row self.now ≡ bare_row other.now) }
    {
        if self.side != other.side {
            return false;
        }
        if !self.form.same(&other.form) {
            return false;
        }
        is_one_output(&self.out, &other.out)
    }
}

/// The output once more.
fn output_again(out: &Option<Out>) -> Result<Option<Out>, NoMemory>
    ensures { IfOk result (λ o. o ≡ out.now) }
{
    match out {
        None => Ok(None),
        Some(out) => match out.again() {
            Ok(out) => Ok(Some(out)),
            Err(error) => Err(error),
        },
    }
}

/// Whether the two are one tree, or both are none.
fn is_one_output(out: &Option<Out>, other: &Option<Out>) -> bool
    requires { OfOneBank (option_map_or out_terms out.now [] ++ option_map_or out_terms other.now []) }
    ensures { IsTrue result ↔ (option_map bare_out out.now ≡ option_map bare_out other.now) }
{
    match out {
        None => other.is_none(),
        Some(out) => is_this_output(out, other),
    }
}

/// Whether the second is this tree.
fn is_this_output(out: &Out, other: &Option<Out>) -> bool
    requires { OfOneBank (out_terms out.now ++ option_map_or out_terms other.now []) }
    ensures { IsTrue result ↔ (Some (bare_out out.now) ≡ option_map bare_out other.now) }
{
    match other {
        None => false,
        Some(other) => out.same(other),
    }
}
