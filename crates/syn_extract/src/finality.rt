// Final rows.
ghost use Rattle.std.specs.Prelude.{◌↔◌, IfSome, IsTrue};
ghost use Rattle.syn_model.specs.Programs.{IsPrimitiveProgram};
ghost use Rattle.syn_extract.specs.Final.{Ends, IsFinal};

use crate::primitive::is_primitive;
use syn_form::{Form, Out, Side};
use syn_model::Spec;
use syn_row::Row;

/// Whether the formula, of a row of this kind, ends a derivation.
fn ends(side: Side, form: &Form) -> bool
    ensures { IsTrue result ↔ Ends side form.now }
{
    match side {
        Side::Goal => matches!(form, Form::True),
        Side::Assertion => matches!(form, Form::False),
    }
}

/// Whether there is no output, or one that may be the body of a program.
fn may_be_body(spec: &Spec, out: &Option<Out>) -> bool
    ensures { IsTrue result ↔ IfSome out.now (IsPrimitiveProgram spec.now) }
{
    match out {
        None => true,
        Some(out) => is_primitive(spec, out),
    }
}

/// Whether the row is final: the goal `true` or the assertion `false`, with no output or with one whose symbols a program
/// for the specification may have: constructors, inputs, what its `primitive` line lists, and the program itself where an
/// order is named. A derivation that ends with such a row proves its program (Manna and Waldinger 1980).
pub fn is_final(spec: &Spec, row: &Row) -> bool
    ensures { IsTrue result ↔ IsFinal spec.now row.now }
{
    ends(row.side, &row.form) && may_be_body(spec, &row.out)
}
