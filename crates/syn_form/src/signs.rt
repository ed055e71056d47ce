// The signs of subformulas.
ghost use Rattle.std.specs.Prelude.{◌≡◌, ◌↔◌, IsSome};
ghost use Rattle.syn_form.specs.declared.trees.Form.{out-Form};
ghost use Rattle.syn_form.specs.Positions as positions;
ghost use Rattle.syn_form.specs.Positions.{HasFormAt, formula, sign_at, sign_from};

use crate::trees::{Form, Part};
use syn_term::Pos;

/// The sign of the subformula at the position: true where it stands under an even number of `not`
/// and of left sides of `->`. None exactly where no formula stands there.
pub fn polarity(f: &Form, p: &Pos) -> Option<bool>
    ensures value { result ≡ sign_at p.now f.now }
    ensures some { IsSome result ↔ HasFormAt p.now f.now }
{
    sign_along(f, p.as_slice(), true)
}

/// The sign at the end of the path, where the formula has the given one.
fn sign_along(f: &Form, path: &[u32], sign: bool) -> Option<bool>
    ensures { result ≡ sign_from path.now sign (formula f.now) }
{
    match path {
        [] => Some(sign),
        [k, rest @ ..] => match f.child(*k) {
            Some(Part::F(g)) => sign_along(g, rest, child_sign(f, *k, sign)),
            Some(Part::T(_)) => None,
            None => None,
        },
    }
}

/// The sign of the k-th child, where the formula has the given one.
fn child_sign(f: &Form, k: u32, sign: bool) -> bool
    ensures { result ≡ positions.child_sign (out-Form f.now) k sign }
{
    match (f, k) {
        (Form::Not(_), _) | (Form::Implies(_, _), 1) => !sign,
        _ => sign,
    }
}
