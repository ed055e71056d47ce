// The equality at a position of a formula.
ghost use Rattle.std.specs.Prelude.{◌≡◌, Some, MatchOption};
ghost use Rattle.syn_term.specs.Terms.{TermTree};
ghost use Rattle.syn_form.specs.declared.trees.Form.TheVariants as variants;
ghost use Rattle.syn_form.specs.Positions.{at_position, formula};

use syn_form::{Form, Part};
use syn_term::{Pos, Term};

/// The two sides, where the formula is an equality.
pub(crate) fn sides_of(form: &Form) -> Option<(&Term, &Term)>
    ensures { MatchOption result ((left right : TermTree) → form.now ≡ variants.Equal left right → ⊥) (λ p. form.now ≡ variants.Equal p.0.now p.1.now) }
{
    match form {
        Form::Equal(s, t) => Some((s, t)),
        _ => None,
    }
}

/// The left and the right side of the equality that stands at the position. None exactly where no equality stands there: where
/// there is no such position, or another formula or a term. Both are parts of the formula, and take no memory.
pub fn equality_at<'a>(form: &'a Form, at: &Pos) -> Option<(&'a Term, &'a Term)>
    ensures { MatchOption result ((left right : TermTree) → at_position at.now (formula form.now) ≡ Some (formula (variants.Equal left right)) → ⊥) (λ p. at_position at.now (formula form.now) ≡ Some (formula (variants.Equal p.0.now p.1.now))) }
{
    match form.at(at) {
        Some(Part::F(part)) => sides_of(part),
        _ => None,
    }
}
