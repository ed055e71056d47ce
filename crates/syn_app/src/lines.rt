// Lines as parts: a line is taken apart by a byte that ends a part or by a prefix that is known, so a
// part is a slice of the file and no memory is taken for it. Each helper says exactly when there is no
// such part, from which a reader knows that no other reading exists.
ghost use Rattle.std.specs.Prelude.{◌≡◌, ◌++◌, ◌∷◌, ◌↔◌, List, ℕ, IsTrue, MatchOption};
ghost use Rattle.syn_lex.specs.TextLines.{Without};

use syn_lex::split_at;

/// What follows the prefix, or `None` where the text begins otherwise.
pub(crate) fn strip<'a>(text: &'a [u8], prefix: &[u8]) -> Option<&'a [u8]>
    ensures { MatchOption result ((rest : List ℕ) → ¬ (text.now ≡ prefix.now ++ rest)) (λ rest. text.now ≡ prefix.now ++ rest.now) }
{
    text.strip_prefix(prefix)
}

/// The part before the first such byte, and what follows that byte and the others after it, or
/// `None` where the text isn't so.
pub(crate) fn part_before<'a>(
    text: &'a [u8],
    mark: u8,
    others: &[u8],
) -> Option<(&'a [u8], &'a [u8])>
    ensures { MatchOption result ((part rest : List ℕ) → Without mark part → ¬ (text.now ≡ part ++ mark ∷ (others.now ++ rest))) (λ p. Without mark p.0.now × (text.now ≡ p.0.now ++ mark ∷ (others.now ++ p.1.now))) }
{
    match split_at(text, mark) {
        None => None,
        Some((part, after)) => match strip(after, others) {
            None => None,
            Some(rest) => Some((part, rest)),
        },
    }
}

/// Whether both are the same bytes.
pub(crate) fn same(left: &[u8], right: &[u8]) -> bool
    ensures { IsTrue result ↔ (left.now ≡ right.now) }
{
    left == right
}
