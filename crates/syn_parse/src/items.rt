// What a formula's words are once its terms, equalities and quantifiers are put together: what is
// left to do is the precedence of the connectives and the brackets.
use sqlite_items::{Boxed, Items};
use syn_form::{BinderSyntax, Mark, Quantifier, TermSyntax};

/// A term, an equality, a quantifier with its binders, or a mark.
#[derive(Drop)]
pub(crate) enum Item<'a> {
    Term(TermSyntax<'a>),
    Equal(Boxed<TermSyntax<'a>>, Boxed<TermSyntax<'a>>),
    Quantifier(Quantifier, Items<BinderSyntax<'a>>),
    Fixed(Mark),
}
