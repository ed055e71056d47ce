// The clauses of a function or relation, found by its name and a number.
ghost use Rattle.std.specs.Prelude.{◌≡◌, slice_get};
ghost use Rattle.std.specs.Option.{option_copied};
ghost use Rattle.std.specs.Str.{bytes_eq};
ghost use Rattle.syn_model.specs.Declaring as declaring;
ghost use Rattle.syn_start.specs.Initial as initial;
ghost use Rattle.syn_start.specs.Initial.{clauses_of};
ghost use Rattle.syn_start.specs.inner.Under.{Counts, under_after};

use syn_model::Decl;

/// Whether the two texts are the same.
fn same_text(text: &str, other: &str) -> bool
    ensures { result ≡ bytes_eq text.now other.now }
{
    text == other
}

/// Whether the declaration is a clause.
fn is_clause(decl: &Decl) -> bool
    ensures { result ≡ declaring.is_clause decl.now }
{
    matches!(decl, Decl::FunClause { .. } | Decl::RelClause { .. })
}

/// Whether a clause behind the declaration would belong to the heading of this name, where it is known
/// whether one before the declaration would.
fn is_under(under: bool, decl: &Decl, name: &str) -> bool
    ensures { result ≡ under_after name.now under decl.now }
{
    match decl {
        Decl::FunClause { .. } | Decl::RelClause { .. } => under,
        Decl::Fun { name: own, .. } | Decl::Rel { name: own, .. } => same_text(own.as_str(), name),
        _ => same_text("", name),
    }
}

/// How many clauses of the heading still come before the one that is looked for; None where the
/// declaration is that one.
fn left_after(under: bool, decl: &Decl, left: u32) -> Option<u32>
    ensures { Counts under decl.now left result }
{
    if !under {
        return Some(left);
    }
    if !is_clause(decl) {
        return Some(left);
    }
    left.checked_sub(1)
}

/// The clause of this name that so many others stand before.
fn nth_clause<'a>(decls: &'a [Decl], name: &str, index: u32) -> Option<&'a Decl>
    ensures { option_copied result ≡ slice_get (clauses_of decls.entry.now name.now) index }
{
    let mut left = index;
    let mut under = same_text("", name);
    for decl in decls {
        left = match left_after(under, decl, left) {
            None => return Some(decl),
            Some(next) => next,
        };
        under = is_under(under, decl, name);
    }
    None
}

/// The clause of this name with this number, counted from 1; None exactly where there is none.
pub(crate) fn clause_at<'a>(decls: &'a [Decl], name: &str, k: u32) -> Option<&'a Decl>
    ensures { option_copied result ≡ initial.clause_at decls.entry.now name.now k }
{
    match k.checked_sub(1) {
        None => None,
        Some(index) => nth_clause(decls, name, index),
    }
}
