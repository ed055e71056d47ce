// Terms, as trees of nodes behind shared pointers. A call that shows a part of a term answers a
// reference to it, and takes no memory.
ghost use Rattle.std.specs.Prelude.{◌≡◌, ◌↔◌, ◌+◌, ◌<◌, max, min, map, IsTrue, IsSome, Some};
ghost use Rattle.std.specs.Option.{option_copied};
ghost use Rattle.syn_term.specs.Bank.{Agree};
ghost use Rattle.syn_term.specs.Positions.{subterm_at};
ghost use Rattle.syn_term.specs.Same.{TellsTerms};
ghost use Rattle.syn_term.specs.Terms.{bare, child, depth_of, head_of, nodes, sort_of};

use crate::pointer::Shared;
use crate::pos::Pos;
use crate::sorts::{Head, Sort, SymId, Var};
use crate::symbols::Symbols;
use sqlite_items::{Items, at};

/// Where a bank put a node. Its field is private to this crate, so no other crate can make a node.
#[derive(Drop)]
pub struct Place {
    pub(crate) number: u64,
}

/// A node of a term: a variable, or a symbol with its arguments.
#[derive(Drop)]
pub enum Node {
    Var(Place, Var),
    App(Place, SymId, Items<Shared<Node>>),
}

/// A term. Contracts see the tree of its nodes.
pub type Term = Shared<Node>;

impl Shared<Node> {
    /// What stands at the top: the variable, or the symbol.
    pub fn head(&self) -> Head
        ensures { result ≡ head_of self.now }
    {
        match self.get() {
            Node::Var(_, v) => Head::Var(*v),
            Node::App(_, f, _) => Head::Sym(*f),
        }
    }

    /// The k-th argument, counted from 1; None exactly where there is none.
    pub fn arg(&self, k: u32) -> Option<&Term>
        ensures { option_copied result ≡ child self.now k }
    {
        match self.get() {
            Node::Var(_, _) => None,
            Node::App(_, _, args) => {
                if k == 0 {
                    None
                } else {
                    at(args.as_slice(), k as usize - 1)
                }
            }
        }
    }

    /// The subterm at the position; None exactly where nothing stands there.
    pub fn at(&self, p: &Pos) -> Option<&Term>
        ensures { option_copied result ≡ subterm_at p.now self.now }
    {
        self.at_path(p.as_slice())
    }

    /// The subterm at the end of the way.
    fn at_path(&self, path: &[u32]) -> Option<&Term>
        ensures { option_copied result ≡ subterm_at path.now self.now }
    {
        match path {
            [] => Some(self),
            [k, rest @ ..] => match self.arg(*k) {
                None => None,
                Some(child) => child.at_path(rest),
            },
        }
    }

    /// The sort of the term, None where its symbol isn't in the table or has no result.
    pub fn sort_in(&self, syms: &Symbols) -> Option<Sort>
        ensures { result ≡ sort_of syms.now self.now }
    {
        match self.get() {
            Node::Var(_, v) => Some(v.sort),
            Node::App(_, f, _) => match syms.get(*f) {
                None => None,
                Some(sym) => sym.result,
            },
        }
    }

    /// The sort of the term, by the table that it was made over or one that begins with it.
    pub fn sort(&self, syms: &Symbols) -> Sort
        requires { IsSome (sort_of syms.now self.now) }
        ensures { Some result ≡ sort_of syms.now self.now }
    {
        match self.sort_in(syms) {
            Some(sort) => sort,
            None => unreachable!(),
        }
    }

    /// The number of nodes, or `cap + 1` where there are more than `cap`.
    pub fn size(&self, cap: u32) -> u64
        ensures { result ≡ min (nodes self.now) (cap + 1) }
    {
        self.count(u64::from(cap) + 1)
    }

    /// The number of nodes, counted up to `most`.
    fn count(&self, most: u64) -> u64
        requires { 0 < most }
        ensures { result ≡ min (nodes self.now) most }
    {
        match self.get() {
            Node::Var(_, _) => 1,
            Node::App(_, _, args) => {
                let mut total = 1;
                for child in args.as_slice() {
                    if total >= most {
                        return most;
                    }
                    total += child.count(most - total);
                }
                total
            }
        }
    }

    /// The depth, or `cap + 1` where it is more than `cap`; a leaf has depth 1.
    pub fn depth(&self, cap: u32) -> u64
        ensures { result ≡ min (depth_of self.now) (cap + 1) }
    {
        self.height(u64::from(cap) + 1)
    }

    /// The depth, followed down to `most`.
    fn height(&self, most: u64) -> u64
        requires { 0 < most }
        ensures { result ≡ min (depth_of self.now) most }
    {
        match self.get() {
            Node::Var(_, _) => 1,
            Node::App(_, _, args) => {
                if most == 1 {
                    return 1;
                }
                let mut deepest = 0;
                for child in args.as_slice() {
                    deepest = deepest.max(child.height(most - 1));
                }
                deepest + 1
            }
        }
    }

    /// Whether the two are one tree. It asks that they agree, as two terms of one bank do.
    pub fn same(&self, other: &Term) -> bool
        requires { Agree self.now other.now }
        ensures tree { IsTrue result ↔ (bare self.now ≡ bare other.now) }
        ensures law { TellsTerms }
    {
        self.equals(other)
    }

    /// Whether the two are one tree, by their nodes.
    fn equals(&self, other: &Term) -> bool
        ensures { IsTrue result ↔ (bare self.now ≡ bare other.now) }
    {
        match (self.get(), other.get()) {
            (Node::Var(_, v), Node::Var(_, w)) => *v == *w,
            (Node::App(_, f, xs), Node::App(_, g, ys)) => {
                let xs = xs.as_slice();
                let ys = ys.as_slice();
                if *f != *g {
                    return false;
                }
                if xs.len() != ys.len() {
                    return false;
                }
                for i in 0..xs.len() {
                    if !xs[i].equals(&ys[i]) {
                        return false;
                    }
                }
                true
            }
            _ => false,
        }
    }
}

/// Whether the terms have these sorts, one for one.
pub fn have_sorts(syms: &Symbols, terms: &[Term], sorts: &[Sort]) -> bool
    ensures { IsTrue result ↔ (map (sort_of syms.now) terms.now ≡ map Some sorts.now) }
{
    if terms.len() != sorts.len() {
        return false;
    }
    for i in 0..terms.len() {
        let sort = sorts[i];
        if !has_sort(syms, &terms[i], sort) {
            return false;
        }
    }
    true
}

/// Whether the term has this sort.
fn has_sort(syms: &Symbols, term: &Term, sort: Sort) -> bool
    ensures { IsTrue result ↔ (sort_of syms.now term.now ≡ Some sort) }
{
    term.sort_in(syms) == Some(sort)
}
