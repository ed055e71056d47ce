// The bank, which makes every node of a term: so no term has a symbol that isn't in its table, or
// arguments of other sorts.
ghost use Rattle.std.specs.Prelude.{◌≡◌, ◌≢◌, ◌↔◌, ◌+◌, ◌≤◌, [], map, length, slice_set, All, IsTrue, IfOk, OnOk, IfNone, IfSome, MatchOption};
ghost use Rattle.syn_term.specs.declared.sorts.Kind.TheVariants as kinds;
ghost use Rattle.syn_term.specs.Bank.{Belongs, Extends, new_bank, one_more};
ghost use Rattle.syn_term.specs.Positions.{MayReplace, replaced_at, with_child, with_nth};
ghost use Rattle.syn_term.specs.Terms.{IsApplication, application, bare, variable_tree};

use crate::memory::NoMemory;
use crate::pointer::Shared;
use crate::pos::Pos;
use crate::sorts::{Kind, SymId, Var};
use crate::symbols::Symbols;
use crate::term::{Node, Place, Term, have_sorts};
use sqlite_items::Items;
use std::alloc::Global;
use std::marker::Model;

/// Makes the nodes of terms, and counts them. Contracts see the count and the trees that it keeps,
/// which are none so far.
#[derive(Drop)]
pub struct Bank {
    made: u64,
}

impl Model for Bank {
    ghost use Rattle.std.specs.Prelude.{[]};
    ghost use Rattle.std.specs.Coded.{codes};
    ghost use Rattle.syn_term.specs.Bank.{Kept};
    ghost use Rattle.syn_term.specs.contracts.term.Node as node;

    ghost Value = { Kept };

    ghost coded = { Prim.hlevel (codes, node.the_row.coded) };

    ghost view = { λ b. record { made = b.made; trees = [] } };
}

impl Bank {
    /// A bank that has made no node.
    pub fn new(_alloc: Global) -> Bank
        ensures { result ≡ new_bank }
    {
        Bank { made: 0 }
    }

    /// The number of nodes made; it stays at its last value once it has reached it.
    pub fn made(&self) -> u64
        ensures { result ≡ self.now.made }
    {
        self.made
    }

    /// The place of the next node.
    fn place(&mut self) -> Place
        ensures number { result.number ≡ self.old.made }
        ensures made { self.new ≡ one_more self.old }
        ensures extends { Extends self.old self.new }
    {
        let number = self.made;
        self.made = number.saturating_add(1);
        Place { number }
    }

    /// The variable as a term.
    #[tactic(auto, using(crate::proofs::Banks::banks))]
    pub fn var(&mut self, alloc: Global, v: Var) -> Result<Term, NoMemory>
        ensures tree { IfOk result (λ t. bare t ≡ variable_tree v) }
        ensures made { IfOk result (λ _. self.new ≡ one_more self.old) }
        ensures bound { self.new.made ≤ self.old.made + 1 }
        ensures extends { Extends self.old self.new }
        ensures belongs { IfOk result (Belongs self.new) }
    {
        let place = self.place();
        Ok(Shared::new(alloc, Node::Var(place, v))?)
    }

    /// The symbol applied to the arguments; None exactly where it isn't in the table, is a relation
    /// or an order, or the arguments' sorts aren't its own.
    #[tactic(auto, using(crate::proofs::Banks::banks))]
    pub fn app(
        &mut self,
        alloc: Global,
        syms: &Symbols,
        f: SymId,
        args: &[Term],
    ) -> Result<Option<Term>, NoMemory>
        requires args { All (Belongs self.old) args.now }
        ensures tree { IfOk result (λ o. MatchOption o (¬ (IsApplication syms.now f args.now)) (λ t. IsApplication syms.now f args.now × (bare t ≡ application f (map bare args.now)))) }
        ensures made { IfOk result (λ o. MatchOption o (self.new ≡ self.old) (λ _. self.new ≡ one_more self.old)) }
        ensures bound { self.new.made ≤ self.old.made + 1 }
        ensures extends { Extends self.old self.new }
        ensures belongs { IfOk result (λ o. IfSome o (Belongs self.new)) }
    {
        if !may_apply(syms, f, args) {
            return Ok(None);
        }
        let args = shared(alloc, args)?;
        let place = self.place();
        Ok(Some(Shared::new(alloc, Node::App(place, f, args))?))
    }

    /// The same of arguments that are handed over: their list becomes that of the node, and isn't copied.
    #[tactic(auto, using(crate::proofs::Banks::banks))]
    pub fn app_owned(
        &mut self,
        alloc: Global,
        syms: &Symbols,
        f: SymId,
        args: Items<Term>,
    ) -> Result<Option<Term>, NoMemory>
        requires args { All (Belongs self.old) args }
        ensures tree { IfOk result (λ o. MatchOption o (¬ (IsApplication syms.now f args)) (λ t. IsApplication syms.now f args × (bare t ≡ application f (map bare args)))) }
        ensures made { IfOk result (λ o. MatchOption o (self.new ≡ self.old) (λ _. self.new ≡ one_more self.old)) }
        ensures bound { self.new.made ≤ self.old.made + 1 }
        ensures extends { Extends self.old self.new }
        ensures belongs { IfOk result (λ o. IfSome o (Belongs self.new)) }
    {
        if !may_apply(syms, f, args.as_slice()) {
            drop(args);
            return Ok(None);
        }
        let place = self.place();
        Ok(Some(Shared::new(alloc, Node::App(place, f, args))?))
    }

    /// The term with a new subterm at the position; None exactly where nothing stands there or what
    /// stands there is of another sort, and then nothing is made. What stands beside the way is kept
    /// and not made again, so no more nodes are made than the position has numbers: at the root none.
    #[tactic(auto, using(crate::proofs::Banks::banks))]
    pub fn replace_at(
        &mut self,
        alloc: Global,
        syms: &Symbols,
        t: &Term,
        p: &Pos,
        new: &Term,
    ) -> Result<Option<Term>, NoMemory>
        requires t { Belongs self.old t.now }
        requires new { Belongs self.old new.now }
        ensures tree { IfOk result (λ o. MatchOption o (¬ (MayReplace syms.now t.now p.now new.now)) (λ r. MayReplace syms.now t.now p.now new.now × (bare r ≡ bare (replaced_at p.now new.now t.now)))) }
        ensures none { IfOk result (λ o. IfNone o (self.new ≡ self.old)) }
        ensures made { self.new.made ≤ self.old.made + length p.now }
        ensures extends { Extends self.old self.new }
        ensures belongs { IfOk result (λ o. IfSome o (Belongs self.new)) }
    {
        if !may_replace(syms, t, p, new) {
            return Ok(None);
        }
        let replaced = self.replaced(alloc, t, p.as_slice(), new)?;
        Ok(Some(replaced))
    }

    /// The term with a new subterm at the end of the way; where nothing stands there, as it is.
    #[tactic(auto, using(crate::proofs::Banks::banks))]
    fn replaced(
        &mut self,
        alloc: Global,
        t: &Term,
        path: &[u32],
        new: &Term,
    ) -> Result<Term, NoMemory>
        requires t { Belongs self.old t.now }
        requires new { Belongs self.old new.now }
        ensures tree { IfOk result (λ r. bare r ≡ bare (replaced_at path.now new.now t.now)) }
        ensures made { self.new.made ≤ self.old.made + length path.now }
        ensures extends { Extends self.old self.new }
        ensures belongs { IfOk result (Belongs self.new) }
    {
        match path {
            [] => Ok(new.again()?),
            [k, rest @ ..] => match t.arg(*k) {
                None => Ok(t.again()?),
                Some(child) => {
                    let child = self.replaced(alloc, child, rest, new)?;
                    self.with_arg(alloc, t, *k, child)
                }
            },
        }
    }

    /// The term with another k-th argument.
    #[tactic(auto, using(crate::proofs::Banks::banks))]
    fn with_arg(&mut self, alloc: Global, t: &Term, k: u32, child: Term) -> Result<Term, NoMemory>
        requires t { Belongs self.old t.now }
        requires child { Belongs self.old child }
        ensures tree { IfOk result (λ r. bare r ≡ bare (with_child t.now k child)) }
        ensures made { self.new.made ≤ self.old.made + 1 }
        ensures extends { Extends self.old self.new }
        ensures belongs { IfOk result (Belongs self.new) }
    {
        match t.get() {
            Node::Var(_, _) => {
                drop(child);
                Ok(t.again()?)
            }
            Node::App(_, f, args) => {
                let args = with_item(alloc, args.as_slice(), k, child)?;
                let place = self.place();
                Ok(Shared::new(alloc, Node::App(place, *f, args))?)
            }
        }
    }
}

/// The same terms once more.
fn shared(alloc: Global, terms: &[Term]) -> Result<Items<Term>, NoMemory>
    ensures { IfOk result (λ items. items ≡ terms.now) }
{
    let mut items = Items::new(alloc);
    match push_shared(terms, &mut items) {
        Ok(()) => Ok(items),
        Err(error) => {
            drop(items);
            Err(error)
        }
    }
}

fn push_shared(terms: &[Term], items: &mut Items<Term>) -> Result<(), NoMemory>
    requires { items.old ≡ [] }
    ensures { OnOk result (items.new ≡ terms.now) }
{
    for term in terms {
        items.push(term.again()?)?;
    }
    Ok(())
}

/// Whether the symbol may be applied to the arguments.
fn may_apply(syms: &Symbols, f: SymId, args: &[Term]) -> bool
    ensures { IsTrue result ↔ IsApplication syms.now f args.now }
{
    match syms.get(f) {
        None => false,
        Some(sym) => is_function(sym.kind) && have_sorts(syms, args, sym.args.as_slice()),
    }
}

/// Whether symbols of this kind stand in terms.
fn is_function(kind: Kind) -> bool
    ensures { IsTrue result ↔ (kind ≢ kinds.Rel) × (kind ≢ kinds.Order) }
{
    !matches!(kind, Kind::Rel | Kind::Order)
}

/// Whether the subterm at the position may be replaced by the new term.
fn may_replace(syms: &Symbols, t: &Term, p: &Pos, new: &Term) -> bool
    ensures { IsTrue result ↔ MayReplace syms.now t.now p.now new.now }
{
    match t.at(p) {
        None => false,
        Some(old) => old.sort_in(syms) == new.sort_in(syms),
    }
}

/// The terms with another one at k, counted from 1; where there is none, as they are.
fn with_item(alloc: Global, terms: &[Term], k: u32, term: Term) -> Result<Items<Term>, NoMemory>
    ensures { IfOk result (λ items. items ≡ with_nth terms.now k term) }
{
    match shared(alloc, terms) {
        Ok(mut items) => {
            put_item(&mut items, k, term);
            Ok(items)
        }
        Err(error) => {
            drop(term);
            Err(error)
        }
    }
}

fn put_item(items: &mut Items<Term>, k: u32, term: Term)
    ensures { items.new ≡ with_nth items.old k term }
{
    match k.checked_sub(1) {
        None => drop(term),
        Some(index) => put_at(items, index as usize, term),
    }
}

fn put_at(items: &mut Items<Term>, index: usize, term: Term)
    ensures { items.new ≡ slice_set items.old index term }
{
    if index < items.len() {
        items.set(index, term);
    } else {
        drop(term);
    }
}
