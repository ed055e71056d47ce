// What a reader of formulas holds for each open bracket, and how the levels of precedence are
// closed. Each formula is kept with its height, and one that would be too high is refused as soon
// as it is made: so nothing deeper is ever dropped or handed on.
ghost use Rattle.std.specs.Prelude.{◌≡◌, Some, IsTrue, IfOk, OnOk};
ghost use Rattle.syn_parse.specs.declared.form_frames.Tall.{Tall};
ghost use Rattle.syn_parse.specs.inner.FormMachine as machine;
ghost use Rattle.syn_parse.specs.inner.Leads.{Makes};

use crate::limits::MAX_HEIGHT;
use crate::stack::boxes;
use crate::stop::Stop;
use sqlite_items::{Boxed, Items};
use std::alloc::{AllocError, Global};
use syn_form::{BinderSyntax, FormSyntax, Quantifier};

/// A formula with its height.
#[derive(Drop)]
pub(crate) struct Tall<'a> {
    pub(crate) form: FormSyntax<'a>,
    pub(crate) height: u32,
}

/// The earlier members of a chain of `and` or of `or`, with the height of the highest.
#[derive(Drop)]
pub(crate) struct Members<'a> {
    pub(crate) forms: Items<FormSyntax<'a>>,
    pub(crate) height: u32,
}

/// A quantifier with its binders, before a formula.
#[derive(Drop)]
pub(crate) struct Prefix<'a> {
    pub(crate) quantifier: Quantifier,
    pub(crate) binders: Items<BinderSyntax<'a>>,
}

/// What was read of a form before its next operand: the quantifiers at its start, what stands before
/// `<->`, the left sides of `->`, the earlier members of the open chains of `or` and of `and`, and
/// the number of `not`s.
#[derive(Drop)]
pub(crate) struct Frame<'a> {
    pub(crate) prefixes: Items<Prefix<'a>>,
    pub(crate) nots: u64,
    pub(crate) ands: Members<'a>,
    pub(crate) ors: Members<'a>,
    pub(crate) lefts: Items<Tall<'a>>,
    pub(crate) side: Option<Boxed<Tall<'a>>>,
}

impl<'a> Members<'a> {
    /// No members.
    pub(crate) fn new(alloc: Global) -> Members<'a>
        ensures { result ≡ machine.no_members }
    {
        Members {
            forms: Items::new(alloc),
            height: 0,
        }
    }

    /// One member more.
    pub(crate) fn add(&mut self, u: Tall<'a>) -> Result<(), AllocError>
        ensures { OnOk result (self.new ≡ machine.with_member self.old u.entry) }
    {
        let Tall { form, height } = u;
        self.forms.push(form)?;
        self.height = self.height.max(height);
        Ok(())
    }
}

impl<'a> Frame<'a> {
    /// A frame of which nothing was read.
    pub(crate) fn new(alloc: Global) -> Frame<'a>
        ensures { result ≡ machine.fresh }
    {
        Frame {
            prefixes: Items::new(alloc),
            nots: 0,
            ands: Members::new(alloc),
            ors: Members::new(alloc),
            lefts: Items::new(alloc),
            side: None,
        }
    }
}

/// Whether nothing but `not`s was read before the operand, so that the form is just the operand.
#[tactic(auto, using(crate::proofs::FormFrames::bare_done))]
pub(crate) fn is_bare<'a>(frame: &Frame<'a>) -> bool
    ensures { IsTrue result → (u : Tall) → machine.form_done frame.now u ≡ Some u }
{
    if !frame.prefixes.is_empty() {
        return false;
    }
    if !frame.ands.forms.is_empty() {
        return false;
    }
    if !frame.ors.forms.is_empty() {
        return false;
    }
    if !frame.lefts.is_empty() {
        return false;
    }
    frame.side.is_none()
}

/// A formula whose highest part has the height `below`, where it is not too high.
fn built<'a>(form: FormSyntax<'a>, below: u32) -> Result<Tall<'a>, Stop>
    ensures { Makes result (machine.built form.entry below) }
{
    if below < MAX_HEIGHT {
        let height = below + 1;
        return Ok(Tall { form, height });
    }
    drop(form);
    Err(Stop::Misplaced)
}

fn not_of<'a>(alloc: Global, u: Tall<'a>) -> Result<Tall<'a>, Stop>
    ensures { Makes result (machine.not_of u.entry) }
{
    let Tall { form, height } = u;
    let inner = Boxed::new(alloc, form)?;
    built(FormSyntax::Not(inner), height)
}

fn implies_of<'a>(alloc: Global, a: Tall<'a>, b: Tall<'a>) -> Result<Tall<'a>, Stop>
    ensures { Makes result (machine.implies_of a.entry b.entry) }
{
    let below = a.height.max(b.height);
    let (left, right) = boxes(alloc, a.form, b.form)?;
    built(FormSyntax::Implies(left, right), below)
}

fn both_of<'a>(alloc: Global, a: Tall<'a>, b: Tall<'a>) -> Result<Tall<'a>, Stop>
    ensures { Makes result (machine.both_of a.entry b.entry) }
{
    let below = a.height.max(b.height);
    let (left, right) = boxes(alloc, a.form, b.form)?;
    built(FormSyntax::BothWays(left, right), below)
}

fn quantified_of<'a>(alloc: Global, prefix: Prefix<'a>, u: Tall<'a>) -> Result<Tall<'a>, Stop>
    ensures { Makes result (machine.quantified_of prefix.entry u.entry) }
{
    let Tall { form, height } = u;
    match Boxed::new(alloc, form) {
        Ok(inner) => {
            let Prefix {
                quantifier,
                binders,
            } = prefix;
            built(FormSyntax::Quantified(quantifier, binders, inner), height)
        }
        Err(_) => {
            drop(prefix);
            Err(Stop::NoMemory)
        }
    }
}

/// The formula under so many `not`s.
#[tactic(auto, using(crate::proofs::FormFrames::negated_next))]
pub(crate) fn negated<'a>(alloc: Global, nots: u64, u: Tall<'a>) -> Result<Tall<'a>, Stop>
    ensures { Makes result (machine.negated nots u.entry) }
{
    let mut last = u;
    for _ in 0..nots {
        last = not_of(alloc, last)?;
    }
    Ok(last)
}

/// The chain of `and` with its last member; a formula alone is no chain.
pub(crate) fn chain_and<'a>(ands: Members<'a>, u: Tall<'a>) -> Result<Tall<'a>, Stop>
    ensures { Makes result (machine.chain_and ands.entry u.entry) }
{
    if ands.forms.is_empty() {
        drop(ands);
        return Ok(u);
    }
    let Members { forms, height } = with_member(ands, u)?;
    built(FormSyntax::And(forms), height)
}

/// The chain of `or` with its last member; a formula alone is no chain.
fn chain_or<'a>(ors: Members<'a>, u: Tall<'a>) -> Result<Tall<'a>, Stop>
    ensures { Makes result (machine.chain_or ors.entry u.entry) }
{
    if ors.forms.is_empty() {
        drop(ors);
        return Ok(u);
    }
    let Members { forms, height } = with_member(ors, u)?;
    built(FormSyntax::Or(forms), height)
}

fn with_member<'a>(members: Members<'a>, u: Tall<'a>) -> Result<Members<'a>, AllocError>
    ensures { IfOk result (λ m. m ≡ machine.with_member members.entry u.entry) }
{
    let mut members = members;
    match members.add(u) {
        Ok(()) => Ok(members),
        Err(error) => {
            drop(members);
            Err(error)
        }
    }
}

/// The chain of `->` with its last side, nested to the right.
#[tactic(auto, using(crate::proofs::FormFrames::chain_imp_last))]
fn chain_imp<'a>(alloc: Global, lefts: Items<Tall<'a>>, u: Tall<'a>) -> Result<Tall<'a>, Stop>
    ensures { Makes result (machine.chain_imp lefts.entry u.entry) }
{
    let (mut lefts, mut last) = (lefts, u);
    while let Some(left) = lefts.pop() {
        match implies_of(alloc, left, last) {
            Ok(next) => last = next,
            Err(stop) => {
                drop(lefts);
                return Err(stop);
            }
        }
    }
    Ok(last)
}

fn sided<'a>(alloc: Global, side: Option<Boxed<Tall<'a>>>, u: Tall<'a>) -> Result<Tall<'a>, Stop>
    ensures { Makes result (machine.sided side.entry u.entry) }
{
    match side {
        None => Ok(u),
        Some(left) => both_of(alloc, left.into_inner(), u),
    }
}

/// The formula under the quantifiers, the first of them outermost.
#[tactic(auto, using(crate::proofs::FormFrames::under_last))]
fn under<'a>(alloc: Global, prefixes: Items<Prefix<'a>>, u: Tall<'a>) -> Result<Tall<'a>, Stop>
    ensures { Makes result (machine.under prefixes.entry u.entry) }
{
    let (mut prefixes, mut last) = (prefixes, u);
    while let Some(inner) = prefixes.pop() {
        match quantified_of(alloc, inner, last) {
            Ok(next) => last = next,
            Err(stop) => {
                drop(prefixes);
                return Err(stop);
            }
        }
    }
    Ok(last)
}

/// The open chains of `and` and of `or` with their last member.
pub(crate) fn or_done<'a>(
    ands: Members<'a>,
    ors: Members<'a>,
    u: Tall<'a>,
) -> Result<Tall<'a>, Stop>
    ensures { Makes result (machine.or_done ands.entry ors.entry u.entry) }
{
    match chain_and(ands, u) {
        Ok(v) => chain_or(ors, v),
        other => {
            drop(ors);
            other
        }
    }
}

/// The same with the left sides of `->`.
pub(crate) fn imp_done<'a>(
    alloc: Global,
    ands: Members<'a>,
    ors: Members<'a>,
    lefts: Items<Tall<'a>>,
    u: Tall<'a>,
) -> Result<Tall<'a>, Stop>
    ensures { Makes result (machine.imp_done ands.entry ors.entry lefts.entry u.entry) }
{
    match or_done(ands, ors, u) {
        Ok(v) => chain_imp(alloc, lefts, v),
        other => {
            drop(lefts);
            other
        }
    }
}

/// The same with what stands before `<->`.
fn sides_done<'a>(
    alloc: Global,
    ands: Members<'a>,
    ors: Members<'a>,
    lefts: Items<Tall<'a>>,
    side: Option<Boxed<Tall<'a>>>,
    u: Tall<'a>,
) -> Result<Tall<'a>, Stop>
    ensures { Makes result (machine.sides_done ands.entry ors.entry lefts.entry side.entry u.entry) }
{
    match imp_done(alloc, ands, ors, lefts, u) {
        Ok(v) => sided(alloc, side, v),
        other => {
            drop(side);
            other
        }
    }
}

/// The whole form of a frame, whose last operand is `u`.
pub(crate) fn form_done<'a>(alloc: Global, frame: Frame<'a>, u: Tall<'a>) -> Result<Tall<'a>, Stop>
    ensures { Makes result (machine.form_done frame.entry u.entry) }
{
    let Frame {
        prefixes,
        nots: _,
        ands,
        ors,
        lefts,
        side,
    } = frame;
    match sides_done(alloc, ands, ors, lefts, side, u) {
        Ok(v) => under(alloc, prefixes, v),
        other => {
            drop(prefixes);
            other
        }
    }
}
