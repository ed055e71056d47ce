// Declarations once more. Their trees are shared; names and lists of sorts are copied.
ghost use Rattle.std.specs.Prelude.{◌≡◌, [], IfOk, OnOk};
ghost use Rattle.syn_model.specs.declared.decl.Decl.TheVariants as declared;

use crate::decl::Decl;
use sqlite_items::Items;
use std::alloc::Global;
use syn_form::{Form, Mono, Out, QForm};
use syn_term::{NoMemory, Sort, Term, Text};

fn push_terms(terms: &[Term], items: &mut Items<Term>) -> Result<(), NoMemory>
    requires { items.old ≡ [] }
    ensures { OnOk result (items.new ≡ terms.now) }
{
    for term in terms {
        items.push(term.again()?)?;
    }
    Ok(())
}

fn terms_again(alloc: Global, terms: &[Term]) -> Result<Items<Term>, NoMemory>
    ensures { IfOk result (λ items. items ≡ terms.now) }
{
    let mut items = Items::new(alloc);
    match push_terms(terms, &mut items) {
        Ok(()) => Ok(items),
        Err(error) => {
            drop(items);
            Err(error)
        }
    }
}

fn list_sort(name: &Text, nil: &Text, cons: &Text, item: Sort) -> Result<Decl, NoMemory>
    ensures { IfOk result (λ d. d ≡ declared.ListSort name.now nil.now cons.now item) }
{
    let name = name.again()?;
    let nil = nil.again()?;
    let cons = cons.again()?;
    Ok(Decl::ListSort {
        name,
        nil,
        cons,
        item,
    })
}

fn tuple_sort(alloc: Global, name: &Text, make: &Text, parts: &[Sort]) -> Result<Decl, NoMemory>
    ensures { IfOk result (λ d. d ≡ declared.TupleSort name.now make.now parts.now) }
{
    let name = name.again()?;
    let make = make.again()?;
    let parts = Items::from_slice(alloc, parts)?;
    Ok(Decl::TupleSort { name, make, parts })
}

fn function(alloc: Global, name: &Text, args: &[Sort], value: Sort) -> Result<Decl, NoMemory>
    ensures { IfOk result (λ d. d ≡ declared.Fun name.now args.now value) }
{
    let name = name.again()?;
    let args = Items::from_slice(alloc, args)?;
    Ok(Decl::Fun {
        name,
        args,
        result: value,
    })
}

fn relation(alloc: Global, name: &Text, args: &[Sort]) -> Result<Decl, NoMemory>
    ensures { IfOk result (λ d. d ≡ declared.Rel name.now args.now) }
{
    let name = name.again()?;
    let args = Items::from_slice(alloc, args)?;
    Ok(Decl::Rel { name, args })
}

fn fun_clause(alloc: Global, args: &[Term], body: &Out) -> Result<Decl, NoMemory>
    ensures { IfOk result (λ d. d ≡ declared.FunClause args.now body.now) }
{
    let args = terms_again(alloc, args)?;
    match body.again() {
        Ok(body) => Ok(Decl::FunClause { args, body }),
        Err(error) => {
            drop(args);
            Err(error)
        }
    }
}

fn rel_clause(alloc: Global, args: &[Term], body: &Form) -> Result<Decl, NoMemory>
    ensures { IfOk result (λ d. d ≡ declared.RelClause args.now body.now) }
{
    let args = terms_again(alloc, args)?;
    match body.again() {
        Ok(body) => Ok(Decl::RelClause { args, body }),
        Err(error) => {
            drop(args);
            Err(error)
        }
    }
}

fn order(alloc: Global, name: &Text, args: &[Sort], measure: &Term) -> Result<Decl, NoMemory>
    ensures { IfOk result (λ d. d ≡ declared.Order name.now args.now measure.now) }
{
    let name = name.again()?;
    let args = Items::from_slice(alloc, args)?;
    let measure = measure.again()?;
    Ok(Decl::Order {
        name,
        args,
        measure,
    })
}

fn axiom(name: &Text, form: &QForm) -> Result<Decl, NoMemory>
    ensures { IfOk result (λ d. d ≡ declared.Axiom name.now form.now) }
{
    let name = name.again()?;
    let form = form.again()?;
    Ok(Decl::Axiom { name, form })
}

fn monotone(name: &Text, mono: Mono) -> Result<Decl, NoMemory>
    ensures { IfOk result (λ d. d ≡ declared.Monotone name.now mono) }
{
    let name = name.again()?;
    Ok(Decl::Monotone { name, mono })
}

impl Decl {
    /// The same declaration once more. Its trees are shared; names and lists of sorts are copied.
    pub fn again(&self, alloc: Global) -> Result<Decl, NoMemory>
        ensures { IfOk result (λ d. d ≡ self.now) }
    {
        match self {
            Decl::ListSort {
                name,
                nil,
                cons,
                item,
            } => list_sort(name, nil, cons, *item),
            Decl::TupleSort { name, make, parts } => {
                tuple_sort(alloc, name, make, parts.as_slice())
            }
            Decl::Fun {
                name,
                args,
                result: value,
            } => function(alloc, name, args.as_slice(), *value),
            Decl::Rel { name, args } => relation(alloc, name, args.as_slice()),
            Decl::FunClause { args, body } => fun_clause(alloc, args.as_slice(), body),
            Decl::RelClause { args, body } => rel_clause(alloc, args.as_slice(), body),
            Decl::Order {
                name,
                args,
                measure,
            } => order(alloc, name, args.as_slice(), measure),
            Decl::Axiom { name, form } => axiom(name, form),
            Decl::Monotone { name, mono } => monotone(name, *mono),
        }
    }
}

fn push_decls(alloc: Global, decls: &[Decl], items: &mut Items<Decl>) -> Result<(), NoMemory>
    requires { items.old ≡ [] }
    ensures { OnOk result (items.new ≡ decls.now) }
{
    for decl in decls {
        items.push(decl.again(alloc)?)?;
    }
    Ok(())
}

/// The same declarations once more.
pub(crate) fn decls_again(alloc: Global, decls: &[Decl]) -> Result<Items<Decl>, NoMemory>
    ensures { IfOk result (λ items. items ≡ decls.now) }
{
    let mut items = Items::new(alloc);
    match push_decls(alloc, decls, &mut items) {
        Ok(()) => Ok(items),
        Err(error) => {
            drop(items);
            Err(error)
        }
    }
}
