// The parts of a specification, one for each line of its text behind the second.
ghost use Rattle.std.specs.Prelude.{◌≡◌, [], IfOk, OnOk};
ghost use Rattle.syn_model.specs.declared.spec_part.SpecPart.TheVariants as part;

use sqlite_items::Items;
use std::alloc::Global;
use syn_form::{Form, QForm};
use syn_term::{NoMemory, Text};

/// A part of a specification. In the output condition the output is the variable with number 0; the
/// inputs are symbols.
#[derive(Drop)]
pub enum SpecPart {
    /// `requires FORM`: the input condition.
    Requires(Form),
    /// `ensures FORM`: the output condition.
    Ensures(QForm),
    /// `order w`: the order by which calls of the program descend.
    Order(Text),
    /// `primitive NAME, ..`: the functions, relations and orders that the program may use.
    Primitive(Items<Text>),
    /// `use NAME, ..`: the axioms and the symbols whose clauses a search begins with.
    Taken(Items<Text>),
}

fn push_texts(texts: &[Text], copies: &mut Items<Text>) -> Result<(), NoMemory>
    requires { copies.old ≡ [] }
    ensures { OnOk result (copies.new ≡ texts.now) }
{
    for text in texts {
        copies.push(text.again()?)?;
    }
    Ok(())
}

fn texts_again(alloc: Global, texts: &[Text]) -> Result<Items<Text>, NoMemory>
    ensures { IfOk result (λ copies. copies ≡ texts.now) }
{
    let mut copies = Items::new(alloc);
    match push_texts(texts, &mut copies) {
        Ok(()) => Ok(copies),
        Err(error) => {
            drop(copies);
            Err(error)
        }
    }
}

fn requires_again(f: &Form) -> Result<SpecPart, NoMemory>
    ensures { IfOk result (λ p. p ≡ part.Requires f.now) }
{
    Ok(SpecPart::Requires(f.again()?))
}

fn ensures_again(f: &QForm) -> Result<SpecPart, NoMemory>
    ensures { IfOk result (λ p. p ≡ part.Ensures f.now) }
{
    Ok(SpecPart::Ensures(f.again()?))
}

fn order_again(name: &Text) -> Result<SpecPart, NoMemory>
    ensures { IfOk result (λ p. p ≡ part.Order name.now) }
{
    Ok(SpecPart::Order(name.again()?))
}

fn primitive_again(alloc: Global, names: &[Text]) -> Result<SpecPart, NoMemory>
    ensures { IfOk result (λ p. p ≡ part.Primitive names.now) }
{
    Ok(SpecPart::Primitive(texts_again(alloc, names)?))
}

fn taken_again(alloc: Global, names: &[Text]) -> Result<SpecPart, NoMemory>
    ensures { IfOk result (λ p. p ≡ part.Taken names.now) }
{
    Ok(SpecPart::Taken(texts_again(alloc, names)?))
}

impl SpecPart {
    /// The same part once more. Its trees are shared; names are copied.
    pub fn again(&self, alloc: Global) -> Result<SpecPart, NoMemory>
        ensures { IfOk result (λ p. p ≡ self.now) }
    {
        match self {
            SpecPart::Requires(f) => requires_again(f),
            SpecPart::Ensures(f) => ensures_again(f),
            SpecPart::Order(name) => order_again(name),
            SpecPart::Primitive(names) => primitive_again(alloc, names.as_slice()),
            SpecPart::Taken(names) => taken_again(alloc, names.as_slice()),
        }
    }
}

fn push_parts(
    alloc: Global,
    parts: &[SpecPart],
    copies: &mut Items<SpecPart>,
) -> Result<(), NoMemory>
    requires { copies.old ≡ [] }
    ensures { OnOk result (copies.new ≡ parts.now) }
{
    for part in parts {
        copies.push(part.again(alloc)?)?;
    }
    Ok(())
}

/// The same parts once more.
pub(crate) fn parts_again(alloc: Global, parts: &[SpecPart]) -> Result<Items<SpecPart>, NoMemory>
    ensures { IfOk result (λ copies. copies ≡ parts.now) }
{
    let mut copies = Items::new(alloc);
    match push_parts(alloc, parts, &mut copies) {
        Ok(()) => Ok(copies),
        Err(error) => {
            drop(copies);
            Err(error)
        }
    }
}
