// Values and lists of values. A list has its first item and its rest in no time and memory, and so one
// item more in front; whoever holds the list still has it then.
ghost use Rattle.std.specs.Prelude.{◌≡◌, ◌∷◌, [], ◌↔◌, IsTrue, IfOk, MatchOption};
ghost use Rattle.syn_value.specs.Values.{list_of, number_of, tuple_of};
ghost use Rattle.syn_value.specs.declared.tree.ValueTree.TheVariants as tree;
ghost use Rattle.syn_value.specs.declared.tree.ValueTree.TheViews as view;

use crate::nodes::{Node, Seq, cons};
use sqlite_items::Items;
use std::alloc::Global;
use std::marker::Model;
use syn_term::NoMemory;

/// A number, a list or a tuple. Contracts see it as a tree.
#[derive(Drop)]
pub struct Value {
    pub(crate) node: Node,
}

impl Model for Value {
    ghost use Rattle.syn_value.specs.declared.tree.ValueTree.{ValueTree};
    ghost use Rattle.syn_value.specs.contracts.tree.ValueTree as T;
    ghost use Rattle.syn_value.specs.inner.Nodes.{meaning};

    ghost Value = { ValueTree };

    ghost coded = { T.the_row.coded };

    ghost view = { λ v. meaning v.node };
}

/// A list of values. Letting go of it is a loop over its items; it takes stack for nested lists alone,
/// and lists are nested no deeper than their sorts are.
#[derive(Drop)]
pub struct Values {
    pub(crate) seq: Seq,
}

impl Model for Values {
    ghost use Rattle.std.specs.Prelude.{List};
    ghost use Rattle.std.specs.Coded.{coded_list};
    ghost use Rattle.syn_value.specs.declared.tree.ValueTree.{ValueTree};
    ghost use Rattle.syn_value.specs.contracts.tree.ValueTree as T;
    ghost use Rattle.syn_value.specs.inner.Nodes.{items};

    ghost Value = { List ValueTree };

    ghost coded = { coded_list T.the_row.coded };

    ghost view = { λ v. items v.seq };
}

impl Value {
    /// The number as a value.
    pub fn number(n: u64) -> Value
        ensures { result ≡ tree.Num n }
    {
        Value { node: Node::Num(n) }
    }

    /// The list of these items.
    pub fn list(items: Values) -> Value
        ensures { result ≡ view.List items }
    {
        let Values { seq } = items;
        Value {
            node: Node::List(seq),
        }
    }

    /// The tuple of these parts.
    pub fn tuple(parts: Values) -> Value
        ensures { result ≡ view.Tuple parts }
    {
        let Values { seq } = parts;
        Value {
            node: Node::Tuple(seq),
        }
    }

    /// The number; None where it is none.
    #[tactic(auto, using(crate::proofs::Layers::layers))]
    pub fn as_number(&self) -> Option<u64>
        ensures { result ≡ number_of self.now }
    {
        match self.node {
            Node::Num(n) => Some(n),
            _ => None,
        }
    }

    /// The items; None where it is no list. The one error is that the count of owners is at its end.
    #[tactic(auto, using(crate::proofs::Layers::layers))]
    pub fn as_list(&self) -> Result<Option<Values>, NoMemory>
        ensures { IfOk result (λ o. o ≡ list_of self.now) }
    {
        match &self.node {
            Node::List(seq) => Ok(Some(Values { seq: seq.again()? })),
            _ => Ok(None),
        }
    }

    /// The parts in their order; None where it is no tuple. The one error is that the count of owners
    /// is at its end.
    #[tactic(auto, using(crate::proofs::Layers::layers))]
    pub fn as_tuple(&self) -> Result<Option<Values>, NoMemory>
        ensures { IfOk result (λ o. o ≡ tuple_of self.now) }
    {
        match &self.node {
            Node::Tuple(seq) => Ok(Some(Values { seq: seq.again()? })),
            _ => Ok(None),
        }
    }

    /// One more owner of the same value. It takes no memory; the one error is that the count of owners
    /// is at its end.
    pub fn again(&self) -> Result<Value, NoMemory>
        ensures { IfOk result (λ v. v ≡ self.now) }
    {
        Ok(Value {
            node: self.node.again()?,
        })
    }
}

impl Values {
    /// No values.
    pub fn empty() -> Values
        ensures { result ≡ [] }
    {
        Values { seq: Seq::End }
    }

    /// One item in front of the others.
    pub fn cons(alloc: Global, item: Value, rest: Values) -> Result<Values, NoMemory>
        ensures { IfOk result (λ s. s ≡ item ∷ rest) }
    {
        let Value { node } = item;
        let Values { seq } = rest;
        Ok(Values {
            seq: cons(alloc, node, seq)?,
        })
    }

    /// These values in their order.
    pub fn from_items(alloc: Global, values: Items<Value>) -> Result<Values, NoMemory>
        ensures { IfOk result (λ s. s ≡ values) }
    {
        let mut values = values;
        let mut made = Values::empty();
        while let Some(last) = values.pop() {
            match Values::cons(alloc, last, made) {
                Ok(longer) => made = longer,
                Err(error) => {
                    drop(values);
                    return Err(error);
                }
            }
        }
        Ok(made)
    }

    /// The first item and the rest; None where there are no items. The one error is that the count of
    /// owners is at its end.
    pub fn parts(&self) -> Result<Option<(Value, Values)>, NoMemory>
        ensures { IfOk result (λ o. MatchOption o (self.now ≡ []) (λ p. self.now ≡ p.0 ∷ p.1)) }
    {
        match self.seq.parts() {
            None => Ok(None),
            Some((item, rest)) => {
                let node = item.again()?;
                match rest.again() {
                    Ok(seq) => Ok(Some((Value { node }, Values { seq }))),
                    Err(error) => {
                        drop(node);
                        Err(error.into())
                    }
                }
            }
        }
    }

    /// Whether there are no items.
    pub fn is_empty(&self) -> bool
        ensures { IsTrue result ↔ (self.now ≡ []) }
    {
        self.seq.parts().is_none()
    }

    /// One more owner of the same list. It takes no memory; the one error is that the count of owners
    /// is at its end.
    pub fn again(&self) -> Result<Values, NoMemory>
        ensures { IfOk result (λ s. s ≡ self.now) }
    {
        Ok(Values {
            seq: self.seq.again()?,
        })
    }
}
