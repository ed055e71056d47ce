// How values are kept: a list is a chain of shared cells, so that taking its first item off or putting
// one in front copies nothing, whoever else holds it. A tuple is kept as the list of its parts.
ghost use Rattle.std.specs.Prelude.{◌≡◌, ◌<◌, ◌∷◌, [], IfOk, IfSome, MatchOption};
ghost use Rattle.syn_value.specs.declared.nodes.Node.{size-Node};
ghost use Rattle.syn_value.specs.declared.nodes.Seq.{size-Seq};
ghost use Rattle.syn_value.specs.inner.Nodes.{items, meaning};

use crate::pointer::Link;
use std::alloc::{AllocError, Global};

#[cycle(value)]
#[derive(Drop)]
pub(crate) enum Node {
    Num(u64),
    List(Seq),
    Tuple(Seq),
}

#[cycle(value)]
pub(crate) enum Seq {
    End,
    More(Link<Cell>),
}

#[cycle(value)]
#[derive(Drop)]
pub(crate) struct Cell {
    pub(crate) item: Node,
    pub(crate) rest: Seq,
}

impl Drop for Seq {
    #[cycle(value)]
    fn drop(mut self) {
        loop {
            match self {
                Seq::End => return,
                Seq::More(cell) => match cell.into_inner() {
                    None => return,
                    Some(Cell { item, rest }) => {
                        drop(item);
                        self = rest;
                    }
                },
            }
        }
    }
}

impl Node {
    pub(crate) fn again(&self) -> Result<Node, AllocError>
        ensures { IfOk result (λ n. n ≡ self.now) }
    {
        match self {
            Node::Num(n) => Ok(Node::Num(*n)),
            Node::List(seq) => Ok(Node::List(seq.again()?)),
            Node::Tuple(seq) => Ok(Node::Tuple(seq.again()?)),
        }
    }
}

/// One item in front of the others.
pub(crate) fn cons(alloc: Global, item: Node, rest: Seq) -> Result<Seq, AllocError>
    ensures { IfOk result (λ s. items s ≡ meaning item ∷ items rest) }
{
    Ok(Seq::More(Link::new(alloc, Cell { item, rest })?))
}

impl Seq {
    /// The first item and the rest, which are less than the whole.
    pub(crate) fn parts(&self) -> Option<(&Node, &Seq)>
        ensures less { IfSome result (λ p. (size-Node p.0.now < size-Seq self.now) × (size-Seq p.1.now < size-Seq self.now)) }
        ensures parts { MatchOption result (items self.now ≡ []) (λ p. items self.now ≡ meaning p.0.now ∷ items p.1.now) }
    {
        match self {
            Seq::End => None,
            Seq::More(cell) => {
                let cell = cell.get();
                Some((&cell.item, &cell.rest))
            }
        }
    }

    pub(crate) fn again(&self) -> Result<Seq, AllocError>
        ensures { IfOk result (λ s. s ≡ self.now) }
    {
        match self {
            Seq::End => Ok(Seq::End),
            Seq::More(cell) => Ok(Seq::More(cell.again()?)),
        }
    }
}
