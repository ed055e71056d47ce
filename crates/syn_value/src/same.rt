// Whether two values are one. It calls itself for nested values alone.
ghost use Rattle.std.specs.Prelude.{◌≡◌, ◌↔◌, IsTrue};
ghost use Rattle.syn_value.specs.inner.Nodes.{items, meaning};

use crate::nodes::{Node, Seq};
use crate::value::Value;

impl Value {
    /// Whether the two are the same value. It takes no memory, and stack for nested values alone.
    pub fn same(&self, other: &Value) -> bool
        ensures { IsTrue result ↔ (self.now ≡ other.now) }
    {
        same_nodes(&self.node, &other.node)
    }
}

#[cycle(same)]
fn same_nodes(a: &Node, b: &Node) -> bool
    ensures { IsTrue result ↔ (meaning a.now ≡ meaning b.now) }
{
    match (a, b) {
        (Node::Num(m), Node::Num(n)) => *m == *n,
        (Node::List(xs), Node::List(ys)) => same_items(xs, ys),
        (Node::Tuple(xs), Node::Tuple(ys)) => same_items(xs, ys),
        _ => false,
    }
}

#[cycle(same)]
fn same_items(a: &Seq, b: &Seq) -> bool
    ensures { IsTrue result ↔ (items a.now ≡ items b.now) }
{
    let mut xs = a;
    let mut ys = b;
    loop {
        match (xs, ys) {
            (Seq::More(x), Seq::More(y)) => {
                if !same_nodes(&x.get().item, &y.get().item) {
                    return false;
                }
                xs = &x.get().rest;
                ys = &y.get().rest;
            }
            (Seq::End, Seq::End) => return true,
            _ => return false,
        }
    }
}
