// The texts of values. Each piece is put behind what stands already. It calls itself for nested values
// alone.
ghost use Rattle.std.specs.Prelude.{◌≡◌, ◌++◌, IfOk, OnOk, codes, decimal, string_bytes};
ghost use Rattle.syn_value.specs.Texts.{ReadsBack, value_text};
ghost use Rattle.syn_value.specs.inner.Nodes.{items, meaning};
ghost use Rattle.syn_value.specs.inner.Printing.{comma_text, items_text};

use crate::nodes::{Node, Seq};
use crate::value::Value;
use itoa::Buffer;
use std::alloc::Global;
use syn_term::NoMemory;

/// The text of the value, without blanks: `[(1,2),(3,4)]`. The one error is want of memory.
pub fn print_value(alloc: Global, v: &Value) -> Result<String, NoMemory>
    ensures text { IfOk result (λ text. string_bytes text ≡ value_text v.now) }
    ensures law { ReadsBack }
{
    let mut out = String::new(alloc);
    match put_node(&mut out, &v.node) {
        Ok(()) => Ok(out),
        Err(error) => {
            drop(out);
            Err(error)
        }
    }
}

#[cycle(print)]
fn put_node(out: &mut String, node: &Node) -> Result<(), NoMemory>
    ensures { OnOk result (string_bytes out.new ≡ string_bytes out.old ++ value_text (meaning node.now)) }
{
    match node {
        Node::Num(n) => put_number(out, *n),
        Node::List(seq) => put_items(out, "[", seq, "]"),
        Node::Tuple(seq) => put_items(out, "(", seq, ")"),
    }
}

/// The items, with a comma between and the brackets round them.
#[cycle(print)]
fn put_items(out: &mut String, left: &str, seq: &Seq, right: &str) -> Result<(), NoMemory>
    ensures { OnOk result (string_bytes out.new ≡ string_bytes out.old ++ (left.now ++ (items_text (items seq.now) ++ right.now))) }
{
    put(out, left)?;
    let mut rest = seq;
    let mut inside = false;
    loop {
        match rest.parts() {
            None => return put(out, right),
            Some((item, next)) => {
                put_comma(out, inside)?;
                put_node(out, item)?;
                inside = true;
                rest = next;
            }
        }
    }
}

/// Puts a comma, where one is wanted.
fn put_comma(out: &mut String, wanted: bool) -> Result<(), NoMemory>
    ensures { OnOk result (string_bytes out.new ≡ string_bytes out.old ++ comma_text wanted) }
{
    if wanted {
        return put(out, ",");
    }
    Ok(())
}

/// Puts the text behind what stands already.
fn put(out: &mut String, text: &str) -> Result<(), NoMemory>
    ensures { OnOk result (string_bytes out.new ≡ string_bytes out.old ++ text.now) }
{
    out.push_str(text)?;
    Ok(())
}

/// Puts the number, in decimal, behind what stands already.
fn put_number(out: &mut String, number: u64) -> Result<(), NoMemory>
    ensures { OnOk result (string_bytes out.new ≡ string_bytes out.old ++ decimal number) }
{
    let mut buffer = Buffer::new();
    put(out, buffer.format(number))
}
