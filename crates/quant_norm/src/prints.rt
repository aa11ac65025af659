//! The print of a node: a number by which it differs from most others.
ghost use Rattle.quant_norm.specs.Prints.{node_print, print_from, print_step};
ghost use Rattle.std.specs.Prelude.{◌≡◌, IfOk};

use da_lang::Node;
use da_values::NoMemory;
use query_plan::node_line;
use std::alloc::Global;

const FACTOR: u64 = 31;

const MODULUS: u64 = 4_294_967_296;

/// The print of a node, which is that of its text. Equal nodes have the same one.
pub fn print_node(alloc: Global, node: &Node) -> Result<u32, NoMemory>
    ensures { IfOk result (λ print. print ≡ node_print node.now) }
{
    let text = node_line(alloc, node, &[])?;
    Ok(print_text(text.as_slice()))
}

// The print of a text.
fn print_text(text: &[u8]) -> u32
    ensures { result ≡ print_from 0 text.now }
{
    let mut print = 0;
    for byte in text {
        print = next_print(print, *byte);
    }
    print
}

// With one more byte.
fn next_print(print: u32, byte: u8) -> u32
    ensures { result ≡ print_step print byte }
{
    ((FACTOR * u64::from(print) + u64::from(byte)) % MODULUS) as u32
}
