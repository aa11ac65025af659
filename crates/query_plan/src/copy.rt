//! Copies of nodes. Each is equal to what it is made from.
ghost use Rattle.std.specs.Prelude.{◌≡◌, IfOk};

use da_lang::{Node, Term, copy_cond, copy_gen, copy_term};
use da_values::{Boxed, List, NoMemory};
use std::alloc::Global;

/// A copy of the term of another value, which `count` and `sum` have not.
pub fn copy_other(alloc: Global, other: &Option<Term>) -> Result<Option<Term>, NoMemory>
    ensures { IfOk result (λ copy. copy ≡ other.now) }
{
    match other {
        None => Ok(None),
        Some(term) => Ok(Some(copy_term(alloc, term)?)),
    }
}

/// A copy of a node.
pub fn copy_node(alloc: Global, node: &Node) -> Result<Node, NoMemory>
    ensures { IfOk result (λ copy. copy ≡ node.now) }
{
    match node {
        Node::Root => Ok(Node::Root),
        Node::Gen { parent, gen_ } => Ok(Node::Gen {
            parent: *parent,
            gen_: copy_gen(alloc, gen_)?,
        }),
        Node::Filter { parent, cond } => Ok(Node::Filter {
            parent: *parent,
            cond: Boxed::new(alloc, copy_cond(alloc, cond.get())?)?,
        }),
        Node::Semi { parent, child } => Ok(Node::Semi {
            parent: *parent,
            child: *child,
        }),
        Node::Anti { parent, child } => Ok(Node::Anti {
            parent: *parent,
            child: *child,
        }),
        Node::Union { left, right } => Ok(Node::Union {
            left: *left,
            right: *right,
        }),
        Node::AggBind {
            parent,
            child,
            op,
            term,
            other,
        } => {
            let other = copy_other(alloc, other)?;
            let term = copy_term(alloc, term)?;
            Ok(Node::AggBind {
                parent: *parent,
                child: *child,
                op: *op,
                term,
                other,
            })
        }
    }
}

/// Copies of nodes.
pub fn copy_nodes(alloc: Global, nodes: &[Node]) -> Result<List<Node>, NoMemory>
    ensures { IfOk result (λ copy. copy ≡ nodes.now) }
{
    let mut copy = List::new(alloc);
    for node in nodes {
        copy.push(copy_node(alloc, node)?)?;
    }
    Ok(copy)
}
