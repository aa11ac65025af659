//! Equality of nodes. It takes no memory.
ghost use Rattle.query_plan.specs.Spelled.{same_node};
ghost use Rattle.std.specs.Prelude.{◌≡◌, ◌↔◌, IsTrue};

use da_lang::{Node, Term, same_cond, same_gen, same_term};

/// Whether two terms that may be left out are equal.
pub fn same_other(a: &Option<Term>, b: &Option<Term>) -> bool
    ensures { IsTrue result ↔ (a.now ≡ b.now) }
{
    match (a, b) {
        (None, None) => true,
        (Some(x), Some(y)) => same_term(x, y),
        _ => false,
    }
}

// Whether two nodes are equal.
fn is_same(a: &Node, b: &Node) -> bool
    ensures { IsTrue result ↔ (a.now ≡ b.now) }
{
    match (a, b) {
        (Node::Root, Node::Root) => true,
        (
            Node::Gen { parent, gen_ },
            Node::Gen {
                parent: other_parent,
                gen_: other_gen,
            },
        ) => *parent == *other_parent && same_gen(gen_, other_gen),
        (
            Node::Filter { parent, cond },
            Node::Filter {
                parent: other_parent,
                cond: other_cond,
            },
        ) => *parent == *other_parent && same_cond(cond.get(), other_cond.get()),
        (
            Node::Semi { parent, child },
            Node::Semi {
                parent: other_parent,
                child: other_child,
            },
        ) => *parent == *other_parent && *child == *other_child,
        (
            Node::Anti { parent, child },
            Node::Anti {
                parent: other_parent,
                child: other_child,
            },
        ) => *parent == *other_parent && *child == *other_child,
        (
            Node::Union { left, right },
            Node::Union {
                left: other_left,
                right: other_right,
            },
        ) => *left == *other_left && *right == *other_right,
        (
            Node::AggBind {
                parent,
                child,
                op,
                term,
                other,
            },
            Node::AggBind {
                parent: other_parent,
                child: other_child,
                op: other_op,
                term: other_term,
                other: other_other,
            },
        ) => {
            *parent == *other_parent
                && *child == *other_child
                && *op == *other_op
                && same_term(term, other_term)
                && same_other(other, other_other)
        }
        _ => false,
    }
}

/// Whether two nodes are equal, and so one node of a plan.
pub fn same_node(a: &Node, b: &Node) -> bool
    ensures equal { IsTrue result ↔ (a.now ≡ b.now) }
    ensures one { result ≡ same_node a.now b.now }
{
    is_same(a, b)
}
