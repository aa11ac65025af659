//! Blocks of an `await` that are never taken.
use crate::remark::{Kind, Remark};
use crate::text::Text;
use da_lang::{Branch, Expr, Stmt, TimeoutTree};
use da_values::List;

/// Remarks on the blocks of a statement that stand beside one which can always be taken, and on those that never can.
pub fn tell_waits(text: Text<'_>, stmt: &Stmt, out: &mut List<Remark>) {
    let Stmt::Await { alts, timeout, .. } = stmt else {
        return;
    };
    let alternatives = alts.as_slice();
    tell_false(text, alternatives, out);
    let always = alternatives
        .iter()
        .find(|branch| is_truth(branch.cond.get(), true));
    if let Some(first) = always {
        tell_behind(text, alternatives, first.line, out);
        if let Some(tree) = timeout {
            tell_timeout(text, tree, first.line, out);
        }
    }
}

// Whether an expression is this truth value, written out.
fn is_truth(x: &Expr, wanted: bool) -> bool {
    match x {
        Expr::Truth(truth) => *truth == wanted,
        _ => false,
    }
}

// Alternatives that are `false`, beside others.
fn tell_false(text: Text<'_>, alternatives: &[Branch], out: &mut List<Remark>) {
    if alternatives.len() < 2 {
        return;
    }
    for branch in alternatives {
        if is_truth(branch.cond.get(), false) {
            let mut told = text.phrase();
            told.put(b"this alternative is never taken, since 'false' is never true: take it away");
            text.remark(Kind::Never, branch.line, b"false", told, out);
        }
    }
}

// Alternatives behind the first that is always true.
fn tell_behind(text: Text<'_>, alternatives: &[Branch], line: u32, out: &mut List<Remark>) {
    for branch in alternatives {
        if branch.line > line {
            let mut told = text.phrase();
            told.put(b"a node takes the first true alternative, and that of line ");
            told.number(u64::from(line));
            told.put(
                b" is always true: no node takes this one; put it in front, or give that one a condition",
            );
            text.remark(Kind::Never, branch.line, b"or", told, out);
        }
    }
}

// A block for a timeout beside an alternative that is always true.
fn tell_timeout(text: Text<'_>, tree: &TimeoutTree, line: u32, out: &mut List<Remark>) {
    let mut told = text.phrase();
    told.put(b"the timeout is never taken, since the alternative of line ");
    told.number(u64::from(line));
    told.put(b" is always true: take it away, or give that one a condition");
    text.remark(Kind::Never, tree.line, b"timeout", told, out);
}
