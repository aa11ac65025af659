//! Nodes by what is stored of them.
ghost use Rattle.std.specs.Prelude.{◌≡◌, if◌then◌else◌, not};

use crate::answers::Answers;
use answer_index::AnswerSet;
use query_plan::{Seen, Stored, Test};

// Whether a node has a row that is to have one, or has none that is to have none.
fn as_wanted(filled: bool, there: bool) -> bool
    ensures { result ≡ (if filled then there else not there) }
{
    if filled { there } else { !there }
}

impl Answers {
    ghost use Rattle.answer_index.specs.Answers.{rows_of};
    ghost use Rattle.da_lang.specs.declared.query.Node.{Node};
    ghost use Rattle.da_lang.specs.World.{Data};
    ghost use Rattle.delta_rules.specs.Keeping.{Sees};
    ghost use Rattle.delta_rules.specs.Told.{kept_rows, stored_rows};
    ghost use Rattle.query_plan.specs.Nodes.{node_rows};
    ghost use Rattle.query_plan.specs.Seen.{are_met as are_met_def, given, is_met as is_met_def};
    ghost use Rattle.query_plan.specs.Told.{has_row as has_row_def};
    ghost use Rattle.row_pool.specs.Cells.{Cells};
    ghost use Rattle.std.specs.Prelude.{◌≡◌, [], List as Seq, MatchOption};

    /// Whether a node of the plan has a row, by what is stored in the place of the plan. It takes no memory and no step.
    pub fn flag(&self, stored: &Stored, node: u32) -> bool
        ensures { (pool : Cells) (nodes : Seq Node) (d : Data) → Sees self.now pool stored.now nodes d → result ≡ has_row_def (node_rows d nodes node) }
    {
        match self.seen_set(stored, node) {
            Some(set) => set.len() > 0,
            None => false,
        }
    }

    // The set with the rows of a node of the plan; there may be none where it has no row.
    pub(crate) fn seen_set(&self, stored: &Stored, node: u32) -> Option<&AnswerSet>
        ensures { (pool : Cells) → MatchOption result
            (kept_rows self.now pool stored.now node ≡ [])
            (λ set. kept_rows self.now pool stored.now node ≡ rows_of set.now pool) }
    {
        match stored.seen.get(node as usize) {
            Some(entry) => self.entry_set(entry),
            None => None,
        }
    }

    // The same of an entry.
    fn entry_set(&self, entry: &Seen) -> Option<&AnswerSet>
        ensures { (pool : Cells) → MatchOption result
            (given (stored_rows self.now pool) entry.now ≡ [])
            (λ set. given (stored_rows self.now pool) entry.now ≡ rows_of set.now pool) }
    {
        if !self.are_met(entry.tests.as_slice()) {
            return None;
        }
        self.stored_set(entry.node)
    }

    // The set of a stored node, if there is such a node.
    fn stored_set(&self, node: u32) -> Option<&AnswerSet>
        ensures { (pool : Cells) → MatchOption result
            (stored_rows self.now pool node ≡ [])
            (λ set. stored_rows self.now pool node ≡ rows_of set.now pool) }
    {
        match self.nodes.get(node as usize) {
            Some(set) => Some(set),
            None => None,
        }
    }

    // Whether each test is met.
    fn are_met(&self, tests: &[Test]) -> bool
        ensures { (pool : Cells) → result ≡ are_met_def (stored_rows self.now pool) tests.now }
    {
        for one in tests {
            if !self.is_met(*one) {
                return false;
            }
        }
        true
    }

    // Whether a test is met.
    fn is_met(&self, test: Test) -> bool
        ensures { (pool : Cells) → result ≡ is_met_def (stored_rows self.now pool) test }
    {
        let there = self.has_row(test.node);
        as_wanted(test.filled, there)
    }

    // Whether a stored node has a row.
    fn has_row(&self, node: u32) -> bool
        ensures { (pool : Cells) → result ≡ has_row_def (stored_rows self.now pool node) }
    {
        match self.stored_set(node) {
            Some(set) => set.len() > 0,
            None => false,
        }
    }
}
