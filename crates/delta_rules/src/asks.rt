//! What kept answers tell of the numbered queries of a class.
ghost use Rattle.da_lang.specs.World.{at_number};
ghost use Rattle.std.specs.Option.{option_copied};
ghost use Rattle.std.specs.Prelude.{◌≡◌};

use crate::answers::Answers;
use crate::reading::{all_rows, front_row, least_row};
use da_lang::{QueryNode, Shape};
use da_values::{List, NoMemory, Row, SetVal, Value};
use query_plan::{Plan, Stored};
use row_pool::Pool;
use row_terms::{Locals, told_listed, told_value};
use std::alloc::Global;

// The node of a query, numbered from 1, or `None` where there is no such query.
fn query_node(plan: &Plan, q: u32) -> Option<&QueryNode>
    ensures { option_copied result ≡ at_number plan.now.queries q }
{
    match q.checked_sub(1) {
        Some(at) => plan.queries.get(at as usize),
        None => None,
    }
}

impl Answers {
    ghost use Rattle.answer_index.specs.Answers.{IsSet};
    ghost use Rattle.da_lang.specs.Queries.{first};
    ghost use Rattle.da_lang.specs.World.{Data};
    ghost use Rattle.da_values.specs.declared.val.Val.TheVariants as val;
    ghost use Rattle.da_values.specs.Value.{val_of};
    ghost use Rattle.delta_rules.specs.Keeping.{Sees};
    ghost use Rattle.delta_rules.specs.Laid.{IsLaid};
    ghost use Rattle.delta_rules.specs.Told.{asked, kept_rows, least_found, set_listed};
    ghost use Rattle.query_plan.specs.Told.{told_least, told_shown, told_value as told_value_def};
    ghost use Rattle.std.specs.List.{All};
    ghost use Rattle.std.specs.Prelude.{◌≡◌, IfOk, map, take};

    /// The value of query `q` of the plan, numbered from 1, by what is stored in the place of the plan; process 0, which is no
    /// process, where there is no such query.
    pub fn ask(
        &self,
        alloc: Global,
        plan: &Plan,
        stored: &Stored,
        q: u32,
        pool: &Pool,
    ) -> Result<Value, NoMemory>
        ensures { IfOk result (λ v. (d : Data) → Sees self.now pool.now stored.now plan.now.nodes d → val_of v ≡ asked d plan.now q) }
    {
        match query_node(plan, q) {
            Some(query) => self.value_at(alloc, stored, query, pool),
            None => Ok(Value::Proc(0)),
        }
    }

    /// The least row of query `q`, numbered from 1, where it is a `some` that holds.
    pub fn found(
        &self,
        alloc: Global,
        plan: &Plan,
        stored: &Stored,
        q: u32,
        pool: &Pool,
    ) -> Result<Option<Row>, NoMemory>
        ensures { IfOk result (λ row. (d : Data) → Sees self.now pool.now stored.now plan.now.nodes d → row ≡ least_found d plan.now q) }
    {
        match query_node(plan, q) {
            Some(query) => self.least_at(alloc, stored, query, pool),
            None => Ok(None),
        }
    }

    /// The set that `show` lists of query `q`, numbered from 1: its rows as tuples.
    pub fn listed(
        &self,
        alloc: Global,
        plan: &Plan,
        stored: &Stored,
        q: u32,
        pool: &Pool,
    ) -> Result<SetVal, NoMemory>
        requires { IsLaid self.now pool.now stored.now.plan.nodes }
        ensures { IfOk result (λ set. (d : Data) → Sees self.now pool.now stored.now plan.now.nodes d → set ≡ set_listed d plan.now q) }
    {
        match query_node(plan, q) {
            Some(query) => self.set_at(alloc, stored, query, pool),
            None => Ok(SetVal::new(alloc)),
        }
    }

    // The number, and the slots.
    fn locals(&self, alloc: Global) -> Locals<'_>
        ensures me { result.me ≡ self.now.me }
        ensures slots { result.slots.now ≡ self.now.values }
    {
        Locals {
            alloc,
            me: self.me,
            slots: &self.values,
        }
    }

    // The rows of a node.
    fn rows_at(
        &self,
        alloc: Global,
        stored: &Stored,
        node: u32,
        pool: &Pool,
    ) -> Result<List<Row>, NoMemory>
        ensures { IfOk result (λ rows. rows ≡ kept_rows self.now pool.now stored.now node) }
    {
        match self.seen_set(stored, node) {
            Some(set) => all_rows(alloc, set, pool),
            None => Ok(List::new(alloc)),
        }
    }

    // The first of them, if there is one, as a list.
    fn front_at(
        &self,
        alloc: Global,
        stored: &Stored,
        node: u32,
        pool: &Pool,
    ) -> Result<List<Row>, NoMemory>
        ensures { IfOk result (λ rows. rows ≡ take 1 (kept_rows self.now pool.now stored.now node)) }
    {
        match self.seen_set(stored, node) {
            Some(set) => front_row(alloc, set, pool),
            None => Ok(List::new(alloc)),
        }
    }

    // The first of them, if there is one.
    fn first_at(
        &self,
        alloc: Global,
        stored: &Stored,
        node: u32,
        pool: &Pool,
    ) -> Result<Option<Row>, NoMemory>
        ensures { IfOk result (λ row. row ≡ first (kept_rows self.now pool.now stored.now node)) }
    {
        match self.seen_set(stored, node) {
            Some(set) => least_row(alloc, set, pool),
            None => Ok(None),
        }
    }

    // As many of them as the value of a query needs: of a comprehension all, and else the first.
    fn rows_for(
        &self,
        alloc: Global,
        stored: &Stored,
        query: &QueryNode,
        pool: &Pool,
    ) -> Result<List<Row>, NoMemory>
        ensures { IfOk result (λ rows. (d : Data)
            → told_value_def d query.now.shape rows ≡ told_value_def d query.now.shape (kept_rows self.now pool.now stored.now query.now.node)) }
    {
        match query.shape {
            Shape::Exists => self.front_at(alloc, stored, query.node, pool),
            Shape::Each => self.front_at(alloc, stored, query.node, pool),
            Shape::Comp(_) => self.rows_at(alloc, stored, query.node, pool),
            Shape::Agg => self.front_at(alloc, stored, query.node, pool),
        }
    }

    // The value of a query.
    fn value_at(
        &self,
        alloc: Global,
        stored: &Stored,
        query: &QueryNode,
        pool: &Pool,
    ) -> Result<Value, NoMemory>
        ensures { IfOk result (λ v. (d : Data) → d.me ≡ self.now.me → d.slots ≡ self.now.values
            → val_of v ≡ told_value_def d query.now.shape (kept_rows self.now pool.now stored.now query.now.node)) }
    {
        let rows = self.rows_for(alloc, stored, query, pool)?;
        let locals = self.locals(alloc);
        let v = told_value(&locals, &query.shape, rows.as_slice())?;
        Ok(v)
    }

    // The set that `show` lists of a query.
    fn set_at(
        &self,
        alloc: Global,
        stored: &Stored,
        query: &QueryNode,
        pool: &Pool,
    ) -> Result<SetVal, NoMemory>
        requires { All (λ set. IsSet set pool.now) self.now.nodes.items }
        ensures { IfOk result (λ set. (d : Data) → d.me ≡ self.now.me → d.slots ≡ self.now.values
            → set ≡ map val.Tuple (told_shown d query.now.shape (kept_rows self.now pool.now stored.now query.now.node))) }
    {
        let rows = self.rows_at(alloc, stored, query.node, pool)?;
        let locals = self.locals(alloc);
        let set = told_listed(&locals, &query.shape, rows.as_slice())?;
        Ok(set)
    }

    // The row that a query binds, if any.
    fn least_at(
        &self,
        alloc: Global,
        stored: &Stored,
        query: &QueryNode,
        pool: &Pool,
    ) -> Result<Option<Row>, NoMemory>
        ensures { IfOk result (λ row. row ≡ told_least query.now.shape (kept_rows self.now pool.now stored.now query.now.node)) }
    {
        match query.shape {
            Shape::Exists => self.first_at(alloc, stored, query.node, pool),
            Shape::Each => Ok(None),
            Shape::Comp(_) => Ok(None),
            Shape::Agg => Ok(None),
        }
    }
}
