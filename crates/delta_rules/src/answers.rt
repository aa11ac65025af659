//! The answers of a process, kept by changes.
use crate::empty::laid_for;
use crate::first::first_rows;
use crate::fixed::Fixed;
use crate::slots::slot_id;
use crate::uses::{all_named, used_slots};
use answer_index::{AnswerSet, IdRow, intern_row};
use da_values::{NoMemory, Row, Value};
use history_live::live_patterns;
use query_plan::Plan;
use row_pool::Pool;
use row_terms::{Locals, copy_row};
use std::alloc::Global;
use std::marker::Brand;
use std::sync::ledger::Blank;

/// What a process of a class has to know of its past: its number, its slots, the rows of each node of the stored plan and those
/// of each live pattern. A row is read by a question of this crate alone. The values are those of a pool, of which the answers
/// hold the ids of `ids_of_answers`; answers that are only dropped leave these counted.
///
/// Nobody else reaches the slots and the sets: a caller changes them by updates alone, learns of a node whether it has a row
/// (`flag`), and reads rows only as what a query tells. Whoever has a counter of steps and no answers to change can read no
/// row by it.
#[derive(Drop)]
pub struct Answers {
    /// The number of the process.
    pub me: u16,
    pub(crate) slots: IdRow,
    // The values of the slots beside the pool.
    pub(crate) values: Row,
    pub(crate) nodes: Vec<AnswerSet>,
    pub(crate) live: Vec<AnswerSet>,
    pub(crate) fixed: Fixed,
}

impl Answers {
    ghost use Rattle.da_lang.specs.declared.query.Node.{Node};
    ghost use Rattle.da_lang.specs.World.{Data, value_in};
    ghost use Rattle.da_values.specs.Value.{val_of};
    ghost use Rattle.delta_rules.specs.Forms.{HasWidths};
    ghost use Rattle.delta_rules.specs.Holding.{ids_of_answers};
    ghost use Rattle.delta_rules.specs.Keeping.{Keeps, all_live, slots_of};
    ghost use Rattle.delta_rules.specs.Laid.{IsLaid};
    ghost use Rattle.query_plan.specs.Nodes.{IsPlan};
    ghost use Rattle.query_plan.specs.PlainNodes.{PlainNodes};
    ghost use Rattle.row_pool.specs.Cells.{Cells};
    ghost use Rattle.row_pool.specs.Pool.{HoldsAll};
    ghost use Rattle.std.specs.Prelude.{◌≡◌, [], IfOk, List as Seq, length, map, sum};

    /// The answers of a process of this number with these slots that has neither sent nor received a message. The pool is
    /// empty before, and nobody else may hold an id of it after. `NoMemory` comes where memory is refused, where a value would
    /// have 2^128 holders, and where a sum is outside an i128.
    pub fn new(
        alloc: Global,
        plan: &Plan,
        me: u16,
        slots: &Row,
        pool: &mut Pool,
    ) -> Result<Answers, NoMemory>
        requires plan { IsPlan plan.now.nodes }
        requires plain { PlainNodes plan.now.nodes }
        requires none { pool.old ≡ [] }
        ensures kept { IfOk result (λ answers. (d : Data) → d.me ≡ me → d.slots ≡ slots.now → d.sent ≡ [] → d.received ≡ []
            → Keeps answers pool.new plan.now.nodes d) }
        ensures laid { IfOk result (λ answers. IsLaid answers pool.new plan.now.nodes) }
        ensures width { IfOk result (λ answers. HasWidths answers plan.now.nodes) }
        ensures held { IfOk result (λ answers. HoldsAll pool.new (ids_of_answers answers)) }
    {
        let live = live_patterns(alloc, plan)?;
        let nodes = plan.nodes.as_slice();
        let mut laid = laid_for(alloc, nodes, live.patterns.as_slice())?;
        let named = all_named(alloc, nodes)?;
        let used = used_slots(alloc, nodes)?;
        let locals = Locals { alloc, me, slots };
        let ids = intern_row(alloc, slots.as_slice(), pool)?;
        let values = copy_row(alloc, slots)?;
        first_rows::<Brand>(
            &locals,
            nodes,
            laid.rules.as_slice(),
            named.as_slice(),
            laid.live.as_slice(),
            &mut laid.nodes,
            pool,
            Blank::new(1),
        )?;
        Ok(Answers {
            me,
            slots: ids,
            values,
            nodes: laid.nodes,
            live: laid.live,
            fixed: Fixed {
                live,
                rules: laid.rules,
                named,
                used,
            },
        })
    }

    /// The value of a slot, numbered from 1; process 0, which is no process, where there is no such slot.
    pub fn slot(&self, s: u16, pool: &Pool) -> Result<Value, NoMemory>
        ensures { IfOk result (λ v. val_of v ≡ value_in (slots_of self.now pool.now) s) }
    {
        match slot_id(&self.slots, s) {
            Some(id) => pool.value(id),
            None => Ok(Value::Proc(0)),
        }
    }

    /// The values of all slots. It takes no memory.
    pub fn slot_values(&self) -> &Row
        ensures { result.now ≡ self.now.values }
    {
        &self.values
    }

    /// How many rows the live patterns have, together. It takes no memory. The sum has fewer than 2^64 terms below 2^64, so a
    /// u128 holds it.
    pub fn kept(&self) -> u128
        ensures { (pool : Cells) (nodes : Seq Node) (d : Data) → Keeps self.now pool nodes d → result ≡ sum (map length (all_live d nodes)) }
    {
        let mut total: u128 = 0;
        for place in 0..self.live.len() {
            total += self.live[place].len() as u128;
        }
        total
    }
}
