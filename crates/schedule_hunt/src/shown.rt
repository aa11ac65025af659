//! What the actions of a run show.
ghost use Rattle.da_system.specs.StressRun.{is_fault, is_out};
ghost use Rattle.da_values.specs.Layer.{layer};
ghost use Rattle.da_values.specs.Value.{val_of, vals};
ghost use Rattle.da_values.specs.declared.val.Val.TheOpen.{Tuple};
ghost use Rattle.schedule_hunt.specs.Shown.{AnyOf, BeginsWith, CountsAs, EntersBeside, HasEnded as HasEndedIn, IsMet, OutputsDiffer, Overlaps, PutsOut, Says};
ghost use Rattle.schedule_hunt.specs.ShownSteps.{EntersAndIsMet, IsOtherOutput, IsOutput};
ghost use Rattle.std.specs.List.{list_any};
ghost use Rattle.std.specs.Prelude.{ℕ, ◌≡◌, ◌↔◌, ◌<◌, count_by, IsTrue, MatchOption};

use da_lang::Action;
use da_values::Value;

/// Whether a fault ends a process.
pub(crate) fn has_fault(actions: &[Action]) -> bool
    ensures { result ≡ list_any is_fault actions.now }
{
    let mut rest = actions;
    'actions: while let [action, others @ ..] = rest {
        if let Action::Fault { .. } = action {
            return true;
        }
        rest = others;
    }
    false
}

/// Whether there are more outputs than `k`.
pub(crate) fn has_more(k: u64, actions: &[Action]) -> bool
    ensures { IsTrue result ↔ (k < count_by is_out actions.now) }
{
    let mut left = k;
    let mut rest = actions;
    'actions: while let [action, others @ ..] = rest {
        if let Action::Out { .. } = action {
            if left == 0 {
                return true;
            }
            left -= 1;
        }
        rest = others;
    }
    false
}

/// Whether two outputs are not equal.
pub(crate) fn outputs_differ(actions: &[Action]) -> bool
    ensures { IsTrue result ↔ OutputsDiffer actions.now }
{
    match first_output(actions) {
        Some(value) => has_other(value, actions),
        None => false,
    }
}

// The first output, if there is one.
fn first_output(actions: &[Action]) -> Option<&Value>
    ensures { MatchOption result (AnyOf IsOutput actions.now → ⊥) (λ value. AnyOf (PutsOut value.now) actions.now) }
{
    let mut rest = actions;
    'actions: while let [action, others @ ..] = rest {
        if let Action::Out { v, .. } = action {
            return Some(v);
        }
        rest = others;
    }
    None
}

// Whether there is an output of another value.
fn has_other(value: &Value, actions: &[Action]) -> bool
    ensures { IsTrue result ↔ AnyOf (IsOtherOutput value.now) actions.now }
{
    let mut rest = actions;
    'actions: while let [action, others @ ..] = rest {
        if is_other(value, action) {
            return true;
        }
        rest = others;
    }
    false
}

// Whether an action is an output of another value.
fn is_other(value: &Value, action: &Action) -> bool
    ensures { IsTrue result ↔ IsOtherOutput value.now action.now }
{
    match action {
        Action::Out { v, .. } => v != value,
        _ => false,
    }
}

/// Whether process `p` has used up its statements.
pub(crate) fn has_ended(p: usize, actions: &[Action]) -> bool
    ensures { IsTrue result ↔ HasEndedIn p actions.now }
{
    let mut rest = actions;
    'actions: while let [action, others @ ..] = rest {
        if is_end_of(p, action) {
            return true;
        }
        rest = others;
    }
    false
}

// Whether an action is the end of process `p`.
fn is_end_of(p: usize, action: &Action) -> bool
    ensures { IsTrue result ↔ (action.now ≡ Action.End p) }
{
    match action {
        Action::End { p: process } => usize::from(*process) == p,
        _ => false,
    }
}

/// Whether a process enters while another one is inside.
pub(crate) fn overlaps(enter: &Value, leave: &Value, actions: &[Action]) -> bool
    ensures { IsTrue result ↔ Overlaps (val_of enter.now) (val_of leave.now) actions.now }
{
    let mut rest = actions;
    'actions: while let [action, others @ ..] = rest {
        if enters_and_is_met(enter, leave, action, others) {
            return true;
        }
        rest = others;
    }
    false
}

// Whether an action is the entry of a process that another one meets in what follows.
fn enters_and_is_met(enter: &Value, leave: &Value, action: &Action, others: &[Action]) -> bool
    ensures { IsTrue result ↔ EntersAndIsMet (val_of enter.now) (val_of leave.now) action.now others.now }
{
    match sayer(enter, action) {
        Some(process) => is_met(enter, leave, process, others),
        None => false,
    }
}

// Whether another process enters before process `q`, which is inside, leaves.
fn is_met(enter: &Value, leave: &Value, q: u16, actions: &[Action]) -> bool
    ensures { IsTrue result ↔ IsMet (val_of enter.now) (val_of leave.now) q actions.now }
{
    let mut rest = actions;
    'actions: while let [action, others @ ..] = rest {
        if enters_beside(enter, q, action) {
            return true;
        }
        if leaves(leave, q, action) {
            return false;
        }
        rest = others;
    }
    false
}

// Whether another process than `q` enters by an action.
fn enters_beside(enter: &Value, q: u16, action: &Action) -> bool
    ensures { IsTrue result ↔ EntersBeside (val_of enter.now) q action.now }
{
    match sayer(enter, action) {
        Some(process) => process != q,
        None => false,
    }
}

// Whether process `q` leaves by an action.
fn leaves(leave: &Value, q: u16, action: &Action) -> bool
    ensures { IsTrue result ↔ Says (val_of leave.now) q action.now }
{
    match sayer(leave, action) {
        Some(process) => process == q,
        None => false,
    }
}

/// The process that puts out a word by an action, if one does.
pub(crate) fn sayer(word: &Value, action: &Action) -> Option<u16>
    ensures { MatchOption result ((p : ℕ) → Says (val_of word.now) p action.now → ⊥)
        (λ p. Says (val_of word.now) p action.now) }
{
    match action {
        Action::Out { p, v } => { if counts_as(word, v) { Some(*p) } else { None } }
        _ => None,
    }
}

// Whether a value counts as a word: it is that value, or a tuple whose first part is.
fn counts_as(word: &Value, value: &Value) -> bool
    ensures { IsTrue result ↔ CountsAs (val_of word.now) (val_of value.now) }
{
    value == word || begins_with(word, value)
}

// Whether a value is a tuple whose first part is a word.
fn begins_with(word: &Value, value: &Value) -> bool
    ensures { IsTrue result ↔ BeginsWith (val_of word.now) (layer value.now) }
{
    match value {
        Value::Tuple(parts) => is_first(word, parts.as_slice()),
        _ => false,
    }
}

// Whether the first of some values is a word.
fn is_first(word: &Value, values: &[Value]) -> bool
    ensures { IsTrue result ↔ BeginsWith (val_of word.now) (Tuple (vals values.now)) }
{
    match values {
        [first, ..] => first == word,
        [] => false,
    }
}
