//! How many actions of each kind a run has made.
ghost use Rattle.replay_run.specs.Stress.{AreCounts, CountsMore, CountsOne, HasRoom, UsesRoom};
ghost use Rattle.std.specs.Prelude.{[], length};

use da_lang::Action;

/// How many actions there were of each kind that is counted.
#[derive(Clone, Copy)]
pub(crate) struct Counts {
    pub(crate) took: u128,
    pub(crate) sent: u128,
    pub(crate) got: u128,
    pub(crate) out: u128,
    pub(crate) end: u128,
    pub(crate) fault: u128,
}

impl Counts {
    /// Those of no actions.
    pub(crate) fn new() -> Counts
        ensures { AreCounts [] result }
    {
        Counts {
            took: 0,
            sent: 0,
            got: 0,
            out: 0,
            end: 0,
            fault: 0,
        }
    }

    /// Counts some actions.
    pub(crate) fn add(&mut self, actions: &[Action])
        requires { HasRoom self.old (length actions.now) }
        ensures counts { CountsMore self.old actions.now self.new }
        ensures room { UsesRoom (length actions.now) self.old self.new }
    {
        for action in actions {
            self.add_one(action);
        }
    }

    // Counts an action.
    fn add_one(&mut self, action: &Action)
        requires { HasRoom self.old 1 }
        ensures { CountsOne action.now self.old self.new }
    {
        match action {
            Action::Took { .. } => self.took += 1,
            Action::Sent { .. } => self.sent += 1,
            Action::Got { .. } => self.got += 1,
            Action::Out { .. } => self.out += 1,
            Action::End { .. } => self.end += 1,
            Action::Fault { .. } => self.fault += 1,
            Action::Lost { .. }
            | Action::Again { .. }
            | Action::Answer { .. }
            | Action::Kept { .. }
            | Action::Stop { .. } => {}
        }
    }
}
