//! How a node ends.
ghost use Rattle.node_run.specs.Faults.{link_fault, sink_fault};
ghost use Rattle.std.specs.Prelude.{◌≡◌};

use da_outside::Trouble;

/// How a node ended.
#[derive(Clone, Copy)]
pub enum NodeOutcome {
    /// The process used up its statements.
    Done,
    /// A fault ended the process.
    Faulted,
    /// The last answers of the link were as many idle turns as a node may have in a row.
    Idle,
    /// As many answers were taken as a node may take.
    Spent,
    /// The link failed.
    LinkFault,
    /// The sink failed.
    WriteFault,
    /// Memory was refused.
    Memory,
}

impl NodeOutcome {
    /// The outcome of a node whose link had this trouble.
    pub(crate) fn of_link(trouble: Trouble) -> NodeOutcome
        ensures { result ≡ link_fault trouble }
    {
        match trouble {
            Trouble::Failed => NodeOutcome::LinkFault,
            Trouble::Memory => NodeOutcome::Memory,
        }
    }

    /// The outcome of a node whose sink had this trouble.
    pub(crate) fn of_sink(trouble: Trouble) -> NodeOutcome
        ensures { result ≡ sink_fault trouble }
    {
        match trouble {
            Trouble::Failed => NodeOutcome::WriteFault,
            Trouble::Memory => NodeOutcome::Memory,
        }
    }
}
