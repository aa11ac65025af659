//! How long a reliable link tells what it does.
ghost use Rattle.arq_link.specs.Told.{after_binding as binding_def, after_call as call_def, after_failure as failure_def};
ghost use Rattle.std.specs.Prelude.{◌≡◌};

/// What a link tells, where the link under it tells anything. It tells no more after a failure than before it, and nothing
/// from the next call on.
#[derive(Clone, Copy)]
pub(crate) enum Telling {
    /// It was never bound, and tells an empty list.
    Unbound,
    /// It tells all since its binding.
    Whole,
    /// A call has failed.
    Failed { bound: bool },
    /// It tells nothing.
    Silent,
}

impl Telling {
    /// After a call that succeeded.
    pub(crate) fn after_call(self) -> Telling
        ensures { result ≡ call_def self }
    {
        match self {
            Telling::Whole => Telling::Whole,
            _ => Telling::Silent,
        }
    }

    /// After a binding that succeeded.
    pub(crate) fn after_binding(self) -> Telling
        ensures { result ≡ binding_def self }
    {
        match self {
            Telling::Unbound => Telling::Whole,
            _ => Telling::Silent,
        }
    }

    /// After a call that failed.
    pub(crate) fn after_failure(self) -> Telling
        ensures { result ≡ failure_def self }
    {
        match self {
            Telling::Unbound => Telling::Failed { bound: false },
            Telling::Whole => Telling::Failed { bound: true },
            _ => Telling::Silent,
        }
    }
}
