//! Why a text gives no program.
ghost use Rattle.std.specs.Prelude.{◌≡◌};

use da_lang::{LimitKind, ScopeKind};
use da_lex::LexKind;
use da_scope::ScopeFault;
use da_types::TypeFault;
use quant_norm::PlanFault;
use thiserror::Error;

/// Why a program is refused, and the sentence that tells a person so.
#[derive(Clone, Copy, Debug, Error)]
pub enum RefusedKind {
    /// The text has more than 1,048,576 bytes.
    #[error("the text has more than 1,048,576 bytes")]
    Size,
    /// A byte outside a comment is not allowed.
    #[error("only comments may hold this byte: no tabs, and no characters outside ASCII")]
    Byte,
    /// A line is set in by a width at which no open block stands.
    #[error("the indentation is that of no open block")]
    Indent,
    /// No token is spelled so. An integer past the limit is none, and neither is one with a leading zero.
    #[error("no token is spelled like this: texts stand in single quotes, integers have no leading zero and are at most 9223372036854775807")]
    Token,
    /// A text literal or a bracket is not closed.
    #[error("a text literal or a bracket is not closed")]
    Unclosed,
    /// No program goes on with a token, or the text ends too early.
    #[error("the grammar does not allow this here, or the text ends too early")]
    Syntax,
    /// A token opens a thing where 32 are open.
    #[error("more than 32 blocks, brackets, queries or negations are open")]
    Deep,
    /// A name is not in scope for its use, or no label has it.
    #[error("a name is not in scope here, or cannot be used in this way")]
    Unknown,
    /// A name is declared twice, or a label is named twice after one `at`.
    #[error("this name is declared already")]
    Twice,
    /// A variable has the name of one in scope.
    #[error("a variable of this name is in scope already; a pattern compares with it by =name")]
    Shadow,
    /// A method's call leads back to it.
    #[error("the method calls itself, directly or through other methods")]
    Recursive,
    /// A handler or `setup` comes to a label or an `await`.
    #[error("a handler or setup may not wait: it reaches a label or an await")]
    Yield,
    /// `setup` holds a form that is not allowed there.
    #[error("setup may not do this")]
    Setup,
    /// A class has no `run`.
    #[error("the class has no method run")]
    NoRun,
    /// A call has a wrong number of arguments.
    #[error("the call has too few or too many arguments")]
    Arity,
    /// There are more than 32 classes.
    #[error("the program has more than 32 classes")]
    Classes,
    /// There are more than 64 processes.
    #[error("the program has more than 64 processes")]
    Processes,
    /// A class has more than 16,384 statements with its calls inlined.
    #[error("the class has more than 16,384 statements, with its calls inlined")]
    Items,
    /// More than 64 blocks stand within one another with the calls inlined.
    #[error("more than 64 blocks are nested, with calls inlined")]
    Blocks,
    /// A class has more than 1,024 slots, or a query more than 1,024 variables.
    #[error("the class or the query has more than 1,024 variables")]
    Variables,
    /// A tuple or a message has more than 255 parts.
    #[error("a tuple or a message has more than 255 parts")]
    Parts,
    /// A query has more than 8 generators.
    #[error("the query has more than 8 generators")]
    Generators,
    /// A rule of types is broken.
    #[error("the types do not fit, no message has this tag, or a condition has a form that is not allowed")]
    Types,
    /// The plan of a class has more than 4,096 nodes.
    #[error("the query plan of the class has more than 4,096 nodes")]
    Nodes,
    /// No types keep the rules up to a line, for what the program leaves without them.
    #[error("no types for what is not declared fit this line and the lines before it")]
    Infer,
    /// The program has no process of the number that a node is to run.
    #[error("the program has no process of the number that the node is to run")]
    Me,
    /// There are not as many traces as the program has processes.
    #[error("a join takes one trace for each process of the program")]
    Traces,
    /// The `main` of a watch makes another number of processes than one.
    #[error("the main of a watch makes one process, as w = new(Watch), and may set it up; the program that is watched makes the others")]
    Watch,
}

/// Why a text gives no program.
#[derive(Clone, Copy, Debug, Error)]
pub enum ProgramFault {
    /// The text is refused so, at this line, or at 0 where no line is to blame.
    #[error("line {line} is refused")]
    Refused { kind: RefusedKind, line: u32 },
    /// Memory was refused.
    #[error("no memory is left")]
    Memory,
}

impl From<ScopeFault> for ProgramFault {
    ghost use Rattle.da_front.specs.Faults.{after_names};
    ghost use Rattle.std.specs.Prelude.{◌≡◌};

    ghost from_gives = { λ why fault. fault ≡ after_names why };

    fn from(why: ScopeFault) -> ProgramFault {
        match why {
            ScopeFault::Refused { kind, line } => ProgramFault::Refused {
                kind: RefusedKind::from(kind),
                line,
            },
            ScopeFault::Limit { which, line } => ProgramFault::Refused {
                kind: RefusedKind::from(which),
                line,
            },
            ScopeFault::Memory => ProgramFault::Memory,
        }
    }
}

impl From<TypeFault> for ProgramFault {
    ghost use Rattle.da_front.specs.Faults.{after_types};
    ghost use Rattle.std.specs.Prelude.{◌≡◌};

    ghost from_gives = { λ why fault. fault ≡ after_types why };

    fn from(why: TypeFault) -> ProgramFault {
        match why {
            TypeFault::Refused { line } => ProgramFault::Refused {
                kind: RefusedKind::Types,
                line,
            },
            TypeFault::Memory => ProgramFault::Memory,
        }
    }
}

impl From<PlanFault> for ProgramFault {
    ghost use Rattle.da_front.specs.Faults.{after_plans};
    ghost use Rattle.std.specs.Prelude.{◌≡◌};

    ghost from_gives = { λ why fault. fault ≡ after_plans why };

    fn from(why: PlanFault) -> ProgramFault {
        match why {
            PlanFault::TooMany { line } => ProgramFault::Refused {
                kind: RefusedKind::Nodes,
                line,
            },
            PlanFault::Memory => ProgramFault::Memory,
        }
    }
}

impl From<LexKind> for RefusedKind {
    ghost use Rattle.da_front.specs.Verdict.{kind_after};
    ghost use Rattle.std.specs.Prelude.{◌≡◌};

    ghost from_gives = { λ kind refused. refused ≡ kind_after kind };

    fn from(kind: LexKind) -> RefusedKind {
        match kind {
            LexKind::BadByte => RefusedKind::Byte,
            LexKind::BadIndent => RefusedKind::Indent,
            LexKind::BadToken => RefusedKind::Token,
            LexKind::Unclosed => RefusedKind::Unclosed,
        }
    }
}

impl From<ScopeKind> for RefusedKind {
    ghost use Rattle.da_front.specs.Verdict.{kind_of_name};
    ghost use Rattle.std.specs.Prelude.{◌≡◌};

    ghost from_gives = { λ kind refused. refused ≡ kind_of_name kind };

    fn from(kind: ScopeKind) -> RefusedKind {
        match kind {
            ScopeKind::Unknown => RefusedKind::Unknown,
            ScopeKind::Twice => RefusedKind::Twice,
            ScopeKind::Shadow => RefusedKind::Shadow,
            ScopeKind::Recursive => RefusedKind::Recursive,
            ScopeKind::Yield => RefusedKind::Yield,
            ScopeKind::Setup => RefusedKind::Setup,
            ScopeKind::NoRun => RefusedKind::NoRun,
            ScopeKind::Arity => RefusedKind::Arity,
        }
    }
}

impl From<LimitKind> for RefusedKind {
    ghost use Rattle.da_front.specs.Verdict.{kind_of_limit};
    ghost use Rattle.std.specs.Prelude.{◌≡◌};

    ghost from_gives = { λ which refused. refused ≡ kind_of_limit which };

    fn from(which: LimitKind) -> RefusedKind {
        match which {
            LimitKind::Classes => RefusedKind::Classes,
            LimitKind::Processes => RefusedKind::Processes,
            LimitKind::Items => RefusedKind::Items,
            LimitKind::Blocks => RefusedKind::Blocks,
            LimitKind::Variables => RefusedKind::Variables,
            LimitKind::Parts => RefusedKind::Parts,
            LimitKind::Generators => RefusedKind::Generators,
        }
    }
}
