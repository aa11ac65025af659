//! The DistAlgo language: syntax trees, resolved programs, the events and actions of processes, and what they mean.
#![tactic(auto)]

mod code;
mod copy;
mod event;
mod program;
mod query;
mod refusal;
mod same;
mod tree;
mod ty;

pub use code::Instr;
pub use copy::{
    copy_agg, copy_cond, copy_gen, copy_gens, copy_operand, copy_pattern, copy_term, copy_type,
    copy_types,
};
pub use event::{Action, Event, FaultKind};
pub use program::{
    Alt, BindArg, ChainPart, Class, Handler, Item, ItemKind, ProcDecl, Program, RBranch, RExpr,
    SetupCall,
};
pub use query::{
    Agg, AggOp, Cond, LivePattern, Node, Operand, Pattern, Query, QueryNode, RGen, Shape,
    SignedOperand, Source, Term,
};
pub use refusal::{LimitKind, ScopeKind};
pub use same::{
    same_agg, same_cond, same_gen, same_gens, same_live, same_operand, same_pattern, same_source,
    same_term, same_value,
};
pub use tree::{
    ArithOp, Branch, ChainTree, ClassTree, CmpOp, Expr, GenTree, MainLine, Member, MessageDecl,
    Param, PatternTree, PeerTree, SourceTree, Stmt, TimeoutTree, Tree,
};
pub use ty::{ChannelKind, Name, Ty};
