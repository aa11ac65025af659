//! Trees that are equal but for the types in messages, variables and parameters, and slots that take types.
ghost use Rattle.untyped_laws.specs.Laws.{BoundOnce, FlowIsSteps, LimitedAlike, NamedAlike, PutLimited, PutNamed, PutResolves, ResolveAlike, SlotsFollow};

/// Does nothing. Its contract says what holds of all trees:
///
/// - two trees that are equal but for declared types, by any relation of types, become programs that are equal but for the
///   types of messages and slots, by the same relation;
/// - they have the same refusals by names, and so the same one is reported;
/// - they have the same refusals by limits where related types are both within the limit of parts, or both over it;
/// - where a function takes each declared type to another one, the program is that of the first tree with the function put
///   on the types of its messages and slots.
pub fn only_types_differ()
    ensures resolve { ResolveAlike }
    ensures names { NamedAlike }
    ensures limits { LimitedAlike }
    ensures put_resolves { PutResolves }
    ensures put_names { PutNamed }
    ensures put_limits { PutLimited }
{}

/// Does nothing. Its contract says what holds of the types that come into the slots of a class on the way:
///
/// - they are what a list of steps makes of the types that are declared: a loop, a numbered `some` or a handler gives types
///   to slots;
/// - in a class that comes from a tree, the steps bind the slots that have no type, each once and in order;
/// - so, whatever stands for the slots that a step binds and has their types, the slots of the class follow what stands for
///   them, and something stands for each, for every function that takes declared types to others.
pub fn slots_follow()
    ensures steps { FlowIsSteps }
    ensures once { BoundOnce }
    ensures follow { SlotsFollow }
{}
