//! Why names and limits refuse a program.

/// A rule of names that a program breaks, in the order in which one is reported before another on one line.
#[derive(Clone, Copy, Debug, PartialEq, Eq)]
pub enum ScopeKind {
    /// A name that is not in scope for its use, a class, method or label that is not there, or an argument of an aggregate
    /// that is neither a comprehension nor a name.
    Unknown,
    /// A second declaration of a name, a second `setup` or `run` of a class, a second line of `setup` for a name of
    /// `main`, or a label named twice after one `at`.
    Twice,
    /// A parameter or another variable with the name of a variable in scope, or a second variable of one name in the
    /// patterns of a handler.
    Shadow,
    /// A call in a method that leads back to that method.
    Recursive,
    /// A label or an `await` in a handler or in `setup`, or a call that leads to one.
    Yield,
    /// A form that is not allowed in the body of `setup`, or in the arguments of `setup` in `main`.
    Setup,
    /// A class without `run`.
    NoRun,
    /// A wrong number of arguments of a call or of a line of `setup`.
    Arity,
}

/// A limit that a program exceeds, in the order in which one is reported before another on one line.
#[derive(Clone, Copy, Debug)]
pub enum LimitKind {
    /// 32 classes.
    Classes,
    /// 64 processes.
    Processes,
    /// 16,384 statements of a class, with its calls inlined.
    Items,
    /// 64 blocks within one another, with the calls inlined.
    Blocks,
    /// 1,024 slots of a class, or 1,024 variables of a numbered query.
    Variables,
    /// 255 parts of a tuple, or of a message with its tag.
    Parts,
    /// 8 generators of a numbered query.
    Generators,
}
