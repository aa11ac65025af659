//! What is demanded is what the rules of types ask for, whatever the unknown types are.
ghost use Rattle.type_demands.specs.Meets.{CondsAreDemanded, ExprsAreDemanded, MessagesAreDemanded, PatternsAreDemanded, QueriesAreDemanded, RowsAreDemanded};

/// An expression has the type that is found where all that it demands by itself is met, and no type where it is not. It fits
/// a place exactly where what it demands there is met.
pub fn expressions_agree()
    ensures { ExprsAreDemanded }
{}

/// A condition keeps the rules exactly where what it demands is met.
pub fn conditions_agree()
    ensures { CondsAreDemanded }
{}

/// A pattern has a row exactly where what it demands is met: over a type, and over the messages with its tag.
pub fn patterns_agree()
    ensures over { PatternsAreDemanded }
    ensures messages { MessagesAreDemanded }
{}

/// A query has the type that is found where all that it demands is met; a `some` has a row exactly there.
pub fn queries_agree()
    ensures types { QueriesAreDemanded }
    ensures rows { RowsAreDemanded }
{}
