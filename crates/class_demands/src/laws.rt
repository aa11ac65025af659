//! What a program demands is what the rules of types ask for up to a line, whatever the unknown types are.
ghost use Rattle.class_demands.specs.Laws.{HeadsAreNeeded, ProgramsAreDemanded, SchemesStand};

/// Does nothing. Its contract says what holds of the program of each tree:
///
/// - whatever the unknown types are, no rule of types is broken up to a line exactly where all is met that the program
///   demands up to that line, headers included whose slots are in use;
/// - of a slot in use all is met that the headers demand which give it its type, exactly where all is met that is demanded
///   besides for these headers.
pub fn demands_agree()
    ensures demanded { ProgramsAreDemanded }
    ensures heads { HeadsAreNeeded }
{}

/// Does nothing. Its contract says that what stands for a declared type stands for that type, and for the unknown type
/// where a type of that number is declared.
pub fn unknowns_stand()
    ensures { SchemesStand }
{}
