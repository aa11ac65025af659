//! What a program demands, by its classes.

use da_values::List;
use type_demands::{Demand, LineDemand};

/// A header that gives types to slots: that of a loop, of what binds the row of a `some`, or of a handler.
#[derive(Drop)]
pub struct Head {
    /// The slots that take types from it.
    pub binds: List<u16>,
    /// What it demands so that they have types.
    pub demands: List<Demand>,
}

/// What the statements of a class demand.
#[derive(Drop)]
pub struct ClassDemands {
    /// The headers, in the order in which slots take types from them.
    pub heads: List<Head>,
    /// What each statement, header and handler demands on its line. The slots in use are those of the headers.
    pub demands: List<LineDemand>,
}

/// What a line of `setup` in `main` demands.
#[derive(Drop)]
pub struct SetupDemands {
    /// The class of the process, counted from 0.
    pub class: u16,
    /// What the line demands. The slots in use are those of the headers of the class.
    pub demands: List<LineDemand>,
}

/// What a program demands.
#[derive(Drop)]
pub struct ProgramDemands {
    /// Its classes.
    pub classes: List<ClassDemands>,
    /// The lines of `setup` of its processes.
    pub setups: List<SetupDemands>,
}
