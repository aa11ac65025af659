//! Programs that are filled with different types.
ghost use Rattle.da_infer.specs.Laws.{FillsAgree, FillsAreDemanded, FillsAreWritten};

use class_demands::demands_agree;
use untyped_laws::only_types_differ;

/// Does nothing. Its contract says that some tokens spell each program that a text without declarations may become, few
/// enough to be counted by 32 bits.
pub fn fills_are_written()
    ensures { FillsAreWritten }
{}

/// Does nothing. Its contract says that all programs that a text without declarations may become have the same refusals by
/// names, and the same by limits.
pub fn fills_agree()
    ensures { FillsAgree }
{
    only_types_differ();
}

/// Does nothing. Its contract says that, whatever the unknown types are, the program with them breaks no rule of types up to
/// a line exactly where all is met that is demanded up to that line by the program in which each of these types is unknown.
pub fn fills_are_demanded()
    ensures { FillsAreDemanded }
{
    only_types_differ();
    demands_agree();
}
