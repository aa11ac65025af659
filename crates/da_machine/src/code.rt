//! The code of a class.
use da_lang::Instr;
use da_values::List;

/// A yield point: after a label there is one entry. At an `await` there is one for each alternative, in order, and last that
/// of the block for the time that runs out, where there is such a block. An entry is a place in the instructions.
#[derive(Drop)]
pub struct YieldPoint {
    pub label: bool,
    pub entries: List<u64>,
}

/// The code of a class.
#[derive(Drop)]
pub struct Code {
    /// The instructions. Places in them are counted from 0.
    pub instrs: List<Instr>,
    /// Where a process may stand still. Number n is the label or `await` that has n others before it, calls inlined.
    pub yields: List<YieldPoint>,
    /// Where each process of the class begins, lower process numbers first.
    pub starts: List<u64>,
    /// Where the body of each handler begins; handlers stand as in the program.
    pub handlers: List<u64>,
}
