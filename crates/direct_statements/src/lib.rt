#![tactic(auto)]
// The statements of a design in arrays, started and resumed by position, up to a wait. A reader can hold it beside the equations.
pub mod blocks;
pub mod cycles;

use base_codes::fault::Fault;

// What a statement does itself: a wait is reached; or it is performed, and the statements from .. to inside it follow, none where the two are equal.
#[derive(Clone, Copy)]
enum Effect {
    Waits,
    Performed(usize, usize),
}

// Where a block is resumed at a wait: nowhere, since the rows are those of no block with that wait; at a wait of its own, behind which the statements from
// this row on are started; or in the part whose rows are a .. b, behind which those from the last row on are started.
#[derive(Clone, Copy)]
enum Inside {
    Nothing,
    Wait(usize),
    Part(usize, usize, usize),
}

// A statement is passed; a wait is reached; or an operator is refused, why and in which statement. The last number of the first two is
// the length of the way.
#[derive(Clone, Copy)]
pub enum Progress {
    Passed(usize),
    Reached(usize, usize),
    Refused(Fault, usize),
}
