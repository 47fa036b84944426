// The state record and the answers of the public operations, as numbers.
use crate::limit;

// The place of a state at the beginning.
pub const BEGINNING: u16 = limit::BEGINNING as u16;
// The numbers of a state that a C caller holds, and where each part stands: the place, the slots of outputs, the slots of variables.
pub const PLACE: usize = 0;

pub const OUTPUTS: usize = 1;

pub const VARIABLES: usize = OUTPUTS + limit::OUTPUTS;

pub const STATE: usize = VARIABLES + limit::VARIABLES;
// The numbers of an answer: the refusal's number, its place, a count.
pub const ANSWER: usize = 3;

pub const NUMBER: usize = 0;

pub const AT: usize = 1;

pub const COUNT: usize = 2;
