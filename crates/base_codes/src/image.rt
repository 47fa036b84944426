// The bytes of an image: its header, a line, a slot of the signature.
use crate::statement;

// "Image, form 1": the form, the number of sections, and for each section where it starts and how many bytes it has.
pub const FORM: usize = 0;

pub const SECTIONS: usize = 2;

pub const SIGNATURE: usize = 4;

pub const SIGNATURE_SIZE: usize = 8;

pub const LINES: usize = 12;

pub const LINES_SIZE: usize = 16;

pub const CODE: usize = 20;

pub const CODE_SIZE: usize = 24;
// Where the header ends and the first section starts.
pub const HEADER: usize = 28;
// The same as the header has it.
pub const FIRST: u32 = HEADER as u32;
// Form 1 has three sections.
pub const FORM_1: u32 = 1;

pub const THREE: u32 = 3;
// The signature: the counts of inputs, outputs and variables; then an input has its type byte, an output or a variable that and its initial value.
pub const INPUTS: usize = 0;

pub const OUTPUTS: usize = 1;

pub const VARIABLES: usize = 2;

pub const COUNTS: usize = 3;

pub const SLOT: usize = 5;
// Where the counts and the type bytes of the inputs stand in an image.
pub const INPUT_COUNT: usize = HEADER + INPUTS;

pub const OUTPUT_COUNT: usize = HEADER + OUTPUTS;

pub const VARIABLE_COUNT: usize = HEADER + VARIABLES;

pub const INPUT_TYPES: usize = HEADER + COUNTS;
// The bytes of a line, and where each part stands: kind, target, where its code starts and how many bytes that has, the next line, the other, the reach.
pub const LINE: usize = 12;

pub const LINE_KIND: usize = 0;

pub const LINE_TARGET: usize = 1;

pub const LINE_CODE: usize = 2;

pub const LINE_CODE_SIZE: usize = 4;

pub const LINE_NEXT: usize = 6;

pub const LINE_OTHER: usize = 8;

pub const LINE_REACH: usize = 10;
// The kinds of a line, which are the kinds of a statement as a byte.
pub const WAIT: u8 = statement::WAIT as u8;

pub const OUTPUT: u8 = statement::OUTPUT as u8;

pub const VARIABLE: u8 = statement::VARIABLE as u8;

pub const BRANCH: u8 = statement::IF as u8;

pub const NULL: u8 = statement::NULL as u8;
