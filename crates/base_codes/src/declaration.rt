// Rows of declared names, one for each in text order.
use crate::{limit, types};

// Modes.
pub const IN: u16 = 0;

pub const OUT: u16 = 1;

pub const VARIABLE: u16 = 2;
// What stands for the mode and for the type of a name that is not declared.
pub const NO_MODE: u16 = 3;

pub const NO_TYPE: u16 = types::NONE as u16;
// Types, by the type byte.
pub const STD_LOGIC: u16 = types::STD_LOGIC as u16;

pub const INTEGER: u16 = types::INTEGER as u16;
// The value's token where there is no value.
pub const NO_VALUE: u16 = limit::TEXT as u16;
// Kinds of initial values: none, a number, '0' or '1', a number after a sign.
pub const NONE: u16 = 0;

pub const NUMBER: u16 = 1;

pub const BIT: u16 = 2;

pub const NEGATIVE: u16 = 3;
// The numbers of a row, and where each stands: the name's token; its mode; its type; the kind of its initial value; the value's first token; the first name
// of its group.
pub const ROW: usize = 6;

pub const NAME: usize = 0;

pub const MODE: usize = 1;

pub const TYPE: usize = 2;

pub const INIT: usize = 3;

pub const VALUE: usize = 4;

pub const FIRST: usize = 5;
// The numbers of all rows.
pub const ROWS: usize = ROW * limit::NAMES;
