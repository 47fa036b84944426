// Rows of statements, of a parsed text and of a design, one for each statement in text order. An image's lines have the same kinds, but no while.
use crate::limit;

pub const WAIT: u16 = 0;

pub const OUTPUT: u16 = 1;

pub const VARIABLE: u16 = 2;

pub const IF: u16 = 3;

pub const NULL: u16 = 4;

pub const WHILE: u16 = 5;
// The numbers of a row, and where each stands: the kind; the statement's token, or in a design its target; its items or operations from and to; the first
// statement of its second part; the statement after its last.
pub const ROW: usize = 6;

pub const KIND: usize = 0;

pub const TOKEN: usize = 1;

pub const TARGET: usize = 1;

pub const FROM: usize = 2;

pub const TO: usize = 3;

pub const OTHER: usize = 4;

pub const END: usize = 5;
// The numbers of all rows.
pub const ROWS: usize = ROW * limit::STATEMENTS;
