// The kinds of statements, for readers that take the numbers of a row as indices.
use crate::statement;

pub const WAIT: usize = statement::WAIT as usize;

pub const OUTPUT: usize = statement::OUTPUT as usize;

pub const VARIABLE: usize = statement::VARIABLE as usize;

pub const IF: usize = statement::IF as usize;

pub const NULL: usize = statement::NULL as usize;

pub const WHILE: usize = statement::WHILE as usize;
