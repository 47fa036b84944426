// Items of expressions as the readers write them, each behind its operands: an operator and a literal have their operation's code already; a name, of which
// only its declaration tells whether it is an input or a variable, has that of an input until then.
use crate::operation;

pub const NAME: u8 = operation::INPUT;

pub const NUMBER: u8 = operation::INTEGER;
// '0' or '1'.
pub const BIT: u8 = operation::STD_LOGIC;
