// The limits of document 01. Arrays have these sizes.
// Bytes of a text; it has no more tokens, and no more items in its expressions.
pub const TEXT: usize = 16384;
// Statements of a text, lines of an image.
pub const STATEMENTS: usize = 512;
// The place of a state at the beginning, which is no line's.
pub const BEGINNING: usize = STATEMENTS;
// Statements in statements.
pub const DEPTH: usize = 16;
// Open parentheses.
pub const PARENTHESES: usize = 16;
// Literals, names and operators of an expression.
pub const ITEMS: usize = 64;
// In ports, the clock included; data inputs; outputs; variables; declared names in all.
pub const IN_PORTS: usize = 17;

pub const INPUTS: usize = 16;

pub const OUTPUTS: usize = 16;

pub const VARIABLES: usize = 32;

pub const NAMES: usize = IN_PORTS + OUTPUTS + VARIABLES;
// Bytes of a name.
pub const NAME: usize = 32;
// Bytes of an image.
pub const IMAGE: usize = 65535;
// The greatest integer, and so the greatest literal; the greatest number of 32 bits.
pub const INTEGER: u32 = 2147483647;

pub const WORD: u32 = 4294967295;
// Bytes of the rows of a trace, which are no more rows.
pub const TRACED: usize = 65536;
