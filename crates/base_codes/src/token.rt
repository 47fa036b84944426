// The kinds of token by number, in the order of the definition (specs/Token.antt), and their classes.
ghost use Rattle.std.specs.Prelude.{◌≡◌};
ghost use Rattle.base_codes.specs.Token.{one_of, operands, adding, multiplying, relational, logical};

use crate::limit;

// A word that is not reserved.
pub const NAME: u8 = 1;
// Literals: digits, and the two bits.
pub const NUMBER: u8 = 2;

pub const ZERO: u8 = 3;

pub const ONE: u8 = 4;
// Marks: ( ) ; : , :=
pub const LP: u8 = 5;

pub const RP: u8 = 6;

pub const SEMI: u8 = 7;

pub const COLON: u8 = 8;

pub const COMMA: u8 = 9;

pub const BECOMES: u8 = 10;
// Operators: + - = /= < <= > >= and or xor not
pub const PLUS: u8 = 11;

pub const MINUS: u8 = 12;

pub const EQ: u8 = 13;

pub const NE: u8 = 14;

pub const LT: u8 = 15;

pub const LE: u8 = 16;

pub const GT: u8 = 17;

pub const GE: u8 = 18;

pub const AND: u8 = 19;

pub const OR: u8 = 20;

pub const XOR: u8 = 21;

pub const NOT: u8 = 22;
// The other reserved words.
pub const ENTITY: u8 = 23;

pub const IS: u8 = 24;

pub const PORT: u8 = 25;

pub const END: u8 = 26;

pub const ARCHITECTURE: u8 = 27;

pub const OF: u8 = 28;

pub const BEGIN: u8 = 29;

pub const PROCESS: u8 = 30;

pub const IN: u8 = 31;

pub const OUT: u8 = 32;

pub const VARIABLE: u8 = 33;

pub const NULL: u8 = 34;

pub const WAIT: u8 = 35;

pub const UNTIL: u8 = 36;

pub const IF: u8 = 37;

pub const THEN: u8 = 38;

pub const ELSE: u8 = 39;

pub const WHILE: u8 = 40;

pub const LOOP: u8 = 41;

pub const STD_LOGIC: u8 = 42;

pub const INTEGER: u8 = 43;
// Operators: * / mod rem
pub const TIMES: u8 = 44;

pub const DIVIDE: u8 = 45;

pub const MOD: u8 = 46;

pub const REM: u8 = 47;

// The index of a token that is not there: a text has no token so late.
pub const NOWHERE: usize = limit::TEXT;

// Whether a token is a name or a literal.
pub fn is_operand(kind: u8) -> bool
    ensures { result ≡ one_of kind operands }
{
    matches!(kind, NAME | NUMBER | ZERO | ONE)
}

// Whether a token is + or -.
pub fn is_adding(kind: u8) -> bool
    ensures { result ≡ one_of kind adding }
{
    matches!(kind, PLUS | MINUS)
}

// Whether a token is *, /, mod or rem.
pub fn is_multiplying(kind: u8) -> bool
    ensures { result ≡ one_of kind multiplying }
{
    matches!(kind, TIMES | DIVIDE | MOD | REM)
}

// Whether a token compares: = /= < <= > >=.
pub fn is_relational(kind: u8) -> bool
    ensures { result ≡ one_of kind relational }
{
    matches!(kind, EQ | NE | LT | LE | GT | GE)
}

// Whether a token is and, or or xor.
pub fn is_logical(kind: u8) -> bool
    ensures { result ≡ one_of kind logical }
{
    matches!(kind, AND | OR | XOR)
}
