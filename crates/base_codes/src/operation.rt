// Operations of postfix code, as arrays and images hold them: "1 integer, 2 std_logic, 3 input, 4 variable", then the operators.
ghost use Rattle.std.specs.Prelude.{◌≡◌, ◌≤◌};
ghost use Rattle.base_codes.specs.Operation.{operation_of, operands_of, width_of};
ghost use Rattle.base_codes.specs.Types.{tag_or, unary_type_for, binary_type_for, result_for};

use crate::{token, types};

// Literals and names are pushed.
pub const INTEGER: u8 = 1;

pub const STD_LOGIC: u8 = 2;

pub const INPUT: u8 = 3;

pub const VARIABLE: u8 = 4;
// Operators of one operand: the sign -, not.
pub const SIGN: u8 = 16;

pub const NOT: u8 = 17;
// Operators of two operands: + - = /= < <= > >= and or xor * / mod rem
pub const PLUS: u8 = 18;

pub const MINUS: u8 = 19;

pub const EQ: u8 = 20;

pub const NE: u8 = 21;

pub const LT: u8 = 22;

pub const LE: u8 = 23;

pub const GT: u8 = 24;

pub const GE: u8 = 25;

pub const AND: u8 = 26;

pub const OR: u8 = 27;

pub const XOR: u8 = 28;

pub const TIMES: u8 = 29;

pub const DIVIDE: u8 = 30;

pub const MOD: u8 = 31;

pub const REM: u8 = 32;

// The operation of an operator between two operands, by the kind of its token; 0 for a token that is none.
pub fn operation_of(kind: u8) -> u8
    ensures { result ≡ operation_of kind }
{
    match kind {
        token::PLUS => PLUS,
        token::MINUS => MINUS,
        token::EQ => EQ,
        token::NE => NE,
        token::LT => LT,
        token::LE => LE,
        token::GT => GT,
        token::GE => GE,
        token::AND => AND,
        token::OR => OR,
        token::XOR => XOR,
        token::TIMES => TIMES,
        token::DIVIDE => DIVIDE,
        token::MOD => MOD,
        token::REM => REM,
        _ => 0,
    }
}

// How many operands an operation takes; 0 for what is pushed and for what is no operation.
pub fn operands(op: u8) -> u8
    ensures { result ≡ operands_of op }
{
    match op {
        SIGN | NOT => 1,
        PLUS | MINUS | EQ | NE | LT | LE | GT | GE | AND | OR | XOR | TIMES | DIVIDE | MOD | REM =>
            2,
        _ => 0,
    }
}

// The type of the result of an operator of one operand of the type t; no type where there is no such operator or it does not take that type.
pub fn unary_type(op: u8, t: u8) -> u8
    ensures { result ≡ tag_or (unary_type_for op t) }
{
    match op {
        SIGN => types::sum(t),
        NOT => types::logical(t),
        _ => types::NONE,
    }
}

// The same with two operands, both of the type t.
pub fn binary_type(op: u8, t: u8) -> u8
    ensures { result ≡ tag_or (binary_type_for op t) }
{
    match op {
        PLUS | MINUS | TIMES | DIVIDE | MOD | REM => types::sum(t),
        EQ | NE => types::equality(t),
        LT | LE | GT | GE => types::order(t),
        AND | OR | XOR => types::logical(t),
        _ => types::NONE,
    }
}

// The type of the result of an operator that takes operands of the type t: a comparison gives a boolean, every other operator what it takes.
pub fn result_type(op: u8, t: u8) -> u8
    ensures { result ≡ result_for op t }
{
    match op {
        EQ | NE | LT | LE | GT | GE => types::BOOLEAN,
        _ => t,
    }
}

// How many bytes an operation has.
pub fn width(op: u8) -> usize
    ensures value { result ≡ width_of op }
    ensures upper_bound { result ≤ 5 }
{
    if op == INTEGER {
        return 5;
    }
    match op {
        STD_LOGIC | INPUT | VARIABLE => 2,
        _ => 1,
    }
}
