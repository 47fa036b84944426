// Types by number: the type byte of an image; boolean, which no name has; and no type. And the four classes of operators by type: what comes of operands of a type.
ghost use Rattle.std.specs.Prelude.{◌≡◌};
ghost use Rattle.spec_design.specs.Expression.{sum_type, order_type, equality_type, logical_type};
ghost use Rattle.base_codes.specs.Types.{is_type_byte, declared_type, tag_or, type_after};

use crate::declaration;

pub const STD_LOGIC: u8 = 0;

pub const INTEGER: u8 = 1;

pub const BOOLEAN: u8 = 254;

pub const NONE: u8 = 255;

// Whether a byte is that of a type that a name can have.
pub fn is_type_byte(byte: u8) -> bool
    ensures { result ≡ is_type_byte byte }
{
    matches!(byte, STD_LOGIC | INTEGER)
}

// The type in a row of declared names; no type for a number that is none's.
pub fn declared(number: u16) -> u8
    ensures { result ≡ tag_or (declared_type number) }
{
    match number {
        declaration::STD_LOGIC => STD_LOGIC,
        declaration::INTEGER => INTEGER,
        _ => NONE,
    }
}

// Arithmetic: integers give an integer.
pub fn sum(t: u8) -> u8
    ensures { result ≡ tag_or (type_after sum_type t) }
{
    match t {
        INTEGER => INTEGER,
        _ => NONE,
    }
}

// Order: integers give a boolean.
pub fn order(t: u8) -> u8
    ensures { result ≡ tag_or (type_after order_type t) }
{
    match t {
        INTEGER => BOOLEAN,
        _ => NONE,
    }
}

// Equality: std_logics and integers give a boolean.
pub fn equality(t: u8) -> u8
    ensures { result ≡ tag_or (type_after equality_type t) }
{
    match t {
        STD_LOGIC | INTEGER => BOOLEAN,
        _ => NONE,
    }
}

// Logic: std_logics and booleans give their own type.
pub fn logical(t: u8) -> u8
    ensures { result ≡ tag_or (type_after logical_type t) }
{
    match t {
        STD_LOGIC => STD_LOGIC,
        BOOLEAN => BOOLEAN,
        _ => NONE,
    }
}
