// Types of operators by number, and whether they are right; "what holds a wrong operator is untyped", and has the number of no type.
ghost use Rattle.std.specs.Prelude.{◌≡◌};
ghost use Rattle.front_typing.specs.Operators.{binary_code, right_one, right_two, fits_code};

use base_codes::{operation, types};

// An operator on two operands.
pub(crate) fn binary(c: u8, t: u8, u: u8) -> u8
    ensures { result ≡ binary_code c t u }
{
    if t == u {
        operation::binary_type(c, t)
    } else {
        types::NONE
    }
}

// Whether an operator with the type r after it is right: it is judged only where its operand has a type.
pub(crate) fn right_one(t: u8, r: u8) -> bool
    ensures { result ≡ right_one t r }
{
    t == types::NONE || r != types::NONE
}

// The same with two operands.
pub(crate) fn right_two(t: u8, u: u8, r: u8) -> bool
    ensures { result ≡ right_two t u r }
{
    t == types::NONE || right_one(u, r)
}

// Whether the type u fits where t is wanted; untyped is not judged.
pub(crate) fn fits(t: u8, u: u8) -> bool
    ensures { result ≡ fits_code t u }
{
    t == types::NONE || u == types::NONE || t == u
}
