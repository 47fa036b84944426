// The operands: literals, data inputs and variables.
ghost use Rattle.std.specs.Prelude.{◌≡◌, ◌+◌, ◌<◌, length, get_or, pos};
ghost use Rattle.spec_design.specs.Types.{type_byte};
ghost use Rattle.image_evaluator.specs.Position.{integer_at, bit_at};
ghost use Rattle.base_codes.specs.Fault.{outcome};
ghost use Rattle.image_evaluator.specs.Value.{type_for, types_for, evaluated_of};
ghost use Rattle.image_evaluator.specs.Operators.{operators, leaf_of, named_at};

use crate::{Found, Named};
use base_codes::fault::Fault;
use base_codes::{operation, types};

// An integer literal.
pub(crate) fn integer(code: &[u8], at: usize) -> Result<Found, Fault>
    requires { at < length code.now }
    ensures { outcome result ≡ evaluated_of (leaf_of operators (integer_at code.now at)) }
{
    if at + operation::width(operation::INTEGER) <= code.len() {
        let v = base_signed::from_bits(image_words::word4(code, at + 1));
        Ok(Found {
            kind: types::INTEGER,
            value: v,
        })
    } else {
        Err(Fault::NoExpression)
    }
}

// A std_logic literal.
pub(crate) fn bit(code: &[u8], at: usize) -> Result<Found, Fault>
    requires { at < length code.now }
    ensures { outcome result ≡ evaluated_of (leaf_of operators (bit_at code.now at)) }
{
    if code.len() < at + operation::width(operation::STD_LOGIC) {
        return Err(Fault::NoExpression);
    }
    let b = code[at + 1];
    if b == 0 {
        return Ok(Found {
            kind: types::STD_LOGIC,
            value: 0,
        });
    }
    if b == 1 {
        return Ok(Found {
            kind: types::STD_LOGIC,
            value: 1,
        });
    }
    Err(Fault::NoExpression)
}

// The type of a type byte.
fn tag(b: u8) -> u8
    ensures { result ≡ type_byte (type_for b) }
{
    if b == types::STD_LOGIC {
        types::STD_LOGIC
    } else {
        types::INTEGER
    }
}

// The k-th number of a row.
fn number(row: &[i32], k: usize) -> i32
    ensures { result ≡ get_or row.now k (pos 0) }
{
    row.get(k).copied().unwrap_or(0)
}

// A data input or a variable, by the index at the next byte.
pub(crate) fn named(code: &[u8], at: usize, row: &Named) -> Result<Found, Fault>
    requires { at < length code.now }
    ensures { outcome result ≡ evaluated_of (named_at code.now at (types_for row.now.kinds.now) row.now.values.now) }
{
    if code.len() < at + operation::width(operation::INPUT) {
        return Err(Fault::NoExpression);
    }
    let k = usize::from(code[at + 1]);
    if row.kinds.len() <= k {
        return Err(Fault::NoExpression);
    }
    let t = tag(row.kinds[k]);
    let v = number(row.values, k);
    Ok(Found { kind: t, value: v })
}
