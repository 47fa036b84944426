// The type bytes of inputs and variables, as the evaluator takes them.
ghost use Rattle.std.specs.Prelude.{◌≡◌, ◌++◌, ◌≤◌, ◌<◌, length, drop};
ghost use Rattle.std.proofs.Math.Option.{some};
ghost use Rattle.spec_format.specs.Signature.{Signature, types, type_bytes, signature_of};
ghost use Rattle.image_checks.specs.Places.{type_bytes_at};

use super::signature::{count, outputs_at, variables_at};
use base_codes::image;
use image_words::byte;

// The type bytes of the inputs: that part of the section.
pub fn input_types<'a>(signature: &'a [u8]) -> &'a [u8]
    ensures { (σ : Signature) → signature_of signature.now ≡ some σ → result.now ≡ type_bytes σ.inputs }
{
    let end = outputs_at(signature);
    if signature.len() < end {
        return signature;
    }
    &signature[image::COUNTS..end]
}

// Copies the type bytes of outputs or variables that begin at a position, as many as there are places for.
fn copy_types(signature: &[u8], at: usize, kinds: &mut [u8])
    requires { (at < 2048) × (length kinds.old < 256) }
    ensures { kinds.new ≡ type_bytes_at signature.now at (length kinds.old) }
{
    for (k, kind) in kinds.iter_mut().enumerate() {
        *kind = byte(signature, at + image::SLOT * k);
    }
}

// Copies the type bytes of the variables, whose number it answers; where there is no room it copies none.
pub fn variable_types(signature: &[u8], kinds: &mut [u8]) -> usize
    ensures { (σ : Signature) → signature_of signature.now ≡ some σ → 32 ≤ length kinds.old
        → (result ≡ length σ.variables)
        × (kinds.new ≡ type_bytes (types σ.variables) ++ drop (length σ.variables) kinds.old) }
{
    let n = count(signature, image::VARIABLES);
    if kinds.len() < n {
        return 0;
    }
    copy_types(signature, variables_at(signature), &mut kinds[..n]);
    n
}
