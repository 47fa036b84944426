// The input row judged against the signature, and the output row.
ghost use Rattle.std.specs.Prelude.{◌≡◌, ◌++◌, length, take, drop};
ghost use Rattle.std.proofs.Math.Option.{some};
ghost use Rattle.spec_format.specs.Signature.{Signature, signature_of};
ghost use Rattle.spec_format.specs.Cycle.{row_place};
ghost use Rattle.image_checks.specs.Places.{wrong_from};
ghost use Rattle.image_checks.specs.Answers.{check_of};

use super::signature::{count, value_ok};
use base_codes::image;

// Fails with the lowest index of an input value that is not of its type.
fn first_wrong(signature: &[u8], inputs: &[i32]) -> Result<(), usize>
    ensures { result ≡ check_of (wrong_from signature.now 0 inputs.now) }
{
    for (k, v) in inputs.iter().enumerate() {
        if !value_ok(signature, image::COUNTS + k, *v) {
            return Err(k);
        }
    }
    Ok(())
}

// Refusal 14, by its place: both lengths first, then the input values; `room` is the output row's length.
pub fn row_place(signature: &[u8], inputs: &[i32], room: usize) -> Result<(), usize>
    ensures { (σ : Signature) → signature_of signature.now ≡ some σ → result ≡ check_of (row_place σ inputs.now room) }
{
    if inputs.len() != count(signature, image::INPUTS) || room != count(signature, image::OUTPUTS) {
        return Err(0);
    }
    first_wrong(signature, inputs)
}

// Writes the outputs to a row, as many as both have; what the row has behind them stays.
pub fn write_row(outputs: &[i32], row: &mut [i32])
    ensures { row.new ≡ take (length row.old) outputs.now ++ drop (length outputs.now) row.old }
{
    let n = row.len().min(outputs.len());
    row[..n].copy_from_slice(&outputs[..n]);
}
