#![tactic(auto)]
// The compiler: a text to the image of its design in the caller's buffer, or its refusal.
ghost use Rattle.std.specs.Prelude.{◌≡◌};
ghost use Rattle.base_answers.specs.Answers.{told};
ghost use Rattle.spec_design.specs.Process.{Process, WellFormed};
ghost use Rattle.spec_format.specs.Encode.{encode};
ghost use Rattle.spec_format.specs.Writing.{written_into};
ghost use Rattle.spec_interface.specs.Compile.{compile_of};
ghost use Rattle.base_ir.specs.Arrays.{Holds};

use base_answers::Refusal;
use base_codes::{limit, statement};
use base_ir::Declared;
use image_encoder::TooShort;

// The image of a design, or refusal 10.
fn write_image(
    ops: &[u8; limit::TEXT],
    args: &[i32; limit::TEXT],
    lines: &[u16; statement::ROWS],
    d: Declared,
    image: &mut [u8],
) -> Result<usize, Refusal>
    ensures { (p : Process) → Holds p d ops.now args.now lines.now → WellFormed p
        → (told result ≡ (written_into (encode p) image.old).answer) × (image.new ≡ (written_into (encode p) image.old).buffer) }
{
    let encoded = image_encoder::write(ops, args, lines, d, image);
    match encoded {
        Ok(n) => Ok(n),
        Err(TooShort { needed }) => Err(Refusal::BufferTooShort(needed)),
    }
}

// Any text and any buffer: refusals 1 to 9, then 10, or the image. A refused call alters no byte; an accepted one writes only the image's own bytes.
pub fn compile(text: &[u8], image: &mut [u8]) -> Result<usize, Refusal>
    ensures { (told result ≡ (compile_of text.now image.old).answer) × (image.new ≡ (compile_of text.now image.old).buffer) }
{
    let mut ops = [0u8; limit::TEXT];
    let mut args = [0i32; limit::TEXT];
    let mut lines = [0u16; statement::ROWS];
    let declared = front_accept::accept(text, &mut ops, &mut args, &mut lines)?;
    write_image(&ops, &args, &lines, declared, image)
}
