#![tactic(auto)]
// Opens an image: finds its three sections, or refuses it by 11, 12 or 13 at the exact place. One pass over the bytes.
mod code;
mod lines;
mod sections;
mod signature;

ghost use Rattle.std.specs.Prelude.{◌≡◌, true};
ghost use Rattle.base_answers.specs.Answers.{told};
ghost use Rattle.spec_format.specs.Opening.{sections_of, open_of};
ghost use Rattle.image_loader.specs.Sections.{is_some, lines_start, code_start};
ghost use Rattle.image_loader.specs.Open.{open_answer};

use base_answers::{Refusal, Sections};
use base_codes::image;

// The image, whose sections are found.
fn open_sections(image: &[u8], lines: usize, code: usize) -> Result<Sections, Refusal>
    requires image_value { is_some (sections_of image.now) ≡ true }
    requires lines_value { lines ≡ lines_start image.now }
    requires code_value { code ≡ code_start image.now }
    ensures { told result ≡ open_answer image.now (open_of image.now) }
{
    let signature = &image[image::HEADER..lines];
    if !signature::has_signature(signature) {
        return Err(Refusal::BadSignature);
    }
    lines::judge(signature, &image[lines..code], &image[code..]).map_err(Refusal::BadLine)?;
    Ok(Sections {
        signature: image::HEADER,
        lines,
        code,
        end: image.len(),
    })
}

// Any bytes: where the sections start, or the refusal.
pub fn open(image: &[u8]) -> Result<Sections, Refusal>
    ensures { told result ≡ open_answer image.now (open_of image.now) }
{
    if !sections::has_sections(image) {
        return Err(Refusal::BadSections);
    }
    let lines = image::HEADER + sections::long(image, image::SIGNATURE_SIZE);
    let code = lines + sections::long(image, image::LINES_SIZE);
    open_sections(image, lines, code)
}
