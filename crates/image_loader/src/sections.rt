// Refusal 11: the form, the count, the pairs, the image's length and the number of lines.
ghost use Rattle.std.specs.Prelude.{◌≡◌, ◌<◌};
ghost use Rattle.spec_format.specs.Words.{word4_at};
ghost use Rattle.spec_format.specs.Opening.{sections_of};
ghost use Rattle.image_loader.specs.Sections.{is_some, headed, paired, whole};

use base_codes::{image, limit};

// A four-byte number as a place.
pub(crate) fn long(s: &[u8], at: usize) -> usize
    ensures value { result ≡ word4_at s.now at }
    ensures upper_bound { result < 4294967296 }
{
    image_words::word4(s, at) as usize
}

// The image's length, form and count are right.
#[tactic(auto, unfolding(crate::specs::Sections::headed))]
fn header(image: &[u8]) -> bool
    ensures { result ≡ headed image.now }
{
    image.len() <= limit::IMAGE
        && image::HEADER <= image.len()
        && image_words::word2(image, image::FORM) == image::FORM_1
        && image_words::word2(image, image::SECTIONS) == image::THREE
}

// The pairs have no gap, and the last section ends the image.
#[tactic(auto, unfolding(crate::specs::Sections::paired))]
fn pairs(image: &[u8]) -> bool
    ensures { result ≡ paired image.now }
{
    let lines = image::HEADER + long(image, image::SIGNATURE_SIZE);
    let code = lines + long(image, image::LINES_SIZE);
    long(image, image::SIGNATURE) == image::HEADER
        && long(image, image::LINES) == lines
        && long(image, image::CODE) == code
        && image.len() == code + long(image, image::CODE_SIZE)
}

// There are 1 to 512 whole lines.
#[tactic(auto, unfolding(crate::specs::Sections::whole))]
fn whole_lines(size: usize) -> bool
    ensures { result ≡ whole size }
{
    size % image::LINE == 0 && 1 <= size / image::LINE && size / image::LINE <= limit::STATEMENTS
}

// The image has its three sections; where not, it is refused by 11.
#[tactic(auto, using(crate::proofs::SectionLaws::sections_test), unfolding(crate::specs::Sections::sectioned))]
pub(crate) fn has_sections(image: &[u8]) -> bool
    ensures { result ≡ is_some (sections_of image.now) }
{
    header(image) && pairs(image) && whole_lines(long(image, image::LINES_SIZE))
}
