// The opened image: what opening has found, and the sections that it lends out.
use base_answers::{Refusal, Sections};

// What stands in the opened image beside the bytes.
pub(crate) fn opening(bytes: &[u8]) -> Result<Sections, Refusal> {
    api_rattle::open(bytes).opening
}

// The signature section.
pub(crate) fn signature<'a>(bytes: &'a [u8]) -> &'a [u8] {
    api_rattle::signature(api_rattle::open(bytes))
}

// The lines section.
pub(crate) fn lines<'a>(bytes: &'a [u8]) -> &'a [u8] {
    api_rattle::lines(api_rattle::open(bytes))
}

// The code section.
pub(crate) fn code<'a>(bytes: &'a [u8]) -> &'a [u8] {
    api_rattle::code(api_rattle::open(bytes))
}
