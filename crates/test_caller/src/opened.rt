// Images, whole and damaged: opened, their sections, and a call on each that is damaged.
use crate::rows::Rows;
use crate::{print, rows, sections};
use base_answers::{Refusal, Sections, State};
use base_files::shown::Hex;
use std::io;

// Every so many bytes one is changed.
const STEP: usize = 7;

// What is printed of the sections of a refused image.
const NO_SECTIONS: Sections = Sections {
    signature: 0,
    lines: 0,
    code: 0,
    end: 0,
};

// 0 and 0 with the sections, or number and place with none.
fn print_opening(rt: &impl Print, o: Result<Sections, Refusal>) -> io::Result<()> {
    let (number, place, at) = match o {
        Ok(at) => (0, 0, at),
        Err(r) => (r.number(), r.place(), NO_SECTIONS),
    };
    let signature = at.signature;
    let lines = at.lines;
    let code = at.code;
    let end = at.end;
    print!(rt; " {number} {place} {signature} {lines} {code} {end}")
}

// What opening finds, by `find` and in the opened image.
fn print_found(rt: &impl Print, image: &[u8]) -> io::Result<()> {
    rt.print(" find")?;
    print_opening(rt, api_rattle::find(image))?;
    rt.print(" open")?;
    print_opening(rt, sections::opening(image))
}

// A section, with its length, on a line of its own.
fn print_section(rt: &impl Print, name: &str, section: &[u8]) -> io::Result<()> {
    let n = section.len();
    let bytes = Hex(section);
    print!(rt; " {name} {n} {bytes}\n")
}

// The image opened, and its sections.
pub(crate) fn report(rt: &impl Print, image: &[u8]) -> io::Result<()> {
    print_found(rt, image)?;
    rt.print("\n")?;
    print_section(rt, "signature", sections::signature(image))?;
    print_section(rt, "lines", sections::lines(image))?;
    print_section(rt, "code", sections::code(image))
}

// The lengths of the sections.
fn print_lent(rt: &impl Print, image: &[u8]) -> io::Result<()> {
    let signature = sections::signature(image).len();
    let lines = sections::lines(image).len();
    let code = sections::code(image).len();
    print!(rt; " lent {signature} {lines} {code}")
}

// A damaged image opened, the lengths of its sections, its fresh state, and a row.
fn report_damaged(rt: &impl Print, image: &[u8], rows: Rows, s: State) -> io::Result<()> {
    print_found(rt, image)?;
    print_lent(rt, image)?;
    rows::start(rt, image, true)?;
    rows::run_row(rt, image, rows, s, 1)?;
    rt.print("\n")
}

fn report_changed(
    rt: &impl Print,
    image: &[u8],
    place: usize,
    rows: Rows,
    s: State,
) -> io::Result<()> {
    let mut bytes = [0u8; 1024];
    let n = image.len().min(bytes.len());
    bytes[..n].copy_from_slice(&image[..n]);
    if let Some(b) = bytes.get_mut(place) {
        *b = b.wrapping_add(1);
    }
    print!(rt; " changed {place}")?;
    report_damaged(rt, &bytes[..n], rows, s)
}

fn report_cut(rt: &impl Print, image: &[u8], n: usize, rows: Rows, s: State) -> io::Result<()> {
    print!(rt; " cut {n}")?;
    report_damaged(rt, &image[..n.min(image.len())], rows, s)
}

// The image with a byte changed, cut by a byte, and empty; s is its fresh state.
pub(crate) fn damaged(rt: &impl Print, image: &[u8], rows: Rows, s: State) -> io::Result<()> {
    for k in (0..image.len()).filter(|k| k % STEP == 0) {
        report_changed(rt, image, k, rows, s)?;
    }
    if image.len() > 0 {
        report_cut(rt, image, image.len() - 1, rows, s)?;
    }
    report_cut(rt, image, 0, rows, s)
}
