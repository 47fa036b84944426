#![tactic(auto)]
// Texts compiled, and their rows run by the table and directly from the text. An argument that ends in a slash names a folder of examples/, whose trace is
// held to its file trace.txt. Any other names a file of cases, one behind another. A case is:
//   0, 1      how many bytes the text has
//   2, 3      how many bytes its rows have
//   then the text, then the rows; a row is
//   0         number of inputs
//   1         length of the output row; it holds 99 before the call
//   then 4 bytes for each input
// Of a case are printed: the image's length and its bytes (`print_image`), as compiled into 65535 bytes; what compiling again into fewer bytes comes to;
// the fresh state; and for each row the answer of the cycle on the image, the output row and the state after it. `same` says that the direct run from the
// text gave all of this too; where it did not, its own answer follows. Buffers hold 165 before a call; `untouched` says that they still do.
use base_answers::Refusal;
use image_words::word2;
use std::env::Env;
use std::io;
use std::rt::Files;

mod compiling;
mod print;
mod rows;
mod traces;

// A text that is refused: the buffer, and the direct run from place 512 with 0 in every slot.
fn refused(rt: &impl Print, text: &[u8], buffer: &[u8], r: Refusal) -> io::Result<()> {
    print::refusal(rt, r)?;
    compiling::print_untouched(rt, buffer)?;
    rt.print("\n")?;
    rows::print_fresh_of_text(rt, text)?;
    rows::print_run_of_text(rt, text)
}

// A text that is accepted, with the 65535 bytes into which it was compiled.
fn accepted(rt: &impl Print, text: &[u8], rows: &[u8], whole: &[u8], n: usize) -> io::Result<()> {
    if whole.len() < n {
        return Ok(());
    }
    let image = &whole[..n];
    compiling::print_image(rt, image)?;
    compiling::print_untouched(rt, &whole[n..])?;
    rt.print("\n")?;
    compiling::again(rt, text, image)?;
    rows::run(rt, text, image, rows)
}

// One case.
fn report(rt: &impl Print, text: &[u8], rows: &[u8]) -> io::Result<()> {
    let mut whole = [165u8; 65535];
    match image_compiler::compile(text, &mut whole) {
        Ok(n) => accepted(rt, text, rows, &whole, n),
        Err(r) => refused(rt, text, &whole, r),
    }
}

// The cases of a file.
fn report_cases(rt: &impl Print, name: &[u8], cases: &[u8]) -> io::Result<()> {
    let mut at = 0;
    let mut number: u64 = 0;
    while at < cases.len() {
        let start = at + 4;
        let middle = start + word2(cases, at) as usize;
        let end = middle + word2(cases, at + 2) as usize;
        if cases.len() < end {
            return Ok(());
        }
        rt.write_all(name)?;
        print!(rt; " {number}:")?;
        report(rt, &cases[start..middle], &cases[middle..end])?;
        at = end;
        number += 1;
    }
    Ok(())
}

// The file of cases that a path names.
fn report_file(rt: &(impl Files + Print + Eprint), path: &[u8]) -> io::Result<()> {
    let mut cases = [0u8; 65536];
    if let Some(n) = base_files::read_or_tell(rt, path, &mut cases)? {
        report_cases(rt, path, &cases[..n])?;
    }
    Ok(())
}

// The file or the folder that an argument names.
fn report_argument(rt: &(impl Env + Files + Print + Eprint), i: usize) -> io::Result<()> {
    let mut path = [0u8; 4096];
    let length = base_files::argument(rt, i, &mut path);
    let name = &path[..length];
    if name.ends_with(b"/") {
        traces::report(rt, name)
    } else {
        report_file(rt, name)
    }
}

fn main(rt: HostRuntime) -> io::Result<()> {
    let count = base_files::arg_count(&rt);
    for i in 1..count {
        report_argument(&rt, i)?;
    }
    Ok(())
}
