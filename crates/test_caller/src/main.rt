#![tactic(auto)]
// Every public function of the crate api_rattle, and many rows in one call, in the forms that documents 01 and 02 name: the state record by `&mut`, the opened image
// with its accessors, the token as a part of the text. The first text is 16385 blanks; each line of a file that an argument names is one more.
// Of a text are printed the answer of `compile`, whether the buffer still holds 165 where nothing is written, and the tokens. Of a refused one: the token at the
// refusal's place, and the direct calls. Of an accepted one: a compile into a byte less than it needs; the image opened, with its sections; the calls on the
// text, then on the image; its rows in one call from the fresh state, and the same with a count that they are too few for; and the image with a byte changed,
// cut or empty, opened and called.
// `fresh`, `cycle` and `rows` tell the answer and the record that the call leaves. Before `fresh` the record has place 7, 3 in output slot 15 and -5 in variable slot 31;
// an output row, and the answers of many rows, hold 99 before a call.
use base_answers::{Refusal, State};
use image_words::byte;
use rows::Rows;
use std::env::Env;
use std::io;
use std::rt::Files;

mod batches;
mod calls;
mod opened;
mod print;
mod rows;
mod sections;

// The longest text whose tokens are printed.
const SHORT: usize = 1000;

fn print_untouched(rt: &impl Print, buffer: &[u8]) -> io::Result<()> {
    let untouched = buffer.iter().all(|b| *b == 165);
    rt.print(if untouched { " untouched" } else { " touched" })
}

// The token at a place, if one starts there.
fn print_token(rt: &impl Print, text: &[u8], place: usize) -> io::Result<()> {
    let t = api_rattle::token_at(text, place);
    if t.is_empty() {
        return Ok(());
    }
    rt.print(" ")?;
    rt.write_all(t)
}

fn print_tokens(rt: &impl Print, text: &[u8]) -> io::Result<()> {
    if text.len() > SHORT {
        return Ok(());
    }
    rt.print(" tokens")?;
    for k in 0..=text.len() {
        print_token(rt, text, k)?;
    }
    rt.print("\n")
}

// The refusal of a text, and the token there.
fn print_refused(rt: &impl Print, text: &[u8], buffer: &[u8], r: Refusal) -> io::Result<()> {
    print::refusal(rt, r)?;
    print_untouched(rt, buffer)?;
    rt.print(" token")?;
    print_token(rt, text, r.place())?;
    rt.print("\n")
}

// The calls on a text that is refused, from the marked record.
fn run_refused(rt: &impl Print, text: &[u8]) -> io::Result<()> {
    let rows = Rows {
        on_image: false,
        inputs: 1,
        outputs: 2,
    };
    rows::start(rt, text, false)?;
    rows::run_row(rt, text, rows, rows::marked(), 1)?;
    rt.print("\n")
}

// A text that is refused.
fn refused(rt: &impl Print, text: &[u8], buffer: &[u8], r: Refusal) -> io::Result<()> {
    print_refused(rt, text, buffer, r)?;
    print_tokens(rt, text)?;
    run_refused(rt, text)
}

// The text compiled into the first m bytes of a buffer.
fn compile_into(rt: &impl Print, text: &[u8], m: usize) -> io::Result<()> {
    let mut buffer = [165u8; 65535];
    if m > buffer.len() {
        return Ok(());
    }
    print!(rt; " into {m}")?;
    print::counted(rt, api_rattle::compile(text, &mut buffer[..m]))?;
    print_untouched(rt, &buffer)?;
    rt.print("\n")
}

// How many inputs and outputs the signature has.
fn rows_of(image: &[u8], on_image: bool) -> Rows {
    let signature = sections::signature(image);
    Rows {
        on_image,
        inputs: usize::from(byte(signature, 0)),
        outputs: usize::from(byte(signature, 1)),
    }
}

fn fresh_state(image: &[u8]) -> State {
    calls::fresh(image, rows::marked()).state
}

// The calls on an image, damaged too.
fn run_image(rt: &impl Print, image: &[u8]) -> io::Result<()> {
    let rows = rows_of(image, true);
    rt.print(" image\n")?;
    rows::run(rt, image, rows)?;
    batches::run(rt, image, rows, fresh_state(image))?;
    opened::damaged(rt, image, rows, fresh_state(image))
}

// The calls on a text, with the counts of its image.
fn run_text(rt: &impl Print, text: &[u8], image: &[u8]) -> io::Result<()> {
    rt.print(" text\n")?;
    rows::run(rt, text, rows_of(image, false))
}

// An accepted text and its image.
fn run(rt: &impl Print, text: &[u8], image: &[u8]) -> io::Result<()> {
    print_tokens(rt, text)?;
    opened::report(rt, image)?;
    run_text(rt, text, image)?;
    run_image(rt, image)
}

// A text that is accepted, with the 65535 bytes into which it was compiled.
fn accepted(rt: &impl Print, text: &[u8], whole: &[u8], n: usize) -> io::Result<()> {
    if whole.len() < n {
        return Ok(());
    }
    let (image, rest) = whole.split_at(n);
    print!(rt; " {n}")?;
    print_untouched(rt, rest)?;
    rt.print("\n")?;
    if n > 0 {
        // into a byte less than it needs
        compile_into(rt, text, n - 1)?;
    }
    run(rt, text, image)
}

fn report(rt: &impl Print, text: &[u8], line: u64) -> io::Result<()> {
    print!(rt; "{line}: compile")?;
    let mut whole = [165u8; 65535];
    match api_rattle::compile(text, &mut whole) {
        Ok(n) => accepted(rt, text, &whole, n),
        Err(r) => refused(rt, text, &whole, r),
    }
}

// Each line as a text, with its number.
fn report_lines(rt: &impl Print, text: &[u8]) -> io::Result<()> {
    for (line, part) in (1u64..).zip(text.split_inclusive(|b| *b == b'\n')) {
        report(rt, part.strip_suffix(b"\n").unwrap_or(part), line)?;
    }
    Ok(())
}

fn report_blanks(rt: &impl Print) -> io::Result<()> {
    let text = [b' '; 16385];
    report(rt, &text, 0)
}

// The lines of the file that an argument names.
fn report_argument(rt: &(impl Env + Files + Print + Eprint), i: usize) -> io::Result<()> {
    let mut buffer = [0u8; 65536];
    if let Some(n) = base_files::read_argument(rt, i, &mut buffer)? {
        report_lines(rt, &buffer[..n])?;
    }
    Ok(())
}

fn main(rt: HostRuntime) -> io::Result<()> {
    report_blanks(&rt)?;
    let count = base_files::arg_count(&rt);
    for i in 1..count {
        report_argument(&rt, i)?;
    }
    Ok(())
}
