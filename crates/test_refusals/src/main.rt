#![tactic(auto)]
// Prints the front end's answer to texts, a line for each: the refusal's number and place and the token there, or 0 for an accepted text. The first
// arguments name files in which each line is a text; every further argument names a file that is a text.
use base_answers::Refusal;
use std::env::Env;
use std::io;
use std::rt::Files;

// How many of the arguments name a file of lines: `lines` has tokens; `cut` has tally ended after each token; `grammar`, `replaced`, `left_out` and
// `doubled` have tokens that cannot continue; `counts`, `statements` and `expressions` have the limits; `names` has 5, `operands` and `types` have 6,
// `values` has 7, `clock` has 8, `classes` has 9; `order` has several offences in one text.
const LISTS: usize = 16;

// The bytes of the token at a place, or in parentheses how many they are, if more than 40.
fn print_token(rt: &impl Print, text: &[u8], place: usize) -> io::Result<()> {
    let t = front_lexer::token_at(text, place);
    match t.len() {
        0 => Ok(()),
        1..=40 => {
            rt.print(" ")?;
            rt.write_all(t)
        }
        n => print!(rt; " ({n})"),
    }
}

fn print_refusal(rt: &impl Print, text: &[u8], r: Refusal) -> io::Result<()> {
    let number = r.number();
    let place = r.place();
    print!(rt; "{number} {place}")?;
    print_token(rt, text, place)
}

fn report(rt: &impl Print, text: &[u8]) -> io::Result<()> {
    let mut ops = [0u8; 16384];
    let mut args = [0i32; 16384];
    let mut lines = [0u16; 3072];
    match front_accept::accept(text, &mut ops, &mut args, &mut lines) {
        Ok(_) => rt.print("0")?,
        Err(r) => print_refusal(rt, text, r)?,
    }
    rt.print("\n")
}

// Each line as a text, with the file's name and the line's number.
fn report_lines(rt: &impl Print, name: &[u8], text: &[u8]) -> io::Result<()> {
    for (line, part) in (1u64..).zip(text.split_inclusive(|b| *b == b'\n')) {
        rt.write_all(name)?;
        print!(rt; " {line}: ")?;
        report(rt, part.strip_suffix(b"\n").unwrap_or(part))?;
    }
    Ok(())
}

// The text or texts of a file, whose name the argument of this number is.
fn report_file(rt: &impl Print, i: usize, name: &[u8], bytes: &[u8]) -> io::Result<()> {
    if i <= LISTS {
        return report_lines(rt, name, bytes);
    }
    rt.write_all(name)?;
    rt.print(": ")?;
    report(rt, bytes)
}

// The text or texts that an argument names.
fn report_argument(rt: &(impl Env + Files + Print + Eprint), i: usize) -> io::Result<()> {
    let mut path = [0u8; 4096];
    let length = base_files::argument(rt, i, &mut path);
    let mut buffer = [0u8; 65536];
    if let Some(n) = base_files::read_or_tell(rt, &path[..length], &mut buffer)? {
        report_file(rt, i, &path[..length], &buffer[..n])?;
    }
    Ok(())
}

fn main(rt: HostRuntime) -> io::Result<()> {
    let count = base_files::arg_count(&rt);
    for i in 1..count {
        report_argument(&rt, i)?;
    }
    Ok(())
}
