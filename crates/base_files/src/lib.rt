#![tactic(auto)]
// Arguments and files, read into buffers that the caller lends. Nothing here allocates. No contract can say what an argument or a file holds; what a failed
// read leaves is a buffer of the same length, and of the bytes in it nothing is told.
ghost use Rattle.std.specs.Prelude.{◌≡◌, ◌<◌, ◌≤◌, length, take, IfOk, IfSome};
ghost use Rattle.std.specs.Io.KnownBytes.{Consumes, IsAtEnd};

pub mod shown;

use std::env::{Env, FillError};
use std::io::Read;
use std::rt::Files;
use std::{fs, io};

/// How many arguments the program was started with, its own name among them.
pub fn arg_count(rt: &impl Env) -> usize {
    let mut first = [0u8; 1];
    for i in 0..usize::MAX {
        if let Err(FillError::NotPresent) = rt.arg(i, &mut first) {
            return i;
        }
    }
    usize::MAX
}

/// The length of an argument, put at the start of a buffer: 0 where it is missing or longer than the buffer.
pub fn argument(rt: &impl Env, i: usize, buffer: &mut [u8]) -> usize
    ensures bound { result ≤ length buffer.new }
    ensures room { length buffer.new ≡ length buffer.old }
{
    rt.arg(i, buffer).unwrap_or(0)
}

/// Reads until the buffer is full or the input ends, and answers how many bytes stand at the buffer's start.
pub fn read_full<R: Read>(from: &mut R, buffer: &mut [u8]) -> io::Result<usize>
    ensures bound { IfOk result (λ n. n ≤ length buffer.new) }
    ensures bytes { IfOk result (λ n. Consumes (R.remaining from.old) (R.remaining from.new) (take n buffer.new)) }
    ensures end { IfOk result (λ n. n < length buffer.new → IsAtEnd (R.remaining from.new)) }
    ensures room { length buffer.new ≡ length buffer.old }
{
    let mut done = 0;
    while done < buffer.len() {
        let n = from.read(&mut buffer[done..])?;
        if n == 0 {
            return Ok(done);
        }
        done += n;
    }
    Ok(done)
}

/// The bytes of the file that a path names, at most as many as there is room for; none where it cannot be opened.
pub fn read_or_empty(rt: &impl Files, path: &str, buffer: &mut [u8]) -> io::Result<usize>
    ensures bound { IfOk result (λ n. n ≤ length buffer.new) }
    ensures room { length buffer.new ≡ length buffer.old }
{
    match fs::open(rt, path) {
        Ok(mut file) => read_full(&mut file, buffer),
        Err(_) => Ok(0),
    }
}

/// The bytes of the file that a path names, at most as many as there is room for. Where it cannot be opened, there are none, and standard error
/// is told of it.
pub fn read_or_tell(
    rt: &(impl Files + Eprint),
    path: &[u8],
    buffer: &mut [u8],
) -> io::Result<Option<usize>>
    ensures bound { IfOk result (λ found. IfSome found (λ n. n ≤ length buffer.new)) }
    ensures room { length buffer.new ≡ length buffer.old }
{
    let Ok(name) = str::from_utf8(path) else {
        eprintln!(rt; "a file's name is not UTF-8")?;
        return Ok(None);
    };
    match fs::open(rt, name) {
        Ok(mut file) => {
            let n = read_full(&mut file, buffer)?;
            Ok(Some(n))
        }
        Err(why) => {
            eprintln!(rt; "{name}: {why}")?;
            Ok(None)
        }
    }
}

/// The bytes of the file that an argument names, at most as many as there is room for, as `read_or_tell` reads them.
pub fn read_argument(
    rt: &(impl Env + Files + Eprint),
    i: usize,
    buffer: &mut [u8],
) -> io::Result<Option<usize>>
    ensures bound { IfOk result (λ found. IfSome found (λ n. n ≤ length buffer.new)) }
    ensures room { length buffer.new ≡ length buffer.old }
{
    let mut path = [0u8; 4096];
    let n = argument(rt, i, &mut path);
    read_or_tell(rt, &path[..n], buffer)
}
