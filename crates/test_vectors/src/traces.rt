// The folders of examples/: the trace of process.vhd over rows.txt is held to trace.txt.
ghost use Rattle.std.specs.Prelude.{◌≡◌, ◌≤◌, length, IfOk};

use crate::compiling;
use std::io;
use std::rt::Files;
use trace_lines::OnlyLine;

// Copies bytes to the beginning of a buffer, as many as there is room for, and answers how many.
fn copy(bytes: &[u8], to: &mut [u8]) -> usize
    ensures { result ≤ length to.new }
{
    let n = bytes.len().min(to.len());
    to[..n].copy_from_slice(&bytes[..n]);
    n
}

// The lines of rows into the buffer: as many as it has room for.
fn put_rows(image: &[u8], rows: &[u8], out: &mut [u8]) -> usize
    ensures { result ≤ length out.new }
{
    let p = trace_lines::first(image);
    let filled = trace_lines::fill(image, rows, p, out);
    filled.size.min(out.len())
}

// The header into the buffer.
fn put_header(text: &[u8], out: &mut [u8]) -> usize
    ensures { result ≤ length out.new }
{
    let line = trace_header::header(text);
    copy(&line.bytes[..line.size.min(line.bytes.len())], out)
}

// The trace of a text over rows into a buffer.
fn put_trace(text: &[u8], rows: &[u8], out: &mut [u8]) -> usize {
    let mut image = [0u8; 65535];
    match trace_lines::start(text, rows, &mut image, out) {
        Ok(n) => {
            let k = put_header(text, out);
            k + put_rows(&image[..n.min(image.len())], rows, &mut out[k..])
        }
        Err(OnlyLine { size }) => size,
    }
}

// A file of a folder; no bytes where it cannot be opened.
fn read(rt: &impl Files, folder: &[u8], name: &[u8], bytes: &mut [u8]) -> io::Result<usize>
    ensures bound { IfOk result (λ n. n ≤ length bytes.new) }
    ensures room { length bytes.new ≡ length bytes.old }
{
    let mut path = [0u8; 4096];
    let k = copy(folder, &mut path);
    let n = copy(name, &mut path[k..]);
    match str::from_utf8(&path[..k + n]) {
        Ok(whole) => base_files::read_or_empty(rt, whole, bytes),
        Err(_) => Ok(0),
    }
}

// The trace of a folder beside the one that stands there.
pub(crate) fn report(rt: &(impl Files + Print), folder: &[u8]) -> io::Result<()> {
    let mut text = [0u8; 16385];
    let mut rows = [0u8; 65537];
    let mut expected = [0u8; 65536];
    let mut out = [0u8; 65536];
    let n = read(rt, folder, b"process.vhd", &mut text)?;
    let m = read(rt, folder, b"rows.txt", &mut rows)?;
    let e = read(rt, folder, b"trace.txt", &mut expected)?;
    let size = put_trace(&text[..n], &rows[..m], &mut out);
    rt.write_all(folder)?;
    print!(rt; ": trace {size}")?;
    compiling::print_same(rt, &expected[..e], &out[..size.min(out.len())])?;
    rt.print("\n")
}
