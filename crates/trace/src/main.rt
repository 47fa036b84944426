#![tactic(auto)]
// The trace program: reads `process.vhd` and `rows.txt` in the folder it is run in, where a file that cannot be opened is empty, and prints the trace.
// Everything that it prints comes from trace_header and trace_lines, chunk by chunk; here it is only read and written.
use std::io;
use trace_lines::{Filled, OnlyLine, Progress};

// Prints the first n bytes, or all where there are fewer.
fn print_first(rt: &impl Print, bytes: &[u8], n: usize) -> io::Result<()> {
    rt.write_all(&bytes[..n.min(bytes.len())])
}

fn print_header(rt: &impl Print, text: &[u8]) -> io::Result<()> {
    let line = trace_header::header(text);
    print_first(rt, &line.bytes, line.size)
}

// Prints the lines of the next rows, as many as 32,768 bytes have room for.
fn print_fill(rt: &impl Print, image: &[u8], rows: &[u8], p: Progress) -> io::Result<Filled> {
    let mut lines = [0u8; 32768];
    let filled = trace_lines::fill(image, rows, p, &mut lines);
    print_first(rt, &lines, filled.size)?;
    Ok(filled)
}

// Prints the lines of the rows: there are at most 65,536, and each fill but the last puts at least one.
fn print_rows(rt: &impl Print, image: &[u8], rows: &[u8]) -> io::Result<()> {
    let mut p = trace_lines::first(image);
    for _ in 0..65537 {
        let filled = print_fill(rt, image, rows, p)?;
        if filled.size == 0 {
            return Ok(());
        }
        p = filled.progress;
    }
    Ok(())
}

fn trace(rt: &impl Print, text: &[u8], rows: &[u8]) -> io::Result<()> {
    let mut image = [0u8; 65535];
    let mut line = [0u8; 512];
    match trace_lines::start(text, rows, &mut image, &mut line) {
        Ok(n) => {
            print_header(rt, text)?;
            print_rows(rt, &image[..n.min(image.len())], rows)
        }
        Err(OnlyLine { size }) => print_first(rt, &line, size),
    }
}

fn main(rt: HostRuntime) -> io::Result<()> {
    let mut text = [0u8; 16385];
    let mut rows = [0u8; 65537];
    let n = base_files::read_or_empty(&rt, "process.vhd", &mut text)?;
    let m = base_files::read_or_empty(&rt, "rows.txt", &mut rows)?;
    trace(&rt, &text[..n], &rows[..m])
}
