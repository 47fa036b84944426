// The image of a text, and the text compiled again into buffers of other lengths.
use crate::print;
use base_files::shown::Hex;
use std::io;

pub(crate) fn print_untouched(rt: &impl Print, buffer: &[u8]) -> io::Result<()> {
    let untouched = buffer.iter().all(|b| *b == 165);
    rt.print(if untouched { " untouched" } else { " touched" })
}

pub(crate) fn print_same(rt: &impl Print, a: &[u8], b: &[u8]) -> io::Result<()> {
    rt.print(if a == b { " same" } else { " differs" })
}

// The bytes in hexadecimal.
fn print_bytes(rt: &impl Print, bytes: &[u8]) -> io::Result<()> {
    let shown = Hex(bytes);
    print!(rt; " {shown}")
}

// Two sums modulo 65521: of 1 and the bytes, and of all sums so far.
fn print_sums(rt: &impl Print, bytes: &[u8]) -> io::Result<()> {
    let mut a: u32 = 1;
    let mut b: u32 = 0;
    for byte in bytes {
        a = (a + u32::from(*byte)) % 65521;
        b = (b + a) % 65521;
    }
    print!(rt; " {a} {b}")
}

// The length, and all bytes; of more than 1024 the first and last 64, and two sums of all.
pub(crate) fn print_image(rt: &impl Print, image: &[u8]) -> io::Result<()> {
    let n = image.len();
    print!(rt; " image {n}")?;
    if n <= 1024 {
        return print_bytes(rt, image);
    }
    print_bytes(rt, &image[0..64])?;
    print_bytes(rt, &image[n - 64..n])?;
    print_sums(rt, image)
}

// What compiling into this buffer answers and leaves there.
fn compile_into(rt: &impl Print, text: &[u8], image: &[u8], buffer: &mut [u8]) -> io::Result<()> {
    let room = buffer.len();
    print!(rt; " into {room}")?;
    match image_compiler::compile(text, buffer) {
        Ok(n) => {
            print!(rt; " written {n}")?;
            print_same(rt, image, buffer)?;
        }
        Err(r) => {
            print::refusal(rt, r)?;
            print_untouched(rt, buffer)?;
        }
    }
    rt.print("\n")
}

// The text compiled into a buffer of m bytes.
fn compile_within(rt: &impl Print, text: &[u8], image: &[u8], m: usize) -> io::Result<()> {
    let mut buffer = [165u8; 65535];
    if m > buffer.len() {
        return Ok(());
    }
    compile_into(rt, text, image, &mut buffer[..m])
}

// The text compiled again: into the bytes that it needs, one less, and none.
pub(crate) fn again(rt: &impl Print, text: &[u8], image: &[u8]) -> io::Result<()> {
    let n = image.len();
    compile_within(rt, text, image, n)?;
    if n > 0 {
        compile_within(rt, text, image, n - 1)?;
    }
    compile_within(rt, text, image, 0)
}
