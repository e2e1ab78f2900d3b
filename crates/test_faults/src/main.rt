// Which bytes the UTF-8 check finds at fault: each byte that is not ASCII comes first, with every byte
// as the second, the third and the fourth; the bytes between are right, and the text ends there, or an
// ASCII byte follows. An answer is `ok`, or the length of the longest valid prefix and that of the
// faulty sequence. The expected lines, in the file stdout, are made by tests/faults.py from the Unicode
// standard's table 3-7 and from what Rust documents of Utf8Error's error_len.
#![tactic(auto)]

use program_io::{Console, print_decimal, print_hex};
use std::cmp::min;
use std::io;
use text_refusals::Refusal;

fn main(rt: HostRuntime) -> io::Result<()> {
    for a in 0x80..=0xFF {
        faults(&rt, a)?;
    }
    Ok(())
}

// The answers for all texts that begin with the byte `a`.
fn faults(console: &impl Console, a: u8) -> io::Result<()> {
    print_hex(console, a as u64, 2)?;
    console.write_bytes(b" ")?;
    print(console, text::check_utf8(&[a]))?;
    console.write_bytes(b" ")?;
    print(console, text::check_utf8(&[a, b'x']))?;
    console.write_bytes(b"\n")?;
    let b = lowest(a);
    varied(console, &[a])?;
    varied(console, &[a, b])?;
    varied(console, &[a, b, 0x80])
}

// The lowest second byte that may follow the first byte `a`.
fn lowest(a: u8) -> u8 {
    match a {
        0xE0 => 0xA0,
        0xF0 => 0x90,
        _ => 0x80,
    }
}

// The answers for every byte after the opening `f`: first where the text ends there, then where an ASCII
// byte follows.
fn varied(console: &impl Console, f: &[u8]) -> io::Result<()> {
    bytes(console, f)?;
    console.write_bytes(b"..")?;
    runs(console, f, b"")?;
    bytes(console, f)?;
    console.write_bytes(b".. 78")?;
    runs(console, f, b"x")
}

fn bytes(console: &impl Console, f: &[u8]) -> io::Result<()> {
    for b in f {
        print_hex(console, *b as u64, 2)?;
        console.write_bytes(b" ")?;
    }
    Ok(())
}

// The answers for every byte between `f` and `after`, a word for each run of bytes with the same answer.
fn runs(console: &impl Console, f: &[u8], after: &[u8]) -> io::Result<()> {
    let mut first = 0;
    let mut last = 0;
    let mut before = answer_to(f, 0, after);
    for b in 1..=0xFF {
        let here = answer_to(f, b, after);
        if here != before {
            run(console, first, last, before)?;
            first = b;
            before = here;
        }
        last = b;
    }
    run(console, first, last, before)?;
    console.write_bytes(b"\n")
}

// The answer for `f`, the byte `b` and `after`.
fn answer_to(f: &[u8], b: u8, after: &[u8]) -> Result<(), Refusal> {
    let mut text = [0u8; 5];
    let n = min(f.len(), 3);
    let m = min(after.len(), 1);
    text[..n].copy_from_slice(&f[..n]);
    text[n] = b;
    text[n + 1..n + 1 + m].copy_from_slice(&after[..m]);
    text::check_utf8(&text[..n + 1 + m])
}

fn run(console: &impl Console, first: u8, last: u8, answer: Result<(), Refusal>) -> io::Result<()> {
    console.write_bytes(b" ")?;
    print_hex(console, first as u64, 2)?;
    console.write_bytes(b"-")?;
    print_hex(console, last as u64, 2)?;
    console.write_bytes(b" ")?;
    print(console, answer)
}

fn print(console: &impl Console, answer: Result<(), Refusal>) -> io::Result<()> {
    match answer {
        Ok(()) => console.write_bytes(b"ok"),
        Err(r) => {
            print_decimal(console, r.value() as u64)?;
            console.write_bytes(b"/")?;
            print_decimal(console, r.length() as u64)
        }
    }
}
