// The UTF-8 check and the encoding at every boundary. The expected lines, in the file stdout, follow
// the Unicode standard, section 3.9: table 3-6 for encodings, table 3-7 for well-formed sequences; the
// last number of a refusal is Rust's error_len, as core::str::Utf8Error documents it, 0 for none.
#![tactic(auto)]

use program_io::{Console, print_decimal, print_hex};
use std::io;
use text_refusals::Refusal;

// The first and the last scalar value of each length, those beside the surrogates, and U+FFFD.
const LENGTHS: [u32; 11] = [
    0, 0x7F, 0x80, 0x7FF, 0x800, 0xD7FF, 0xE000, 0xFFFD, 0xFFFF, 0x10000, 0x10FFFF,
];

const NO_SCALARS: [u32; 4] = [0xD800, 0xDFFF, 0x110000, 0xFFFF_FFFF];

const WHOLE: [&[u8]; 12] = [
    b"",
    b"\x00",
    b"\x7F",
    b"\xC2\x80",
    b"\xDF\xBF",
    b"\xE0\xA0\x80",
    b"\xED\x9F\xBF",
    b"\xEE\x80\x80",
    b"\xEF\xBF\xBF",
    b"\xF0\x90\x80\x80",
    b"\xF4\x8F\xBF\xBF",
    b"\xEF\xBB\xBF",
];

const OVERLONG: [&[u8]; 6] = [
    b"\xC0\x80",
    b"\xC1\xBF",
    b"\xE0\x80\x80",
    b"\xE0\x9F\xBF",
    b"\xF0\x80\x80\x80",
    b"\xF0\x8F\xBF\xBF",
];

const SURROGATES: [&[u8]; 3] = [
    b"\xED\xA0\x80",
    b"\xED\xBF\xBF",
    b"\xED\xA0\xBD\xED\xB8\x80",
];

const TOO_LARGE: [&[u8]; 2] = [b"\xF4\x90\x80\x80", b"\xF5\x80\x80\x80"];

const CUT_SHORT: [&[u8]; 6] = [
    b"\xC2",
    b"\xE1",
    b"\xE1\x80",
    b"\xF1",
    b"\xF1\x80",
    b"\xF1\x80\x80",
];

const WRONG_TAILS: [&[u8]; 7] = [
    b"\xC2\x7F",
    b"\xC2\xC0",
    b"\xE1\x7F\x80",
    b"\xE1\x80\xC0",
    b"\xF1\x7F\x80\x80",
    b"\xF1\x80\x7F\x80",
    b"\xF1\x80\x80\xC0",
];

// Faults after runs of ASCII that are about as long as a word or a block of the scan, and after characters.
const AFTER_OTHERS: [&[u8]; 8] = [
    b"1234567\xFF",
    b"12345678\xFF",
    b"123456789\xFF",
    b"123456789012345678901234567890123456789012345678901234567890123\xFF",
    b"1234567890123456789012345678901234567890123456789012345678901234\xFF",
    b"12345678901234567890123456789012345678901234567890123456789012345\xFF5678",
    b"\xC3\xA9=\xE2\x82\xAC\xF0\x9F\x98\x80 \xED\xA0\x80",
    b"\xC3\xA912345678\xE2\x82\xAC123\xF0\x9F\x98",
];

fn main(rt: HostRuntime) -> io::Result<()> {
    encodings(&rt, &LENGTHS)?;
    encodings(&rt, &NO_SCALARS)?;
    checks(&rt, &WHOLE)?;
    checks(&rt, &OVERLONG)?;
    checks(&rt, &SURROGATES)?;
    checks(&rt, &TOO_LARGE)?;
    no_leads(&rt)?;
    checks(&rt, &CUT_SHORT)?;
    checks(&rt, &WRONG_TAILS)?;
    checks(&rt, &AFTER_OTHERS)
}

// Bytes that begin no character: 80 to BF and F5 to FF, each with three continuation bytes after it. (C0 and C1 are among the
// overlong.)
fn no_leads(console: &impl Console) -> io::Result<()> {
    for b in 0x80..=0xBF {
        check(console, &[b, 0x80, 0x80, 0x80])?;
    }
    for b in 0xF5..=0xFF {
        check(console, &[b, 0x80, 0x80, 0x80])?;
    }
    Ok(())
}

fn encodings(console: &impl Console, numbers: &[u32]) -> io::Result<()> {
    for c in numbers {
        encoding(console, *c)?;
    }
    Ok(())
}

// The number, the length and all four bytes.
fn encoding(console: &impl Console, c: u32) -> io::Result<()> {
    console.write_bytes(b"U+")?;
    print_hex(console, c as u64, 4)?;
    console.write_bytes(b" ")?;
    let e = text_scalars::encode(c);
    let bytes = e.bytes;
    print_decimal(console, e.len as u64)?;
    hex(console, &bytes)?;
    console.write_bytes(b"\n")
}

fn checks(console: &impl Console, texts: &[&[u8]]) -> io::Result<()> {
    for text in texts {
        check(console, text)?;
    }
    Ok(())
}

fn check(console: &impl Console, s: &[u8]) -> io::Result<()> {
    console.write_bytes(b"check")?;
    hex(console, s)?;
    match text::check_utf8(s) {
        Ok(()) => console.write_bytes(b" valid\n"),
        Err(r) => refused(console, r),
    }
}

fn refused(console: &impl Console, r: Refusal) -> io::Result<()> {
    console.write_bytes(b" refused ")?;
    print_decimal(console, r.number() as u64)?;
    console.write_bytes(b" ")?;
    print_decimal(console, r.value() as u64)?;
    console.write_bytes(b" ")?;
    print_decimal(console, r.length() as u64)?;
    console.write_bytes(b"\n")
}

fn hex(console: &impl Console, s: &[u8]) -> io::Result<()> {
    for b in s {
        console.write_bytes(b" ")?;
        print_hex(console, *b as u64, 2)?;
    }
    Ok(())
}
