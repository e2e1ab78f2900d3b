// The lister's work: it writes a line for each token of standard input: kind, start, end and line, in
// decimal, with one space between them and an LF after them. Where lexing refuses, it writes one line:
// `refused`, the refusal's number, the value returned with it, and with refusal 1 the length too.
// What a program prints is tested, not proved; proved is that this ends and stays in its buffers.
#![tactic(auto)]

ghost use Rattle.std.specs.Prelude.{◌≡◌, ◌+◌, ◌≤◌, IfErr, IfOk, length};

use program_io::{Console, decimal, print_decimal, read_full};
use std::io;

// The most bytes that the lister takes.
const MOST: usize = 65536;

// The bytes that are collected before they are written, and the most that one line takes: four
// numbers of at most 20 digits, and a byte after each.
const ROOM: usize = 16384;

const LINE: usize = 84;

// Lists standard input. Its promise is that it returns, and fails only where a read or a write did, with some
// of the lines written: no contract can speak of what is read and written.
pub fn list_input<C: Console>(console: &C) -> io::Result<()>
    ensures answer { IfOk result (λ nothing. nothing ≡ tt) }
    ensures error { IfErr result C.fails }
{
    // One byte more than the most, so that a longer input is noticed.
    let mut doc = [0u8; 65537];
    let n = read_full(console, &mut doc)?;
    list(console, &doc[..n])
}

// Lists a document.
pub fn list<C: Console>(console: &C, doc: &[u8]) -> io::Result<()>
    ensures answer { IfOk result (λ nothing. nothing ≡ tt) }
    ensures error { IfErr result C.fails }
{
    if MOST < doc.len() {
        return print_refused(console, 2, MOST, 0);
    }
    // One record more than bytes: enough for every document that comes here.
    let mut records = [[0usize; 4]; 65537];
    match lexer::lex(doc, &mut records) {
        Ok(count) => print_records(console, &records, count),
        Err(refusal) => print_refused(console, refusal.number(), refusal.value(), refusal.length()),
    }
}

fn print_records<C: Console>(console: &C, records: &[[usize; 4]], count: usize) -> io::Result<()>
    ensures error { IfErr result C.fails }
{
    let mut space = [0u8; ROOM];
    let lines: &mut [u8] = &mut space;
    let mut at: usize = 0;
    for r in records.iter().take(count) {
        at = make_room(console, lines, at)?;
        at = put_line(lines, at, *r);
    }
    write_lines(console, lines, at)
}

// The place for one more line, where `at` bytes are collected: if it might not fit, these are written first.
fn make_room<C: Console>(console: &C, lines: &[u8], at: usize) -> io::Result<usize>
    requires { (at ≤ length lines.now) × (84 ≤ length lines.now) }
    ensures room { IfOk result (λ place. place + 84 ≤ length lines.now) }
    ensures error { IfErr result C.fails }
{
    if lines.len() - LINE < at {
        write_lines(console, lines, at)?;
        return Ok(0);
    }
    Ok(at)
}

fn write_lines<C: Console>(console: &C, lines: &[u8], at: usize) -> io::Result<()>
    requires { at ≤ length lines.now }
    ensures error { IfErr result C.fails }
{
    console.write_bytes(&lines[..at])
}

fn print_refused<C: Console>(
    console: &C,
    number: usize,
    value: usize,
    length: usize,
) -> io::Result<()>
    ensures error { IfErr result C.fails }
{
    console.write_bytes(b"refused ")?;
    print_decimal(console, number as u64)?;
    console.write_bytes(b" ")?;
    print_decimal(console, value as u64)?;
    if number == 1 {
        console.write_bytes(b" ")?;
        print_decimal(console, length as u64)?;
    }
    console.write_bytes(b"\n")
}

// Puts a line with a record's four numbers at `at`, and answers the place after it.
fn put_line(out: &mut [u8], at: usize, record: [usize; 4]) -> usize
    requires { at + 84 ≤ length out.old }
    ensures { result ≤ at + 84 }
{
    let after_kind = put_number(out, at, record[0], b' ');
    let after_start = put_number(out, after_kind, record[1], b' ');
    let after_end = put_number(out, after_start, record[2], b' ');
    put_number(out, after_end, record[3], b'\n')
}

// Puts a number in decimal and the byte `last` at `at`, and answers the place after both.
fn put_number(out: &mut [u8], at: usize, n: usize, last: u8) -> usize
    requires { at + 21 ≤ length out.old }
    ensures { result ≤ at + 21 }
{
    let mut digits = [0u8; 20];
    let k = decimal(n as u64, &mut digits);
    out[at..at + k].copy_from_slice(&digits[..k]);
    out[at + k] = last;
    at + k + 1
}
