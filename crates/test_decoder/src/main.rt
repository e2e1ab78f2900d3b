// Runs the worked examples of `decode`, and each of its refusals but 2 (whose texts no program's stack
// can hold), through the compiled code. A line for each call: the kind, the bytes and the records that are
// lent, then the answer's number and two values, with refusal 1 a third; below it what the lent memory
// holds afterwards, which held 2A and 0 0 0 before. The file stdout is written from the rules.
#![tactic(auto)]

ghost use Rattle.std.specs.Prelude.{◌≤◌, ◌<◌};

use decoder_rules::Decoded;
use program_io::{Console, print_decimal};
use std::io;
use text_refusals::Refusal;

fn number(console: &impl Console, n: usize) -> io::Result<()> {
    console.write_bytes(b" ")?;
    print_decimal(console, n as u64)
}

fn line(console: &impl Console) -> io::Result<()> {
    console.write_bytes(b"\n")
}

fn hex_digit(n: u8) -> u8
    requires { n < 16 }
{
    if n < 10 { n + 48 } else { n + 55 }
}

fn print_bytes(console: &impl Console, output: &[u8]) -> io::Result<()> {
    for b in output {
        console.write_bytes(&[b' ', hex_digit(b / 16), hex_digit(b % 16)])?;
    }
    line(console)
}

fn print_records(console: &impl Console, errors: &[[usize; 3]]) -> io::Result<()> {
    for error in errors {
        for n in error {
            number(console, *n)?;
        }
        line(console)?;
    }
    Ok(())
}

fn print_answer(console: &impl Console, answer: Result<Decoded, Refusal>) -> io::Result<()> {
    match answer {
        Ok(Decoded { bytes, errors }) => {
            number(console, 0)?;
            number(console, bytes)?;
            number(console, errors)?;
        }
        Err(r) => {
            number(console, r.number())?;
            number(console, r.value())?;
            number(console, 0)?;
            if r.number() == 1 {
                number(console, r.length())?;
            }
        }
    }
    line(console)
}

// One call, to which all of `output` and `errors` is lent.
fn run(
    console: &impl Console,
    kind: usize,
    text: &[u8],
    output: &mut [u8],
    errors: &mut [[usize; 3]],
) -> io::Result<()> {
    print_decimal(console, kind as u64)?;
    number(console, output.len())?;
    number(console, errors.len())?;
    console.write_bytes(b":")?;
    let answer = decoder::decode(text, kind, output, errors);
    print_answer(console, answer)?;
    print_bytes(console, output)?;
    print_records(console, errors)
}

// One call, to which `room` bytes and `slots` records are lent.
fn show(
    console: &impl Console,
    kind: usize,
    text: &[u8],
    room: usize,
    slots: usize,
) -> io::Result<()>
    requires { (room ≤ 16) × (slots ≤ 4) }
{
    let mut output = [0x2Au8; 16];
    let mut errors = [[0usize; 3]; 4];
    run(
        console,
        kind,
        text,
        &mut output[..room],
        &mut errors[..slots],
    )
}

fn basic(console: &impl Console) -> io::Result<()> {
    show(console, 34, b"\"\\u\\u\\u\"", 10, 4)?;
    show(console, 34, b"\"\\uD7FF\"", 4, 1)?;
    show(console, 34, b"\"\\uD800\"", 4, 2)?;
    show(console, 34, b"\"\\U0010FFFF\"", 4, 1)?;
    show(console, 34, b"\"\\U00110000\"", 4, 2)?;
    show(console, 34, b"\"\\q\"", 4, 2)?;
    show(console, 34, b"\"a\\\"", 4, 2)
}

fn others(console: &impl Console) -> io::Result<()> {
    show(console, 1, b"'''a''", 3, 2)?;
    show(console, 2, b"\"\"\"a\"\"", 4, 2)?;
    show(console, 2, b"\"\"\"a\rb\"\"\"", 4, 2)?;
    show(console, 2, b"\"\"\"a\\ \n  b\"\"\"", 3, 1)?;
    show(console, 39, b"'", 1, 2)?;
    show(console, 39, b"", 1, 3)?;
    show(console, 3, b"", 1, 2)?;
    show(console, 3, b"\xC3\xA9", 3, 3)
}

// A text that needs nine bytes and three errors: with none of each, one short, exactly enough, and one more.
fn lent(console: &impl Console) -> io::Result<()> {
    show(console, 34, b"\"\\u\\u\\u\"", 0, 3)?;
    show(console, 34, b"\"\\u\\u\\u\"", 8, 3)?;
    show(console, 34, b"\"\\u\\u\\u\"", 9, 3)?;
    show(console, 34, b"\"\\u\\u\\u\"", 10, 3)?;
    show(console, 34, b"\"\\u\\u\\u\"", 9, 0)?;
    show(console, 34, b"\"\\u\\u\\u\"", 9, 2)?;
    show(console, 34, b"\"\\u\\u\\u\"", 9, 4)?;
    show(console, 34, b"\"\\u\\u\\u\"", 8, 2)?;
    show(console, 34, b"\"\\u\\u\\u\"", 16, 4)
}

// Texts that are not UTF-8, numbers that are no kind, and the order of the refusals.
fn refused(console: &impl Console) -> io::Result<()> {
    show(console, 34, b"\"a\xFF\"", 4, 2)?;
    show(console, 4, b"\"a\xFF\"", 0, 0)?;
    show(console, 4, b"\"a\"", 0, 0)?;
    show(console, 0, b"\"a\"", 2, 1)
}

fn main(rt: HostRuntime) -> io::Result<()> {
    basic(&rt)?;
    others(&rt)?;
    lent(&rt)?;
    refused(&rt)
}
