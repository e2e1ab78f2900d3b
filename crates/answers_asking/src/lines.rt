// Standard input as lines. A line that is too long to be kept is written while it is read, so that it
// too is written whole before its answer.
ghost use Rattle.std.specs.Prelude.{IfErr};

use crate::asked::LineFault;
use crate::words;
use program_io::Console;
use std::io;

// How far the input was read: its memory holds bytes not yet taken from `at` up to `end`; `kept` is how many bytes
// of the line are kept, none where it is too long for that; `open` says whether the line goes on, `more` whether there may be
// more input.
#[derive(Clone, Copy)]
pub struct Reading {
    pub at: usize,
    pub end: usize,
    pub kept: Option<usize>,
    pub open: bool,
    pub more: bool,
}

// Reads up to an LF or the input's end, and writes the line. A proved loop has to end, and nothing
// says that the input does: so the loop counts to a number that no run reaches.
pub(crate) fn next_line<C: Console>(
    console: &C,
    start: Reading,
    input: &mut [u8],
    line: &mut [u8],
) -> io::Result<Reading>
    ensures error { IfErr result C.fails }
{
    let mut reading = Reading {
        kept: Some(0),
        open: true,
        ..start
    };
    for _ in 0..u64::MAX {
        if !reading.open {
            break;
        }
        reading = read_on(console, reading, input, line)?;
    }
    echo(console, reading, line)?;
    Ok(reading)
}

fn read_on<C: Console>(
    console: &C,
    reading: Reading,
    input: &mut [u8],
    line: &mut [u8],
) -> io::Result<Reading>
    ensures error { IfErr result C.fails }
{
    match input.get(reading.at..reading.end) {
        Some(unread) if !unread.is_empty() => take(console, reading, unread, line),
        _ => refill(console, reading, input),
    }
}

fn refill<C: Console>(console: &C, reading: Reading, input: &mut [u8]) -> io::Result<Reading>
    ensures error { IfErr result C.fails }
{
    let end = console.read_bytes(input)?;
    Ok(Reading {
        at: 0,
        end,
        open: 0 < end,
        more: 0 < end,
        ..reading
    })
}

// Takes what stands before the next LF, and the LF.
fn take<C: Console>(
    console: &C,
    reading: Reading,
    unread: &[u8],
    line: &mut [u8],
) -> io::Result<Reading>
    ensures error { IfErr result C.fails }
{
    match unread.iter().position(|b| *b == b'\n') {
        Some(n) => Ok(Reading {
            at: reading.at.saturating_add(n + 1),
            kept: keep(console, reading.kept, &unread[..n], line)?,
            open: false,
            ..reading
        }),
        None => Ok(Reading {
            at: reading.end,
            kept: keep(console, reading.kept, unread, line)?,
            ..reading
        }),
    }
}

// Keeps more of the line, where there is room for it, and answers how much is kept. A part for which there is no room is written, and
// before the first such part all that was kept.
fn keep<C: Console>(
    console: &C,
    kept: Option<usize>,
    part: &[u8],
    line: &mut [u8],
) -> io::Result<Option<usize>>
    ensures error { IfErr result C.fails }
{
    if let Some(len) = kept {
        if len <= line.len() && part.len() <= line.len() - len {
            line[len..len + part.len()].copy_from_slice(part);
            return Ok(Some(len + part.len()));
        }
        console.write_bytes(words::front(line, len))?;
    }
    console.write_bytes(part)?;
    Ok(None)
}

// Writes the line, unless it was written while it was read, and then ` => `. The input's end is no line.
fn echo<C: Console>(console: &C, reading: Reading, line: &[u8]) -> io::Result<()>
    ensures error { IfErr result C.fails }
{
    match kept(reading) {
        Err(LineFault::NoLine) => return Ok(()),
        Ok(len) => console.write_bytes(words::front(line, len))?,
        Err(_) => {}
    }
    console.write_bytes(b" => ")
}

// How many bytes of the line are kept, or why there is no line to be answered.
pub(crate) fn kept(reading: Reading) -> Result<usize, LineFault> {
    let len = reading.kept.ok_or(LineFault::TooLong)?;
    if reading.more || 0 < len {
        Ok(len)
    } else {
        Err(LineFault::NoLine)
    }
}
