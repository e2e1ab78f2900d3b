// The work of the program `figures`: names are read (names.rt), each file is opened, read (files.rt) and counted by
// `built_figures::tally`, and what it has is written (layout.rt). What a program reads and writes is tested, not proved; proved
// is that this ends and stays in its memory. Nothing is said of a file's contents beyond its first 65,537 bytes.
#![tactic(auto)]

ghost use Rattle.std.specs.Prelude.{◌≡◌, IfErr, IfOk};

mod files;
mod layout;
mod names;

use built_figures::{NotAdded, Totals};
use names::Unread;
use program_io::Console;
use std::io;
use std::io::Read;
use std::rt::Files;

// Reports the files that standard input names. Its promise is that it returns, and fails only where a read of standard input or
// a write did, with some of the report written: no contract can speak of what is read and written.
pub fn report_input<C: Console + Files>(console: &C) -> io::Result<()>
    ensures answer { IfOk result (λ nothing. nothing ≡ tt) }
    ensures error { IfErr result C.fails }
{
    let mut input = [0u8; 4096];
    // one byte more than a name can have, so that a longer one does not open
    let mut name = [0u8; 4096];
    // one byte more than a file is taken with, so that a longer one is noticed
    let mut doc = [0u8; 65537];
    report_all(console, &mut input, &mut name, &mut doc)
}

// A proved loop has to end, and nothing says that the input does: so the loop counts to a number that no run reaches.
fn report_all<C: Console + Files>(
    console: &C,
    input: &mut [u8],
    name: &mut [u8],
    doc: &mut [u8],
) -> io::Result<()>
    ensures error { IfErr result C.fails }
{
    let mut totals = [0u64; 33];
    let mut unread = Unread {
        at: 0,
        end: 0,
        ended: false,
    };
    for _ in 0..u64::MAX {
        let Some(len) = names::next_name(console, &mut unread, input, name)? else {
            break;
        };
        totals = report_name(console, &name[..len], doc, totals)?;
    }
    layout::print_totals(console, &totals)
}

// The totals after the file of one name.
fn report_name<C: Console + Files>(
    console: &C,
    name: &[u8],
    doc: &mut [u8],
    totals: Totals,
) -> io::Result<Totals>
    ensures error { IfErr result C.fails }
{
    console.write_bytes(name)?;
    match files::open(console, name) {
        Some(mut file) => report_open(console, &mut file, doc, totals),
        None => {
            console.write_bytes(b": does not open\n")?;
            Ok(totals)
        }
    }
}

fn report_open<C: Console, R: Read>(
    console: &C,
    file: &mut R,
    doc: &mut [u8],
    totals: Totals,
) -> io::Result<Totals>
    ensures error { IfErr result C.fails }
{
    match files::read_file(file, doc) {
        Ok(n) => report_bytes(console, &doc[..n], totals),
        Err(_) => {
            console.write_bytes(b": cannot be read\n")?;
            Ok(totals)
        }
    }
}

// What a file adds is what the totals have grown by.
fn report_bytes<C: Console>(console: &C, doc: &[u8], totals: Totals) -> io::Result<Totals>
    ensures error { IfErr result C.fails }
{
    let tallied = built_figures::tally(doc, totals);
    let answer = tallied.answer;
    let after = tallied.totals;
    match answer {
        Ok(()) => {
            console.write_bytes(b"\n")?;
            layout::print_figures(console, &totals, &after, false)?;
        }
        Err(NotAdded::TooLong) => layout::print_refused(console, 2, built_figures::MOST)?,
        Err(NotAdded::Refused(r)) => layout::print_refused(console, r.number(), r.value())?,
    }
    Ok(after)
}
