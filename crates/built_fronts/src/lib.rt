// Most tokens are told sound by one look at their bytes: an atom of ASCII, and a string on one line without an error. Each look says
// how far that is known, and its caller asks further where it stops before the token's end. Rules: Extents.antt of crate
// `lexer_scans`, Decoding.antt of crate `decoder_rules`.
#![tactic(auto)]

ghost use Rattle.std.specs.Prelude.{◌≡◌, ◌+◌, ◌≤◌, length, drop, IfSome};
ghost use Rattle.std.proofs.Common.{refl, ltb-true};
ghost use Rattle.text_classes.specs.Runs.{run};
ghost use Rattle.built_fronts.specs.Fronts.{ascii_atom, mark_of, stop_of, plain_of, clear_byte, Sound};

use decoder_rules::{Edition, Encoding};
use decoder_scans::is_plain;
use decoder_short::letter_char;
use lexer_scans::{Passed, find_in_blocks};
use std::num::wrapping_add_u8;
use text_characters::wide_at;
use text_classes::{APOSTROPHE, ByteSet, ESCAPE, QUOTATION_MARK, is_at, is_token_start, run_of};

// Over the ASCII bytes of an atom, four to a turn as long as so many are left.
// Four to a turn by hand: with `run_of` alone an atom takes up to a quarter more instructions.
pub fn atom_front(doc: &[u8], start: usize) -> usize
    ensures { result ≡ start + run ascii_atom (drop start doc.now) }
{
    // from a place before `last` on there are four bytes
    let last = doc.len().saturating_sub(3);
    let mut i = start;
    while i < last {
        if !AsciiAtom.holds(doc[i]) {
            return i;
        }
        if !AsciiAtom.holds(doc[i + 1]) {
            return i + 1;
        }
        if !AsciiAtom.holds(doc[i + 2]) {
            return i + 2;
        }
        if !AsciiAtom.holds(doc[i + 3]) {
            return i + 3;
        }
        i += 4;
    }
    run_of(AsciiAtom, doc, i)
}

#[derive(Clone, Copy)]
struct AsciiAtom;

impl ByteSet for AsciiAtom {
    ghost holds = { λ _. ascii_atom };

    fn holds(self, b: u8) -> bool {
        !is_token_start(b) && b < 0x80
    }
}

// The strings on one line.
#[derive(Clone, Copy)]
pub enum Line {
    Literal,
    Basic,
}

// From `start` on, the first place of a body: a place up to which the string goes on over whole characters, and none of them is an
// error. Plain ASCII is passed over in blocks; where a block meets something else, a few characters are taken one by one, since
// others like it are often near.
pub fn line_front(line: Line, doc: &[u8], start: usize) -> usize
    ensures { start ≤ length doc.now → Sound line doc.now start result }
{
    if doc.len() < start {
        return start;
    }
    let mut i = start;
    // no iterator: a turn goes over whole blocks, and then over a few characters
    loop {
        i = clear_blocks(line, doc, i);
        if is_at(doc, i, mark_of(line)) {
            return i;
        }
        let next = few_chars(line, doc, i);
        if next == i {
            return i;
        }
        if is_at(doc, next, mark_of(line)) {
            return next;
        }
        i = next;
    }
}

// The mark that closes it.
fn mark_of(line: Line) -> u8
    ensures { result ≡ mark_of line }
{
    match line {
        Line::Literal => APOSTROPHE,
        Line::Basic => QUOTATION_MARK,
    }
}

// The other byte of printable ASCII that does not stand for itself there, which in a literal string is the mark again.
fn stop_of(line: Line) -> u8
    ensures { result ≡ stop_of line }
{
    match line {
        Line::Literal => APOSTROPHE,
        Line::Basic => ESCAPE,
    }
}

// Does the byte stand for itself there?
fn is_plain_in(line: Line, b: u8) -> bool
    ensures { result ≡ plain_of line b }
{
    match line {
        Line::Literal => is_plain(Encoding::LiteralString, b),
        Line::Basic => is_plain(Encoding::BasicString(Edition::Toml10), b),
    }
}

// Over sixteen characters at most.
fn few_chars(line: Line, doc: &[u8], start: usize) -> usize
    requires { start ≤ length doc.now }
    ensures { Sound line doc.now start result }
{
    let mut i = start;
    for _ in 0..16 {
        let Some(size) = char_front(line, doc, i) else {
            return i;
        };
        i += size;
    }
    i
}

// How many bytes the character at `i` has that stands for itself, or the escape of one letter.
fn char_front(line: Line, doc: &[u8], i: usize) -> Option<usize>
    ensures { IfSome result (λ size. Sound line doc.now i (i + size)) }
{
    if doc.len() <= i {
        return None;
    }
    let b = doc[i];
    if 0x80 <= b {
        return wide_at(doc, i);
    }
    if is_plain_in(line, b) {
        return Some(1);
    }
    match line {
        Line::Literal => None,
        Line::Basic => letter_front(doc, i),
    }
}

// The two bytes of the escape of one letter at `i`.
fn letter_front(doc: &[u8], i: usize) -> Option<usize>
    ensures { IfSome result (λ size. Sound Line.Basic doc.now i (i + size)) }
{
    if doc.len() < 2 {
        return None;
    }
    if doc.len() - 2 < i {
        return None;
    }
    if doc[i] != ESCAPE {
        return None;
    }
    letter_char(doc[i + 1])?;
    Some(2)
}

// Over plain ASCII as long as whole blocks are left: a place before which all is.
fn clear_blocks(line: Line, doc: &[u8], start: usize) -> usize
    requires { start ≤ length doc.now }
    ensures { Sound line doc.now start result }
{
    let clear = ClearByte {
        mark: mark_of(line),
        stop: stop_of(line),
    };
    match find_in_blocks(clear, doc, start) {
        Ok(found) => found,
        Err(rest) => rest,
    }
}

// Printable ASCII, and neither of two bytes.
#[derive(Clone, Copy)]
struct ClearByte {
    mark: u8,
    stop: u8,
}

impl ByteSet for ClearByte {
    ghost holds = { λ set. clear_byte set.mark set.stop };

    // Printable ASCII is told by one comparison: with 81 added DEL is 00, those below 20 and those from 80 on are A0 at the
    // most, and the others above.
    fn holds(self, b: u8) -> bool {
        (0xA1 <= wrapping_add_u8(b, 0x81)) & (b != self.mark) & (b != self.stop)
    }
}

impl Passed for ClearByte {
    // in shorter blocks the compiler takes the bytes one by one
    const BLOCK: u8 = 48;

    ghost BLOCK = { 48 };

    ghost some = { ltb-true 0 48 refl };
}
