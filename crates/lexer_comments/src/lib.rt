// A comment's bytes, looked at for where it ends and for UTF-8 at the same time: of most comments one look tells both.
#![tactic(auto)]

ghost use Rattle.std.specs.Prelude.{◌≡◌, ℕ, ◌≤◌, true, length, drop};
ghost use Rattle.std.proofs.Common.{refl, ltb-true};
ghost use Rattle.text_classes.specs.Runs.{run};
ghost use Rattle.text_characters.specs.Lead.{Character};
ghost use Rattle.lexer_scans.specs.Extents.{in_comment};
ghost use Rattle.lexer_scans.specs.Scans.{GoesOn};
ghost use Rattle.lexer_comments.specs.Fronts.{own_byte, Fronted, Onward};

use lexer_scans::{Passed, find_in_blocks};
use std::num::wrapping_add_u8;
use text_ascii::is_ascii_word;
use text_characters::{is_among, wide_at};
use text_classes::ByteSet;

// From `start` on, over whole characters: a place up to which the comment goes on and is UTF-8. ASCII is passed over in blocks; where a block
// meets something else characters are taken one by one, since others like it are often near.
pub fn comment_front(doc: &[u8], start: usize) -> usize
    ensures { start ≤ length doc.now → Fronted doc.now start result }
{
    let mut i = start;
    // no iterator: a turn goes over whole blocks, and then over characters
    loop {
        i = own_blocks(doc, i);
        if is_comment_end(doc, i) {
            return i;
        }
        let next = own_chars(doc, i);
        if next == i {
            return i;
        }
        if is_comment_end(doc, next) {
            return next;
        }
        i = next;
    }
}

// Does a comment end there: at a CR, at an LF, or at the document's end?
pub fn is_comment_end(doc: &[u8], i: usize) -> bool
    ensures { result ≡ true → run in_comment (drop i doc.now) ≡ 0 }
{
    if doc.len() <= i {
        return true;
    }
    matches!(doc[i], b'\r' | b'\n')
}

// Over own bytes and characters beyond ASCII while four bytes are left to be read, up to eight bytes of ASCII in a row, over which a block
// is quicker. Two bytes of ASCII, and two characters of two bytes, are often together.
fn own_chars(doc: &[u8], start: usize) -> usize
    ensures { Onward doc.now start result }
{
    if doc.len() < 4 {
        return start;
    }
    let last = doc.len() - 4;
    let mut i = start;
    // no iterator: a turn goes over one to four bytes
    while i <= last {
        let a = doc[i];
        if a < 0x80 {
            if a < 0x0E {
                return i;
            }
            if OwnByte.holds(doc[i + 1]) {
                if is_ascii_word(doc, i) {
                    return i;
                }
                i += 2;
            } else {
                i += 1;
            }
        } else if a < 0xE0 {
            if !is_two(a, doc[i + 1]) {
                return i;
            }
            if is_two(doc[i + 2], doc[i + 3]) {
                i += 4;
            } else {
                i += 2;
            }
        } else {
            let Some(n) = wide_at(doc, i) else {
                return i;
            };
            i += n;
        }
    }
    i
}

// Two bytes that are a character.
fn is_two(a: u8, b: u8) -> bool
    ensures { result ≡ true → (c : ℕ) (d : ℕ) → Character a b c d 2 }
{
    if !is_among(a, 0xC2, 0xDF) {
        return false;
    }
    is_among(b, 0x80, 0xBF)
}

// Over own bytes in blocks, as long as whole ones are left: a place before which all are.
fn own_blocks(doc: &[u8], start: usize) -> usize
    ensures { GoesOn own_byte doc.now start result }
{
    match find_in_blocks(OwnByte, doc, start) {
        Ok(found) => found,
        Err(rest) => rest,
    }
}

// ASCII but the few bytes below 0E.
#[derive(Clone, Copy)]
struct OwnByte;

impl ByteSet for OwnByte {
    ghost holds = { λ _. own_byte };

    // one comparison, which the compiler makes of bytes with a sign: those from 80 on are below 0
    fn holds(self, b: u8) -> bool {
        0x8E <= wrapping_add_u8(b, 0x80)
    }
}

impl Passed for OwnByte {
    // in shorter blocks the compiler takes the bytes one by one
    const BLOCK: u8 = 64;

    ghost BLOCK = { 64 };

    ghost some = { ltb-true 0 64 refl };
}
