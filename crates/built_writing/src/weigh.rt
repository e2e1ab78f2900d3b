// How long a text is, told in one pass over the value: first the bytes that a literal string could hold, with how many
// bytes they have in a basic string, and from the first byte that it could not hold the rest. Bytes are weighed in blocks,
// without a branch among them, so that the compiler takes sixteen at once. Rule: specs/Writing.antt.
ghost use Rattle.std.specs.Prelude.{◌≡◌, ◌+◌, ◌*◌, ◌<◌, ◌≤◌, true, length, IfSome};
ghost use Rattle.text_classes.specs.Classes.{literal_char};
ghost use Rattle.text_classes.specs.Runs.{run};
ghost use Rattle.text_refusals.specs.Refusals.{limit};
ghost use Rattle.built_writing.specs.Writing.{spell, spelt};
ghost use Rattle.built_writing.specs.Measured.{control, Onward};

use crate::spell::count_rest;
use decoder_rules::Encoding;
use decoder_scans::is_plain;
use std::num::wrapping_sub_u8;
use text_classes::{APOSTROPHE, ESCAPE, QUOTATION_MARK};

// The bytes in front of `rest`, all of which a literal string could hold, have so many bytes in a basic string.
#[derive(Clone, Copy)]
pub(crate) struct Front<'a> {
    pub bytes: usize,
    pub rest: &'a [u8],
}

// A control character but the tab: with the tab's bits turned the tab is 0, and the others are 1 to 1F.
fn is_control(b: u8) -> bool
    ensures { result ≡ control b }
{
    wrapping_sub_u8(b ^ b'\t', 1) < 31
}

// Bits of which the highest is off only where a literal string could hold the byte.
fn no_literal(b: u8) -> u8
    ensures { result < 0x80 → literal_char b ≡ true }
{
    if is_control(b) {
        return 0x80;
    }
    match b {
        0x7F | APOSTROPHE => 0x80,
        _ => 0,
    }
}

// How many bytes more than itself a byte has in a basic string, of those that a literal string could hold.
fn mark(b: u8) -> u8
    ensures { (literal_char b ≡ true → length (spell b) ≡ 1 + result) × (result ≤ 1) }
{
    match b {
        QUOTATION_MARK | ESCAPE => 1,
        _ => 0,
    }
}

// How many bytes more than themselves a block's have in a basic string; none where a literal string could not hold them all.
fn marks_in(block: &[u8]) -> Option<usize>
    requires { length block.now < 0xFF }
    ensures { IfSome result (λ n. (run literal_char block.now ≡ length block.now) × (length (spelt block.now) ≡ length block.now + n)) }
{
    let mut bits: u8 = 0;
    let mut marks: u8 = 0;
    for b in block {
        bits |= no_literal(*b);
        marks += mark(*b);
    }
    if bits < 0x80 {
        Some(marks as usize)
    } else {
        None
    }
}

// Blocks of N bytes that a literal string could hold, passed over.
fn front_blocks<const N: usize>(front: Front) -> Front
    requires { (front.bytes + length (spelt front.rest.now) ≤ 6 * limit) × (0 < N) × (N < 0xFF) }
    ensures { Onward front.entry result }
{
    let mut bytes = front.bytes;
    let mut rest = front.rest;
    while let Some((block, after)) = rest.split_first_chunk::<N>() {
        match marks_in(block) {
            Some(marks) => bytes += N + marks,
            None => break,
        }
        rest = after;
    }
    Front { bytes, rest }
}

// The rest of them, one by one.
fn front_rest(front: Front) -> Front
    requires { front.bytes + length (spelt front.rest.now) ≤ 6 * limit }
    ensures { Onward front.entry result × (run literal_char result.rest.now ≡ 0) }
{
    let mut bytes = front.bytes;
    let mut rest = front.rest;
    while let Some((b, after)) = rest.split_first() {
        if !is_plain(Encoding::LiteralString, *b) {
            break;
        }
        bytes += 1 + mark(*b) as usize;
        rest = after;
    }
    Front { bytes, rest }
}

// All of them.
pub(crate) fn measure_front(s: &[u8]) -> Front
    requires { length s.now ≤ limit }
    ensures { (result.bytes + length (spelt result.rest.now) ≡ length (spelt s.now)) × (run literal_char s.now + length result.rest.now ≡ length s.now) }
{
    let wide = front_blocks::<32>(Front { bytes: 0, rest: s });
    front_rest(front_blocks::<8>(wide))
}

// How many bytes more than itself a byte has in a basic string.
fn extra(b: u8) -> u8
    ensures { (length (spell b) ≡ 1 + result) × (result ≤ 5) }
{
    match b {
        QUOTATION_MARK | ESCAPE | 0x08 | b'\n' | 0x0C => 1,
        b'\r' => 1,
        0x7F => 5,
        _ => { if is_control(b) { 5 } else { 0 } }
    }
}

// How many bytes more than themselves a block's have in a basic string.
fn extra_in(block: &[u8]) -> usize
    requires { length block.now ≤ 32 }
    ensures { length (spelt block.now) ≡ length block.now + result }
{
    let mut n: u8 = 0;
    for b in block {
        n += extra(*b);
    }
    n as usize
}

// How many bytes the body of s has.
pub(crate) fn count(s: &[u8]) -> usize
    requires { length s.now ≤ limit }
    ensures { result ≡ length (spelt s.now) }
{
    let mut rest = s;
    let mut n = 0;
    while let Some((block, after)) = rest.split_first_chunk::<32>() {
        n += 32 + extra_in(block);
        rest = after;
    }
    n + count_rest(rest)
}
