// The common text: a string on one line with both its marks, and between them characters that stand for
// themselves. It decodes to its body, so that nothing has to be checked or counted first. Law:
// `plain_decodes` in PlainLaws.antt of crate `decoder_rules`. Printable ASCII is asked for, and the body
// copied, eight or four bytes at a time; the last such part reaches back over bytes that were met
// before. A short line with a tab or with characters beyond ASCII is asked for one by one.
#![tactic(auto)]

ghost use Rattle.std.specs.Prelude.{◌≡◌, ◌+◌, ◌<◌, ◌≤◌, true, ◌++◌, length, drop};
ghost use Rattle.decoder_rules.specs.Encodings.{plain};
ghost use Rattle.decoder_rules.proofs.PlainLaws.{OwnLine, Clear, ClearIn, LineMarks, line_of, Plain, middle, Copied, Part, Held};
ghost use Rattle.decoder_rules.proofs.OwnLaws.{Closed, OwnTo};

use decoder_rules::{Edition, Encoding};
use decoder_scans::is_plain;
use lexer_token::TokenKind;
use std::num::{wrapping_add_u8, wrapping_sub_u8};
use text_characters::wide_at;
use text_classes::{APOSTROPHE, ESCAPE, QUOTATION_MARK};
use text_refusals::LIMIT;

// Copies the body of such a text to the front of the output, and says how many bytes that is. Of any
// other text, and where there is no room, nothing is copied: none.
#[tactic(auto, using(decoder_rules::proofs::PlainLaws::copied_as), unfolding(decoder_rules::proofs::PlainLaws::line_of))]
pub fn copy_plain(kind: usize, text: &[u8], output: &mut [u8]) -> Option<usize>
    ensures { Copied (Plain kind text.now) text.now output.old result output.new }
{
    match kind {
        TokenKind::LITERAL_STRING => copy_line(APOSTROPHE, APOSTROPHE, text, output),
        TokenKind::BASIC_STRING => copy_line(QUOTATION_MARK, ESCAPE, text, output),
        _ => None,
    }
}

fn copy_line(q: u8, z: u8, text: &[u8], output: &mut [u8]) -> Option<usize>
    requires { LineMarks q z }
    ensures { Copied (OwnLine q (plain (line_of z)) text.now) text.now output.old result output.new }
{
    if !is_plain_line(q, z, text) {
        return None;
    }
    let n = text.len() - 2;
    if output.len() < n {
        return None;
    }
    copy_body(text, n, output);
    Some(n)
}

// A mark q at each end, and between them printable ASCII, no q and no z; or, in a line of up to 40 bytes, any characters
// that stand for themselves. A longer one that is not ASCII is quicker read in blocks.
fn is_plain_line(q: u8, z: u8, text: &[u8]) -> bool
    requires { LineMarks q z }
    ensures { result ≡ true → OwnLine q (plain (line_of z)) text.now }
{
    let n = text.len();
    if n < 2 {
        return false;
    }
    if LIMIT < n {
        return false;
    }
    if text[0] != q {
        return false;
    }
    if text[n - 1] != q {
        return false;
    }
    if is_clear(q, z, text, n - 1) {
        return true;
    }
    if 40 < n {
        return false;
    }
    own_run(line_of(z), text) + 1 == n
}

// The kind of a line, by the second of the two bytes.
#[tactic(auto, unfolding(decoder_rules::proofs::PlainLaws::line_of))]
fn line_of(z: u8) -> Encoding
    ensures { result ≡ line_of z }
{
    if z == b'\\' {
        Encoding::BasicString(Edition::Toml10)
    } else {
        Encoding::LiteralString
    }
}

// The first place, from 1 on, at which no character stands that stands for itself. No end is asked for: the closing mark is
// such a place. No iterator: a turn goes over one to four bytes.
#[tactic(auto, using(decoder_rules::proofs::OwnLaws::own_start))]
fn own_run(e: Encoding, s: &[u8]) -> usize
    requires { Closed (plain e) s.now }
    ensures { OwnTo (plain e) s.now result }
{
    let mut i = 1;
    loop {
        let b = s[i];
        if b < 0x80 {
            if !is_plain(e, b) {
                return i;
            }
            i += 1;
        } else {
            match wide_at(s, i) {
                Some(n) => i += n,
                None => return i,
            }
        }
    }
}

// Is all from place 1 to `end` clear?
fn is_clear(q: u8, z: u8, s: &[u8], end: usize) -> bool
    requires { (1 ≤ end) × (end < length s.now) }
    ensures { result ≡ true → ClearIn q z s.now 1 end }
{
    let n = end - 1;
    if n < 4 {
        return is_clear_few(q, z, s, n);
    }
    if n < 8 {
        return is_clear_pair(q, z, s, 1, end - 4, 4);
    }
    // no iterator: the last two parts overlap
    let last = end - 8;
    let mut i = 1;
    while i < end {
        if !is_clear_pair(q, z, s, i.min(last), (i + 8).min(last), 8) {
            return false;
        }
        i += 16;
    }
    true
}

// Up to three bytes: the first, the middle one and the last are all.
#[tactic(auto, using(decoder_rules::proofs::PlainLaws::clear_few, text_scalars::proofs::FieldLaws::bits_left, text_scalars::proofs::FieldLaws::bits_right))]
fn is_clear_few(q: u8, z: u8, s: &[u8], n: usize) -> bool
    requires { (n < 4) × (n < length s.now) }
    ensures { result ≡ true → ClearIn q z s.now 1 (n + 1) }
{
    if n == 0 {
        return true;
    }
    let first = stain(q, z, s[1]);
    let middle = stain(q, z, s[1 + n / 2]);
    let last = stain(q, z, s[n]);
    (first | middle) | last < 0x80
}

// Two parts of n bytes, from i and from k on. One test of all their stains together, and no branch
// among them, so that the compiler takes them all at once.
#[tactic(auto, using(decoder_rules::proofs::PlainLaws::clear_none, decoder_rules::proofs::PlainLaws::clear_more, text_scalars::proofs::FieldLaws::bits_left, text_scalars::proofs::FieldLaws::bits_right))]
fn is_clear_pair(q: u8, z: u8, s: &[u8], i: usize, k: usize, n: usize) -> bool
    requires { (i + n ≤ length s.now) × (k + n ≤ length s.now) }
    ensures { result ≡ true → ClearIn q z s.now i (i + n) × ClearIn q z s.now k (k + n) }
{
    let mut bits: u8 = 0;
    for j in 0..n {
        bits |= stain(q, z, s[i + j]);
        bits |= stain(q, z, s[k + j]);
    }
    bits < 0x80
}

// Bits of which the highest is off only where b is clear: each term has it on for what it is about, as the last two for q
// and for z.
#[tactic(auto, using(decoder_rules::proofs::PlainLaws::clear_by))]
fn stain(q: u8, z: u8, b: u8) -> u8
    ensures { result < 0x80 → Clear q z b }
{
    let high = wrapping_add_u8(b, 1);
    let low = wrapping_sub_u8(b, 0x20);
    let first = wrapping_sub_u8(b ^ q, 1);
    let second = wrapping_sub_u8(b ^ z, 1);
    (high | low) | (first | second)
}

// Copies the n bytes after the mark to the front of the output.
fn copy_body(text: &[u8], n: usize, output: &mut [u8])
    requires { (n + 1 ≤ length text.now) × (n ≤ length output.old) }
    ensures { output.new ≡ middle n text.now ++ drop n output.old }
{
    if n < 4 {
        copy_few(text, n, output);
        return;
    }
    if n < 8 {
        copy_part::<4>(text, 0, output);
        copy_part::<4>(text, n - 4, output);
        return;
    }
    // no iterator: the last two parts overlap
    let last = n - 8;
    let mut i = 0;
    while i < n {
        copy_part::<8>(text, i.min(last), output);
        copy_part::<8>(text, (i + 8).min(last), output);
        i += 16;
    }
}

// Up to three bytes: the first, the middle one and the last are all.
fn copy_few(text: &[u8], n: usize, output: &mut [u8])
    requires { (n < 4) × (n + 1 ≤ length text.now) × (n ≤ length output.old) }
    ensures { Held text.now output.old n n output.new }
{
    if n == 0 {
        return;
    }
    copy_part::<1>(text, 0, output);
    copy_part::<1>(text, n / 2, output);
    copy_part::<1>(text, n - 1, output);
}

// The N bytes from place i on, which the mark moves by one. All are read before one is written, so that the compiler moves them at
// once.
fn copy_part<const N: usize>(text: &[u8], i: usize, output: &mut [u8])
    requires { (i + N + 1 ≤ length text.now) × (i + N ≤ length output.old) }
    ensures { Part text.now output.old i N output.new }
{
    let mut part = [0u8; N];
    part.copy_from_slice(&text[i + 1..i + N + 1]);
    output[i..i + N].copy_from_slice(&part);
}
