// The body of a basic string: counted and written, a run of bytes that stand for themselves at a time, and the others one
// by one. A function that stores answers the place after what it stored. Rule: specs/Writing.antt.
ghost use Rattle.std.specs.Prelude.{◌≡◌, ◌+◌, ◌*◌, ◌<◌, ◌≤◌, length};
ghost use Rattle.text_classes.specs.Classes.{basic_unescaped};
ghost use Rattle.text_classes.specs.Runs.{run};
ghost use Rattle.text_refusals.specs.Refusals.{limit};
ghost use Rattle.decoder_rules.proofs.StoreLaws.{Stored};
ghost use Rattle.built_writing.specs.Writing.{hex_digit, spelling_of, escape_of, spelt};

use decoder_rules::{Edition, Encoding};
use decoder_scans::plain_run;
use text_classes::is_basic_unescaped;

// How a byte that does not stand for itself is spelt: by a letter after a backslash, or, where TOML has none for it, by the
// digits of its code.
#[tactic(auto, unfolding(crate::specs::Writing::spelling_of))]
fn spelling_of(b: u8) -> Option<u8>
    ensures { result ≡ spelling_of b }
{
    match b {
        b'"' => Some(b'"'),
        b'\\' => Some(b'\\'),
        0x08 => Some(b'b'),
        0x0C => Some(b'f'),
        b'\n' => Some(b'n'),
        b'\r' => Some(b'r'),
        _ => None,
    }
}

// A hex digit, in capitals.
fn hex_digit(d: u8) -> u8
    requires { d < 16 }
    ensures { result ≡ hex_digit d }
{
    if d < 10 { b'0' + d } else { b'A' + (d - 10) }
}

// How many bytes a byte that does not stand for itself is written with.
fn width(b: u8) -> usize
    ensures { result ≡ length (escape_of b) }
{
    match spelling_of(b) {
        Some(_) => 2,
        None => 6,
    }
}

// A backslash and the letter; or a backslash, `u00` and the two digits of the byte's code.
fn put_escape(b: u8, output: &mut [u8], o: usize) -> usize
    requires { o + length (escape_of b) ≤ length output.old }
    ensures { Stored output.old o (escape_of b) result output.new }
{
    match spelling_of(b) {
        Some(letter) => put(&[b'\\', letter], output, o),
        None => put(
            &[
                b'\\',
                b'u',
                b'0',
                b'0',
                hex_digit(b / 16),
                hex_digit(b % 16),
            ],
            output,
            o,
        ),
    }
}

// Copies the bytes to place o.
// In each crate that stores: a public one, which may ask nothing of its caller, would test for room at each run of bytes.
// Not by the library's copy: that is the C library's `memmove`, which the archive for C would then need from outside.
pub(crate) fn put(bytes: &[u8], output: &mut [u8], o: usize) -> usize
    requires { o + length bytes.now ≤ length output.old }
    ensures { Stored output.old o bytes.now result output.new }
{
    let n = bytes.len();
    for j in 0..n {
        output[o + j] = bytes[j];
    }
    o + n
}

// How many bytes in front of s stand for themselves in a basic string.
fn basic_run(s: &[u8]) -> usize
    ensures { result ≡ run basic_unescaped s.now }
{
    plain_run(Encoding::BasicString(Edition::Toml10), s)
}

// How many bytes the body of s has, run by run.
pub(crate) fn count_rest(s: &[u8]) -> usize
    requires { length s.now ≤ limit }
    ensures { result ≡ length (spelt s.now) }
{
    let mut rest = s;
    let mut n = 0;
    while let Some((b, after)) = rest.split_first() {
        if is_basic_unescaped(*b) {
            let (run, behind) = rest.split_at(basic_run(rest));
            n += run.len();
            rest = behind;
        } else {
            n += width(*b);
            rest = after;
        }
    }
    n
}

// Writes the body of s from place o0 on.
pub(crate) fn put_body(s: &[u8], output: &mut [u8], o0: usize) -> usize
    requires { o0 + length (spelt s.now) ≤ length output.old }
    ensures { Stored output.old o0 (spelt s.now) result output.new }
{
    let mut rest = s;
    let mut o = o0;
    while let Some((b, after)) = rest.split_first() {
        if is_basic_unescaped(*b) {
            let (run, behind) = rest.split_at(basic_run(rest));
            o = put(run, output, o);
            rest = behind;
        } else {
            o = put_escape(*b, output, o);
            rest = after;
        }
    }
    o
}
