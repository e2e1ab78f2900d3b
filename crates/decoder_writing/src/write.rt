// Into lent memory: bytes, characters and errors, and the pass over a body that writes what its pieces give. What that asks of a
// decoder is that its pieces are `Fine` (crate `decoder_rules`), so it serves all five. A function that stores answers the place
// after what it stored.
// Memory and place go side by side, and in no struct: a struct that lends both memories would have to say at each call which of the two it leaves.
ghost use Rattle.std.specs.Prelude.{◌≡◌, ◌+◌, ◌<◌, ◌≤◌, ◌^◌, length, take};
ghost use Rattle.text_scalars.specs.Utf8.{Scalar, encode_scalar};
ghost use Rattle.decoder_rules.specs.Pieces.{gives, error_at, notes_of, copy_piece};
ghost use Rattle.decoder_rules.proofs.Fine.{FineAt};
ghost use Rattle.decoder_rules.proofs.StoreLaws.{Stored};
ghost use Rattle.decoder_pieces.specs.Steps.{body_after, bytes_left, errors_left};

use decoder_pieces::{Body, Engine};
use decoder_rules::{Decoded, Encoding, Given, Piece, Wrong};
use text_scalars::encode;

// Copies the first n bytes of s to place o.
// In each crate that stores: a public one, which may ask nothing of its caller, would test for room at each run of bytes.
// Not by the library's copy: that is the C library's `memmove`, which the archive for C would then need from outside.
pub(crate) fn copy_in(s: &[u8], n: usize, output: &mut [u8], o: usize) -> usize
    requires { (n ≤ length s.now) × (o + n ≤ length output.old) }
    ensures { Stored output.old o (take n s.now) result output.new }
{
    if n <= 16 {
        return copy_few(s, n, output, o);
    }
    for j in 0..n {
        output[o + j] = s[j];
    }
    o + n
}

// The same of sixteen bytes at most, one by one: a loop that the compiler unrolls, where it would make the other one fit
// for many bytes, which few would pay for.
fn copy_few(s: &[u8], n: usize, output: &mut [u8], o: usize) -> usize
    requires { (n ≤ 16) × (n ≤ length s.now) × (o + n ≤ length output.old) }
    ensures { Stored output.old o (take n s.now) result output.new }
{
    for j in 0..16 {
        if j == n {
            return o + n;
        }
        output[o + j] = s[j];
    }
    o + n
}

// Writes the bytes that the piece gives to place o, and says the place after them.
fn emit(p: Piece, s: &[u8], output: &mut [u8], o: usize) -> usize
    requires { FineAt p s.now × (o + length (gives p s.now) ≤ length output.old) }
    ensures { Stored output.old o (gives p s.now) result output.new }
{
    match p.given {
        Given::Copy => copy_in(s, p.take, output, o),
        Given::Char(c) => put_char(c, output, o),
        Given::Nothing => o,
    }
}

// Writes the bytes of a scalar value to place o.
fn put_char(c: u32, output: &mut [u8], o: usize) -> usize
    requires { Scalar c × (o + length (encode_scalar c) ≤ length output.old) }
    ensures { Stored output.old o (encode_scalar c) result output.new }
{
    if c < 0x80 {
        output[o] = c as u8;
        return o + 1;
    }
    let e = encode(c);
    copy_few(&e.bytes, e.len, output, o)
}

// Writes a verdict's error, if there is one, to record m, and says the record after it.
pub(crate) fn note(verdict: Option<Wrong>, errors: &mut [[usize; 3]], m: usize) -> usize
    requires { m + length (notes_of verdict) ≤ length errors.old }
    ensures { Stored errors.old m (notes_of verdict) result errors.new }
{
    match verdict {
        None => m,
        Some(wrong) => put_error(wrong, errors, m),
    }
}

// Writes an error to record m: its number, its start and its end.
fn put_error(wrong: Wrong, errors: &mut [[usize; 3]], m: usize) -> usize
    requires { m < length errors.old }
    ensures { Stored errors.old m (error_at wrong.error wrong.start wrong.end) result errors.new }
{
    errors[m] = [wrong.error.number(), wrong.start, wrong.end];
    m + 1
}

// Writes what the pieces of the body `start` give to the output from o0 on, and their errors to the records from m0 on. A short
// run of bytes that stand for themselves and an escape that stands for a character are the common pieces, and written without
// one being made.
pub(crate) fn write<E: Engine>(
    e: Encoding,
    start: Body,
    text: &[u8],
    output: &mut [u8],
    o0: usize,
    records: &mut [[usize; 3]],
    m0: usize,
) -> Decoded
    requires { (start.end ≤ length text.now)
        × (o0 + length (bytes_left e text.now start) ≤ length output.old)
        × (m0 + length (errors_left e text.now start) ≤ length records.old) }
    ensures output { Stored output.old o0 (bytes_left e text.now start) result.bytes output.new }
    ensures records { Stored records.old m0 (errors_left e text.now start) result.errors records.new }
{
    let mut body = start;
    let mut o = o0;
    let mut m = m0;
    // no iterator: a turn goes over a short run, an escape or a piece
    while body.at < body.end {
        let s = &text[body.at..body.end];
        if let Some(n) = E::few(e, body.dropping, s) {
            o = copy_few(s, n, output, o);
            body = body.past(n);
            continue;
        }
        if let Some(escape) = E::escape(e, s) {
            o = put_char(escape.char, output, o);
            body = body.past(escape.take);
            continue;
        }
        match body.step_by::<E>(e, text) {
            None => break,
            Some((p, next)) => {
                o = emit(p, s, output, o);
                m = note(p.verdict, records, m);
                body = next;
            }
        }
    }
    Decoded {
        bytes: o,
        errors: m,
    }
}
