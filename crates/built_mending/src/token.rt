// One string token: whether it reports an error, what its replacement needs, and its replacement, read piece by piece from the
// token's text with no buffer between. A function that stores answers the place after what it stored.
// Rule: specs/Mending.antt.
ghost use Rattle.std.specs.Prelude.{◌≡◌, ◌++◌, map, ◌+◌, ◌<◌, ◌≤◌, length};
ghost use Rattle.text_refusals.specs.Refusals.{limit};
ghost use Rattle.decoder_rules.specs.Pieces.{gives, error_at, notes_of};
ghost use Rattle.decoder_rules.specs.Decoding.{bytes_of, errors_of};
ghost use Rattle.decoder_rules.proofs.Fine.{FineAt};
ghost use Rattle.decoder_rules.proofs.StoreLaws.{Stored};
ghost use Rattle.decoder_pieces.specs.Steps.{bytes_left, errors_left};
ghost use Rattle.built_mending.specs.Mending.{respelt, replacement, is_broken, gap, record_at};

use crate::Mended;
use crate::spell::{char_width, put_bytes, put_char, width_of};
use decoder_marks::open_text;
use decoder_pieces::Body;
use decoder_rules::{DecodeError, Encoding, Given, Piece, Wrong};
use lexer_token::Span;

// How many errors a verdict has.
fn noted(verdict: Option<Wrong>) -> usize
    ensures { result ≡ length (notes_of verdict) }
{
    if verdict.is_some() { 1 } else { 0 }
}

// Does a text report an error? It is read no further than its first one; a mark that is missing is known at once.
pub(crate) fn is_broken(e: Encoding, text: &[u8]) -> bool
    ensures { result ≡ is_broken (errors_of e text.now) }
{
    let opened = open_text(e, text);
    opened.opening.is_some() || opened.closing.is_some() || has_error(e, opened.body, text)
}

// Does a piece of the body `start` have an error?
fn has_error(e: Encoding, start: Body, text: &[u8]) -> bool
    ensures { result ≡ is_broken (errors_left e text.now start) }
{
    let mut body = start;
    while let Some((piece, next)) = body.step(e, text) {
        if piece.verdict.is_some() {
            return true;
        }
        body = next;
    }
    false
}

// How many bytes the replacement of a text has, and how many errors the text reports.
pub(crate) fn replacement_needs(e: Encoding, text: &[u8]) -> Mended
    requires { length text.now ≤ limit }
    ensures bytes { result.bytes ≡ length (replacement (bytes_of e text.now)) }
    ensures records { result.records ≡ length (errors_of e text.now) }
{
    let opened = open_text(e, text);
    let opening = opened.opening;
    let closing = opened.closing;
    let c = count(e, opened.body, text);
    Mended {
        bytes: c.bytes + 2,
        records: noted(opening) + (noted(closing) + c.records),
    }
}

// How many bytes what the piece gives is written with.
fn given_width(p: Piece, s: &[u8]) -> usize
    requires { FineAt p s.now × (length s.now ≤ limit) }
    ensures { result ≡ length (respelt (gives p s.now)) }
{
    let g = p.given;
    match g {
        Given::Copy => width_of(&s[..p.take]),
        Given::Char(c) => char_width(c),
        Given::Nothing => 0,
    }
}

// How many bytes the pieces of the body `start` are written with, and how many errors they have.
fn count(e: Encoding, start: Body, text: &[u8]) -> Mended
    requires { (start.end ≤ length text.now) × (length text.now ≤ limit) }
    ensures bytes { result.bytes ≡ length (respelt (bytes_left e text.now start)) }
    ensures records { result.records ≡ length (errors_left e text.now start) }
{
    let mut body = start;
    let mut n = 0;
    let mut m = 0;
    while let Some((piece, next)) = body.step(e, text) {
        n += given_width(piece, &text[body.at..body.end]);
        m += noted(piece.verdict);
        body = next;
    }
    Mended {
        bytes: n,
        records: m,
    }
}

// Writes the replacement of a text to place o, after a space where `quoted` says that the byte before it is a quotation mark;
// and a record for each error of the token with that span to record m.
pub(crate) fn replace(
    e: Encoding,
    quoted: bool,
    text: &[u8],
    span: Span,
    output: &mut [u8],
    o: usize,
    records: &mut [[usize; 5]],
    m: usize,
) -> Mended
    requires { (o + length (gap quoted ++ replacement (bytes_of e text.now)) ≤ length output.old)
        × (m + length (errors_of e text.now) ≤ length records.old) }
    ensures output { Stored output.old o (gap quoted ++ replacement (bytes_of e text.now)) result.bytes output.new }
    ensures records { Stored records.old m (map (record_at span.start span.end) (errors_of e text.now)) result.records records.new }
{
    let opened = open_text(e, text);
    let opening = opened.opening;
    let closing = opened.closing;
    let body = opened.body;
    let at = put_gap(quoted, output, o);
    output[at] = b'"';
    let m1 = note(opening, span, records, m);
    let m2 = note(closing, span, records, m1);
    let done = put_body(e, body, text, span, output, at + 1, records, m2);
    let end = done.bytes;
    output[end] = b'"';
    Mended {
        bytes: end + 1,
        records: done.records,
    }
}

fn put_gap(quoted: bool, output: &mut [u8], o: usize) -> usize
    requires { o + length (gap quoted) ≤ length output.old }
    ensures { Stored output.old o (gap quoted) result output.new }
{
    if quoted {
        output[o] = b' ';
        return o + 1;
    }
    o
}

// Writes a verdict's error, if there is one, to record m.
fn note(verdict: Option<Wrong>, span: Span, records: &mut [[usize; 5]], m: usize) -> usize
    requires { m + length (notes_of verdict) ≤ length records.old }
    ensures { Stored records.old m (map (record_at span.start span.end) (notes_of verdict)) result records.new }
{
    match verdict {
        None => m,
        Some(Wrong { error, start, end }) => put_record(error, start, end, span, records, m),
    }
}

fn put_record(
    error: DecodeError,
    start: usize,
    end: usize,
    span: Span,
    records: &mut [[usize; 5]],
    m: usize,
) -> usize
    requires { m < length records.old }
    ensures { Stored records.old m (map (record_at span.start span.end) (error_at error start end)) result records.new }
{
    let number = error.number();
    records[m] = [span.start, span.end, number, start, end];
    m + 1
}

// Writes what the piece gives to place o.
fn put_given(p: Piece, s: &[u8], output: &mut [u8], o: usize) -> usize
    requires { FineAt p s.now × (o + length (respelt (gives p s.now)) ≤ length output.old) }
    ensures { Stored output.old o (respelt (gives p s.now)) result output.new }
{
    let g = p.given;
    match g {
        Given::Copy => put_bytes(&s[..p.take], output, o),
        Given::Char(c) => put_char(c, output, o),
        Given::Nothing => o,
    }
}

// Writes the pieces of the body `start` to the output from o0 on, and their errors to the records from m0 on.
fn put_body(
    e: Encoding,
    start: Body,
    text: &[u8],
    span: Span,
    output: &mut [u8],
    o0: usize,
    records: &mut [[usize; 5]],
    m0: usize,
) -> Mended
    requires { (start.end ≤ length text.now)
        × (o0 + length (respelt (bytes_left e text.now start)) ≤ length output.old)
        × (m0 + length (errors_left e text.now start) ≤ length records.old) }
    ensures output { Stored output.old o0 (respelt (bytes_left e text.now start)) result.bytes output.new }
    ensures records { Stored records.old m0 (map (record_at span.start span.end) (errors_left e text.now start)) result.records records.new }
{
    let mut body = start;
    let mut o = o0;
    let mut m = m0;
    while let Some((piece, next)) = body.step(e, text) {
        o = put_given(piece, &text[body.at..body.end], output, o);
        m = note(piece.verdict, span, records, m);
        body = next;
    }
    Mended {
        bytes: o,
        records: m,
    }
}
