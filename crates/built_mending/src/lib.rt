// `put_right`: a document copied with its broken strings replaced by strings that can be read, and a list of what was wrong.
// Rule: specs/Mending.antt.
#![tactic(auto)]

ghost use Rattle.std.specs.Prelude.{◌≡◌, ◌+◌, ◌*◌, ◌<◌, ◌≤◌, true, length, drop};
ghost use Rattle.text_refusals.specs.Refusals.{limit};
ghost use Rattle.text.specs.Told.{check_fault};
ghost use Rattle.text_refusals.specs.Told.{told_number, told_length};
ghost use Rattle.lexer_token.specs.Encodings.{kind_encoding};
ghost use Rattle.lexer.specs.Tokens.{token_at, line_after};
ghost use Rattle.decoder_rules.specs.Encodings.{choice_by, is_edition};
ghost use Rattle.decoder_rules.proofs.StoreLaws.{Stored};
ghost use Rattle.built_mending.specs.Mending.{part_of, gap, mended, listed, mend_in, mended_after};
ghost use Rattle.built_mending.specs.Told.{mended_value, mended_records, mend_refusal, mend_returned, mend_noted};
ghost use Rattle.built_mending.specs.Passes.{Finds, between, WroteBoth};

mod spell;
mod token;

use crate::token::{is_broken, replace, replacement_needs};
use decoder_marks::choice_by;
use decoder_rules::{Edition, Encoding};
use lexer::{Cursor, Ranges, start_of};
use lexer_token::{Span, Token, TokenKind};
use text::check_utf8;
use text_refusals::{LIMIT, Refusal};

// How many bytes and records: what is needed, what was written, or the places after those that were stored.
#[derive(Clone, Copy, Debug, PartialEq, Eq)]
pub struct Mended {
    pub bytes: usize,
    pub records: usize,
}

// Copies a document to the front of the output and replaces each string token that reports an error, read as TOML 1.0, by a
// basic string of the bytes that it decodes to. Each error goes into a record: the old token's start and end, then the error's
// number, start and end, as `decode` has them. What is after the last byte and record written stays. A call that is refused
// writes nothing.
pub fn put_right(
    doc: &[u8],
    output: &mut [u8],
    records: &mut [[usize; 5]],
) -> Result<Mended, Refusal>
    ensures answer { result ≡ mend_in doc.now 10 (length output.old) (length records.old) }
    ensures output { output.new ≡ mended_after result (mended 10 doc.now) output.old }
    ensures records { records.new ≡ mended_after result (listed 10 doc.now) records.old }
    ensures number { told_number result ≡ mend_refusal doc.now 10 (length output.old) (length records.old) }
    ensures value { mended_value result ≡ mend_returned doc.now 10 (length output.old) (length records.old) }
    ensures noted { mended_records result ≡ mend_noted doc.now 10 (length output.old) (length records.old) }
    ensures length { told_length result ≡ check_fault doc.now }
{
    put_right_in(doc, Edition::TOML_10, output, records)
}

// The same in the edition of TOML that a number names: 10 for TOML 1.0, 11 for TOML 1.1.
pub fn put_right_in(
    doc: &[u8],
    edition: usize,
    output: &mut [u8],
    records: &mut [[usize; 5]],
) -> Result<Mended, Refusal>
    ensures answer { result ≡ mend_in doc.now edition (length output.old) (length records.old) }
    ensures output { output.new ≡ mended_after result (mended edition doc.now) output.old }
    ensures records { records.new ≡ mended_after result (listed edition doc.now) records.old }
    ensures number { told_number result ≡ mend_refusal doc.now edition (length output.old) (length records.old) }
    ensures value { mended_value result ≡ mend_returned doc.now edition (length output.old) (length records.old) }
    ensures noted { mended_records result ≡ mend_noted doc.now edition (length output.old) (length records.old) }
    ensures length { told_length result ≡ check_fault doc.now }
{
    check_utf8(doc)?;
    // its number goes on, since the rules `mended`, `listed` and `choice_by` go by it
    let _ = Edition::try_from(edition)?;
    mend(doc, edition, output, records)
}

// A document that passed the check, in an edition. The counting pass is left out where the lent memory cannot be too short
// and the result cannot pass the limit.
fn mend(
    doc: &[u8],
    edition: usize,
    output: &mut [u8],
    records: &mut [[usize; 5]],
) -> Result<Mended, Refusal>
    requires { length doc.now ≤ limit }
    ensures { WroteBoth (mended edition doc.now) (listed edition doc.now) output.old records.old result output.new records.new }
{
    if !is_roomy(doc.len(), output.len(), records.len()) {
        let need = needed(doc, edition);
        if LIMIT < need.bytes {
            return Err(Refusal::TooLong);
        }
        if output.len() < need.bytes {
            return Err(Refusal::ShortOutput { needed: need.bytes });
        }
        if records.len() < need.records {
            return Err(Refusal::FewErrors {
                needed: need.records,
            });
        }
    }
    Ok(fill(doc, edition, output, records))
}

// Can no document of n bytes need more than o bytes and m records, or pass the limit? No byte is written with more than six.
fn is_roomy(n: usize, o: usize, m: usize) -> bool
    requires { n ≤ limit }
    ensures { result ≡ true → (6 * n ≤ limit) × (6 * n ≤ o) × (n ≤ m) }
{
    if LIMIT < 6 * n {
        return false;
    }
    if o < 6 * n {
        return false;
    }
    n <= m
}

// A token, and the line after it.
#[derive(Clone, Copy)]
struct Next {
    token: Token,
    line: usize,
}

// The token at a place of the document.
fn token_at(doc: &[u8], at: usize, line: usize) -> Next
    requires { (at < length doc.now) × (line ≤ at + 1) × (length doc.now ≤ limit) }
    ensures token { result.token ≡ token_at at line (drop at doc.now) }
    ensures line { result.line ≡ line_after line (drop at doc.now) }
{
    let cursor = Cursor {
        place: at,
        line,
        ended: false,
    };
    let eof = Token::new(TokenKind::Eof, Span::new(at, at), line);
    match cursor.step_by::<Ranges>(doc) {
        Ok(Some((token, next))) => Next {
            token,
            line: next.line,
        },
        // never: such a document is short enough, and the place is before its end
        _ => Next { token: eof, line },
    }
}

// The encoding by which a token that is a string reports an error; none where the token is to stay as it is.
fn reading_of(edition: usize, doc: &[u8], token: Token) -> Option<Encoding>
    requires { (token.span.start ≤ token.span.end) × (token.span.end ≤ length doc.now) }
    ensures { Finds edition (part_of doc.now token) result }
{
    let start = token.span.start;
    let end = token.span.end;
    let kind = token.kind;
    let Ok(e) = choice_of(edition, kind) else {
        return None;
    };
    if is_broken(e, &doc[start..end]) {
        Some(e)
    } else {
        None
    }
}

// Which encoding a token of a kind is decoded by; none where it is no string.
fn choice_of(edition: usize, kind: TokenKind) -> Result<Encoding, Refusal>
    ensures { result ≡ choice_by edition (kind_encoding kind) }
{
    choice_by(edition, TokenKind::encoding(kind.number())?)
}

// How many bytes the document becomes, and how many errors it has.
fn needed(doc: &[u8], edition: usize) -> Mended
    requires { length doc.now ≤ limit }
    ensures bytes { result.bytes ≡ length (mended edition doc.now) }
    ensures records { result.records ≡ length (listed edition doc.now) }
{
    let mut at = start_of(doc);
    let mut line: usize = 1;
    let mut quoted = false;
    let mut n = at;
    let mut m = 0;
    // no iterator: a turn goes over a token, as far as it reaches
    while at < doc.len() {
        let next = token_at(doc, at, line);
        let token = next.token;
        let end = token.span.end;
        line = next.line;
        if let Some(e) = reading_of(edition, doc, token) {
            let need = replacement_needs(e, &doc[at..end]);
            n += gap_width(quoted) + need.bytes;
            m += need.records;
            quoted = true;
            at = end;
            continue;
        }
        n += end - at;
        quoted = doc[end - 1] == b'"';
        at = end;
    }
    Mended {
        bytes: n,
        records: m,
    }
}

fn gap_width(quoted: bool) -> usize
    ensures { result ≡ length (gap quoted) }
{
    if quoted { 1 } else { 0 }
}

// Writes them to the front of the lent memory. What stays as it is, from the place `from` on, is copied a run at a time: up
// to the next token that is replaced, or to the end.
fn fill(doc: &[u8], edition: usize, output: &mut [u8], records: &mut [[usize; 5]]) -> Mended
    requires { (length doc.now ≤ limit)
        × (length (mended edition doc.now) ≤ length output.old)
        × (length (listed edition doc.now) ≤ length records.old) }
    ensures output { Stored output.old 0 (mended edition doc.now) result.bytes output.new }
    ensures records { Stored records.old 0 (listed edition doc.now) result.records records.new }
{
    let mut from = 0;
    let mut at = start_of(doc);
    let mut line: usize = 1;
    let mut quoted = false;
    let mut o = 0;
    let mut m = 0;
    // no iterator: a turn goes over a token, as far as it reaches
    while at < doc.len() {
        let next = token_at(doc, at, line);
        let token = next.token;
        let span = token.span;
        let end = span.end;
        line = next.line;
        if let Some(e) = reading_of(edition, doc, token) {
            let o1 = copy_in(doc, from, at, output, o);
            let done = replace(e, quoted, &doc[at..end], span, output, o1, records, m);
            o = done.bytes;
            m = done.records;
            quoted = true;
            from = end;
            at = end;
            continue;
        }
        quoted = doc[end - 1] == b'"';
        at = end;
    }
    let o1 = copy_in(doc, from, doc.len(), output, o);
    Mended {
        bytes: o1,
        records: m,
    }
}

// Copies the bytes of the document from `from` up to `to`.
// Not by the library's copy: that is the C library's `memmove`, which the archive for C would then need from outside.
fn copy_in(doc: &[u8], from: usize, to: usize, output: &mut [u8], o: usize) -> usize
    requires { (from ≤ to) × (to ≤ length doc.now) × (o + length (between doc.now from to) ≤ length output.old) }
    ensures { Stored output.old o (between doc.now from to) result output.new }
{
    let s = &doc[from..to];
    let n = s.len();
    for j in 0..n {
        output[o + j] = s[j];
    }
    o + n
}
