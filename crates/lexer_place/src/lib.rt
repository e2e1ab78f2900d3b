// Places in a document: whether a span cuts it between characters, the text of a span, and the
// line and column of an offset. Rules: specs/Spans.antt, Positions.antt.
#![tactic(auto)]

ghost use Rattle.std.specs.Prelude.{◌≡◌, ◌≢◌, ℕ, not, ◌+◌, ◌≤◌, ◌<◌, length, count_by, slice_index, EachIndex, MatchOption};
ghost use Rattle.text_classes.specs.Classes.{continuation};
ghost use Rattle.text_refusals.specs.Told.{told_number, told_value};
ghost use Rattle.lexer_place.specs.Spans.{inside, span_answer, span_text};
ghost use Rattle.lexer_place.specs.Told.{span_refusal, span_returned, position_refusal, position_returned};
ghost use Rattle.lexer_place.specs.Positions.{column_behind, column_of, position_answer};

use lexer_token::Span;
use text_classes::{Continuation, Not, count_of};
use text_refusals::{LIMIT, Refusal};

// Does the span lie within the document, and cut no character?
pub fn check_span(doc: &[u8], span: Span) -> Result<(), Refusal>
    ensures answer { result ≡ span_answer doc.now span }
    ensures number { told_number result ≡ span_refusal doc.now span }
    ensures value { told_value result ≡ span_returned doc.now span }
{
    let start = span.start;
    let end = span.end;
    if LIMIT < doc.len() {
        return Err(Refusal::TooLong);
    }
    if doc.len() < end {
        return Err(Refusal::OutOfPlace { length: doc.len() });
    }
    if end < start {
        return Err(Refusal::OutOfPlace { length: doc.len() });
    }
    if is_inside(doc, start) {
        return Err(Refusal::OutOfPlace { length: doc.len() });
    }
    if is_inside(doc, end) {
        return Err(Refusal::OutOfPlace { length: doc.len() });
    }
    Ok(())
}

// Does the place `at` lie inside a character? The byte there tells; the end of the document does not lie inside one.
fn is_inside(doc: &[u8], at: usize) -> bool
    requires { at ≤ length doc.now }
    ensures { result ≡ inside doc.now at }
{
    if at < doc.len() {
        return text_classes::is_continuation(doc[at]);
    }
    false
}

// The text of a span: that part of the document, or the empty part at its start where the span is
// refused.
pub fn text_of(doc: &[u8], span: Span) -> &[u8]
    ensures { result.now ≡ span_text doc.now span }
{
    match check_span(doc, span) {
        Ok(()) => &doc[span.start..span.end],
        Err(_) => &doc[..0],
    }
}

// Line and column, both counted from 1; a column counts characters.
#[derive(Clone, Copy)]
pub struct Position {
    pub line: usize,
    pub column: usize,
}

// The line and column of `offset`, which may be the document's end.
pub fn position_of(doc: &[u8], offset: usize) -> Result<Position, Refusal>
    ensures answer { result ≡ position_answer doc.now offset }
    ensures number { told_number result ≡ position_refusal doc.now offset }
    ensures value { told_value result ≡ position_returned doc.now offset }
{
    if LIMIT < doc.len() {
        return Err(Refusal::TooLong);
    }
    if doc.len() < offset {
        return Err(Refusal::OutOfPlace { length: doc.len() });
    }
    let line = lexer::line_of(doc, offset);
    let column = column_of(doc, offset);
    Ok(Position { line, column })
}

// What ends a line.
const LINE_END: u8 = b'\n';

// The column of `offset`: 1 plus the characters that begin before it on its line. A byte order mark is not counted, and has no LF in
// it.
fn column_of(doc: &[u8], offset: usize) -> usize
    requires { offset ≤ length doc.now }
    ensures { result ≡ column_of doc.now offset }
{
    let before = &doc[..offset];
    let text = &before[lexer::start_of(doc).min(before.len())..];
    1 + count_of(Not(Continuation), last_line(text))
}

// What stands after the last LF; all where there is none.
fn last_line(s: &[u8]) -> &[u8]
    ensures { column_behind 1 s.now ≡ 1 + count_by (λ b. not (continuation b)) result.now }
{
    match last_lf(s) {
        Some(at) => &s[at + 1..],
        None => s,
    }
}

// The place of the last LF.
fn last_lf(s: &[u8]) -> Option<usize>
    ensures { MatchOption result (EachIndex s.now (λ k. slice_index s.now k ≢ 10)) (λ i. (i < length s.now) × (slice_index s.now i ≡ 10) × ((k : ℕ) → i < k → k < length s.now → slice_index s.now k ≢ 10)) }
{
    s.iter().rposition(|b| *b == LINE_END)
}
