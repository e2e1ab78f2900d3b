// Figures over documents: how many tokens of each kind a document has, how many errors of each number its strings have,
// and how many documents are refused, added to the totals of those before it. No memory is lent: a document is walked
// once, token by token, and each string's errors are counted as it is walked. Rule: specs/Figures.antt.
#![tactic(auto)]

ghost use Rattle.std.specs.Prelude.{◌≡◌, [], ◌∷◌, ◌+◌, ◌^◌, ◌≤◌, ◌<◌, length};
ghost use Rattle.lexer_token.specs.KindNumbers.{kind_number};
ghost use Rattle.decoder_rules.specs.Decoding.{errors_of};
ghost use Rattle.decoder_rules.specs.Pieces.{notes_of, copy_piece};
ghost use Rattle.decoder_pieces.specs.Steps.{body_after, errors_left};
ghost use Rattle.lexer.specs.Tokens.{tokens_of};
ghost use Rattle.built_figures.specs.Figures.{most, added, figures_for, figures_among, figures_of, verdict_on, all_fit, tallied};
ghost use Rattle.built_figures.specs.Told.{tally_number, tally_value, tally_length, tally_refusal, tally_returned, tally_fault};
ghost use Rattle.built_figures.specs.Counting.{Fit, Room, zeros, one_at, kind_slot, token_figures, error_figures, SoundAt};

use decoder_marks::{choice_by, open_text};
use decoder_pieces::{Body, escape_at};
use decoder_rules::{Edition, Encoding, Wrong};
use decoder_scans::plain_run;
use lexer::{Cursor, Ranges};
use lexer_token::{Token, TokenKind};
use text_refusals::Refusal;

// Thirty-three numbers: tokens of each kind, in the order of the table of kinds; errors 1 to 15; and the documents
// refused with 1 and with 2.
pub type Totals = [u64; 33];

// The most bytes that a document may have here.
pub const MOST: usize = 65536;

// Where in the totals error 1 would stand if there were an error 0, and where the documents refused with 1 and with 2.
pub const BEFORE_ERRORS: usize = 15;

pub const NOT_UTF8: usize = 31;

pub const TOO_LONG: usize = 32;

// Why a document was not added; beside each, its number, and after the semicolon the value returned.
#[derive(Clone, Copy, Debug, PartialEq, Eq)]
pub enum NotAdded {
    // 2; 65,536, the most bytes that are taken here
    TooLong,
    // 1 and 13, each with its own value
    Refused(Refusal),
}

// What became of a document, and the totals afterwards.
#[derive(Clone, Copy)]
pub struct Tallied {
    pub answer: Result<(), NotAdded>,
    pub totals: Totals,
}

// Adds a document to the totals handed in. One that is refused with 2 or 1 is counted by that number alone. Where a total
// would pass 64 bits, refusal 13 leaves all as they were.
pub fn tally(doc: &[u8], totals: Totals) -> Tallied
    ensures answer { result ≡ tallied doc.now totals }
    ensures number { tally_number result.answer ≡ tally_refusal doc.now totals }
    ensures value { tally_value result.answer ≡ tally_returned doc.now totals }
    ensures length { tally_length result.answer ≡ tally_fault doc.now totals }
{
    let mut figures = [0u64; 33];
    let verdict = count_in(doc, &mut figures);
    if !fits(&totals, &figures) {
        return Tallied {
            answer: Err(NotAdded::Refused(Refusal::TotalFull)),
            totals,
        };
    }
    let mut sums = totals;
    add_in(&mut sums, &figures);
    Tallied {
        answer: verdict,
        totals: sums,
    }
}

// What a document adds to the totals, in place of zeros, and what becomes of it where that can be added.
fn count_in(doc: &[u8], figures: &mut [u64]) -> Result<(), NotAdded>
    requires { figures.old ≡ zeros }
    ensures verdict { result ≡ verdict_on doc.now }
    ensures figures { figures.new ≡ figures_of doc.now }
{
    if MOST < doc.len() {
        figures[TOO_LONG] = 1;
        return Err(NotAdded::TooLong);
    }
    if let Err(refusal) = text::check_utf8(doc) {
        figures[NOT_UTF8] = 1;
        return Err(NotAdded::Refused(refusal));
    }
    count_tokens(doc, figures);
    Ok(())
}

// Does each sum of two numbers at the same place fit into 64 bits?
fn fits(totals: &[u64], figures: &[u64]) -> bool
    requires { length totals.now ≡ length figures.now }
    ensures { result ≡ all_fit (added totals.now figures.now) }
{
    totals
        .iter()
        .zip(figures)
        .all(|(total, figure)| *figure <= u64::MAX - *total)
}

// Adds the figures to the totals, number by number.
fn add_in(totals: &mut [u64], figures: &[u64])
    requires { (length totals.old ≡ length figures.now) × Fit (added totals.old figures.now) }
    ensures { totals.new ≡ added totals.old figures.now }
{
    for (i, figure) in figures.iter().enumerate() {
        totals[i] += *figure;
    }
}

// Counts the tokens of a document and the errors of its strings, in place of zeros.
fn count_tokens(doc: &[u8], figures: &mut [u64])
    requires { (length doc.now ≤ most) × (figures.old ≡ zeros) }
    ensures { figures.new ≡ figures_among doc.now (tokens_of doc.now) }
{
    let mut cursor = Cursor {
        place: lexer::start_of(doc),
        line: 1,
        ended: false,
    };
    // no step is refused: such a document is short enough, and the cursor in place
    while let Ok(Some((token, next))) = cursor.step_by::<Ranges>(doc) {
        count_token(doc, token, figures);
        cursor = next;
    }
}

// Counts a token, and its errors where it is a string.
fn count_token(doc: &[u8], token: Token, figures: &mut [u64])
    requires { (token.span.start ≤ token.span.end)
        × (token.span.end ≤ length doc.now)
        × Room figures.old (token_figures doc.now token) }
    ensures { figures.new ≡ added figures.old (token_figures doc.now token) }
{
    let kind = token.kind;
    let start = token.span.start;
    let end = token.span.end;
    count_kind(kind, figures);
    let Ok(encoding) = TokenKind::encoding(kind.number()) else {
        return;
    };
    if let Ok(e) = choice_by(Edition::TOML_10, encoding) {
        count_errors(e, &doc[start..end], figures);
    }
}

fn count_kind(kind: TokenKind, figures: &mut [u64])
    requires { Room figures.old (figures_for (kind_number kind ∷ []) []) }
    ensures { figures.new ≡ added figures.old (figures_for (kind_number kind ∷ []) []) }
{
    count_one(slot_of(kind), figures);
}

// One more at a place.
fn count_one(slot: usize, figures: &mut [u64])
    requires { (slot < 33) × Room figures.old (one_at slot) }
    ensures { figures.new ≡ added figures.old (one_at slot) }
{
    figures[slot] += 1;
}

// Where a kind stands in the table of kinds: edit eof_with_the_atoms changes an arm, and a kind's own number is another.
fn slot_of(kind: TokenKind) -> usize
    ensures { result ≡ kind_slot kind }
{
    match kind {
        TokenKind::Dot => 0,
        TokenKind::Equals => 1,
        TokenKind::Comma => 2,
        TokenKind::LeftSquareBracket => 3,
        TokenKind::RightSquareBracket => 4,
        TokenKind::LeftCurlyBracket => 5,
        TokenKind::RightCurlyBracket => 6,
        TokenKind::Whitespace => 7,
        TokenKind::Comment => 8,
        TokenKind::Newline => 9,
        TokenKind::LiteralString => 10,
        TokenKind::BasicString => 11,
        TokenKind::MlLiteralString => 12,
        TokenKind::MlBasicString => 13,
        TokenKind::Atom => 14,
        TokenKind::Eof => 15,
    }
}

// Counts the errors of a text: those of its marks, then those of its body.
fn count_errors(e: Encoding, text: &[u8], figures: &mut [u64])
    requires { Room figures.old (error_figures (errors_of e text.now)) }
    ensures { figures.new ≡ added figures.old (error_figures (errors_of e text.now)) }
{
    let opened = open_text(e, text);
    let opening = opened.opening;
    let closing = opened.closing;
    count_error(opening, figures);
    count_error(closing, figures);
    count_body(e, opened.body, text, figures);
}

// Counts the errors of what is left of a body. A run of bytes that stand for themselves and an escape that stands for a
// character have none, and are passed without a piece being made.
fn count_body(e: Encoding, start: Body, text: &[u8], figures: &mut [u64])
    requires { (start.end ≤ length text.now)
        × Room figures.old (error_figures (errors_left e text.now start)) }
    ensures { figures.new ≡ added figures.old (error_figures (errors_left e text.now start)) }
{
    let mut body = start;
    // no iterator: a turn goes over a piece, or over bytes that surely have no error
    while body.at < body.end {
        let at = body.at;
        let end = body.end;
        let n = sound_at(e, body.dropping, &text[at..end]);
        if 0 < n {
            body = body.past(n);
            continue;
        }
        match body.step(e, text) {
            None => break,
            Some((p, next)) => {
                let verdict = p.verdict;
                count_error(verdict, figures);
                body = next;
            }
        }
    }
}

// Counts the error that a verdict has, if any.
fn count_error(verdict: Option<Wrong>, figures: &mut [u64])
    requires { Room figures.old (error_figures (notes_of verdict)) }
    ensures { figures.new ≡ added figures.old (error_figures (notes_of verdict)) }
{
    if let Some(wrong) = verdict {
        count_one(BEFORE_ERRORS + wrong.error.number(), figures);
    }
}

// How many bytes at the front of s are a run that stands for itself, or an escape that stands for a character; 0 for any
// other piece.
fn sound_at(e: Encoding, dropping: bool, s: &[u8]) -> usize
    ensures { 0 < result → SoundAt e dropping s.now result }
{
    if !dropping {
        let n = plain_run(e, s);
        if 0 < n {
            return n;
        }
    }
    match escape_at(e, s) {
        Some(escape) => escape.take,
        None => 0,
    }
}
