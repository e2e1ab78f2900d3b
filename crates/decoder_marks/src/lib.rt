// What is known of a text before its body is read: the encoding that it is decoded by (choice.rt), its marks, and where
// its body starts and ends. `open_text` is the way in: it gives each mark's error and the body, which `Body::step` of crate
// `decoder_pieces` reads on. Rules: Marks.antt and Decoding.antt of crate `decoder_rules`.
#![tactic(auto)]

ghost use Rattle.std.specs.Prelude.{◌≡◌, true, ◌+◌, ◌≤◌, length};
ghost use Rattle.decoder_rules.specs.Encodings.{mark_error};
ghost use Rattle.decoder_rules.specs.Decoding.{missing};
ghost use Rattle.decoder_marks.specs.Opening.{opened_of};
ghost use Rattle.decoder_rules.specs.Marks.{line_ends, ml_start, ml_closed, trimmed, ml_end, ml_ends, key_ends, ends_of};

mod choice;

pub use crate::choice::choice_by;
use decoder_pieces::{Body, strip_start_newline};
use decoder_rules::{DecodeError, Encoding, Ends, Wrong};
use lexer_token::Span;
use text_classes::{APOSTROPHE, QUOTATION_MARK, is_triple};

// A text that is opened: what is wrong with its opening mark, and with its closing one, and the body between them.
#[derive(Clone, Copy, Debug, PartialEq, Eq)]
pub struct Opened {
    pub opening: Option<Wrong>,
    pub closing: Option<Wrong>,
    pub body: Body,
}

// Opens a text to be read by an encoding. A key has no marks; its opening says whether it is empty.
#[tactic(auto, unfolding(crate::specs::Opening::opened_of))]
pub fn open_text(e: Encoding, t: &[u8]) -> Opened
    ensures { result ≡ opened_of e t.now }
{
    let ends = ends_of(e, t);
    let error = mark_error(e);
    let opening = missing(ends.opened, error, 0);
    let closing = missing(ends.closed, error, t.len());
    let body = Body {
        at: ends.start,
        end: ends.end,
        dropping: false,
    };
    Opened {
        opening,
        closing,
        body,
    }
}

// A mark that is missing is an error at its place.
fn missing(there: bool, error: DecodeError, place: usize) -> Option<Wrong>
    ensures { result ≡ missing there error place }
{
    if there {
        None
    } else {
        Some(Wrong {
            error,
            start: place,
            end: place,
        })
    }
}

// The error that a mark is missing, or that a key is empty.
pub fn mark_error(e: Encoding) -> DecodeError
    ensures { result ≡ mark_error e }
{
    match e {
        Encoding::LiteralString => DecodeError::LiteralMissingQuote,
        Encoding::MlLiteralString => DecodeError::MlLiteralMissingQuote,
        Encoding::BasicString(_) => DecodeError::BasicMissingQuote,
        Encoding::MlBasicString(_) => DecodeError::MlBasicMissingQuote,
        Encoding::UnquotedKey => DecodeError::EmptyKey,
    }
}

// One mark q at each end; the closing one not before the body's start.
#[tactic(auto, unfolding(decoder_rules::specs::Marks::line_ends))]
fn line_ends(q: u8, t: &[u8]) -> Ends
    ensures { result ≡ line_ends q t.now }
{
    let opened = t.first() == Some(&q);
    let start = if opened { Span::MARK } else { 0 };
    let closed = start < t.len() && t.last() == Some(&q);
    let end = if closed {
        t.len() - Span::MARK
    } else {
        t.len()
    };
    Ends {
        opened,
        closed,
        start,
        end,
    }
}

// Three marks q at each end; where the closing is missing, are those that are there dropped?
#[tactic(auto, using(text_classes::proofs::TripleLaws::triple_fits, decoder_rules::proofs::MarkLaws::start_le, decoder_rules::proofs::MarkLaws::closed_long), unfolding(decoder_rules::specs::Marks::ml_ends))]
fn ml_ends(trims: bool, q: u8, t: &[u8]) -> Ends
    ensures { result ≡ ml_ends trims q t.now }
{
    let opened = is_triple(t, 0, q);
    let start = ml_start(opened, t);
    let closed = ml_closed(q, start, t);
    let end = ml_end(trims, q, start, t, closed);
    Ends {
        opened,
        closed,
        start,
        end,
    }
}

// Where the body starts, after the opening if it is there, and a newline.
#[tactic(auto, using(decoder_rules::proofs::MarkLaws::newline_le), unfolding(decoder_rules::specs::Marks::ml_start))]
fn ml_start(opened: bool, t: &[u8]) -> usize
    requires { opened ≡ true → 3 ≤ length t.now }
    ensures { result ≡ ml_start opened t.now }
{
    if opened {
        Span::ML_MARK + strip_start_newline(&t[Span::ML_MARK..])
    } else {
        strip_start_newline(t)
    }
}

// Three marks at the end, after the body's start?
#[tactic(auto, unfolding(decoder_rules::specs::Marks::ml_closed))]
fn ml_closed(q: u8, start: usize, t: &[u8]) -> bool
    ensures { result ≡ ml_closed q start t.now }
{
    if t.len() < Span::ML_MARK {
        return false;
    }
    let z = t.len() - Span::ML_MARK;
    start <= z && is_triple(t, z, q)
}

#[tactic(auto, using(decoder_rules::proofs::MarkLaws::trimmed_le), unfolding(decoder_rules::specs::Marks::ml_end))]
fn ml_end(trims: bool, q: u8, start: usize, t: &[u8], closed: bool) -> usize
    requires { (start ≤ length t.now) × (closed ≡ true → start + 3 ≤ length t.now) }
    ensures { result ≡ ml_end trims q start t.now closed }
{
    if closed {
        t.len() - Span::ML_MARK
    } else if trims {
        start + trimmed_len(q, &t[start..])
    } else {
        t.len()
    }
}

// The length without the marks at the end.
#[tactic(auto, using(decoder_rules::proofs::MarkLaws::trimmed_mark, decoder_rules::proofs::MarkLaws::trimmed_other), unfolding(decoder_rules::specs::Marks::trimmed))]
fn trimmed_len(q: u8, s: &[u8]) -> usize
    ensures { result ≡ trimmed q s.now }
{
    let mut left = s;
    while let Some((last, before)) = left.split_last() {
        if *last != q {
            return left.len();
        }
        left = before;
    }
    0
}

#[tactic(auto, unfolding(decoder_rules::specs::Marks::key_ends))]
fn key_ends(t: &[u8]) -> Ends
    ensures { result ≡ key_ends t.now }
{
    Ends {
        opened: 0 < t.len(),
        closed: true,
        start: 0,
        end: t.len(),
    }
}

pub fn ends_of(e: Encoding, t: &[u8]) -> Ends
    ensures { result ≡ ends_of e t.now }
{
    match e {
        Encoding::LiteralString => line_ends(APOSTROPHE, t),
        Encoding::MlLiteralString => ml_ends(true, APOSTROPHE, t),
        Encoding::BasicString(_) => line_ends(QUOTATION_MARK, t),
        Encoding::MlBasicString(_) => ml_ends(false, QUOTATION_MARK, t),
        Encoding::UnquotedKey => key_ends(t),
    }
}
