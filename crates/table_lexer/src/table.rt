// A token by the table of byte classes: its kind by the class of its first byte, its end by its kind, as the rule says it.
// Rule: Table.antt of crate `lexer`.
ghost use Rattle.std.specs.Prelude.{◌≡◌, ◌+◌, ◌≤◌, ◌<◌, length, drop};
ghost use Rattle.lexer.specs.Table.{kind_of, extent};
ghost use Rattle.lexer.specs.Tokens.{found_at};

use lexer::{Engine, Found, StepEngine};
use lexer_token::{Span, TokenKind};
use table_classes::{Set, Sign, class, class_of, class_run, is_at, is_triple};

// The engine that looks each byte up.
#[derive(Clone, Copy)]
pub struct Table;

impl Engine for Table {
    #[inline(always)]
    fn token(doc: &[u8], at: usize) -> Found {
        if doc.len() <= at {
            return past_the_end(doc, at);
        }
        let kind = kind_at(doc, at);
        let end = end_of(doc, at, kind);
        let feeds = match kind {
            TokenKind::Newline | TokenKind::MlLiteralString | TokenKind::MlBasicString =>
                lexer::line_feeds(&doc[at..end]),
            _ => 0,
        };
        Found { kind, end, feeds }
    }
}

impl StepEngine for Table {}

// Beyond the last byte stands the end, of no bytes.
fn past_the_end(doc: &[u8], at: usize) -> Found
    requires { length doc.now ≤ at }
    ensures { result ≡ found_at at (drop at doc.now) }
{
    Found {
        kind: TokenKind::Eof,
        end: at,
        feeds: 0,
    }
}

// The kind of the token that begins at a place of the document.
fn kind_at(doc: &[u8], at: usize) -> TokenKind
    requires { at < length doc.now }
    ensures { result ≡ kind_of (drop at doc.now) }
{
    match class_of(doc[at]) {
        class::DOT => TokenKind::Dot,
        class::EQUALS => TokenKind::Equals,
        class::COMMA => TokenKind::Comma,
        class::LEFT_SQUARE => TokenKind::LeftSquareBracket,
        class::RIGHT_SQUARE => TokenKind::RightSquareBracket,
        class::LEFT_CURLY => TokenKind::LeftCurlyBracket,
        class::RIGHT_CURLY => TokenKind::RightCurlyBracket,
        class::SPACE => TokenKind::Whitespace,
        class::TAB => TokenKind::Whitespace,
        class::NUMBER_SIGN => TokenKind::Comment,
        class::CR => TokenKind::Newline,
        class::LF => TokenKind::Newline,
        class::APOSTROPHE => {
            if is_triple(doc, at, Sign::Apostrophe) {
                return TokenKind::MlLiteralString;
            }
            TokenKind::LiteralString
        }
        class::QUOTATION_MARK => {
            if is_triple(doc, at, Sign::QuotationMark) {
                return TokenKind::MlBasicString;
            }
            TokenKind::BasicString
        }
        _ => TokenKind::Atom,
    }
}

// The end of a token of a kind, which fits the document.
fn end_of(doc: &[u8], at: usize, kind: TokenKind) -> usize
    requires { at + extent kind (drop at doc.now) ≤ length doc.now }
    ensures { result ≡ at + extent kind (drop at doc.now) }
{
    match kind {
        TokenKind::Whitespace => class_run(Set::Wschar, doc, at + 1),
        TokenKind::Comment => class_run(Set::InComment, doc, at + 1),
        TokenKind::Newline => newline_end(doc, at),
        TokenKind::LiteralString => table_scans::literal_tail(doc, at + Span::MARK),
        TokenKind::BasicString => table_scans::basic_tail(doc, at + Span::MARK),
        TokenKind::MlLiteralString => table_scans::ml_literal_tail(doc, at + Span::ML_MARK),
        TokenKind::MlBasicString => table_scans::ml_basic_tail(doc, at + Span::ML_MARK),
        TokenKind::Atom => class_run(Set::InAtom, doc, at + 1),
        TokenKind::Eof => at,
        _ => at + 1,
    }
}

// The end of a newline: an LF, a CR with an LF, or a CR alone.
fn newline_end(doc: &[u8], at: usize) -> usize
    requires { at + extent TokenKind.Newline (drop at doc.now) ≤ length doc.now }
    ensures { result ≡ at + extent TokenKind.Newline (drop at doc.now) }
{
    if is_at(doc, at, Sign::Cr) {
        if is_at(doc, at + 1, Sign::Lf) {
            return at + 2;
        }
        return at + 1;
    }
    at + 1
}
