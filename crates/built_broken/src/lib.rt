// `first_broken`: the first string token of a document that decodes with an error, and its first error; or that there is
// none. It goes from token to token, and no further than the one that decides; no memory is lent and nothing is written.
// Rule: specs/Broken.antt.
#![tactic(auto)]

ghost use Rattle.std.specs.Prelude.{◌≡◌, true, false, [], ◌∷◌, ◌+◌, ◌≤◌, ◌<◌, length, take, drop};
ghost use Rattle.text_refusals.specs.Refusals.{limit};
ghost use Rattle.text_scalars.specs.Utf8.{Utf8};
ghost use Rattle.lexer.specs.Lines.{line_of};
ghost use Rattle.lexer.specs.Table.{token_len};
ghost use Rattle.lexer.specs.Tokens.{tokens_of};
ghost use Rattle.lexer_token.specs.Records.{token_of};
ghost use Rattle.decoder_rules.specs.Encodings.{edition_number};
ghost use Rattle.decoder_rules.specs.Pieces.{error_number};
ghost use Rattle.built_broken.specs.Broken.{is_utf8, recorded_error, not_utf8, first_among, broken_answer};
ghost use Rattle.text_refusals.specs.Told.{told_number, told_value, told_length};
ghost use Rattle.built_broken.specs.Told.{broken_refusal, broken_returned, broken_fault};
ghost use Rattle.built_broken.specs.Walk.{front_text, kind_behind};

mod ascii;
mod error;
mod look;

use crate::ascii::is_ascii;
use crate::error::first_error;
use crate::look::{Asks, Look, look_at};
use decoder_rules::{Edition, Encoding, Wrong};
use lexer::{line_of, start_of};
use lexer_token::{Span, Token, TokenKind};
use text::check_utf8;
use text_refusals::{LIMIT, Refusal};

// An error as `decode` records it: its number, and from where to where it goes, counted from the token's start.
#[derive(Clone, Copy, Debug, PartialEq, Eq)]
pub struct FirstError {
    pub number: usize,
    pub start: usize,
    pub end: usize,
}

// The first broken token of a document in TOML 1.0 and its first error, or that no string is broken.
pub fn first_broken(doc: &[u8]) -> Result<Option<(Token, FirstError)>, Refusal>
    ensures answer { result ≡ broken_answer doc.now 10 }
    ensures number { told_number result ≡ broken_refusal doc.now 10 }
    ensures value { told_value result ≡ broken_returned doc.now 10 }
    ensures length { told_length result ≡ broken_fault doc.now 10 }
{
    first_broken_in(doc, Edition::TOML_10)
}

// The same in the edition of TOML that a number names: 10 for TOML 1.0, 11 for TOML 1.1.
pub fn first_broken_in(doc: &[u8], edition: usize) -> Result<Option<(Token, FirstError)>, Refusal>
    ensures answer { result ≡ broken_answer doc.now edition }
    ensures number { told_number result ≡ broken_refusal doc.now edition }
    ensures value { told_value result ≡ broken_returned doc.now edition }
    ensures length { told_length result ≡ broken_fault doc.now edition }
{
    if LIMIT < doc.len() {
        return Err(Refusal::TooLong);
    }
    find(Edition::try_from(edition)?, doc)
}

// From token to token. Only the answer's token bears a line, so lines are not counted on the way.
fn find(v: Edition, doc: &[u8]) -> Result<Option<(Token, FirstError)>, Refusal>
    requires { length doc.now ≤ limit }
    ensures { result ≡ first_among doc.now (edition_number v) (tokens_of doc.now) }
{
    let mut at = start_of(doc);
    // no iterator: a turn goes over a token, as far as it reaches
    while at < doc.len() {
        let Look { asks, end } = look_at(v, doc, at);
        let text = &doc[at..end];
        if !is_readable(asks, text) {
            return Err(refusal_at(doc, at, end));
        }
        if let Asks::Decoding(e) = asks {
            if let Some(wrong) = first_error(e, text) {
                return Ok(Some((string_token(e, doc, at, end), recorded(wrong))));
            }
        }
        at = end;
    }
    Ok(None)
}

// Is the token's text UTF-8? Of a token of which nothing is asked it is known.
fn is_readable(asks: Asks, text: &[u8]) -> bool
    requires { length text.now ≤ limit }
    ensures { (asks ≡ Asks.Nothing → result ≡ true) × ((asks ≡ Asks.Nothing → ⊥) → result ≡ is_utf8 text.now) }
{
    match asks {
        Asks::Nothing => true,
        _ => is_utf8(text),
    }
}

#[tactic(auto, using(crate::proofs::ReadableLaws::check_valid, crate::proofs::ReadableLaws::check_refused, crate::proofs::ReadableLaws::ascii_readable))]
fn is_utf8(s: &[u8]) -> bool
    requires { length s.now ≤ limit }
    ensures { result ≡ is_utf8 s.now }
{
    is_ascii(s) || check_utf8(s).is_ok()
}

// Refusal 1 for the document, by the first token that is not UTF-8, from `at` to `end`. Its fault begins within it; how long it
// is takes the byte after it to tell, where a character is cut by the token's end. What is checked is never valid, since the
// token is not.
fn refusal_at(doc: &[u8], at: usize, end: usize) -> Refusal
    requires { (length doc.now ≤ limit)
        × (at < length doc.now)
        × (end ≡ at + token_len (drop at doc.now))
        × Utf8 (take at doc.now)
        × (is_utf8 (front_text (drop at doc.now)) ≡ false) }
    ensures { Err result ≡ not_utf8 doc.now }
{
    let stop = if end < doc.len() { end + 1 } else { end };
    match check_utf8(&doc[at..stop]) {
        Ok(()) => Refusal::TooLong,
        Err(r) => Refusal::NotUtf8 {
            valid: at + r.value(),
            length: r.length(),
        },
    }
}

// The token that is decoded by an encoding, from `at` to `end`.
fn string_token(e: Encoding, doc: &[u8], at: usize, end: usize) -> Token
    ensures { result ≡ token_of (kind_behind e) at end (line_of doc.now at) }
{
    Token::new(kind_of(e), Span::new(at, end), line_of(doc, at))
}

// The kind of token that is decoded by an encoding: an Atom where it is a key's.
fn kind_of(e: Encoding) -> TokenKind
    ensures { result ≡ kind_behind e }
{
    match e {
        Encoding::LiteralString => TokenKind::LiteralString,
        Encoding::BasicString(_) => TokenKind::BasicString,
        Encoding::MlLiteralString => TokenKind::MlLiteralString,
        Encoding::MlBasicString(_) => TokenKind::MlBasicString,
        Encoding::UnquotedKey => TokenKind::Atom,
    }
}

// An error as it is answered, by its number.
fn recorded(wrong: Wrong) -> FirstError
    ensures { result ≡ recorded_error (error_number wrong.error ∷ wrong.start ∷ wrong.end ∷ []) }
{
    FirstError {
        number: wrong.error.number(),
        start: wrong.start,
        end: wrong.end,
    }
}
