// The words for each error of decoding: toml_parser's message, and the list of what it expects at the
// error's place. One text is given at a time, by its number: 0 for the message, then the list's.
// Rules: specs/ErrorNumbers.antt, Words.antt.
#![tactic(auto)]

ghost use Rattle.std.specs.Prelude.{◌≡◌, ◌≤◌, length, map, option_map, IfOk, IfSome};
ghost use Rattle.text_refusals.specs.Told.{told_number, told_value};
ghost use Rattle.decoder_words.specs.ErrorNumbers.{error_of_number};
ghost use Rattle.decoder_words.specs.Words.{spoken_by, text_by, worded_by, worded, literals, escapes, error_message, error_expects, phrase_of, words_of, error_words};
ghost use Rattle.decoder_words.specs.Told.{error_refusal, error_returned, words_refusal, words_returned};

use decoder_rules::{DecodeError, Edition};
use text_refusals::Refusal;

// What a text of an error is: its message; a text that is expected; or words for what is expected.
#[derive(Clone, Copy, Debug, PartialEq, Eq)]
pub enum Said {
    Message,
    Literal,
    Description,
}

// A text, and what it is.
#[derive(Clone, Copy)]
pub struct Phrase {
    pub said: Said,
    pub text: &'static [u8],
}

// How many things an error expects, and a text of it; none where its list has ended.
#[derive(Clone, Copy)]
pub struct Words {
    pub expected: usize,
    pub phrase: Option<Phrase>,
}

// The lists of what is expected.
type Text = (Said, &'static [u8]);

const APOSTROPHE: [Text; 1] = [(Said::Literal, b"'")];

const QUOTATION_MARK: [Text; 1] = [(Said::Literal, b"\"")];

const NEWLINE: [Text; 1] = [(Said::Literal, b"\n")];

const LITERAL: [Text; 1] = [(Said::Description, b"non-single-quote visible characters")];

const ML_LITERAL: [Text; 1] = [(Said::Description, b"non-single-quote characters")];

const BASIC: [Text; 2] = [
    (Said::Description, b"non-double-quote visible characters"),
    (Said::Literal, b"\\"),
];

const ML_BASIC: [Text; 2] = [(Said::Literal, b"\\"), (Said::Description, b"characters")];

const DIGITS: [Text; 1] = [(Said::Description, b"unicode hexadecimal value")];

const KEY: [Text; 4] = [
    (Said::Description, b"letters"),
    (Said::Description, b"numbers"),
    (Said::Literal, b"-"),
    (Said::Literal, b"_"),
];

// No `t`, though `\t` is accepted: the list is toml_parser's, with TOML 1.1's two at its end.
const ESCAPES: [Text; 10] = [
    (Said::Literal, b"b"),
    (Said::Literal, b"f"),
    (Said::Literal, b"n"),
    (Said::Literal, b"r"),
    (Said::Literal, b"\\"),
    (Said::Literal, b"\""),
    (Said::Literal, b"u"),
    (Said::Literal, b"U"),
    (Said::Literal, b"e"),
    (Said::Literal, b"x"),
];

// The error that has a number.
#[tactic(auto, unfolding(crate::specs::ErrorNumbers::error_of_number))]
pub fn error_of(number: usize) -> Result<DecodeError, Refusal>
    ensures answer { result ≡ error_of_number number }
    ensures number { told_number result ≡ error_refusal number }
    ensures value { told_value result ≡ error_returned number }
{
    match number {
        1 => Ok(DecodeError::LiteralMissingQuote),
        2 => Ok(DecodeError::LiteralInvalid),
        3 => Ok(DecodeError::MlLiteralMissingQuote),
        4 => Ok(DecodeError::LoneCr),
        5 => Ok(DecodeError::MlLiteralInvalid),
        6 => Ok(DecodeError::BasicMissingQuote),
        7 => Ok(DecodeError::BasicInvalid),
        8 => Ok(DecodeError::MissingEscape),
        9 => Ok(DecodeError::FewDigits),
        10 => Ok(DecodeError::NotScalar),
        11 => Ok(DecodeError::MlBasicMissingQuote),
        12 => Ok(DecodeError::MlBasicInvalid),
        13 => Ok(DecodeError::MissingNewline),
        14 => Ok(DecodeError::EmptyKey),
        15 => Ok(DecodeError::KeyInvalid),
        _ => Err(Refusal::NoKind { number }),
    }
}

// Text number `which` of the error that has a number, in the edition of TOML that has a number.
#[tactic(auto, unfolding(crate::specs::Words::error_words, crate::specs::Words::words_in, decoder_rules::specs::Encodings::edition_of))]
pub fn error_words(number: usize, edition: usize, which: usize) -> Result<Words, Refusal>
    ensures answer { worded result ≡ error_words number edition which }
    ensures number { told_number result ≡ words_refusal number edition }
    ensures value { told_value result ≡ words_returned number edition }
    ensures short { IfOk result (λ w. IfSome w.phrase (λ p. length p.text.now ≤ 43)) }
{
    let error = error_of(number)?;
    let v = Edition::try_from(edition)?;
    Ok(words_of(error, v, which))
}

fn words_of(error: DecodeError, v: Edition, which: usize) -> Words
    ensures { worded_by result ≡ words_of v error which }
{
    Words {
        expected: expects_of(error, v).len(),
        phrase: phrase_of(error, v, which),
    }
}

// The message is number 0, and then comes what is expected.
#[tactic(auto, using(crate::proofs::WordLaws::behind), unfolding(crate::specs::Words::phrase_of))]
fn phrase_of(error: DecodeError, v: Edition, which: usize) -> Option<Phrase>
    ensures { option_map spoken_by result ≡ phrase_of v error which }
{
    if which == 0 {
        return Some(Phrase {
            said: Said::Message,
            text: message_of(error),
        });
    }
    let (said, text) = *expects_of(error, v).get(which - 1)?;
    Some(Phrase { said, text })
}

// The message: what is wrong.
fn message_of(error: DecodeError) -> &'static [u8]
    ensures { result.now ≡ error_message error }
{
    match error {
        DecodeError::LiteralMissingQuote | DecodeError::LiteralInvalid => b"invalid literal string",
        DecodeError::MlLiteralMissingQuote | DecodeError::MlLiteralInvalid =>
            b"invalid multi-line literal string",
        DecodeError::LoneCr => b"carriage return must be followed by newline",
        DecodeError::BasicMissingQuote | DecodeError::BasicInvalid => b"invalid basic string",
        DecodeError::MissingEscape => b"missing escaped value",
        DecodeError::FewDigits => b"too few unicode value digits",
        DecodeError::NotScalar => b"invalid value",
        DecodeError::MlBasicMissingQuote
        | DecodeError::MlBasicInvalid
        | DecodeError::MissingNewline => b"invalid multi-line basic string",
        DecodeError::EmptyKey => b"unquoted keys cannot be empty",
        DecodeError::KeyInvalid => b"invalid unquoted key",
    }
}

// What is expected, in toml_parser's order.
fn expects_of(error: DecodeError, v: Edition) -> &'static [Text]
    ensures { map text_by result.now ≡ error_expects v error }
{
    match error {
        DecodeError::LiteralMissingQuote | DecodeError::MlLiteralMissingQuote => &APOSTROPHE,
        DecodeError::BasicMissingQuote | DecodeError::MlBasicMissingQuote => &QUOTATION_MARK,
        DecodeError::LoneCr | DecodeError::MissingNewline => &NEWLINE,
        DecodeError::LiteralInvalid => &LITERAL,
        DecodeError::MlLiteralInvalid => &ML_LITERAL,
        DecodeError::BasicInvalid => &BASIC,
        DecodeError::MissingEscape => escapes_of(v),
        DecodeError::FewDigits | DecodeError::NotScalar => &DIGITS,
        DecodeError::MlBasicInvalid => &ML_BASIC,
        DecodeError::EmptyKey | DecodeError::KeyInvalid => &KEY,
    }
}

fn escapes_of(v: Edition) -> &'static [Text]
    ensures { map text_by result.now ≡ literals (escapes v) }
{
    match v {
        Edition::Toml10 => &ESCAPES[..8],
        Edition::Toml11 => &ESCAPES,
    }
}
