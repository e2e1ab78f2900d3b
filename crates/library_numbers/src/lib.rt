// The answers of the reader's calls as numbers, in structs that C and Rust can be handed. A function
// goes by the cases of one answer, and decides nothing. Definitions: specs/Numbers.antt.
// The structs of numbers are the C interface, and so they hold numbers where Rust has an enum.
#![tactic(auto)]

ghost use Rattle.std.specs.Prelude.{◌≡◌, ℕ};
ghost use Rattle.decoder_words.specs.Words.{worded};
ghost use Rattle.lexer.specs.Steps.{cursor_of};
ghost use Rattle.lexer.specs.Told.{bit_of};
ghost use Rattle.library_numbers.specs.Numbers.{flag, answer_of, refused_by, answer_numbers, cursor_numbers, token_numbers, no_token, part_of};
ghost use Rattle.library_numbers.specs.Numbers.{start_numbers, step_numbers, position_numbers, decode_numbers};
ghost use Rattle.library_numbers.specs.Numbers.{padded, text_by, described_numbers, encoded_numbers, said_number, no_text, words_numbers};

use decoder_rules::Decoded;
use decoder_words::{Said, Words};
use lexer::Cursor;
use lexer_place::Position;
use lexer_token::Token;
use std::cmp::min;
use text_refusals::Refusal;

// `refusal` is 0 where the call answered, else the refusal's number; `value` is the value returned with
// it; `length` is the length of the faulty sequence with refusal 1, else 0.
#[repr(C)]
#[derive(Clone, Copy, Default)]
pub struct AnswerNumbers {
    pub refusal: usize,
    pub value: usize,
    pub length: usize,
}

// A cursor; `ended` is 1 where it is ended, else 0.
#[repr(C)]
#[derive(Clone, Copy, Default)]
pub struct CursorNumbers {
    pub place: usize,
    pub ended: usize,
    pub line: usize,
}

#[repr(C)]
#[derive(Clone, Copy)]
pub struct StartNumbers {
    pub answer: AnswerNumbers,
    pub cursor: CursorNumbers,
}

#[repr(C)]
#[derive(Clone, Copy, Default)]
pub struct TokenNumbers {
    pub kind: usize,
    pub start: usize,
    pub end: usize,
    pub line: usize,
}

// `found` is 1 with a token; without one it is 0, and so are all fields after it.
#[repr(C)]
#[derive(Clone, Copy, Default)]
pub struct StepNumbers {
    pub answer: AnswerNumbers,
    pub found: usize,
    pub token: TokenNumbers,
    pub cursor: CursorNumbers,
}

// A part of a document: `length` bytes from `start` on.
#[repr(C)]
#[derive(Clone, Copy, Default)]
pub struct PartNumbers {
    pub start: usize,
    pub length: usize,
}

#[repr(C)]
#[derive(Clone, Copy)]
pub struct PositionNumbers {
    pub answer: AnswerNumbers,
    pub line: usize,
    pub column: usize,
}

// `answer.value` is the count of bytes, `errors` the count of errors.
#[repr(C)]
#[derive(Clone, Copy)]
pub struct DecodeNumbers {
    pub answer: AnswerNumbers,
    pub errors: usize,
}

// An error: its number, and from where to where it goes, counted from the start of the text; zeros where there is none.
#[repr(C)]
#[derive(Clone, Copy, Default)]
pub struct ErrorNumbers {
    pub number: usize,
    pub start: usize,
    pub end: usize,
}

// Bytes with a length beside: the C interface, as in `WordsNumbers`.
#[repr(C)]
#[derive(Clone, Copy)]
pub struct DescribedNumbers {
    pub answer: AnswerNumbers,
    pub length: usize,
    pub bytes: [u8; 25],
}

#[repr(C)]
#[derive(Clone, Copy)]
pub struct EncodedNumbers {
    pub answer: AnswerNumbers,
    pub encoding: usize,
}

// `said` is 0 for no text, 1 for the message, 2 for a literal and 3 for a description.
#[repr(C)]
#[derive(Clone, Copy)]
pub struct WordsNumbers {
    pub answer: AnswerNumbers,
    pub expected: usize,
    pub said: usize,
    pub length: usize,
    pub bytes: [u8; 43],
}

impl From<Cursor> for CursorNumbers {
    ghost from_gives = { λ c n. n ≡ cursor_numbers c };

    fn from(cursor: Cursor) -> CursorNumbers {
        CursorNumbers {
            place: cursor.place,
            ended: bit(cursor.ended),
            line: cursor.line,
        }
    }
}

impl From<Token> for TokenNumbers {
    ghost from_gives = { λ t n. n ≡ token_numbers t };

    fn from(token: Token) -> TokenNumbers {
        let kind = token.kind;
        TokenNumbers {
            kind: kind.number(),
            start: token.span.start,
            end: token.span.end,
            line: token.line,
        }
    }
}

// What a call answers with, as the one number that is returned.
pub trait Value {
    ghost value: { Self → ℕ };

    fn value(self) -> usize
        ensures { result ≡ value self };
}

impl Value for usize {
    ghost value = { λ n. n };

    fn value(self) -> usize {
        self
    }
}

// 1 for true, 0 for false.
impl Value for bool {
    ghost value = { bit_of };

    fn value(self) -> usize {
        bit(self)
    }
}

impl Value for () {
    ghost value = { λ _. 0 };

    fn value(self) -> usize {
        0
    }
}

// A call that answered, with its value.
pub fn answer_of(value: usize) -> AnswerNumbers
    ensures { result ≡ answer_of value }
{
    AnswerNumbers {
        refusal: 0,
        value,
        length: 0,
    }
}

// A call that was refused.
pub fn refused(r: Refusal) -> AnswerNumbers
    ensures { result ≡ refused_by r }
{
    AnswerNumbers {
        refusal: r.number(),
        value: r.value(),
        length: r.length(),
    }
}

pub fn answered<A: Value>(answer: Result<A, Refusal>) -> AnswerNumbers
    ensures { result ≡ answer_numbers A.value answer }
{
    match answer {
        Ok(a) => answer_of(a.value()),
        Err(r) => refused(r),
    }
}

pub fn started(start: Result<Cursor, Refusal>) -> StartNumbers
    ensures { result ≡ start_numbers start }
{
    match start {
        Ok(cursor) => StartNumbers {
            answer: answer_of(0),
            cursor: cursor.into(),
        },
        Err(r) => StartNumbers {
            answer: refused(r),
            cursor: CursorNumbers::default(),
        },
    }
}

// The cursor of a caller, who may make it of any numbers; it is ended if `ended` is not 0.
pub fn cursor_of(place: usize, ended: usize, line: usize) -> Cursor
    ensures { result ≡ cursor_of place line (flag ended) }
{
    Cursor {
        place,
        line,
        ended: ended != 0,
    }
}

pub fn stepped(step: Result<Option<(Token, Cursor)>, Refusal>) -> StepNumbers
    ensures { result ≡ step_numbers step }
{
    match step {
        Ok(Some((token, next))) => StepNumbers {
            answer: answer_of(0),
            found: 1,
            token: token.into(),
            cursor: next.into(),
        },
        Ok(None) => no_token(answer_of(0)),
        Err(r) => no_token(refused(r)),
    }
}

// The text of the span from `start` up to `end`, which `check` was asked about: by its start and
// length, since an exported function returns no reference. It is empty where `end` is before `start`.
pub fn part_of(check: Result<(), Refusal>, start: usize, end: usize) -> PartNumbers
    ensures { result ≡ part_of check start end }
{
    match check {
        Ok(()) => PartNumbers {
            start,
            length: end.saturating_sub(start),
        },
        Err(_) => PartNumbers::default(),
    }
}

pub fn positioned(position: Result<Position, Refusal>) -> PositionNumbers
    ensures { result ≡ position_numbers position }
{
    match position {
        Ok(Position { line, column }) => PositionNumbers {
            answer: answer_of(0),
            line,
            column,
        },
        Err(r) => PositionNumbers {
            answer: refused(r),
            line: 0,
            column: 0,
        },
    }
}

pub fn decoded(decoded: Result<Decoded, Refusal>) -> DecodeNumbers
    ensures { result ≡ decode_numbers decoded }
{
    match decoded {
        Ok(Decoded { bytes, errors }) => DecodeNumbers {
            answer: answer_of(bytes),
            errors,
        },
        Err(r) => DecodeNumbers {
            answer: refused(r),
            errors: 0,
        },
    }
}

pub fn described(description: Result<&[u8], Refusal>) -> DescribedNumbers
    ensures { result ≡ described_numbers (text_by description.entry) }
{
    match description {
        Ok(text) => DescribedNumbers {
            answer: answer_of(0),
            length: text.len(),
            bytes: padded(text),
        },
        Err(r) => DescribedNumbers {
            answer: refused(r),
            length: 0,
            bytes: [0; 25],
        },
    }
}

pub fn encoded(encoding: Result<usize, Refusal>) -> EncodedNumbers
    ensures { result ≡ encoded_numbers encoding }
{
    match encoding {
        Ok(encoding) => EncodedNumbers {
            answer: answer_of(0),
            encoding,
        },
        Err(r) => EncodedNumbers {
            answer: refused(r),
            encoding: 0,
        },
    }
}

// The first `N` bytes of a text, with zeros behind them where it has fewer.
pub fn padded<const N: usize>(text: &[u8]) -> [u8; N]
    ensures { result ≡ padded N text.now }
{
    let mut bytes = [0; N];
    let n = min(text.len(), N);
    bytes[..n].copy_from_slice(&text[..n]);
    bytes
}

pub fn worded(words: Result<Words, Refusal>) -> WordsNumbers
    ensures { result ≡ words_numbers (worded words) }
{
    match words {
        Ok(
            Words {
                expected,
                phrase: Some(phrase),
            },
        ) => WordsNumbers {
            answer: answer_of(0),
            expected,
            said: said_number(phrase.said),
            length: phrase.text.len(),
            bytes: padded(phrase.text),
        },
        Ok(
            Words {
                expected,
                phrase: None,
            },
        ) => no_text(answer_of(0), expected),
        Err(r) => no_text(refused(r), 0),
    }
}

fn no_text(answer: AnswerNumbers, expected: usize) -> WordsNumbers
    ensures { result ≡ no_text answer expected }
{
    WordsNumbers {
        answer,
        expected,
        said: 0,
        length: 0,
        bytes: [0; 43],
    }
}

// The numbers are the C interface.
fn said_number(said: Said) -> usize
    ensures { result ≡ said_number said }
{
    match said {
        Said::Message => 1,
        Said::Literal => 2,
        Said::Description => 3,
    }
}

fn no_token(answer: AnswerNumbers) -> StepNumbers
    ensures { result ≡ no_token answer }
{
    StepNumbers {
        answer,
        ..StepNumbers::default()
    }
}

// A flag as a number: 1 for true, 0 for false.
pub fn bit(b: bool) -> usize
    ensures { result ≡ bit_of b }
{
    b as usize
}
