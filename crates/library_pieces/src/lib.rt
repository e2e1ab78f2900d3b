// Decoding piece by piece as numbers, in structs that C and Rust can be handed: a text opened, and a step over its body.
// Definitions: specs/Numbers.antt. The structs are the C interface, as in library_numbers.
#![tactic(auto)]

ghost use Rattle.std.specs.Prelude.{◌≡◌};
ghost use Rattle.lexer.specs.Told.{bit_of};
ghost use Rattle.decoder_rules.specs.Encodings.{choice_by};
ghost use Rattle.library_numbers.specs.Numbers.{flag};
ghost use Rattle.library_pieces.specs.Numbers.{error_numbers, body_of, body_numbers, given_numbers, opened_numbers, open_numbers, piece_numbers, no_piece, step_numbers};

use decoder_marks::{Opened, choice_by, open_text};
use decoder_pieces::Body;
use decoder_rules::{Given, Piece, Wrong};
use library_numbers::{AnswerNumbers, ErrorNumbers, answer_of, bit, refused};

// What is still to be read of a text's body: the bytes from `at` to `end`. `dropping` is 1 within a line-ending escape, else 0.
#[repr(C)]
#[derive(Clone, Copy, Default)]
pub struct BodyNumbers {
    pub at: usize,
    pub end: usize,
    pub dropping: usize,
}

// What is wrong with a text's opening mark and with its closing one, and the body between them.
#[repr(C)]
#[derive(Clone, Copy, Default)]
pub struct OpenNumbers {
    pub answer: AnswerNumbers,
    pub opening: ErrorNumbers,
    pub closing: ErrorNumbers,
    pub body: BodyNumbers,
}

// What a piece gives. `given` is 0 for nothing, 1 for the bytes that it takes, 2 for the character `scalar`.
#[repr(C)]
#[derive(Clone, Copy, Default)]
pub struct GivenNumbers {
    pub given: usize,
    pub scalar: usize,
}

// `found` is 1 with a piece, of `take` bytes, and the body after it; at the end it is 0, and so are all fields after it.
#[repr(C)]
#[derive(Clone, Copy, Default)]
pub struct PieceNumbers {
    pub answer: AnswerNumbers,
    pub found: usize,
    pub take: usize,
    pub gives: GivenNumbers,
    pub error: ErrorNumbers,
    pub body: BodyNumbers,
}

impl From<Body> for BodyNumbers {
    ghost from_gives = { λ b n. n ≡ body_numbers b };

    fn from(body: Body) -> BodyNumbers {
        BodyNumbers {
            at: body.at,
            end: body.end,
            dropping: bit(body.dropping),
        }
    }
}

impl From<Given> for GivenNumbers {
    ghost from_gives = { λ g n. n ≡ given_numbers g };

    fn from(given: Given) -> GivenNumbers {
        match given {
            Given::Nothing => GivenNumbers::default(),
            Given::Copy => GivenNumbers {
                given: 1,
                scalar: 0,
            },
            Given::Char(c) => GivenNumbers {
                given: 2,
                scalar: c as usize,
            },
        }
    }
}

// A text opened as the kind and the edition of two numbers.
pub fn open_in(edition: usize, kind: usize, text: &[u8]) -> OpenNumbers
    ensures { result ≡ open_numbers (choice_by edition kind) text.now }
{
    match choice_by(edition, kind) {
        Ok(e) => opened(open_text(e, text)),
        Err(r) => OpenNumbers {
            answer: refused(r),
            ..OpenNumbers::default()
        },
    }
}

fn opened(opened: Opened) -> OpenNumbers
    ensures { result ≡ opened_numbers opened }
{
    let opening = opened.opening;
    let closing = opened.closing;
    let body = opened.body;
    OpenNumbers {
        answer: answer_of(0),
        opening: error_numbers(opening),
        closing: error_numbers(closing),
        body: body.into(),
    }
}

fn error_numbers(verdict: Option<Wrong>) -> ErrorNumbers
    ensures { result ≡ error_numbers verdict }
{
    match verdict {
        Some(Wrong { error, start, end }) => ErrorNumbers {
            number: error.number(),
            start,
            end,
        },
        None => ErrorNumbers::default(),
    }
}

// The first piece of a body, which the caller may make of any numbers; it is within a line-ending escape if `dropping` is not 0.
pub fn step_in(
    edition: usize,
    kind: usize,
    text: &[u8],
    at: usize,
    end: usize,
    dropping: usize,
) -> PieceNumbers
    ensures { result ≡ step_numbers (choice_by edition kind) text.now (body_of at end (flag dropping)) }
{
    let body = Body {
        at,
        end,
        dropping: dropping != 0,
    };
    match choice_by(edition, kind) {
        Ok(e) => stepped(body.step(e, text)),
        Err(r) => no_piece(refused(r)),
    }
}

fn stepped(step: Option<(Piece, Body)>) -> PieceNumbers
    ensures { result ≡ piece_numbers step }
{
    match step {
        Some((piece, next)) => PieceNumbers {
            answer: answer_of(0),
            found: 1,
            take: piece.take,
            gives: piece.given.into(),
            error: error_numbers(piece.verdict),
            body: next.into(),
        },
        None => no_piece(answer_of(0)),
    }
}

fn no_piece(answer: AnswerNumbers) -> PieceNumbers
    ensures { result ≡ no_piece answer }
{
    PieceNumbers {
        answer,
        ..PieceNumbers::default()
    }
}
