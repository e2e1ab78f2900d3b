// The three ways to make a piece, each without an error and with one: for the decoders of both engines. Rule: specs/Pieces.antt.
ghost use Rattle.std.specs.Prelude.{◌≡◌};
ghost use Rattle.decoder_rules.specs.Pieces.{copy_piece, bad_copy, char_piece, bad_char, drop_piece, bad_drop};

use crate::{DecodeError, Given, Piece, Wrong};

// n bytes as they are.
pub fn copy_piece(n: usize) -> Piece
    ensures { result ≡ copy_piece n }
{
    Piece {
        take: n,
        given: Given::Copy,
        verdict: None,
        dropping: false,
    }
}

pub fn bad_copy(n: usize, error: DecodeError, start: usize, end: usize) -> Piece
    ensures { result ≡ bad_copy n error start end }
{
    Piece {
        take: n,
        given: Given::Copy,
        verdict: Some(Wrong { error, start, end }),
        dropping: false,
    }
}

// A character for n bytes.
pub fn char_piece(n: usize, c: u32) -> Piece
    ensures { result ≡ char_piece n c }
{
    Piece {
        take: n,
        given: Given::Char(c),
        verdict: None,
        dropping: false,
    }
}

pub fn bad_char(n: usize, c: u32, error: DecodeError, place: usize) -> Piece
    ensures { result ≡ bad_char n c error place }
{
    Piece {
        take: n,
        given: Given::Char(c),
        verdict: Some(Wrong {
            error,
            start: place,
            end: place,
        }),
        dropping: false,
    }
}

// Nothing for n bytes of a line-ending escape.
pub fn drop_piece(n: usize) -> Piece
    ensures { result ≡ drop_piece n }
{
    Piece {
        take: n,
        given: Given::Nothing,
        verdict: None,
        dropping: true,
    }
}

pub fn bad_drop(n: usize, error: DecodeError, place: usize) -> Piece
    ensures { result ≡ bad_drop n error place }
{
    Piece {
        take: n,
        given: Given::Nothing,
        verdict: Some(Wrong {
            error,
            start: place,
            end: place,
        }),
        dropping: true,
    }
}
