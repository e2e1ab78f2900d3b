// The string decoders, under the Rust's names and in its order, over any engine. Each says the first piece of its body; body.rt goes
// from piece to piece. Rules: Bodies.antt and Escapes.antt of crate `decoder_rules`.
// `rest` is what follows a backslash, an escape's letter, or a text's opening.
ghost use Rattle.std.specs.Prelude.{◌≡◌, ◌+◌, ◌^◌, ◌<◌, ◌≤◌, length, drop};
ghost use Rattle.decoder_rules.specs.Escapes.{letter_at, hex_piece, escape_piece};
ghost use Rattle.decoder_rules.specs.Bodies.{literal_piece, ml_literal_piece, basic_piece, escaped_nl, escaped_more, mlb_content, ml_basic_piece, key_piece};
ghost use Rattle.decoder_rules.specs.Marks.{newline_len};
ghost use Rattle.decoder_pieces.specs.GoodEscapes.{good_hex, good_escape, escape_at};
ghost use Rattle.decoder_pieces.specs.Hexes.{HexRead};

use crate::engine::Bytes;
use crate::ranges::Ranges;
use decoder_rules::{
    DecodeError, Edition, Encoding, Letter, Piece, bad_char, bad_copy, bad_drop, char_piece,
    copy_piece, drop_piece,
};
use text_classes::{ESCAPE, is_at};
use text_scalars::is_scalar;

// A body that has a byte: its bytes, which begin with the piece's first byte, and the place of that byte in the text. The place where
// they end fits a usize.
#[derive(Clone, Copy)]
pub(crate) struct Left<'a> {
    pub s: &'a [u8],
    pub at: usize,
    ghost some: { 0 < length s.now },
    ghost fits: { at + length s.now < 2 ^ 64 },
}

// literal-string = apostrophe *literal-char apostrophe
#[tactic(auto, using(crate::proofs::FrontLaws::front_some, crate::proofs::FrontLaws::front_none), unfolding(decoder_rules::specs::Bodies::literal_piece))]
pub(crate) fn decode_literal_string<E: Bytes>(left: Left<'_>) -> Piece
    ensures { result ≡ literal_piece left.entry.at left.entry.s.now }
{
    let Left { s, at } = left;
    let n = E::plain_run(Encoding::LiteralString, s);
    if 0 < n {
        return copy_piece(n);
    }
    bad_copy(1, DecodeError::LiteralInvalid, at, at)
}

// ml-literal-body = *mll-content *( mll-quotes 1*mll-content ) [ mll-quotes ]
#[tactic(auto, using(crate::proofs::FrontLaws::front_some, crate::proofs::FrontLaws::front_none), unfolding(decoder_rules::specs::Bodies::ml_literal_piece))]
pub(crate) fn decode_ml_literal_string<E: Bytes>(left: Left<'_>) -> Piece
    ensures { result ≡ ml_literal_piece left.entry.at left.entry.s.now }
{
    let Left { s, at } = left;
    let n = E::plain_run(Encoding::MlLiteralString, s);
    if 0 < n {
        return copy_piece(n);
    }
    if E::is_cr(s, 0) {
        if E::is_lf(s, 1) {
            return copy_piece(1);
        }
        return bad_copy(1, DecodeError::LoneCr, at + 1, at + 1);
    }
    bad_copy(1, DecodeError::MlLiteralInvalid, at, at)
}

// basic-char = basic-unescaped / escaped
#[tactic(auto, using(crate::proofs::FrontLaws::front_some, crate::proofs::FrontLaws::front_none, crate::proofs::FrontLaws::backslash_basic, text_classes::proofs::RunLaws::run_le), unfolding(decoder_rules::specs::Bodies::basic_piece))]
pub(crate) fn decode_basic_string<E: Bytes>(v: Edition, left: Left<'_>) -> Piece
    ensures { result ≡ basic_piece v left.entry.at left.entry.s.now }
{
    let Left { s, at } = left;
    if E::is_escape(s, 0) {
        return escape_seq_char::<E>(v, left);
    }
    let n = E::plain_run(Encoding::BasicString(v), s);
    if 0 < n {
        return copy_piece(n);
    }
    let k = E::basic_invalid(s);
    bad_copy(k, DecodeError::BasicInvalid, at, at + k)
}

// An escape that stands for a character: how many bytes it has, its backslash among them, and the character.
#[derive(Clone, Copy, Debug, PartialEq, Eq)]
pub struct Escape {
    pub take: usize,
    pub char: u32,
}

// The escape at the front of s, where the encoding has escapes and one that stands for a character is there.
// It is compiled into the loops that ask it, and what asks for digits is not: so the common escapes, of one letter, go through no memory.
#[inline(always)]
#[tactic(auto, using(text_classes::proofs::FirstLaws::stands_there, crate::proofs::EscapeAtLaws::escape_absent))]
pub fn escape_at(e: Encoding, s: &[u8]) -> Option<Escape>
    ensures { result ≡ escape_at e s.now }
{
    if !is_at(s, 0, ESCAPE) {
        return None;
    }
    match e {
        Encoding::BasicString(v) => good_escape(v, s),
        Encoding::MlBasicString(v) => good_escape(v, s),
        _ => None,
    }
}

// The same in an edition, where s begins with a backslash.
#[inline(always)]
fn good_escape(v: Edition, s: &[u8]) -> Option<Escape>
    requires { 0 < length s.now }
    ensures { result ≡ good_escape v (drop 1 s.now) }
{
    match letter_at::<Ranges>(v, &s[1..]) {
        Letter::Stands(c) => Some(Escape { take: 2, char: c }),
        Letter::Asks(digits) => good_hex(s, digits),
        Letter::Neither => None,
    }
}

// The same where the letter asks for so many digits.
#[inline(never)]
fn good_hex(s: &[u8], digits: usize) -> Option<Escape>
    requires { (digits ≤ 8) × (2 ≤ length s.now) }
    ensures { result ≡ good_hex digits (drop 2 s.now) }
{
    match hex_number::<Ranges>(&s[2..], digits) {
        Ok(value) => {
            if is_scalar(value) {
                Some(Escape {
                    take: 2 + digits,
                    char: value,
                })
            } else {
                None
            }
        }
        Err(_) => None,
    }
}

// escape escape-seq-char, of the edition
#[inline(always)]
fn escape_seq_char<E: Bytes>(v: Edition, left: Left<'_>) -> Piece
    ensures { result ≡ escape_piece v left.entry.at (drop 1 left.entry.s.now) }
{
    let Left { s, at } = left;
    match letter_at::<E>(v, &s[1..]) {
        Letter::Stands(c) => char_piece(2, c),
        Letter::Asks(digits) => hexescape::<E>(s, digits, at),
        Letter::Neither => bad_char(1, 0x5C, DecodeError::MissingEscape, at + 1),
    }
}

// What the letter that `rest` begins with is for, after a backslash.
fn letter_at<E: Bytes>(v: Edition, rest: &[u8]) -> Letter
    ensures { result ≡ letter_at v rest.now }
{
    if rest.len() == 0 {
        return Letter::Neither;
    }
    E::letter_of(v, rest[0])
}

// An escape whose letter asks for so many digits.
fn hexescape<E: Bytes>(s: &[u8], digits: usize, at: usize) -> Piece
    requires { (digits ≤ 8) × (2 ≤ length s.now) × (at + length s.now < 2 ^ 64) }
    ensures { result ≡ hex_piece digits at (drop 2 s.now) }
{
    match hex_number::<E>(&s[2..], digits) {
        Err(found) => bad_char(2 + found, 0xFFFD, DecodeError::FewDigits, at + (2 + found)),
        Ok(value) => {
            if is_scalar(value) {
                char_piece(2 + digits, value)
            } else {
                bad_char(2 + digits, 0xFFFD, DecodeError::NotScalar, at + 2)
            }
        }
    }
}

// The number of the digits that `rest` begins with, where as many as are asked for are there; else how many are.
#[tactic(auto, using(crate::proofs::HexLaws::digits_start, crate::proofs::HexLaws::digits_room, crate::proofs::HexLaws::digits_turn, crate::proofs::HexLaws::digits_few, crate::proofs::HexLaws::digits_all))]
fn hex_number<E: Bytes>(rest: &[u8], digits: usize) -> Result<u32, usize>
    requires { digits ≤ 8 }
    ensures { HexRead digits rest.now result }
{
    let mut value: u32 = 0;
    for i in 0..digits {
        if rest.len() <= i {
            return Err(i);
        }
        match E::digit_of(rest[i]) {
            Some(d) => value = value * 16 + d,
            None => return Err(i),
        }
    }
    Ok(value)
}

// How many bytes a newline has that `rest` begins with: it is dropped after an opening.
#[tactic(auto, unfolding(decoder_rules::specs::Marks::newline_len))]
pub fn strip_start_newline(rest: &[u8]) -> usize
    ensures { result ≡ newline_len rest.now }
{
    if is_at(rest, 0, b'\n') {
        return 1;
    }
    if is_at(rest, 0, b'\r') && is_at(rest, 1, b'\n') {
        return 2;
    }
    0
}

// mlb-content = mlb-char / newline / mlb-escaped-nl, or the rest of an mlb-escaped-nl
#[tactic(auto, unfolding(decoder_rules::specs::Bodies::ml_basic_piece))]
pub(crate) fn decode_ml_basic_string<E: Bytes>(v: Edition, dropping: bool, left: Left<'_>) -> Piece
    ensures { result ≡ ml_basic_piece v dropping left.entry.at left.entry.s.now }
{
    let Left { s, at } = left;
    if dropping && E::is_skipped(s, 0) {
        return mlb_escaped_more::<E>(left);
    }
    mlb_content::<E>(v, left)
}

#[tactic(auto, using(crate::proofs::FrontLaws::front_some, crate::proofs::FrontLaws::front_none, text_classes::proofs::RunLaws::run_le), unfolding(decoder_rules::specs::Bodies::mlb_content))]
fn mlb_content<E: Bytes>(v: Edition, left: Left<'_>) -> Piece
    ensures { result ≡ mlb_content v left.entry.at left.entry.s.now }
{
    let Left { s, at } = left;
    let n = E::plain_run(Encoding::MlBasicString(v), s);
    if 0 < n {
        return copy_piece(n);
    }
    if E::is_escape(s, 0) {
        if E::is_skipped(s, 1) {
            return mlb_escaped_nl::<E>(left);
        }
        return escape_seq_char::<E>(v, left);
    }
    if E::is_cr(s, 0) {
        if E::is_lf(s, 1) {
            return copy_piece(2);
        }
        return bad_copy(1, DecodeError::LoneCr, at + 1, at + 1);
    }
    let k = E::mlb_invalid(s);
    bad_copy(k, DecodeError::MlBasicInvalid, at, at + k)
}

// mlb-escaped-nl = escape ws newline *( wschar / newline ): its own line
#[tactic(auto, using(crate::proofs::FrontLaws::nl_is, text_classes::proofs::FirstLaws::stands_there, text_classes::proofs::RunLaws::run_le))]
fn mlb_escaped_nl<E: Bytes>(left: Left<'_>) -> Piece
    ensures { result ≡ escaped_nl left.entry.at (drop 1 left.entry.s.now) }
{
    let Left { s, at } = left;
    let n = E::blanks(s, 1);
    if E::is_lf(s, n) {
        return drop_piece(n + 1);
    }
    if E::is_cr(s, n) {
        if E::is_lf(s, n + 1) {
            return drop_piece(n + 2);
        }
        return bad_drop(n + 1, DecodeError::LoneCr, at + (n + 1));
    }
    bad_drop(n, DecodeError::MissingNewline, at + n)
}

// Its further lines: one blank or newline.
#[tactic(auto, unfolding(decoder_rules::specs::Bodies::escaped_more))]
fn mlb_escaped_more<E: Bytes>(left: Left<'_>) -> Piece
    ensures { result ≡ escaped_more left.entry.at left.entry.s.now }
{
    let Left { s, at } = left;
    if E::is_cr(s, 0) {
        if E::is_lf(s, 1) {
            return drop_piece(2);
        }
        return bad_drop(1, DecodeError::LoneCr, at + 1);
    }
    drop_piece(1)
}

// unquoted-key = 1*( ALPHA / DIGIT / %x2D / %x5F ) ; A-Z / a-z / 0-9 / - / _
#[tactic(auto, using(crate::proofs::FrontLaws::front_some, crate::proofs::FrontLaws::front_none), unfolding(decoder_rules::specs::Bodies::key_piece))]
pub(crate) fn decode_unquoted_key<E: Bytes>(left: Left<'_>) -> Piece
    ensures { result ≡ key_piece left.entry.at left.entry.s.now }
{
    let Left { s, at } = left;
    let n = E::plain_run(Encoding::UnquotedKey, s);
    if 0 < n {
        return copy_piece(n);
    }
    bad_copy(1, DecodeError::KeyInvalid, at, at)
}
