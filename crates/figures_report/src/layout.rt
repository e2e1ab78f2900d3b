// The report's lines: a number, to the right of a column, and what it counts.
ghost use Rattle.std.specs.Prelude.{◌<◌, IfErr};

use built_figures::{BEFORE_ERRORS, NOT_UTF8, TOO_LONG, Totals};
use decoder_rules::Edition;
use lexer_token::TokenKind;
use program_io::{Console, decimal, print_decimal};
use std::io;

// The kinds in the order of the totals.
const KINDS: [TokenKind; 16] = [
    TokenKind::Dot,
    TokenKind::Equals,
    TokenKind::Comma,
    TokenKind::LeftSquareBracket,
    TokenKind::RightSquareBracket,
    TokenKind::LeftCurlyBracket,
    TokenKind::RightCurlyBracket,
    TokenKind::Whitespace,
    TokenKind::Comment,
    TokenKind::Newline,
    TokenKind::LiteralString,
    TokenKind::BasicString,
    TokenKind::MlLiteralString,
    TokenKind::MlBasicString,
    TokenKind::Atom,
    TokenKind::Eof,
];

pub(crate) fn print_totals<C: Console>(console: &C, totals: &Totals) -> io::Result<()>
    ensures error { IfErr result C.fails }
{
    console.write_bytes(b"\nin all\n")?;
    print_figures(console, &[0; 33], totals, true)?;
    print_line(
        console,
        totals[NOT_UTF8],
        b"files refused with 1, not UTF-8",
    )?;
    print_line(
        console,
        totals[TOO_LONG],
        b"files refused with 2, more than 65,536 bytes",
    )
}

// By how many tokens of each kind and errors of each number the totals have grown; those that have not only where `all` says so.
pub(crate) fn print_figures<C: Console>(
    console: &C,
    before: &Totals,
    after: &Totals,
    all: bool,
) -> io::Result<()>
    ensures error { IfErr result C.fails }
{
    for (i, kind) in KINDS.iter().enumerate() {
        print_kind(console, *kind, growth(before, after, i), all)?;
    }
    for number in 1..16 {
        print_error(
            console,
            number,
            growth(before, after, BEFORE_ERRORS + number),
            all,
        )?;
    }
    Ok(())
}

fn print_kind<C: Console>(console: &C, kind: TokenKind, n: u64, all: bool) -> io::Result<()>
    ensures error { IfErr result C.fails }
{
    if n == 0 && !all {
        return Ok(());
    }
    print_number(console, n)?;
    if let Ok(words) = TokenKind::description(kind.number()) {
        console.write_bytes(words)?;
    }
    console.write_bytes(b"\n")
}

fn print_error<C: Console>(console: &C, number: usize, n: u64, all: bool) -> io::Result<()>
    ensures error { IfErr result C.fails }
{
    if n == 0 && !all {
        return Ok(());
    }
    print_number(console, n)?;
    console.write_bytes(b"error ")?;
    print_decimal(console, number as u64)?;
    console.write_bytes(b", ")?;
    console.write_bytes(message_of(number))?;
    console.write_bytes(b"\n")
}

// The message of an error that has a number; nothing for a number of none.
fn message_of(number: usize) -> &'static [u8] {
    let Ok(words) = decoder_words::error_words(number, Edition::TOML_10, 0) else {
        return b"";
    };
    match words.phrase {
        Some(phrase) => phrase.text,
        None => b"",
    }
}

fn growth(before: &Totals, after: &Totals, i: usize) -> u64
    requires { i < 33 }
{
    after[i].wrapping_sub(before[i])
}

fn print_line<C: Console>(console: &C, n: u64, words: &[u8]) -> io::Result<()>
    ensures error { IfErr result C.fails }
{
    print_number(console, n)?;
    console.write_bytes(words)?;
    console.write_bytes(b"\n")
}

// A number with its last digit in the column, where it has no more digits than that, and two spaces after it.
fn print_number<C: Console>(console: &C, n: u64) -> io::Result<()>
    ensures error { IfErr result C.fails }
{
    let mut digits = [0u8; 20];
    let k = decimal(n, &mut digits);
    if k < 9 {
        let spaces = b"         ";
        console.write_bytes(&spaces[k..])?;
    }
    console.write_bytes(&digits[..k])?;
    console.write_bytes(b"  ")
}

// What became of a file that is refused, after its name.
pub(crate) fn print_refused<C: Console>(console: &C, number: usize, value: usize) -> io::Result<()>
    ensures error { IfErr result C.fails }
{
    console.write_bytes(b": refused ")?;
    print_decimal(console, number as u64)?;
    console.write_bytes(why(number))?;
    print_decimal(console, value as u64)?;
    console.write_bytes(b"\n")
}

// What the refusal's value says, which is written after it.
fn why(number: usize) -> &'static [u8] {
    match number {
        1 => b", not UTF-8 from byte ",
        2 => b", more bytes than ",
        _ => b", a total would pass ",
    }
}
