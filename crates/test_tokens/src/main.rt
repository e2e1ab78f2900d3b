// Runs the worked examples of tokens, spans and places, and each refusal but 2 (whose documents no
// program's stack can hold), through the calls; the file `stdout` says what must come out.
#![tactic(auto)]

use lexer::Cursor;
use lexer_place::Position;
use lexer_token::{Span, Token, TokenKind};
use program_io::{Console, print_decimal};
use std::io;
use text_refusals::Refusal;

fn say(console: &impl Console, words: &[u8]) -> io::Result<()> {
    console.write_bytes(words)
}

fn number(console: &impl Console, n: usize, last: &[u8]) -> io::Result<()> {
    print_decimal(console, n as u64)?;
    console.write_bytes(last)
}

fn refused(console: &impl Console, r: Refusal) -> io::Result<()> {
    say(console, b"refused ")?;
    number(console, r.number(), b" ")?;
    if r.number() == 1 {
        number(console, r.value(), b" ")?;
        return number(console, r.length(), b"\n");
    }
    number(console, r.value(), b"\n")
}

fn row(console: &impl Console, record: [usize; 4]) -> io::Result<()> {
    let [kind, start, end, line] = record;
    number(console, kind, b" ")?;
    number(console, start, b" ")?;
    number(console, end, b" ")?;
    number(console, line, b"\n")
}

fn rows(console: &impl Console, records: &[[usize; 4]], count: usize) -> io::Result<()> {
    for record in records.iter().take(count) {
        row(console, *record)?;
    }
    Ok(())
}

// Whole lexing, with more records than tokens: the records after the last written one still hold 9 9 9 9.
fn tokens(console: &impl Console, doc: &[u8]) -> io::Result<()> {
    let mut records = [[9usize; 4]; 8];
    match lexer::lex(doc, &mut records) {
        Ok(count) => {
            rows(console, &records, 8)?;
            number(console, count, b" tokens\n")
        }
        Err(r) => {
            refused(console, r)?;
            rows(console, &records, 1)
        }
    }
}

// Whole lexing with two records.
fn tokens_in_two(console: &impl Console, doc: &[u8]) -> io::Result<()> {
    let mut records = [[9usize; 4]; 2];
    match lexer::lex(doc, &mut records) {
        Ok(count) => number(console, count, b" tokens\n")?,
        Err(r) => refused(console, r)?,
    }
    rows(console, &records, 2)
}

fn token(console: &impl Console, t: Token, c: Cursor) -> io::Result<()> {
    row(console, t.as_record())?;
    number(console, c.place, b" ")?;
    number(console, c.line, b" next\n")
}

fn step(
    console: &impl Console,
    doc: &[u8],
    place: usize,
    line: usize,
    ended: bool,
) -> io::Result<()> {
    let c = Cursor { place, line, ended };
    match c.step(doc) {
        Ok(Some((t, next))) => token(console, t, next),
        Ok(None) => say(console, b"end\n"),
        Err(r) => refused(console, r),
    }
}

fn start(console: &impl Console, doc: &[u8]) -> io::Result<()> {
    match Cursor::start(doc) {
        Ok(c) => {
            number(console, c.place, b" ")?;
            number(console, c.line, b" start\n")
        }
        Err(r) => refused(console, r),
    }
}

fn span(console: &impl Console, doc: &[u8], start: usize, end: usize) -> io::Result<()> {
    let s = Span::new(start, end);
    match lexer_place::check_span(doc, s) {
        Ok(()) => say(console, b"whole\n")?,
        Err(r) => refused(console, r)?,
    }
    let text = lexer_place::text_of(doc, s);
    say(console, text)?;
    say(console, b"|\n")
}

fn position(console: &impl Console, doc: &[u8], offset: usize) -> io::Result<()> {
    match lexer_place::position_of(doc, offset) {
        Ok(Position { line, column }) => {
            number(console, line, b" ")?;
            number(console, column, b"\n")
        }
        Err(r) => refused(console, r),
    }
}

fn answered<T: Copy>(console: &impl Console, answer: Result<T, Refusal>) -> io::Result<()> {
    match answer {
        Ok(_) => say(console, b"given\n"),
        Err(r) => refused(console, r),
    }
}

// The description, in 25 bytes with zeros behind it, and the encoding.
fn kind(console: &impl Console, n: usize) -> io::Result<()> {
    let description = TokenKind::description(n);
    answered(console, description)?;
    let text = description.unwrap_or(b"");
    let len = text.len();
    let mut bytes = [0u8; 25];
    bytes[..len].copy_from_slice(text);
    number(console, len, b" ")?;
    say(console, &bytes)?;
    say(console, b"\n")?;
    let encoding = TokenKind::encoding(n);
    answered(console, encoding)?;
    number(console, encoding.unwrap_or(0), b"\n")
}

fn main(rt: HostRuntime) -> io::Result<()> {
    lexed_whole(&rt)?;
    lexed_by_steps(&rt)?;
    placed(&rt)?;
    kind(&rt, 1)?;
    kind(&rt, 3)?;
    kind(&rt, 5)
}

fn lexed_whole(console: &impl Console) -> io::Result<()> {
    tokens(console, b"")?;
    tokens(console, b"\xEF\xBB\xBF")?;
    tokens(console, b"'''a'''''")?;
    tokens(console, b"'''a''''''")?;
    tokens(console, b"'a\r\n")?;
    tokens(console, b"#x\ry")?;
    tokens(console, b"a\"b c")?;
    tokens(console, b"'''\n\r\n\r'''\n")?;
    tokens(console, b"\"\"\"\n")?;
    tokens(console, b"a\xFF")?;
    tokens_in_two(console, b"a=")?;
    tokens_in_two(console, b"a")
}

fn lexed_by_steps(console: &impl Console) -> io::Result<()> {
    start(console, b"\xEF\xBB\xBFa")?;
    start(console, b"a")?;
    step(console, b"\xEF\xBB\xBFa", 0, 1, false)?;
    step(console, b"a=", 1, 1, true)?;
    step(console, b"a", 1, 1, false)?;
    step(console, b"a", 1, 1, true)?;
    step(console, b"a", 2, 1, false)?;
    step(console, b"a\n", 1, 0, false)?;
    step(console, b"a\r", 1, 2, false)?;
    step(console, b"a\r\n", 1, 1, false)?;
    step(console, b"a\n", 1, 3, false)
}

fn placed(console: &impl Console) -> io::Result<()> {
    span(console, b"\xC3\xA9=1", 0, 2)?;
    span(console, b"\xC3\xA9=1", 2, 4)?;
    span(console, b"\xC3\xA9=1", 1, 2)?;
    span(console, b"\xC3\xA9=1", 0, 1)?;
    span(console, b"\xC3\xA9=1", 3, 2)?;
    span(console, b"\xC3\xA9=1", 0, 5)?;
    position(console, b"\xC3\xA9=1", 1)?;
    position(console, b"\xC3\xA9=1", 2)?;
    position(console, b"\xEF\xBB\xBFa", 0)?;
    position(console, b"\xEF\xBB\xBFa", 2)?;
    position(console, b"\xEF\xBB\xBFa", 3)?;
    position(console, b"\xEF\xBB\xBFa", 4)?;
    position(console, b"\n\xEF\xBB\xBFa", 4)?;
    position(console, b"\xFF\x80\x80a", 3)?;
    position(console, b"a\nb", 3)?;
    position(console, b"a\nb", 4)
}
