// Whole lexing into lent token structs: the same answers, the same refusals and the same
// tokens as `lexer::lex`, which writes records of four numbers.
// Rule: specs/TokenMemory.antt.
#![tactic(auto)]

ghost use Rattle.std.specs.Prelude.{◌≡◌, length};
ghost use Rattle.lexer.specs.Tokens.{eof_at};
ghost use Rattle.lexer.specs.Steps.{start_answer, start_cursor};
ghost use Rattle.lexer.specs.Whole.{lex_answer};
ghost use Rattle.lexer_structs.specs.TokenMemory.{token_memory};
ghost use Rattle.lexer_structs.specs.Eight.{eight_of};
ghost use Rattle.lexer_structs.specs.Turns.{room_for, next_of};

use lexer::Cursor;
use lexer_token::{Span, Token, TokenKind};
use text_refusals::Refusal;

// A token, and where the next one begins.
#[derive(Clone, Copy)]
struct Turn {
    token: Token,
    cursor: Cursor,
}

// Whole lexing, by value: what it answers, and eight records, of which those that it did not write
// are an Eof at place 0 of line 0.
#[derive(Clone, Copy)]
pub struct LexedEight {
    pub answer: Result<usize, Refusal>,
    pub tokens: [Token; 8],
}

// Whole lexing: every token into the lent records, from the front. Whatever is
// decided is decided in the functions below.
pub fn lex_tokens(doc: &[u8], records: &mut [Token]) -> Result<usize, Refusal>
    ensures answer { result ≡ lex_answer doc.now (length records.old) }
    ensures memory { records.new ≡ token_memory doc.now records.old }
{
    let answer = plan(doc, records.len());
    let written = answer.unwrap_or(0);
    let mut cursor = first(doc);
    for i in 0..written {
        let turn = advance(doc, cursor);
        records[i] = turn.token;
        cursor = turn.cursor;
    }
    answer
}

// Whole lexing into eight records of its own, by value.
pub fn lex_eight(doc: &[u8]) -> LexedEight
    ensures { result ≡ eight_of doc.now }
{
    let mut tokens = [blank(); 8];
    let answer = lex_tokens(doc, &mut tokens);
    LexedEight { answer, tokens }
}

// What is answered where `room` records are lent.
fn plan(doc: &[u8], room: usize) -> Result<usize, Refusal>
    ensures { result ≡ lex_answer doc.now room }
{
    let mut spare = [[0usize; 4]; 1];
    match lexer::lex(doc, &mut spare) {
        Ok(needed) => within(needed, room),
        Err(refusal) => match refusal {
            Refusal::FewTokens { needed } => within(needed, room),
            _ => Err(refusal),
        },
    }
}

// The answer where `needed` tokens are needed and `room` records are lent.
fn within(needed: usize, room: usize) -> Result<usize, Refusal>
    ensures { result ≡ room_for needed room }
{
    if room < needed {
        return Err(Refusal::FewTokens { needed });
    }
    Ok(needed)
}

// The starting cursor; all zero where it is refused.
fn first(doc: &[u8]) -> Cursor
    ensures { result ≡ start_cursor (start_answer doc.now) }
{
    Cursor::start(doc).unwrap_or(Cursor {
        place: 0,
        line: 0,
        ended: false,
    })
}

// One step; where it gives no token, an Eof at place 0 of line 0 and the same cursor.
fn advance(doc: &[u8], c: Cursor) -> Turn
    ensures { result ≡ next_of doc.now c }
{
    match c.step(doc) {
        Ok(Some((token, cursor))) => Turn { token, cursor },
        Ok(None) => Turn {
            token: blank(),
            cursor: c,
        },
        Err(_) => Turn {
            token: blank(),
            cursor: c,
        },
    }
}

// The token of a record that was not written.
fn blank() -> Token
    ensures { result ≡ eof_at 0 0 }
{
    Token::new(TokenKind::Eof, Span::new(0, 0), 0)
}
