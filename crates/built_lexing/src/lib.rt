// The tokens of a part of a document, from a state on that the caller keeps, and those of its end. The state has places and
// lines; nothing of the parts is kept in it, and nothing is asked here about characters.
// Rules: specs/States.antt, Filling.antt.
#![tactic(auto)]

mod ahead;
mod states;
mod whole;

ghost use Rattle.std.specs.Prelude.{◌≡◌, map, ◌+◌, ◌≤◌, ◌<◌, length, ltb};
ghost use Rattle.std.proofs.lemmas.List.Edits.{sets};
ghost use Rattle.lexer_token.specs.Records.{record_of};
ghost use Rattle.built_lexing.specs.States.{unread, tokens_in, given_by, state_after};
ghost use Rattle.built_lexing.specs.Filling.{refusal_of, astray, lexed_part, part_memory, lexed_end, end_memory};
ghost use Rattle.built_lexing.specs.Needs.{RoomFor};

use built_bytes::Mode;
use lexer_token::{Record, Span, Token, TokenKind};
pub use states::{Lexing, Moved};
use text_refusals::{LIMIT, Refusal};

// What a part comes to whose tokens are in the records: how many, and the state after it.
#[derive(Clone, Copy, Debug, PartialEq, Eq)]
pub struct PartLexed {
    pub count: usize,
    pub next: Lexing,
}

// Why a part is not taken: there are fewer records than tokens; or its bytes pass the limit, or no bytes lead to the state.
#[derive(Clone, Copy, Debug, PartialEq, Eq)]
pub enum NotLexed {
    Few { needed: usize },
    Over,
}

impl From<NotLexed> for Refusal {
    ghost from_gives = { λ e r. r ≡ refusal_of e };

    fn from(e: NotLexed) -> Self {
        match e {
            NotLexed::Few { needed } => Refusal::FewTokens { needed },
            NotLexed::Over => Refusal::AfterEnd,
        }
    }
}

// Before the first part.
pub fn lex_start() -> Lexing
    ensures { result ≡ unread }
{
    Lexing {
        mode: Mode::Start,
        start: 0,
        first: 1,
        at: 0,
        line: 1,
    }
}

// A part: its tokens into the lent records, from the front.
pub fn lex_part(lexing: Lexing, part: &[u8], records: &mut [Record]) -> Result<PartLexed, NotLexed>
    ensures answer { result ≡ lexed_part lexing part.now (length records.old) }
    ensures memory { records.new ≡ part_memory lexing part.now records.old }
{
    if is_astray(lexing) {
        return Err(NotLexed::Over);
    }
    if passes_limit(lexing.at, part.len()) {
        return Err(NotLexed::Over);
    }
    room_for(lexing, part, records.len())?;
    Ok(fill(lexing, part, records))
}

// The end: the token in progress and `Eof` into the lent records.
pub fn lex_end(lexing: Lexing, records: &mut [Record]) -> Result<PartLexed, NotLexed>
    ensures answer { result ≡ lexed_end lexing (length records.old) }
    ensures memory { records.new ≡ end_memory lexing records.old }
{
    let token = lexing.pending();
    let needed = if token.is_some() { 2 } else { 1 };
    if records.len() < needed {
        return Err(NotLexed::Few { needed });
    }
    let n = put(records, 0, token);
    let eof = Token::new(TokenKind::Eof, Span::new(lexing.at, lexing.at), lexing.line);
    let count = put(records, n, Some(eof));
    Ok(PartLexed {
        count,
        next: lexing,
    })
}

// Whether a state's line passes its place plus 1, to which no bytes lead.
pub fn is_astray(lexing: Lexing) -> bool
    ensures { result ≡ astray lexing }
{
    lexing.line != 0 && lexing.at < lexing.line - 1
}

// Whether n bytes more pass the limit.
pub fn passes_limit(at: usize, n: usize) -> bool
    ensures { result ≡ ltb 16777216 (at + n) }
{
    LIMIT < n || LIMIT - n < at
}

// Whether `room` records suffice for a part. One record more than it has bytes always suffices, and then nothing is counted; else
// its tokens are counted, and let go.
fn room_for(lexing: Lexing, part: &[u8], room: usize) -> Result<(), NotLexed>
    requires { (lexing.at + length part.now ≤ 16777216) × (lexing.line ≤ lexing.at + 1) }
    ensures { RoomFor (length (given_by lexing part.now)) room result }
{
    if part.len() < room {
        return Ok(());
    }
    let needed = fill(lexing, part, &mut [[0usize; 4]; 1]).count;
    if room < needed {
        return Err(NotLexed::Few { needed });
    }
    Ok(())
}

// The tokens of a part into the records, as far as these suffice, and how many there are. At each turn the token in progress
// is taken whole, or gone over as far as a look ahead can tell its mode; then the tokens that are whole within the part are taken;
// then one byte is read. So only a few bytes at the ends of a part are read one by one.
fn fill(lexing: Lexing, part: &[u8], records: &mut [Record]) -> PartLexed
    requires { (lexing.at + length part.now ≤ 16777216) × (lexing.line ≤ lexing.at + 1) }
    ensures count { result.count ≡ length (given_by lexing part.now) }
    ensures next { result.next ≡ state_after lexing part.now }
    ensures memory { records.new ≡ sets records.old 0 (map record_of (given_by lexing part.now)) }
{
    let mut l = lexing;
    let mut n = 0;
    let mut i = 0;
    // no iterator: a turn goes over whole tokens, and then over one byte
    'turns: loop {
        let leapt = ahead::leap(l, part, i);
        n = put(records, n, leapt.given);
        let passed = whole::take_tokens(leapt.next, part, leapt.place, n, records);
        if part.len() <= passed.place {
            return PartLexed {
                count: passed.count,
                next: passed.next,
            };
        }
        let moved = passed.next.step(part[passed.place]);
        n = put(records, passed.count, moved.before);
        n = put(records, n, moved.through);
        l = moved.next;
        i = passed.place + 1;
    }
}

// A token into its record, if there are a token and a record: how many tokens there are then.
// Records and count stay apart: one struct of both would hold a `&mut`, and be no plainer in the promises of those that it is lent to.
fn put(records: &mut [Record], n: usize, given: Option<Token>) -> usize
    requires { n ≤ 16777218 }
    ensures count { result ≡ n + length (tokens_in given) }
    ensures memory { records.new ≡ sets records.old n (map record_of (tokens_in given)) }
{
    let Some(token) = given else { return n };
    if n < records.len() {
        records[n] = token.as_record();
    }
    n + 1
}
