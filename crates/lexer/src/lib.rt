// The lexer: a document's tokens one at a time, by a cursor, or all at once, into lent records; by any engine: engines
// differ in how they read a token's bytes and in nothing else. Rules: specs/Lines.antt, Table.antt, Tokens.antt, Steps.antt, Whole.antt.
#![tactic(auto)]

mod lines;

ghost use Rattle.std.specs.Prelude.{◌≡◌, true, false, ◌+◌, ◌^◌, ◌≤◌, ◌<◌, length, drop, get_or};
ghost use Rattle.text_refusals.specs.Told.{told_number, told_value, told_length, told_count};
ghost use Rattle.lexer_token.specs.Records.{token_of};
ghost use Rattle.lexer.specs.Lines.{line_of};
ghost use Rattle.lexer.specs.Tokens.{has_bom, start_of, found_at};
ghost use Rattle.lexer.specs.Table.{kind_of, extent};
ghost use Rattle.lexer.specs.Steps.{cursor_of, start_answer};
ghost use Rattle.lexer.specs.Told.{start_refusal, start_returned, step_refusal, step_returned, lex_refusal, lex_returned, lex_fault};
ghost use Rattle.lexer.specs.Steps.{step_of};
ghost use Rattle.lexer.specs.Whole.{token_count, lex_answer, lex_memory};
ghost use Rattle.lexer.specs.Loops.{GoesOn, Before, found_of, step_over, tokens_until, line_until, store, records_over};

use lexer_token::{Record, Span, Token, TokenKind};
pub use lines::line_feeds;
use text_classes::{APOSTROPHE, COMMENT_START_SYMBOL, QUOTATION_MARK, is_at, is_triple};
use text_refusals::{LIMIT, Refusal};

// Where the next token begins, on which line, and whether Eof was given.
#[derive(Clone, Copy)]
pub struct Cursor {
    pub place: usize,
    pub line: usize,
    pub ended: bool,
}

impl Cursor {
    // The starting cursor: past a byte order mark, on line 1, not ended.
    pub fn start(doc: &[u8]) -> Result<Cursor, Refusal>
        ensures answer { result ≡ start_answer doc.now }
        ensures number { told_number result ≡ start_refusal doc.now }
        ensures value { told_value result ≡ start_returned doc.now }
    {
        if LIMIT < doc.len() {
            return Err(Refusal::TooLong);
        }
        Ok(Cursor {
            place: start_of(doc),
            line: 1,
            ended: false,
        })
    }

    // One token at the cursor, with the next cursor; none after Eof.
    pub fn step(self, doc: &[u8]) -> Result<Option<(Token, Cursor)>, Refusal>
        ensures answer { result ≡ step_of doc.now self }
        ensures number { told_number result ≡ step_refusal doc.now self }
        ensures value { told_value result ≡ step_returned doc.now self }
    {
        self.step_by::<Ranges>(doc)
    }

    // The same by any engine. It is compiled into its callers: `step` is for one that is handed a token at a time, and the calls that
    // walk a document themselves have it in their loops.
    #[inline(always)]
    pub fn step_by<E: StepEngine>(self, doc: &[u8]) -> Result<Option<(Token, Cursor)>, Refusal>
        ensures answer { result ≡ step_of doc.now self }
        ensures number { told_number result ≡ step_refusal doc.now self }
        ensures value { told_value result ≡ step_returned doc.now self }
    {
        if self.is_before_the_end(doc) {
            let found = E::step_token(doc, self.place);
            return step_of(found, self.place, self.line, self.ended);
        }
        self.step_at_the_end(doc)
    }

    // Does a token begin at the cursor? Else the call is refused, or the cursor is at the end of the document.
    fn is_before_the_end(self, doc: &[u8]) -> bool
        ensures { (result ≡ true → Before doc.now self) × (result ≡ false → Before doc.now self → ⊥) }
    {
        if LIMIT < doc.len() {
            return false;
        }
        if doc.len() <= self.place {
            return false;
        }
        if self.line <= self.place + 1 {
            return true;
        }
        false
    }

    fn step_at_the_end(self, doc: &[u8]) -> Result<Option<(Token, Cursor)>, Refusal>
        requires { Before doc.now self → ⊥ }
        ensures answer { result ≡ step_of doc.now self }
        ensures number { told_number result ≡ step_refusal doc.now self }
        ensures value { told_value result ≡ step_returned doc.now self }
    {
        if LIMIT < doc.len() {
            return Err(Refusal::TooLong);
        }
        if doc.len() < self.place {
            return Err(Refusal::OutOfPlace { length: doc.len() });
        }
        if self.place + 1 < self.line {
            return Err(Refusal::OutOfPlace { length: doc.len() });
        }
        if self.ended {
            return Ok(None);
        }
        let eof = token_of(TokenKind::Eof, self.place, self.place, self.line);
        Ok(Some((eof, cursor_of(self.place, self.line, true))))
    }
}

// The step over what stands at a place, on a line: the next cursor stands after it.
fn step_of(
    found: Found,
    place: usize,
    line: usize,
    ended: bool,
) -> Result<Option<(Token, Cursor)>, Refusal>
    requires { line + found.feeds < 2 ^ 64 }
    ensures { result ≡ step_over found place line ended }
{
    let token = token_of(found.kind, place, found.end, line);
    Ok(Some((token, cursor_of(found.end, line + found.feeds, ended))))
}

fn cursor_of(place: usize, line: usize, ended: bool) -> Cursor
    ensures { result ≡ cursor_of place line ended }
{
    Cursor { place, line, ended }
}

// Whole lexing: every token into the lent records, from the front; how many, Eof counted.
pub fn lex(doc: &[u8], records: &mut [Record]) -> Result<usize, Refusal>
    ensures answer { result ≡ lex_answer doc.now (length records.old) }
    ensures number { told_number result ≡ lex_refusal doc.now (length records.old) }
    ensures value { told_count result ≡ lex_returned doc.now }
    ensures length { told_length result ≡ lex_fault doc.now }
    ensures memory { records.new ≡ lex_memory doc.now records.old }
{
    lex_by::<Ranges>(doc, records)
}

// The same by any engine.
pub fn lex_by<E: Engine>(doc: &[u8], records: &mut [Record]) -> Result<usize, Refusal>
    ensures answer { result ≡ lex_answer doc.now (length records.old) }
    ensures number { told_number result ≡ lex_refusal doc.now (length records.old) }
    ensures value { told_count result ≡ lex_returned doc.now }
    ensures length { told_length result ≡ lex_fault doc.now }
    ensures memory { records.new ≡ lex_memory doc.now records.old }
{
    text::check_utf8(doc)?;
    // No document has more tokens than bytes and one: so many records need no counting.
    if doc.len() < records.len() {
        return Ok(fill::<E>(doc, records));
    }
    let needed = count::<E>(doc);
    if records.len() < needed {
        return Err(Refusal::FewTokens { needed });
    }
    Ok(fill::<E>(doc, records))
}

// How many tokens the document has, Eof counted: in parts of 64 bytes, whose records are let go.
fn count<E: Engine>(doc: &[u8]) -> usize
    ensures { result ≡ token_count doc.now }
{
    let mut spare = [[0usize; 4]; 64];
    let mut at = start_of(doc);
    let mut line: usize = 1;
    let mut passed: usize = 0;
    // no iterator: a part ends where its last token does
    while at < doc.len() {
        let stop = doc.len().min(at + 64);
        let part = lex_until::<E>(doc, at, line, stop, &mut spare);
        passed += part.count;
        line = part.line;
        at = part.place;
    }
    passed + 1
}

// The tokens into records that are enough: how many.
fn fill<E: Engine>(doc: &[u8], records: &mut [Record]) -> usize
    requires { token_count doc.now ≤ length records.old }
    ensures count { result ≡ token_count doc.now }
    ensures memory { records.new ≡ records_over doc.now records.old }
{
    let all = lex_until::<E>(doc, start_of(doc), 1, doc.len(), records);
    let n = all.count;
    records[n] = token_of(TokenKind::Eof, doc.len(), doc.len(), all.line).as_record();
    n + 1
}

// What stands at a place of a document: the kind of the token there, where it ends, and how many LFs it holds.
#[derive(Clone, Copy)]
pub struct Found {
    pub kind: TokenKind,
    pub end: usize,
    pub feeds: usize,
}

// How a token's bytes are read in the loop over a document, into which it is compiled: what stands at a place of the document. Beyond
// its last byte that is the end, as the rule has it, so an engine answers for every place; where the loop knows that a byte is there,
// the compiler leaves the question out.
pub trait Engine {
    fn token(doc: &[u8], at: usize) -> Found
        ensures { result ≡ found_at at (drop at doc.now) };
}

// And in one step, the same. A trait of its own: that of `Ranges` goes over some tokens by the loop, which stands on `Engine`.
pub trait StepEngine: Engine {
    fn step_token(doc: &[u8], at: usize) -> Found
        ensures { result ≡ found_at at (drop at doc.now) }
    {
        Self::token(doc, at)
    }
}

// The engine that tests ranges of bytes.
#[derive(Clone, Copy)]
pub struct Ranges;

impl Engine for Ranges {
    #[inline(always)]
    fn token(doc: &[u8], at: usize) -> Found {
        if doc.len() <= at {
            return past_the_end(doc, at);
        }
        let b = doc[at];
        match b {
            b'.' => lex_ascii_char(doc, at, TokenKind::Dot),
            b'=' => lex_ascii_char(doc, at, TokenKind::Equals),
            b',' => lex_ascii_char(doc, at, TokenKind::Comma),
            b'[' => lex_ascii_char(doc, at, TokenKind::LeftSquareBracket),
            b']' => lex_ascii_char(doc, at, TokenKind::RightSquareBracket),
            b'{' => lex_ascii_char(doc, at, TokenKind::LeftCurlyBracket),
            b'}' => lex_ascii_char(doc, at, TokenKind::RightCurlyBracket),
            b' ' => lex_whitespace(doc, at),
            b'\t' => lex_whitespace(doc, at),
            COMMENT_START_SYMBOL => lex_comment(doc, at),
            b'\r' => lex_crlf(doc, at),
            b'\n' => lex_lf(doc, at),
            APOSTROPHE => {
                if is_triple(doc, at, APOSTROPHE) {
                    lex_ml_literal_string(doc, at)
                } else {
                    lex_literal_string(doc, at)
                }
            }
            QUOTATION_MARK => {
                if is_triple(doc, at, QUOTATION_MARK) {
                    lex_ml_basic_string(doc, at)
                } else {
                    lex_basic_string(doc, at)
                }
            }
            _ => lex_atom(doc, at),
        }
    }
}

impl StepEngine for Ranges {
    // What is soon read is read here: the loop of `lex_until` sets up more before its first token than such a token costs.
    #[inline(always)]
    fn step_token(doc: &[u8], at: usize) -> Found {
        if doc.len() <= at {
            return past_the_end(doc, at);
        }
        let b = doc[at];
        match b {
            b'.' => lex_ascii_char(doc, at, TokenKind::Dot),
            b'=' => lex_ascii_char(doc, at, TokenKind::Equals),
            b',' => lex_ascii_char(doc, at, TokenKind::Comma),
            b'[' => lex_ascii_char(doc, at, TokenKind::LeftSquareBracket),
            b']' => lex_ascii_char(doc, at, TokenKind::RightSquareBracket),
            b'{' => lex_ascii_char(doc, at, TokenKind::LeftCurlyBracket),
            b'}' => lex_ascii_char(doc, at, TokenKind::RightCurlyBracket),
            b' ' => lex_whitespace(doc, at),
            b'\t' => lex_whitespace(doc, at),
            COMMENT_START_SYMBOL => by_loop(doc, at, TokenKind::Comment),
            b'\r' => by_loop(doc, at, TokenKind::Newline),
            b'\n' => lex_lf(doc, at),
            APOSTROPHE => {
                if is_triple(doc, at, APOSTROPHE) {
                    by_loop(doc, at, TokenKind::MlLiteralString)
                } else {
                    by_loop(doc, at, TokenKind::LiteralString)
                }
            }
            QUOTATION_MARK => {
                if is_triple(doc, at, QUOTATION_MARK) {
                    by_loop(doc, at, TokenKind::MlBasicString)
                } else {
                    by_loop(doc, at, TokenKind::BasicString)
                }
            }
            _ => lex_atom(doc, at),
        }
    }
}

// A token of a kind, whose end and LFs are found by the loop.
fn by_loop(doc: &[u8], at: usize, kind: TokenKind) -> Found
    requires { (at < length doc.now) × (kind_of (drop at doc.now) ≡ kind) }
    ensures { result ≡ found_at at (drop at doc.now) }
{
    let mut one = [[0usize; 4]; 1];
    let passed = lex_until::<Ranges>(doc, at, 0, at + 1, &mut one);
    found_of(kind, passed.place, passed.line)
}

// How many tokens were passed, and the place and the line after them.
#[derive(Clone, Copy)]
struct TokensPassed {
    count: usize,
    place: usize,
    line: usize,
}

// The tokens that begin at `start` or after it, and before `stop`: how many, each written into its
// record.
fn lex_until<E: Engine>(
    doc: &[u8],
    start: usize,
    first: usize,
    stop: usize,
    records: &mut [Record],
) -> TokensPassed
    requires { (start ≤ length doc.now) × (stop ≤ length doc.now) × (first ≤ start + 1) × (length (tokens_until stop start first doc.now) ≤ length records.old) }
    ensures count { result.count ≡ length (tokens_until stop start first doc.now) }
    ensures line { result.line ≡ line_until stop start first doc.now }
    ensures place { GoesOn doc.now stop start first result }
    ensures memory { records.new ≡ store stop start first doc.now 0 records.old }
{
    let mut at = start;
    let mut line = first;
    let mut n: usize = 0;
    // `stop` lies within the document. It is said here so that the compiler sees it, and leaves out what an engine asks first.
    let last = stop.min(doc.len());
    // no iterator: a turn goes over a token, as far as it reaches
    while at < last {
        let found = E::token(doc, at);
        records[n] = token_of(found.kind, at, found.end, line).as_record();
        n += 1;
        line += found.feeds;
        at = found.end;
    }
    TokensPassed {
        count: n,
        place: at,
        line,
    }
}

// Where lexing starts: after a byte order mark.
pub fn start_of(doc: &[u8]) -> usize
    ensures { result ≡ start_of doc.now }
{
    if has_bom(doc) { Span::BOM } else { 0 }
}

// The line of an offset, counted from 1; beyond the end it is the line of the end.
pub fn line_of(doc: &[u8], offset: usize) -> usize
    ensures { result ≡ line_of doc.now offset }
{
    1 + line_feeds(&doc[..offset.min(doc.len())])
}

// BOM
fn has_bom(doc: &[u8]) -> bool
    ensures { result ≡ has_bom doc.now }
{
    doc.starts_with(b"\xEF\xBB\xBF")
}

fn token_of(kind: TokenKind, start: usize, end: usize, line: usize) -> Token
    ensures { result ≡ token_of kind start end line }
{
    Token::new(kind, Span::new(start, end), line)
}

fn found_of(kind: TokenKind, end: usize, feeds: usize) -> Found
    ensures { result ≡ found_of kind end feeds }
{
    Found { kind, end, feeds }
}

// Beyond the last byte stands the end, of no bytes.
fn past_the_end(doc: &[u8], at: usize) -> Found
    requires { length doc.now ≤ at }
    ensures { result ≡ found_at at (drop at doc.now) }
{
    found_of(TokenKind::Eof, at, 0)
}

// Of a token that may hold LFs: they are counted.
fn over_lines(doc: &[u8], at: usize, kind: TokenKind, end: usize) -> Found
    requires { (at < length doc.now) × (kind_of (drop at doc.now) ≡ kind) × (end ≡ at + extent kind (drop at doc.now)) }
    ensures { result ≡ found_at at (drop at doc.now) }
{
    found_of(kind, end, line_feeds(&doc[at..end]))
}

// A token of one byte.
fn lex_ascii_char(doc: &[u8], at: usize, kind: TokenKind) -> Found
    requires { at < length doc.now }
    ensures { result ≡ found_of kind (at + 1) 0 }
{
    found_of(kind, at + 1, 0)
}

// ws = *wschar
fn lex_whitespace(doc: &[u8], at: usize) -> Found
    requires { at < length doc.now }
    ensures { result ≡ found_of TokenKind.Whitespace (at + extent TokenKind.Whitespace (drop at doc.now)) 0 }
{
    found_of(
        TokenKind::Whitespace,
        lexer_scans::wschar_run(doc, at + 1),
        0,
    )
}

// comment = comment-start-symbol *non-eol, up to a CR or an LF, whatever stands before it
fn lex_comment(doc: &[u8], at: usize) -> Found
    requires { at < length doc.now }
    ensures { result ≡ found_of TokenKind.Comment (at + extent TokenKind.Comment (drop at doc.now)) 0 }
{
    found_of(TokenKind::Comment, lexer_scans::comment_run(doc, at + 1), 0)
}

// newline = %x0A
fn lex_lf(doc: &[u8], at: usize) -> Found
    requires { (at < length doc.now) × (get_or doc.now at 0 ≡ 10) }
    ensures { result ≡ found_at at (drop at doc.now) }
{
    found_of(TokenKind::Newline, at + 1, 1)
}

// newline =/ %x0D.0A ; and a CR alone, which ends no line
fn lex_crlf(doc: &[u8], at: usize) -> Found
    requires { (at < length doc.now) × (get_or doc.now at 0 ≡ 13) }
    ensures { result ≡ found_at at (drop at doc.now) }
{
    if is_at(doc, at + 1, b'\n') {
        return found_of(TokenKind::Newline, at + 2, 1);
    }
    found_of(TokenKind::Newline, at + 1, 0)
}

// literal-string = apostrophe *literal-char apostrophe
fn lex_literal_string(doc: &[u8], at: usize) -> Found
    requires { at < length doc.now }
    ensures { result ≡ found_of TokenKind.LiteralString (at + extent TokenKind.LiteralString (drop at doc.now)) 0 }
{
    found_of(
        TokenKind::LiteralString,
        lexer_scans::literal_tail(doc, at + Span::MARK),
        0,
    )
}

// ml-literal-string = ml-literal-string-delim [ newline ] ml-literal-body ml-literal-string-delim
fn lex_ml_literal_string(doc: &[u8], at: usize) -> Found
    requires { (at + 3 ≤ length doc.now) × (kind_of (drop at doc.now) ≡ TokenKind.MlLiteralString) }
    ensures { result ≡ found_at at (drop at doc.now) }
{
    let end = lexer_scans::ml_literal_tail(doc, at + Span::ML_MARK);
    over_lines(doc, at, TokenKind::MlLiteralString, end)
}

// basic-string = quotation-mark *basic-char quotation-mark
fn lex_basic_string(doc: &[u8], at: usize) -> Found
    requires { at < length doc.now }
    ensures { result ≡ found_of TokenKind.BasicString (at + extent TokenKind.BasicString (drop at doc.now)) 0 }
{
    found_of(
        TokenKind::BasicString,
        lexer_scans::basic_tail(doc, at + Span::MARK),
        0,
    )
}

// ml-basic-string = ml-basic-string-delim [ newline ] ml-basic-body ml-basic-string-delim
fn lex_ml_basic_string(doc: &[u8], at: usize) -> Found
    requires { (at + 3 ≤ length doc.now) × (kind_of (drop at doc.now) ≡ TokenKind.MlBasicString) }
    ensures { result ≡ found_at at (drop at doc.now) }
{
    let end = lexer_scans::ml_basic_tail(doc, at + Span::ML_MARK);
    over_lines(doc, at, TokenKind::MlBasicString, end)
}

// Everything else, up to a byte that begins another token.
fn lex_atom(doc: &[u8], at: usize) -> Found
    requires { at < length doc.now }
    ensures { result ≡ found_of TokenKind.Atom (at + extent TokenKind.Atom (drop at doc.now)) 0 }
{
    found_of(TokenKind::Atom, lexer_scans::atom_run(doc, at + 1), 0)
}
