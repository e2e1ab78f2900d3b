// Ahead of the next byte of a part: where the token in progress, or the one that begins at a place, ends within the part, as
// whole lexing scans it; and what is in progress at the part's end of one that goes on. Nothing here counts the places and
// lines of the document: crate `built_lexing` does. What this promises: specs/Ahead.antt.
#![tactic(auto)]

ghost use Rattle.std.specs.Prelude.{◌≡◌, ◌==◌, false, ◌+◌, ◌-◌, ◌≤◌, ◌<◌, length, drop};
ghost use Rattle.std.specs.List.{suffix_len};
ghost use Rattle.lexer_scans.specs.Extents.{line_tail, ml_tail};
ghost use Rattle.lexer_token.specs.declared.TokenKind.TheVariants.{Newline};
ghost use Rattle.built_bytes.specs.Turns.{mark_of};
ghost use Rattle.built_bytes.specs.declared.Mode.TheVariants.{Blanks, Remark, Word, Return, One, Ml};
ghost use Rattle.built_ahead.specs.declared.Ahead.TheVariants.{Whole, Open};
ghost use Rattle.built_ahead.specs.Ahead.{feeds_to, hidden_by, run_to, Looked, LineLooked, TokenAt, MarksEnd};

use built_bytes::{Mode, Quote};
use lexer_token::TokenKind;
use text_classes::{APOSTROPHE, COMMENT_START_SYMBOL, ESCAPE, QUOTATION_MARK, is_at};

// What stands ahead: the token ends at the place `end`, and no further part could change it; or it goes on, or may go on, and is in
// the mode `mode` at the place `end`. With the LFs on the way.
// No Result: neither is a failure of the other, and each has its three fields.
#[derive(Clone, Copy, Debug, PartialEq, Eq)]
pub enum Ahead {
    Whole {
        kind: TokenKind,
        end: usize,
        feeds: usize,
    },
    Open {
        mode: Mode,
        end: usize,
        feeds: usize,
    },
}

impl Ahead {
    // A token that ends, without an LF on the way.
    fn whole(kind: TokenKind, end: usize) -> Ahead
        ensures { result ≡ Whole kind end 0 }
    {
        Ahead::Whole {
            kind,
            end,
            feeds: 0,
        }
    }

    // A newline that ends with its LF.
    fn newline(end: usize) -> Ahead
        ensures { result ≡ Whole Newline end 1 }
    {
        Ahead::Whole {
            kind: TokenKind::Newline,
            end,
            feeds: 1,
        }
    }

    // A token that goes on, without an LF on the way; where `end` is the place of the look ahead itself, the next byte has to tell.
    fn open(mode: Mode, end: usize) -> Ahead
        ensures { result ≡ Open mode end 0 }
    {
        Ahead::Open {
            mode,
            end,
            feeds: 0,
        }
    }

    // A run that ends at a place, or goes on to the end of the part.
    fn run(kind: TokenKind, mode: Mode, end: usize, len: usize) -> Ahead
        ensures { result ≡ run_to kind mode end len }
    {
        if end < len {
            return Ahead::whole(kind, end);
        }
        Ahead::open(mode, len)
    }
}

// What stands ahead of place i of what is in progress there.
// Part and place stay parameters here, as document and place do in crate `lexer`, which says why.
#[tactic(auto, using(crate::proofs::LookLaws::stays_put))]
pub fn look(mode: Mode, part: &[u8], i: usize) -> Ahead
    ensures { Looked mode part.now i result }
{
    if part.len() < i {
        return Ahead::open(mode, i);
    }
    match mode {
        Mode::Blanks => blanks_to(part, i),
        Mode::Remark => remark_to(part, i),
        Mode::Word => word_to(part, i),
        Mode::Return => return_to(part, i),
        Mode::One(q) => opened_to(part, i, q),
        Mode::Line(q, false) => line_to(part, i, q),
        Mode::Ml(q, false) => ml_to(part, i, q),
        _ => Ahead::open(mode, i),
    }
}

// The token that begins at place i, between two tokens, by the byte there. At the end of the part none begins.
#[tactic(auto, using(crate::proofs::TokenLaws::at_the_end, crate::proofs::TokenLaws::single_byte, crate::proofs::TokenLaws::lf_byte, crate::proofs::TokenLaws::opens_byte, crate::proofs::TokenLaws::word_byte), unfolding(built_bytes::specs::Turns::opening, lexer::specs::Table::kind_by, text_classes::specs::Classes::wschar))]
pub fn token_at(part: &[u8], i: usize) -> Ahead
    ensures { TokenAt part.now i result }
{
    if part.len() <= i {
        return Ahead::open(Mode::Idle, i);
    }
    let next = i + 1;
    match part[i] {
        b'.' => Ahead::whole(TokenKind::Dot, next),
        b'=' => Ahead::whole(TokenKind::Equals, next),
        b',' => Ahead::whole(TokenKind::Comma, next),
        b'[' => Ahead::whole(TokenKind::LeftSquareBracket, next),
        b']' => Ahead::whole(TokenKind::RightSquareBracket, next),
        b'{' => Ahead::whole(TokenKind::LeftCurlyBracket, next),
        b'}' => Ahead::whole(TokenKind::RightCurlyBracket, next),
        b' ' | b'\t' => blanks_to(part, next),
        COMMENT_START_SYMBOL => remark_to(part, next),
        b'\r' => return_to(part, next),
        b'\n' => Ahead::newline(next),
        APOSTROPHE => opened_to(part, next, Quote::Apostrophe),
        QUOTATION_MARK => opened_to(part, next, Quote::Quotation),
        _ => word_to(part, next),
    }
}

// Within whitespace.
#[tactic(auto, using(crate::proofs::LookLaws::blanks_looked))]
fn blanks_to(part: &[u8], i: usize) -> Ahead
    requires { i ≤ length part.now }
    ensures { Looked Blanks part.now i result }
{
    let end = lexer_scans::wschar_run(part, i);
    Ahead::run(TokenKind::Whitespace, Mode::Blanks, end, part.len())
}

// Within a comment.
#[tactic(auto, using(crate::proofs::LookLaws::remark_looked))]
fn remark_to(part: &[u8], i: usize) -> Ahead
    requires { i ≤ length part.now }
    ensures { Looked Remark part.now i result }
{
    let end = lexer_scans::comment_run(part, i);
    Ahead::run(TokenKind::Comment, Mode::Remark, end, part.len())
}

// Within an Atom.
#[tactic(auto, using(crate::proofs::LookLaws::word_looked))]
fn word_to(part: &[u8], i: usize) -> Ahead
    requires { i ≤ length part.now }
    ensures { Looked Word part.now i result }
{
    let end = lexer_scans::atom_run(part, i);
    Ahead::run(TokenKind::Atom, Mode::Word, end, part.len())
}

// After a CR, which an LF may follow.
#[tactic(auto, using(crate::proofs::LookLaws::stays_put, crate::proofs::LookLaws::return_lf, crate::proofs::LookLaws::return_alone))]
fn return_to(part: &[u8], i: usize) -> Ahead
    requires { i ≤ length part.now }
    ensures { Looked Return part.now i result }
{
    if is_at(part, i, b'\n') {
        let end = i + 1;
        if end < part.len() {
            return Ahead::newline(end);
        }
        return Ahead::open(Mode::Return, i);
    }
    if i < part.len() {
        return Ahead::whole(TokenKind::Newline, i);
    }
    Ahead::open(Mode::Return, i)
}

// After the opening mark of a string: the next two bytes tell whether it is empty, on one line or on several.
#[tactic(auto, using(crate::proofs::LookLaws::stays_put, crate::proofs::LookLaws::opened_empty, crate::proofs::LookLaws::opened_line, crate::proofs::LookLaws::opened_ml))]
fn opened_to(part: &[u8], i: usize, q: Quote) -> Ahead
    requires { i ≤ length part.now }
    ensures { Looked (One q) part.now i result }
{
    let mark = q.mark();
    if is_at(part, i, mark) {
        let end = i + 1;
        if is_at(part, end, mark) {
            return ml_to(part, i + 2, q);
        }
        if end < part.len() {
            return Ahead::whole(q.line_kind(), end);
        }
        return Ahead::open(Mode::One(q), i);
    }
    if i < part.len() {
        return line_to(part, i, q);
    }
    Ahead::open(Mode::One(q), i)
}

// Within a string on one line.
#[tactic(auto, using(crate::proofs::LookLaws::line_ends))]
fn line_to(part: &[u8], i: usize, q: Quote) -> Ahead
    requires { i ≤ length part.now }
    ensures { LineLooked q part.now i result }
{
    let tail = line_tail(part, i, q);
    if tail < part.len() {
        return Ahead::whole(q.line_kind(), tail);
    }
    let end = marks_end(part, i, q.mark());
    let hidden = is_hidden(&part[i..end], q);
    Ahead::open(Mode::Line(q, hidden), end)
}

// Within a string on several lines.
#[tactic(auto, using(crate::proofs::LookLaws::ml_ends))]
fn ml_to(part: &[u8], i: usize, q: Quote) -> Ahead
    requires { i ≤ length part.now }
    ensures { Looked (Ml q false) part.now i result }
{
    let tail = ml_tail(part, i, q);
    if tail < part.len() {
        return Ahead::Whole {
            kind: q.ml_kind(),
            end: tail,
            feeds: feeds(part, i, tail),
        };
    }
    let end = marks_end(part, i, q.mark());
    let hidden = is_hidden(&part[i..end], q);
    Ahead::Open {
        mode: Mode::Ml(q, hidden),
        end,
        feeds: feeds(part, i, end),
    }
}

// Where a string on one line ends, after its opening.
fn line_tail(part: &[u8], i: usize, q: Quote) -> usize
    ensures { result ≡ i + line_tail (mark_of q) false (drop i part.now) }
{
    match q {
        Quote::Apostrophe => lexer_scans::literal_tail(part, i),
        Quote::Quotation => lexer_scans::basic_tail(part, i),
    }
}

// Where a string on several lines ends, after its opening.
fn ml_tail(part: &[u8], i: usize, q: Quote) -> usize
    ensures { result ≡ i + ml_tail (mark_of q) false (drop i part.now) }
{
    match q {
        Quote::Apostrophe => lexer_scans::ml_literal_tail(part, i),
        Quote::Quotation => lexer_scans::ml_basic_tail(part, i),
    }
}

// The LFs from i up to e.
fn feeds(part: &[u8], i: usize, e: usize) -> usize
    requires { (i ≤ e) × (e ≤ length part.now) }
    ensures { result ≡ feeds_to part.now i e }
{
    lexer::line_of(&part[i..], e - i) - 1
}

// The place, not before i, from which on nothing but marks stands in the part. A string that goes on ends in a few of them at the
// most, and those are left to be read one by one.
fn marks_end(part: &[u8], i: usize, mark: u8) -> usize
    requires { i ≤ length part.now }
    ensures { MarksEnd mark part.now i result }
{
    match part[i..].iter().rposition(|b| *b != mark) {
        Some(k) => i + k + 1,
        None => i,
    }
}

// Whether the bytes of a string hide the next one: in the basic kinds, whether they end in an odd number of backslashes.
#[tactic(auto, using(crate::proofs::LookLaws::hidden_literal, crate::proofs::LookLaws::hidden_basic))]
fn is_hidden(s: &[u8], q: Quote) -> bool
    ensures { result ≡ hidden_by (mark_of q) false s.now }
{
    match q {
        Quote::Apostrophe => false,
        Quote::Quotation => backslashes(s) % 2 == 1,
    }
}

// How many backslashes s ends in.
fn backslashes(s: &[u8]) -> usize
    ensures { result ≡ suffix_len (λ b. b == 92) s.now }
{
    s.iter().rev().take_while(|b| **b == ESCAPE).count()
}
