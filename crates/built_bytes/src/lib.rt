// One byte at a time: what is in progress between two bytes of a document that comes in parts, and what one byte more
// does to it. Nothing here counts places or lines: crate `built_lexing` does. Rule: specs/Turns.antt.
#![tactic(auto)]

ghost use Rattle.std.specs.Prelude.{◌≡◌, cond};
ghost use Rattle.lexer_scans.specs.Extents.{eol, hides, closes};
ghost use Rattle.built_bytes.specs.Turns.{mark_of, line_kind, ml_kind, opening, run_on, in_line, in_ml, turn_of, pending_of};
ghost use Rattle.built_bytes.specs.declared.Turn.TheVariants.{Ends, Apart};

use lexer_token::TokenKind;
use text_classes::{
    APOSTROPHE, COMMENT_START_SYMBOL, ESCAPE, QUOTATION_MARK, is_token_start, is_wschar,
};

// The mark of a string.
#[derive(Clone, Copy, Debug, PartialEq, Eq)]
pub enum Quote {
    Apostrophe,
    Quotation,
}

// What is in progress between two bytes.
#[derive(Clone, Copy, Debug, PartialEq, Eq)]
pub enum Mode {
    // nothing was read yet; after EF; after EF BB: what may become a byte order mark
    Start,
    Bom1,
    Bom2,
    // between two tokens
    Idle,
    // whitespace, a comment, an Atom
    Blanks,
    Remark,
    Word,
    // after a CR
    Return,
    // after one opening mark; after two
    One(Quote),
    Two(Quote),
    // within a string on one line; is the next byte hidden?
    Line(Quote, bool),
    // within a string on several lines, likewise; after one mark of its closing; after two
    Ml(Quote, bool),
    MlOne(Quote),
    MlTwo(Quote),
    // after its closing; after one mark more
    Shut(Quote),
    ShutOne(Quote),
}

// What one byte more does.
#[derive(Clone, Copy, Debug, PartialEq, Eq)]
pub enum Turn {
    // it is the first byte of a token that goes on
    Opens(Mode),
    // it is a token of its own
    Single(TokenKind),
    // it belongs to the token in progress, which goes on
    More(Mode),
    // it is the last byte of the token in progress
    Ends(TokenKind),
    // it does not belong to the token in progress, which ended before it, and begins another
    Apart(TokenKind),
    // it is the last byte of a byte order mark
    Skipped,
}

impl Quote {
    // Its byte.
    pub fn mark(self) -> u8
        ensures { result ≡ mark_of self }
    {
        match self {
            Quote::Apostrophe => APOSTROPHE,
            Quote::Quotation => QUOTATION_MARK,
        }
    }

    // The kind of string on one line that it opens.
    pub fn line_kind(self) -> TokenKind
        ensures { result ≡ line_kind self }
    {
        match self {
            Quote::Apostrophe => TokenKind::LiteralString,
            Quote::Quotation => TokenKind::BasicString,
        }
    }

    // The kind of string on several lines that three of it open.
    pub fn ml_kind(self) -> TokenKind
        ensures { result ≡ ml_kind self }
    {
        match self {
            Quote::Apostrophe => TokenKind::MlLiteralString,
            Quote::Quotation => TokenKind::MlBasicString,
        }
    }
}

impl Mode {
    // What a byte does.
    #[tactic(auto, unfolding(crate::specs::Turns::turn_of))]
    pub fn turn(self, b: u8) -> Turn
        ensures { result ≡ turn_of self b }
    {
        match self {
            Mode::Start => {
                if b == 0xEF {
                    Turn::Opens(Mode::Bom1)
                } else {
                    opened_by(b)
                }
            }
            Mode::Bom1 => {
                if b == 0xBB {
                    Turn::More(Mode::Bom2)
                } else {
                    run_on(!is_token_start(b), Mode::Word, TokenKind::Atom)
                }
            }
            Mode::Bom2 => {
                if b == 0xBF {
                    Turn::Skipped
                } else {
                    run_on(!is_token_start(b), Mode::Word, TokenKind::Atom)
                }
            }
            Mode::Idle => opened_by(b),
            Mode::Blanks => run_on(is_wschar(b), Mode::Blanks, TokenKind::Whitespace),
            Mode::Remark => run_on(!is_eol(b), Mode::Remark, TokenKind::Comment),
            Mode::Word => run_on(!is_token_start(b), Mode::Word, TokenKind::Atom),
            Mode::Return => ends_with(b == b'\n', TokenKind::Newline),
            Mode::One(q) => {
                if b == q.mark() {
                    Turn::More(Mode::Two(q))
                } else {
                    in_line(q, false, b)
                }
            }
            Mode::Two(q) => run_on(b == q.mark(), Mode::Ml(q, false), q.line_kind()),
            Mode::Line(q, hidden) => {
                if closes_line(q, hidden, b) {
                    Turn::Ends(q.line_kind())
                } else {
                    in_line(q, hidden, b)
                }
            }
            Mode::Ml(q, hidden) => {
                if closes_line(q, hidden, b) {
                    Turn::More(Mode::MlOne(q))
                } else {
                    in_ml(q, hidden, b)
                }
            }
            Mode::MlOne(q) => {
                if b == q.mark() {
                    Turn::More(Mode::MlTwo(q))
                } else {
                    in_ml(q, false, b)
                }
            }
            Mode::MlTwo(q) => {
                if b == q.mark() {
                    Turn::More(Mode::Shut(q))
                } else {
                    in_ml(q, false, b)
                }
            }
            Mode::Shut(q) => run_on(b == q.mark(), Mode::ShutOne(q), q.ml_kind()),
            Mode::ShutOne(q) => ends_with(b == q.mark(), q.ml_kind()),
        }
    }

    // The kind of the token in progress, were the document to end here.
    #[tactic(auto, unfolding(crate::specs::Turns::pending_of))]
    pub fn pending(self) -> Option<TokenKind>
        ensures { result ≡ pending_of self }
    {
        match self {
            Mode::Start | Mode::Idle => None,
            Mode::Bom1 => Some(TokenKind::Atom),
            Mode::Bom2 => Some(TokenKind::Atom),
            Mode::Blanks => Some(TokenKind::Whitespace),
            Mode::Remark => Some(TokenKind::Comment),
            Mode::Word => Some(TokenKind::Atom),
            Mode::Return => Some(TokenKind::Newline),
            Mode::One(q) | Mode::Two(q) | Mode::Line(q, _) => Some(q.line_kind()),
            Mode::Ml(q, _) | Mode::MlOne(q) | Mode::MlTwo(q) | Mode::Shut(q) | Mode::ShutOne(q) =>
                Some(q.ml_kind()),
        }
    }
}

// The first byte of a token.
#[tactic(auto, unfolding(crate::specs::Turns::opening, lexer::specs::Table::kind_by, text_classes::specs::Classes::wschar))]
pub fn opened_by(b: u8) -> Turn
    ensures { result ≡ opening b }
{
    match b {
        b'.' => Turn::Single(TokenKind::Dot),
        b'=' => Turn::Single(TokenKind::Equals),
        b',' => Turn::Single(TokenKind::Comma),
        b'[' => Turn::Single(TokenKind::LeftSquareBracket),
        b']' => Turn::Single(TokenKind::RightSquareBracket),
        b'{' => Turn::Single(TokenKind::LeftCurlyBracket),
        b'}' => Turn::Single(TokenKind::RightCurlyBracket),
        b' ' | b'\t' => Turn::Opens(Mode::Blanks),
        COMMENT_START_SYMBOL => Turn::Opens(Mode::Remark),
        b'\r' => Turn::Opens(Mode::Return),
        b'\n' => Turn::Single(TokenKind::Newline),
        APOSTROPHE => Turn::Opens(Mode::One(Quote::Apostrophe)),
        QUOTATION_MARK => Turn::Opens(Mode::One(Quote::Quotation)),
        _ => Turn::Opens(Mode::Word),
    }
}

// A run that goes on, or ended before the byte.
fn run_on(goes: bool, mode: Mode, kind: TokenKind) -> Turn
    ensures { result ≡ run_on goes mode kind }
{
    if goes {
        Turn::More(mode)
    } else {
        Turn::Apart(kind)
    }
}

// A token that ends with the byte, or ended before it.
fn ends_with(last: bool, kind: TokenKind) -> Turn
    ensures { result ≡ cond last (Ends kind) (Apart kind) }
{
    if last {
        Turn::Ends(kind)
    } else {
        Turn::Apart(kind)
    }
}

fn is_eol(b: u8) -> bool
    ensures { result ≡ eol b }
{
    b == b'\r' || b == b'\n'
}

// Does the byte hide the next one? In the basic kinds a backslash does.
fn hides_next(q: Quote, hidden: bool, b: u8) -> bool
    ensures { result ≡ hides (mark_of q) hidden b }
{
    !hidden && q == Quote::Quotation && b == ESCAPE
}

fn closes_line(q: Quote, hidden: bool, b: u8) -> bool
    ensures { result ≡ closes (mark_of q) hidden b }
{
    !hidden && b == q.mark()
}

// A byte of a string on one line that does not close it.
fn in_line(q: Quote, hidden: bool, b: u8) -> Turn
    ensures { result ≡ in_line q hidden b }
{
    if b == b'\n' {
        return Turn::Apart(q.line_kind());
    }
    Turn::More(Mode::Line(q, hides_next(q, hidden, b)))
}

// A byte of a string on several lines that is no mark of its closing.
fn in_ml(q: Quote, hidden: bool, b: u8) -> Turn
    ensures { result ≡ in_ml q hidden b }
{
    Turn::More(Mode::Ml(q, hides_next(q, hidden, b)))
}
