// The state between two bytes, with places and lines, and what one byte does to it. Rule: specs/States.antt.
ghost use Rattle.std.specs.Prelude.{◌≡◌, ◌+◌, ◌≤◌, ◌<◌};
ghost use Rattle.lexer.specs.Lines.{line_behind};
ghost use Rattle.built_bytes.specs.Turns.{pending_of};
ghost use Rattle.built_lexing.specs.States.{idle_at, token_from, moved_by, moved, pending_token};

use built_bytes::{Mode, Turn};
use lexer_token::{Span, Token, TokenKind};

// What is in progress; the place and the line of its first byte; and those of the next byte.
#[derive(Clone, Copy, Debug, PartialEq, Eq)]
pub struct Lexing {
    pub mode: Mode,
    pub start: usize,
    pub first: usize,
    pub at: usize,
    pub line: usize,
}

// What a byte does: the token that ended before it, the token that ends with it, and the state after it.
#[derive(Clone, Copy)]
pub struct Moved {
    pub before: Option<Token>,
    pub through: Option<Token>,
    pub next: Lexing,
}

impl Lexing {
    // Between two tokens.
    pub(crate) fn idle(at: usize, line: usize) -> Lexing
        ensures { result ≡ idle_at at line }
    {
        Lexing {
            mode: Mode::Idle,
            start: at,
            first: line,
            at,
            line,
        }
    }

    // The token in progress, were it to end at a place.
    pub(crate) fn token(self, kind: TokenKind, end: usize) -> Token
        ensures { result ≡ token_from kind self end }
    {
        Token::new(kind, Span::new(self.start, end), self.first)
    }

    // The token in progress at the closing word.
    pub(crate) fn pending(self) -> Option<Token>
        ensures { result ≡ pending_token (pending_of self.mode) self }
    {
        match self.mode.pending() {
            None => None,
            Some(kind) => Some(self.token(kind, self.at)),
        }
    }

    // One byte: where it is apart from the token in progress, that token ended before it, and it opens another.
    #[tactic(auto, unfolding(crate::specs::States::moved))]
    pub(crate) fn step(self, b: u8) -> Moved
        requires { (self.at ≤ 16777216) × (self.line ≤ self.at + 1) }
        ensures { result ≡ moved self b }
    {
        match self.mode.turn(b) {
            Turn::Apart(kind) => {
                let opened = Lexing::idle(self.at, self.line).by(built_bytes::opened_by(b), b);
                Moved {
                    before: Some(self.token(kind, self.at)),
                    ..opened
                }
            }
            turn => self.by(turn, b),
        }
    }

    // A byte that does not end the token in progress before it, by what it does.
    fn by(self, turn: Turn, b: u8) -> Moved
        requires { (self.at ≤ 16777216) × (self.line ≤ self.at + 1) }
        ensures { result ≡ moved_by turn self b }
    {
        let at = self.at + 1;
        let line = self.line_behind(b);
        match turn {
            Turn::Opens(mode) => Moved::quiet(Lexing {
                mode,
                start: self.at,
                first: self.line,
                at,
                line,
            }),
            Turn::Single(kind) => {
                let single = Lexing::idle(self.at, self.line).token(kind, at);
                Moved::ending(single, Lexing::idle(at, line))
            }
            Turn::More(mode) => Moved::quiet(Lexing {
                mode,
                at,
                line,
                ..self
            }),
            Turn::Ends(kind) => Moved::ending(self.token(kind, at), Lexing::idle(at, line)),
            Turn::Apart(_) | Turn::Skipped => Moved::quiet(Lexing::idle(at, line)),
        }
    }

    // The line after a byte.
    fn line_behind(self, b: u8) -> usize
        requires { self.line ≤ 16777217 }
        ensures { result ≡ line_behind self.line b }
    {
        if b == b'\n' { self.line + 1 } else { self.line }
    }
}

impl Moved {
    // No token ends.
    fn quiet(next: Lexing) -> Moved
        ensures { result ≡ record { before = None; through = None; next = next } }
    {
        Moved {
            before: None,
            through: None,
            next,
        }
    }

    // A token ends with the byte.
    fn ending(token: Token, next: Lexing) -> Moved
        ensures { result ≡ record { before = None; through = Some token; next = next } }
    {
        Moved {
            before: None,
            through: Some(token),
            next,
        }
    }
}
