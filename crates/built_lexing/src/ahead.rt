// Ahead of the next byte: the token in progress is taken whole where it ends within the part, and else as far as a look ahead
// can tell what is in progress. What this promises: specs/Leaps.antt.
ghost use Rattle.std.specs.Prelude.{◌≡◌, ◌+◌, ◌-◌, ◌≤◌, ◌<◌, length};
ghost use Rattle.built_lexing.specs.Leaps.{LeaptTo};

use crate::states::Lexing;
use built_ahead::Ahead;
use lexer_token::Token;

// The token in progress that was taken whole, if one was, and the state and the place after it.
#[derive(Clone, Copy)]
pub(crate) struct Leapt {
    pub given: Option<Token>,
    pub next: Lexing,
    pub place: usize,
}

// From place i of the part on, as far as can be gone at once.
pub(crate) fn leap(l: Lexing, part: &[u8], i: usize) -> Leapt
    requires { (i ≤ length part.now) × (l.at + (length part.now - i) ≤ 16777216) × (l.line ≤ l.at + 1) }
    ensures { LeaptTo l part.now i result }
{
    match built_ahead::look(l.mode, part, i) {
        Ahead::Whole { kind, end, feeds } => {
            let at = l.at + (end - i);
            Leapt {
                given: Some(l.token(kind, at)),
                next: Lexing::idle(at, l.line + feeds),
                place: end,
            }
        }
        Ahead::Open { mode, end, feeds } => Leapt {
            given: None,
            next: Lexing {
                mode,
                at: l.at + (end - i),
                line: l.line + feeds,
                ..l
            },
            place: end,
        },
    }
}
