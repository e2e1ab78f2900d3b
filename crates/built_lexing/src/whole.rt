// The tokens that are whole within a part. Where no token is in progress, each is taken at once from its first byte on, as far
// as the part can tell. What this promises: specs/Whole.antt.
ghost use Rattle.std.specs.Prelude.{◌≡◌, ◌+◌, ◌-◌, ◌≤◌, ◌<◌, length, drop};
ghost use Rattle.built_lexing.specs.States.{idle_at, given_by};
ghost use Rattle.built_lexing.specs.Whole.{PassedTo};

use crate::put;
use crate::states::Lexing;
use built_ahead::{Ahead, token_at};
use built_bytes::Mode;
use lexer_token::{Record, Span, Token};

// How many tokens there are after those that were passed, and the state and the place there.
#[derive(Clone, Copy)]
pub(crate) struct Passed {
    pub count: usize,
    pub next: Lexing,
    pub place: usize,
}

// The whole tokens from a place on, each into its record; none where a token is in progress.
pub(crate) fn take_tokens(
    l: Lexing,
    part: &[u8],
    start: usize,
    n: usize,
    records: &mut [Record],
) -> Passed
    requires { (start ≤ length part.now) × (l.at + (length part.now - start) ≤ 16777216) × (l.line ≤ l.at + 1) × (n + length (given_by l (drop start part.now)) ≤ 16777217) }
    ensures { PassedTo l part.now start n records.old result records.new }
{
    if start < part.len() {
        if let Mode::Idle = l.mode {
            return take_whole(l.at, l.line, part, start, n, records);
        }
    }
    Passed {
        count: n,
        next: l,
        place: start,
    }
}

// The whole tokens from a place between two tokens on, and then as much of the next one as there is, but for a few bytes.
fn take_whole(
    first: usize,
    line: usize,
    part: &[u8],
    start: usize,
    n: usize,
    records: &mut [Record],
) -> Passed
    requires { (start ≤ length part.now) × (first + (length part.now - start) ≤ 16777216) × (line ≤ first + 1) × (n + length (given_by (idle_at first line) (drop start part.now)) ≤ 16777217) }
    ensures { PassedTo (idle_at first line) part.now start n records.old result records.new }
{
    let mut i = start;
    let mut at = first;
    let mut on = line;
    let mut count = n;
    // no iterator: a turn goes over a token, as far as it reaches
    loop {
        match token_at(part, i) {
            Ahead::Whole { kind, end, feeds } => {
                let stop = at + (end - i);
                let token = Token::new(kind, Span::new(at, stop), on);
                count = put(records, count, Some(token));
                i = end;
                at = stop;
                on += feeds;
            }
            Ahead::Open { mode, end, feeds } => {
                return Passed {
                    count,
                    next: Lexing {
                        mode,
                        start: at,
                        first: on,
                        at: at + (end - i),
                        line: on + feeds,
                    },
                    place: end,
                };
            }
        }
    }
}
