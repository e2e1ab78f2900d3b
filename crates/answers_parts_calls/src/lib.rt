// The calls over a document that comes in parts, as lines can ask for them. What the calls of a line came to is
// laid out for the printing: their tokens one after another, and beside them, in place of errors, the answers.
#![tactic(auto)]

use answers_asking::PartsCall;
use answers_forms::filled;
use answers_spelling::{AT_END, Form, Reply};
use built_parts::{Fed, Parts};
use std::cmp::{max, min};

// How far a line's calls have come: the state, and how many tokens were given.
#[derive(Clone, Copy)]
struct Progress {
    parts: Parts,
    given: usize,
}

// The reply to a call, for which `errors` and `tokens` are there to be lent.
pub fn parts_reply(
    call: PartsCall,
    numbers: [usize; 3],
    doc: &[u8],
    errors: &mut [[usize; 3]],
    tokens: &mut [[usize; 4]],
) -> Reply {
    let [a, b, c] = numbers;
    match call {
        PartsCall::Parts => in_parts(tokens.len(), a, b, doc, errors, tokens),
        PartsCall::PartsCap => in_parts(a, b, c, doc, errors, tokens),
        PartsCall::Bytes => by_bytes(doc, errors, tokens),
    }
}

// The bytes before `first`, those from there to `second`, those from there on, and the closing word, with `room`
// records lent to each call. A place past the end counts as the end, a second one before the first as the first.
fn in_parts(
    room: usize,
    first: usize,
    second: usize,
    doc: &[u8],
    errors: &mut [[usize; 3]],
    tokens: &mut [[usize; 4]],
) -> Reply {
    let a = min(first, doc.len());
    let b = max(a, min(second, doc.len()));
    let calls = [Some(&doc[..a]), Some(&doc[a..b]), Some(&doc[b..]), None];
    let mut progress = begin();
    for (error, part) in errors.iter_mut().zip(calls) {
        let fed = fed(progress, part, room, tokens);
        *error = match fed.answer {
            Ok(count) => [0, count, 0],
            Err(why) => [why.number(), why.value(), why.length()],
        };
        progress = after(progress, fed, fed.answer.unwrap_or(0));
    }
    filled(Form::Parted, &[])
}

// Each byte a part, and then the closing word, up to a refusal.
fn by_bytes(doc: &[u8], errors: &mut [[usize; 3]], tokens: &mut [[usize; 4]]) -> Reply {
    let mut progress = begin();
    for (i, byte) in doc.iter().enumerate() {
        let fed = fed(progress, Some(&[*byte]), 2, tokens);
        progress = timed(progress, fed, i + 1, errors, tokens);
        if fed.answer.is_err() {
            return filled(Form::ByBytes, &[progress.given]);
        }
    }
    let fed = fed(progress, None, 2, tokens);
    let closed = timed(progress, fed, AT_END, errors, tokens);
    filled(Form::ByBytes, &[closed.given])
}

fn begin() -> Progress {
    Progress {
        parts: Parts::start(),
        given: 0,
    }
}

// A part, or where there is none the closing word, with so many records lent behind the tokens that were given.
fn fed(progress: Progress, part: Option<&[u8]>, room: usize, tokens: &mut [[usize; 4]]) -> Fed {
    let from = min(progress.given, tokens.len());
    let free = &mut tokens[from..];
    let lent = min(room, free.len());
    let records = &mut free[..lent];
    match part {
        Some(part) => progress.parts.feed(part, records),
        None => progress.parts.close(records),
    }
}

fn after(progress: Progress, fed: Fed, count: usize) -> Progress {
    Progress {
        parts: fed.parts,
        given: progress.given.saturating_add(count),
    }
}

// The time beside each of the tokens that a call gave, or beside its refusal, whose value stands for a token.
fn timed(
    progress: Progress,
    fed: Fed,
    time: usize,
    errors: &mut [[usize; 3]],
    tokens: &mut [[usize; 4]],
) -> Progress {
    let from = progress.given;
    match fed.answer {
        Ok(count) => {
            for error in errors.iter_mut().skip(from).take(count) {
                *error = [0, time, 0];
            }
            after(progress, fed, count)
        }
        Err(why) => {
            if let Some(error) = errors.get_mut(from) {
                *error = [why.number(), time, why.length()];
            }
            if let Some(token) = tokens.get_mut(from) {
                *token = [why.value(), 0, 0, 0];
            }
            after(progress, fed, 1)
        }
    }
}
