// The calls of the reader that a line can ask for: each is made, and its answer handed to answers_forms.
// The call's own promise says what the answer is, and answers_forms promises what is written of it.
#![tactic(auto)]

use answers_asking::ReaderCall;
use answers_lent::copy;
use answers_spelling::Reply;
use lexer::Cursor;
use lexer_token::{Span, TokenKind};
use std::cmp::min;
use text_refusals::Refusal;

// The reply to a call, for which `bytes`, `errors` and `tokens` are there to be lent.
pub fn reader_reply(
    call: ReaderCall,
    numbers: [usize; 3],
    doc: &[u8],
    bytes: &mut [u8],
    errors: &mut [[usize; 3]],
    tokens: &mut [[usize; 4]],
) -> Reply {
    let [a, b, c] = numbers;
    match call {
        ReaderCall::Lex => answers_forms::tokens(lexer::lex(doc, tokens)),
        ReaderCall::LexLine => answers_forms::token_lines(lexer::lex(doc, tokens)),
        // the number is how many records are lent
        ReaderCall::LexCap => {
            let lent = min(a, tokens.len());
            answers_forms::counted(lexer::lex(doc, &mut tokens[..lent]))
        }
        ReaderCall::Dec => answers_forms::decoded(decoder::decode(doc, a, bytes, errors)),
        // the edition and the kind
        ReaderCall::DecIn => answers_forms::decoded(decoder::decode_in(doc, a, b, bytes, errors)),
        // the kind, and how many bytes of output and how many records are lent
        ReaderCall::DecCap => {
            let output = min(b, bytes.len());
            let lent = min(c, errors.len());
            answers_forms::decoded_count(decoder::decode(
                doc,
                a,
                &mut bytes[..output],
                &mut errors[..lent],
            ))
        }
        ReaderCall::Utf8 => answers_forms::checked(text::check_utf8(doc)),
        ReaderCall::Fault => answers_forms::faulted(text::check_utf8(doc)),
        ReaderCall::Start => answers_forms::started(Cursor::start(doc)),
        ReaderCall::Step => answers_forms::stepped(cursor_of(a, b, line_at(doc, a)).step(doc)),
        ReaderCall::StepLine => answers_forms::stepped_line(cursor_of(a, b, c).step(doc)),
        ReaderCall::Span => answers_forms::checked(lexer_place::check_span(doc, Span::new(a, b))),
        ReaderCall::Text => {
            let part = lexer_place::text_of(doc, Span::new(a, b));
            answers_forms::hex(copy(part, bytes))
        }
        ReaderCall::Pos => answers_forms::positioned(lexer_place::position_of(doc, a)),
        ReaderCall::Desc => desc(a, bytes),
    }
}

fn cursor_of(place: usize, ended: usize, line: usize) -> Cursor {
    Cursor {
        place,
        line,
        ended: ended == 1,
    }
}

// The line of `place`; 1 where the place is refused.
fn line_at(doc: &[u8], place: usize) -> usize {
    lexer_place::position_of(doc, place).map_or(1, |position| position.line)
}

// The description, in 25 bytes with zeros behind it, and the encoding.
fn desc(kind: usize, bytes: &mut [u8]) -> Reply {
    let mut padded = [0u8; 25];
    let described = lengths(kind, &mut padded);
    answers_forms::described(described, copy(&padded, bytes))
}

// The length of the description, which is written over the front of `padded`, and the encoding.
fn lengths(kind: usize, padded: &mut [u8]) -> Result<(usize, usize), Refusal> {
    let text = TokenKind::description(kind)?;
    copy(text, padded);
    Ok((text.len(), TokenKind::encoding(kind)?))
}
