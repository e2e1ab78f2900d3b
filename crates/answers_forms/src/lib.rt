// The reply to a line: for the result of each call of the reader, and for each fault of a line, the form
// in which it is written and the numbers that fill the form. Definitions: specs/Answers.antt.
#![tactic(auto)]

ghost use Rattle.std.specs.Prelude.{◌≡◌};
ghost use Rattle.answers_forms.specs.Answers.{filled_by, refused_as, refused_whole, fault_as, fault_form};
ghost use Rattle.answers_forms.specs.Answers.{tokens_as, token_lines_as, counted_as, decoded_as, decoded_count_as, checked_as, faulted_as};
ghost use Rattle.answers_forms.specs.Answers.{started_as, positioned_as, stepped_as, stepped_line_as, next_as, next_line_as};
ghost use Rattle.answers_forms.specs.Answers.{hex_as, described_as};

use answers_asking::LineFault;
use answers_spelling::{Form, Reply};
use decoder_rules::Decoded;
use lexer::Cursor;
use lexer_place::Position;
use lexer_token::Token;
use std::cmp::min;
use text_refusals::Refusal;

// A reply with up to eight numbers, and zeros after them.
pub fn filled(form: Form, numbers: &[usize]) -> Reply
    ensures { result ≡ filled_by form numbers.now }
{
    let mut all = [0; 8];
    let n = min(numbers.len(), 8);
    all[..n].copy_from_slice(&numbers[..n]);
    Reply { form, numbers: all }
}

// A refused call: the refusal's number, the value returned with it, and zeros for the other results.
pub fn refused(form: Form, why: Refusal) -> Reply
    ensures { result ≡ refused_as form why }
{
    filled(form, &[why.number(), why.value()])
}

// A refused call in the form that only refusals have: with refusal 1 also the length of the faulty
// sequence.
pub fn refused_whole(why: Refusal) -> Reply
    ensures { result ≡ refused_whole why }
{
    if why.number() == 1 {
        return filled(Form::Broken, &[1, why.value(), why.length()]);
    }
    refused(Form::Refused, why)
}

pub fn tokens(lexed: Result<usize, Refusal>) -> Reply
    ensures { result ≡ tokens_as lexed }
{
    match lexed {
        Ok(count) => filled(Form::Tokens, &[count]),
        Err(why) => refused_whole(why),
    }
}

// The tokens with their lines.
pub fn token_lines(lexed: Result<usize, Refusal>) -> Reply
    ensures { result ≡ token_lines_as lexed }
{
    match lexed {
        Ok(count) => filled(Form::TokenLines, &[count]),
        Err(why) => refused_whole(why),
    }
}

// 0 and a count.
pub fn counted(count: Result<usize, Refusal>) -> Reply
    ensures { result ≡ counted_as count }
{
    match count {
        Ok(count) => filled(Form::Two, &[0, count]),
        Err(why) => refused(Form::Two, why),
    }
}

pub fn decoded(res: Result<Decoded, Refusal>) -> Reply
    ensures { result ≡ decoded_as res }
{
    match res {
        Ok(Decoded { bytes, errors }) => filled(Form::Decoded, &[bytes, errors]),
        Err(why) => refused_whole(why),
    }
}

// 0, the count of bytes and the count of errors.
pub fn decoded_count(res: Result<Decoded, Refusal>) -> Reply
    ensures { result ≡ decoded_count_as res }
{
    match res {
        Ok(Decoded { bytes, errors }) => filled(Form::Three, &[0, bytes, errors]),
        Err(why) => refused(Form::Three, why),
    }
}

pub fn checked(check: Result<(), Refusal>) -> Reply
    ensures { result ≡ checked_as check }
{
    match check {
        Ok(()) => filled(Form::Two, &[0, 0]),
        Err(why) => refused(Form::Two, why),
    }
}

// The refusal's number, the value and the length that are returned with it.
pub fn faulted(check: Result<(), Refusal>) -> Reply
    ensures { result ≡ faulted_as check }
{
    match check {
        Ok(()) => filled(Form::Three, &[0, 0, 0]),
        Err(why) => filled(Form::Three, &[why.number(), why.value(), why.length()]),
    }
}

pub fn started(start: Result<Cursor, Refusal>) -> Reply
    ensures { result ≡ started_as start }
{
    match start {
        Ok(cursor) => filled(Form::Four, &[0, 0, cursor.place, cursor.ended as usize]),
        Err(why) => refused(Form::Four, why),
    }
}

pub fn positioned(position: Result<Position, Refusal>) -> Reply
    ensures { result ≡ positioned_as position }
{
    match position {
        Ok(Position { line, column }) => filled(Form::Four, &[0, 0, line, column]),
        Err(why) => refused(Form::Four, why),
    }
}

pub fn stepped(step: Result<Option<(Token, Cursor)>, Refusal>) -> Reply
    ensures { result ≡ stepped_as step }
{
    match step {
        Ok(Some((token, next))) => token_and_next(token, next),
        Ok(None) => filled(Form::Ended, &[]),
        Err(why) => refused(Form::NoStep, why),
    }
}

// A step with the lines of its token and of the next cursor.
pub fn stepped_line(step: Result<Option<(Token, Cursor)>, Refusal>) -> Reply
    ensures { result ≡ stepped_line_as step }
{
    match step {
        Ok(Some((token, next))) => lines_and_next(token, next),
        Ok(None) => filled(Form::Ended, &[]),
        Err(why) => refused(Form::NoStep, why),
    }
}

fn token_and_next(token: Token, next: Cursor) -> Reply
    ensures { result ≡ next_as token next }
{
    let [kind, start, end, _] = token.as_record();
    filled(
        Form::Stepped,
        &[kind, start, end, next.place, next.ended as usize],
    )
}

fn lines_and_next(token: Token, next: Cursor) -> Reply
    ensures { result ≡ next_line_as token next }
{
    let [kind, start, end, line] = token.as_record();
    filled(
        Form::SteppedLine,
        &[
            kind,
            start,
            end,
            line,
            next.place,
            next.ended as usize,
            next.line,
        ],
    )
}

pub fn hex(count: usize) -> Reply
    ensures { result ≡ hex_as count }
{
    filled(Form::Hex, &[count])
}

// The length of the description and the encoding of a kind, or why it has none; `count` bytes are written.
pub fn described(answer: Result<(usize, usize), Refusal>, count: usize) -> Reply
    ensures { result ≡ described_as answer count }
{
    match answer {
        Ok((len, encoding)) => filled(Form::Described, &[0, 0, len, count, encoding]),
        Err(why) => filled(Form::Described, &[why.number(), why.value(), 0, count]),
    }
}

pub fn fault(why: LineFault) -> Reply
    ensures { result ≡ fault_as why }
{
    filled(fault_form(why), &[])
}

fn fault_form(why: LineFault) -> Form
    ensures { result ≡ fault_form why }
{
    match why {
        LineFault::TooLong => Form::TooLong,
        LineFault::UnknownCall => Form::UnknownCall,
        LineFault::WordCount => Form::WordCount,
        LineFault::NotNumber => Form::NotNumber,
        LineFault::NotHex => Form::NotHex,
        LineFault::NotFlag => Form::NotFlag,
        LineFault::TooMuch => Form::TooMuch,
        LineFault::NoLine => Form::Nothing,
    }
}
