// The replies to lines of the calls that requests added: answers_forms has those of the reader.
// Definitions: specs/Answers.antt.
#![tactic(auto)]

ghost use Rattle.std.specs.Prelude.{◌≡◌};
ghost use Rattle.answers_built_forms.specs.Answers.{wrote_as, marked_as, flag_as, tick_count_as};
ghost use Rattle.answers_built_forms.specs.Answers.{broken_as, broken_at, tally_as, mended_as, mended_count_as};

use answers_forms::{filled, refused, refused_whole};
use answers_spelling::{Form, Reply};
use built_broken::FirstError;
use built_figures::{MOST, NotAdded};
use built_mending::Mended;
use lexer_token::Token;
use text_refusals::Refusal;

pub fn wrote(res: Result<usize, Refusal>) -> Reply
    ensures { result ≡ wrote_as res }
{
    match res {
        Ok(bytes) => filled(Form::Hex, &[bytes]),
        Err(why) => refused_whole(why),
    }
}

pub fn mended(res: Result<Mended, Refusal>) -> Reply
    ensures { result ≡ mended_as res }
{
    match res {
        Ok(Mended { bytes, records }) => filled(Form::Mended, &[bytes, records]),
        Err(why) => refused_whole(why),
    }
}

// 0, the count of bytes and the count of records.
pub fn mended_count(res: Result<Mended, Refusal>) -> Reply
    ensures { result ≡ mended_count_as res }
{
    match res {
        Ok(Mended { bytes, records }) => filled(Form::Three, &[0, bytes, records]),
        Err(why) => refused(Form::Three, why),
    }
}

// The two numbers of the answer, and the table of marks afterwards, which has so many entries.
pub fn marked(marking: Result<(), Refusal>, entries: usize) -> Reply
    ensures { result ≡ marked_as marking entries }
{
    match marking {
        Ok(()) => filled(Form::Marked, &[0, 0, entries]),
        Err(why) => filled(Form::Marked, &[why.number(), why.value(), entries]),
    }
}

// Of a token whether it is ticked, of a run whether it is a value.
pub fn flag(answer: Result<bool, Refusal>) -> Reply
    ensures { result ≡ flag_as answer }
{
    match answer {
        Ok(yes) => filled(Form::Three, &[0, 0, yes as usize]),
        Err(why) => refused(Form::Three, why),
    }
}

pub fn tick_count(count: Result<usize, Refusal>) -> Reply
    ensures { result ≡ tick_count_as count }
{
    match count {
        Ok(n) => filled(Form::Three, &[0, 0, n]),
        Err(why) => refused(Form::Three, why),
    }
}

pub fn broken(res: Result<Option<(Token, FirstError)>, Refusal>) -> Reply
    ensures { result ≡ broken_as res }
{
    match res {
        Ok(Some((token, error))) => broken_at(token, error),
        Ok(None) => filled(Form::Sound, &[]),
        Err(why) => refused_whole(why),
    }
}

fn broken_at(token: Token, error: FirstError) -> Reply
    ensures { result ≡ broken_at token error }
{
    let [kind, start, end, line] = token.as_record();
    filled(
        Form::FirstBroken,
        &[kind, start, end, line, error.number, error.start, error.end],
    )
}

// The two numbers of the answer; the totals afterwards follow them.
pub fn tallied(adding: Result<(), NotAdded>) -> Reply
    ensures { result ≡ tally_as adding }
{
    match adding {
        Ok(()) => filled(Form::Tallied, &[0, 0]),
        Err(NotAdded::TooLong) => filled(Form::Tallied, &[2, MOST]),
        Err(NotAdded::Refused(why)) => refused(Form::Tallied, why),
    }
}
