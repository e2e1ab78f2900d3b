// The calls that requests added, as lines can ask for them: answers_calls has those of the reader.
#![tactic(auto)]

use answers_asking::{BuiltCall, RECORDS};
use answers_lent::{copy, front};
use answers_spelling::Reply;
use decoder_rules::Edition;
use std::cmp::min;

// The reply to a call, for which `bytes`, `errors` and `tokens` are there to be lent.
pub fn built_reply(
    call: BuiltCall,
    numbers: [usize; 3],
    doc: &[u8],
    bytes: &mut [u8],
    errors: &mut [[usize; 3]],
    tokens: &mut [[usize; 4]],
) -> Reply {
    let [a, b, c] = numbers;
    match call {
        BuiltCall::Write => answers_built_forms::wrote(built_writing::write_value(doc, bytes)),
        // the number is how many bytes of output are lent
        BuiltCall::WriteCap => {
            let lent = min(a, bytes.len());
            answers_forms::counted(built_writing::write_value(doc, &mut bytes[..lent]))
        }
        BuiltCall::Mend | BuiltCall::MendIn | BuiltCall::MendCap => {
            mending(call, numbers, doc, bytes, errors, tokens)
        }
        // the reviewer, the token, and how many token records are lent
        BuiltCall::Tick => mark(true, a, b, front(tokens, c), doc, bytes),
        BuiltCall::Untick => mark(false, a, b, front(tokens, c), doc, bytes),
        BuiltCall::Ticked => answers_built_forms::flag(built_review::is_ticked(
            front(tokens, c),
            doc,
            a,
            b,
        )),
        // the reviewer, and how many token records are lent
        BuiltCall::Ticks => {
            answers_built_forms::tick_count(built_review::ticks(front(tokens, b), doc, a))
        }
        // the start and the end of the run; before them the edition
        BuiltCall::Value => {
            answers_built_forms::flag(built_values::is_value(of_kinds(doc, tokens), a, b))
        }
        BuiltCall::ValueIn => {
            answers_built_forms::flag(built_values::is_value_in(of_kinds(doc, tokens), a, b, c))
        }
        BuiltCall::Broken => answers_built_forms::broken(built_broken::first_broken(doc)),
        BuiltCall::BrokenIn => answers_built_forms::broken(built_broken::first_broken_in(doc, a)),
        BuiltCall::Tally => tally(0, doc, errors),
        BuiltCall::TallyOn => tally(a, doc, errors),
    }
}

// These calls alone are lent memory that is made for them.
fn mending(
    call: BuiltCall,
    numbers: [usize; 3],
    doc: &[u8],
    bytes: &mut [u8],
    errors: &mut [[usize; 3]],
    tokens: &mut [[usize; 4]],
) -> Reply {
    let mut records = [[0usize; 5]; RECORDS];
    let [a, b, _] = numbers;
    match call {
        BuiltCall::MendCap => mendcap(a, b, doc, bytes, &mut records),
        BuiltCall::MendIn => mend(a, doc, bytes, &mut records, errors, tokens),
        _ => mend(Edition::TOML_10, doc, bytes, &mut records, errors, tokens),
    }
}

// What was listed is spread for the printing: a token's span into a token, its error into an error.
fn mend(
    edition: usize,
    doc: &[u8],
    bytes: &mut [u8],
    records: &mut [[usize; 5]],
    errors: &mut [[usize; 3]],
    tokens: &mut [[usize; 4]],
) -> Reply {
    let result = built_mending::put_right_in(doc, edition, bytes, records);
    let count = result.map_or(0, |mended| mended.records);
    spread(front(records, count), errors, tokens);
    answers_built_forms::mended(result)
}

fn spread(records: &[[usize; 5]], errors: &mut [[usize; 3]], tokens: &mut [[usize; 4]]) {
    for (error, record) in errors.iter_mut().zip(records) {
        *error = [record[2], record[3], record[4]];
    }
    for (token, record) in tokens.iter_mut().zip(records) {
        *token = [0, record[0], record[1], 0];
    }
}

// With so many bytes of output and so many records lent.
fn mendcap(
    output: usize,
    listed: usize,
    doc: &[u8],
    bytes: &mut [u8],
    records: &mut [[usize; 5]],
) -> Reply {
    let lent = min(output, bytes.len());
    let few = min(listed, records.len());
    answers_built_forms::mended_count(built_mending::put_right(
        doc,
        &mut bytes[..lent],
        &mut records[..few],
    ))
}

// Sets or clears a tick. The document is the table of marks; it is copied, so that the call has a table to write to.
fn mark(
    set: bool,
    reviewer: usize,
    token: usize,
    records: &[[usize; 4]],
    doc: &[u8],
    bytes: &mut [u8],
) -> Reply {
    let entries = copy(doc, bytes);
    let marks = &mut bytes[..entries];
    let marking = if set {
        built_review::tick(records, marks, reviewer, token)
    } else {
        built_review::untick(records, marks, reviewer, token)
    };
    answers_built_forms::marked(marking, entries)
}

// Token records whose kinds are the bytes of the document. Nothing else of a record matters to the calls on values.
fn of_kinds<'a>(kinds: &[u8], tokens: &'a mut [[usize; 4]]) -> &'a [[usize; 4]] {
    for (token, kind) in tokens.iter_mut().zip(kinds) {
        *token = [*kind as usize, 0, 0, 0];
    }
    front(tokens, kinds.len())
}

// Every total is `each` at first. The totals afterwards are laid out over the errors, for the printing.
fn tally(each: usize, doc: &[u8], errors: &mut [[usize; 3]]) -> Reply {
    let done = built_figures::tally(doc, [each as u64; 33]);
    let answer = done.answer;
    let totals = done.totals;
    for (place, total) in errors.as_flattened_mut().iter_mut().zip(totals) {
        *place = total as usize;
    }
    answers_built_forms::tallied(answer)
}
