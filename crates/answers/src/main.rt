// Answers calls: reads standard input line by line, and writes each line, ` => ` and its answer.
// tests/README.md says which lines there are. `answers_asking` reads what a line asks for,
// `answers_calls`, `answers_built_calls`, `answers_parts_calls` and `answers_table_calls` make the call, and
// `answers_spelling` writes the answer. The memory that is lent to them is made here, once, and a line uses no more of it than
// its own length asks for.
// The three parts of it go separately: a call is lent two at once, and so a struct of them would take a lifetime for each.
#![tactic(auto)]

ghost use Rattle.std.specs.Prelude.{◌≤◌, length};

use answers_asking::{Call, Question, RECORDS, Reading, Request, WRITTEN};
use answers_spelling::Reply;
use program_io::Console;
use std::io;

fn main(rt: HostRuntime) -> io::Result<()> {
    let mut input = [0u8; 65536];
    // room for a document of 65,536 bytes in hex, and the words before it
    let mut line = [0u8; 131200];
    let mut bytes = [0u8; WRITTEN];
    let mut errors = [[0usize; 3]; RECORDS];
    let mut tokens = [[0usize; 4]; RECORDS];
    answer_all(
        &rt,
        &mut input,
        &mut line,
        &mut bytes,
        &mut errors,
        &mut tokens,
    )
}

// A proved loop has to end, and nothing says that the input does: so the loop counts to a number that no
// run reaches.
fn answer_all(
    console: &impl Console,
    input: &mut [u8],
    line: &mut [u8],
    bytes: &mut [u8],
    errors: &mut [[usize; 3]],
    tokens: &mut [[usize; 4]],
) -> io::Result<()> {
    let mut reading = Reading {
        at: 0,
        end: 0,
        kept: Some(0),
        open: false,
        more: true,
    };
    for _ in 0..u64::MAX {
        if !reading.more {
            break;
        }
        let request = answers_asking::next_request(console, reading, input, line)?;
        reading = request.reading;
        answer(console, request, line, bytes, errors, tokens)?;
    }
    Ok(())
}

fn answer(
    console: &impl Console,
    request: Request,
    line: &[u8],
    bytes: &mut [u8],
    errors: &mut [[usize; 3]],
    tokens: &mut [[usize; 4]],
) -> io::Result<()>
    requires { request.len ≤ length line.now }
{
    let made = answer_to(request, line, bytes, errors, tokens);
    answers_spelling::print_answer(console, made, bytes, errors, tokens)
}

fn answer_to(
    request: Request,
    line: &[u8],
    bytes: &mut [u8],
    errors: &mut [[usize; 3]],
    tokens: &mut [[usize; 4]],
) -> Reply
    requires { request.len ≤ length line.now }
{
    let len = request.len;
    match request.asked {
        Ok(asked) => reply(asked, &line[..len], bytes, errors, tokens),
        Err(fault) => answers_forms::fault(fault),
    }
}

fn reply(
    asked: Question,
    doc: &[u8],
    bytes: &mut [u8],
    errors: &mut [[usize; 3]],
    tokens: &mut [[usize; 4]],
) -> Reply {
    let numbers = asked.numbers;
    match asked.call {
        Call::Reader(made) => answers_calls::reader_reply(
            made, numbers, doc, bytes, errors, tokens,
        ),
        Call::Built(made) => answers_built_calls::built_reply(
            made, numbers, doc, bytes, errors, tokens,
        ),
        Call::Parts(made) => answers_parts_calls::parts_reply(made, numbers, doc, errors, tokens),
        Call::Table(made) => answers_table_calls::table_reply(
            made, numbers, doc, bytes, errors, tokens,
        ),
    }
}
