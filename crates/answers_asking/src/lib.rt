// What standard input asks for, line by line: the next line is read, written to standard output, with
// ` => ` after it, and taken apart. tests/README.md says which lines there are.
#![tactic(auto)]

mod asked;
mod lines;
mod names;
mod words;

ghost use Rattle.std.specs.Prelude.{◌≤◌, IfErr, IfOk, length};

pub use asked::{LineFault, Question};
pub use lines::Reading;
pub use names::{BuiltCall, Call, PartsCall, RECORDS, ReaderCall, TableCall, WRITTEN};
use program_io::Console;
use std::io;

// What a line asks for, or why it is no call, and how far the input was read. The document is the first
// `len` bytes of the line's memory.
#[derive(Clone, Copy)]
pub struct Request {
    pub reading: Reading,
    pub asked: Result<Question, LineFault>,
    pub len: usize,
}

// The request of the next line. What is read decides it, and no contract can speak of that: so it
// promises only that the document lies in the line's memory. It fails only where a read or a write did;
// then there is no request, and the line's memory may hold a part of the line.
pub fn next_request<C: Console>(
    console: &C,
    start: Reading,
    input: &mut [u8],
    line: &mut [u8],
) -> io::Result<Request>
    ensures document { IfOk result (λ request. request.len ≤ length line.new) }
    ensures error { IfErr result C.fails }
{
    let reading = lines::next_line(console, start, input, line)?;
    Ok(request_of(reading, line))
}

fn request_of(reading: Reading, line: &mut [u8]) -> Request
    ensures { result.len ≤ length line.new }
{
    let asked = lines::kept(reading).and_then(|len| asked::read(words::front(line, len)));
    let len = match (reading.kept, asked) {
        (Some(len), Ok(question)) => words::read_bytes(line, len, question.digits),
        _ => 0,
    };
    Request {
        reading,
        asked,
        len,
    }
}
