// What a line asks for: the call that its first word names, the numbers after it, and the bytes that
// its last word spells; or why the line is no call.
use crate::names::{Call, FLAG, Line};
use crate::{names, words};

// The longest document that is taken.
const DOCUMENT: usize = 65536;

// Why a line is no call.
#[derive(Clone, Copy, Debug, PartialEq, Eq)]
pub enum LineFault {
    // the input has ended: there is no line
    NoLine,
    TooLong,
    UnknownCall,
    WordCount,
    NotNumber,
    NotHex,
    // a number that is a flag is neither 0 nor 1
    NotFlag,
    // a call can lend no more than the program has
    TooMuch,
}

// What a line asks for. The last `digits` bytes of the line spell the document.
#[derive(Clone, Copy)]
pub struct Question {
    pub call: Call,
    pub numbers: [usize; 3],
    pub(crate) digits: usize,
}

// The first fault of its words, then of its bytes, then of its numbers.
pub(crate) fn read(text: &[u8]) -> Result<Question, LineFault> {
    let mut words = text.split(|b| *b == b' ');
    let name = words.next().unwrap_or(b"");
    let line = names::line_of(name).ok_or(LineFault::UnknownCall)?;
    if words::count(text) != names::words_of(line) {
        return Err(LineFault::WordCount);
    }
    let mut numbers = [0; 3];
    for number in numbers.iter_mut().take(line.limits.len()) {
        let word = words.next().unwrap_or(b"");
        *number = words::read_number(word).ok_or(LineFault::NotNumber)?;
    }
    let document = words.next().unwrap_or(b"");
    if line.document {
        check_document(document)?;
    }
    check_limits(numbers, line.limits)?;
    Ok(Question {
        call: line.call,
        numbers,
        digits: document.len(),
    })
}

fn check_document(document: &[u8]) -> Result<(), LineFault> {
    if DOCUMENT < document.len() / 2 {
        return Err(LineFault::TooLong);
    }
    if words::is_hex(document) {
        Ok(())
    } else {
        Err(LineFault::NotHex)
    }
}

// The fault of the first number that is more than its limit.
fn check_limits(numbers: [usize; 3], limits: &[usize]) -> Result<(), LineFault> {
    match numbers.iter().zip(limits).find(|(n, limit)| limit < n) {
        Some((_, &FLAG)) => Err(LineFault::NotFlag),
        Some(_) => Err(LineFault::TooMuch),
        None => Ok(()),
    }
}
