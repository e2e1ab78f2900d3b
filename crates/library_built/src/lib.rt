// The answers of the calls that requests added, as numbers: library_numbers has the reader's.
// Definitions: specs/Numbers.antt. The structs are the C interface, as in library_numbers.
#![tactic(auto)]

ghost use Rattle.std.specs.Prelude.{◌≡◌};
ghost use Rattle.library_built.specs.Numbers.{broken_numbers, unbroken_by, adding_numbers, tally_numbers, mend_numbers};

use built_broken::FirstError;
use built_figures::{MOST, NotAdded, Tallied, Totals};
use built_mending::Mended;
use lexer_token::Token;
use library_numbers::{AnswerNumbers, ErrorNumbers, TokenNumbers, answer_of, refused};
use text_refusals::Refusal;

// `answer.value` is 0 where the document was added; the totals afterwards.
#[repr(C)]
#[derive(Clone, Copy)]
pub struct TallyNumbers {
    pub answer: AnswerNumbers,
    pub totals: Totals,
}

// `answer.value` is the count of bytes, `records` the count of records.
#[repr(C)]
#[derive(Clone, Copy)]
pub struct MendNumbers {
    pub answer: AnswerNumbers,
    pub records: usize,
}

// `found` is 1 with a broken token and its first error; without one it is 0, and so are all fields after it.
#[repr(C)]
#[derive(Clone, Copy, Default)]
pub struct BrokenNumbers {
    pub answer: AnswerNumbers,
    pub found: usize,
    pub token: TokenNumbers,
    pub error: ErrorNumbers,
}

pub fn mended(mended: Result<Mended, Refusal>) -> MendNumbers
    ensures { result ≡ mend_numbers mended }
{
    match mended {
        Ok(Mended { bytes, records }) => MendNumbers {
            answer: answer_of(bytes),
            records,
        },
        Err(r) => MendNumbers {
            answer: refused(r),
            records: 0,
        },
    }
}

pub fn broken(broken: Result<Option<(Token, FirstError)>, Refusal>) -> BrokenNumbers
    ensures { result ≡ broken_numbers broken }
{
    match broken {
        Ok(Some((token, error))) => BrokenNumbers {
            answer: answer_of(0),
            found: 1,
            token: token.into(),
            error: ErrorNumbers {
                number: error.number,
                start: error.start,
                end: error.end,
            },
        },
        Ok(None) => unbroken(answer_of(0)),
        Err(r) => unbroken(refused(r)),
    }
}

fn unbroken(answer: AnswerNumbers) -> BrokenNumbers
    ensures { result ≡ unbroken_by answer }
{
    BrokenNumbers {
        answer,
        ..BrokenNumbers::default()
    }
}

pub fn tallied(tallied: Tallied) -> TallyNumbers
    ensures { result ≡ tally_numbers tallied }
{
    let answer = tallied.answer;
    let totals = tallied.totals;
    TallyNumbers {
        answer: adding(answer),
        totals,
    }
}

fn adding(adding: Result<(), NotAdded>) -> AnswerNumbers
    ensures { result ≡ adding_numbers adding }
{
    match adding {
        Ok(()) => answer_of(0),
        Err(NotAdded::TooLong) => AnswerNumbers {
            refusal: 2,
            value: MOST,
            length: 0,
        },
        Err(NotAdded::Refused(r)) => refused(r),
    }
}
