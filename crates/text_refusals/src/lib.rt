// The numbered refusals: what a call answers where its arguments cannot be served. Rule: specs/Refusals.antt.
#![tactic(auto)]

ghost use Rattle.std.specs.Prelude.{◌≡◌};
ghost use Rattle.text_refusals.specs.Refusals.{refusal_number, refusal_value, refusal_length};

// The most bytes that a document or a text may have.
pub const LIMIT: usize = 16777216;

// The most brackets of a value that may be open at once.
pub const DEPTH: usize = 64;

// Why a call did not answer. Beside each stands its number, and after the semicolon what the value
// returned with it is. Only the first returns a second value.
#[derive(Clone, Copy, Debug, PartialEq, Eq)]
pub enum Refusal {
    // 1: not UTF-8; the length of the longest valid prefix, and that of the faulty sequence after it,
    // 0 where the text ends inside a character
    NotUtf8 { valid: usize, length: usize },
    // 2: more bytes than the limit; the limit
    TooLong,
    // 3: fewer token records than tokens; the tokens, `Eof` counted
    FewTokens { needed: usize },
    // 4: an output shorter than what is to be written there; its bytes
    ShortOutput { needed: usize },
    // 5: fewer error records than errors; the errors
    FewErrors { needed: usize },
    // 6: a place outside the document or inside a character; the document's length. Also a token
    // number that is not below the number of token records; the number of records
    OutOfPlace { length: usize },
    // 7: a number that is no kind that the call knows, or of no error; that number
    NoKind { number: usize },
    // 8: a part, or the closing word, after the end; 0
    AfterEnd,
    // 9: a number that is no edition of TOML; that number
    NoEdition { number: usize },
    // 10: more brackets open at once than the depth; the depth
    TooDeep,
    // 11: a number that is no reviewer; that number
    NoReviewer { number: usize },
    // 12: fewer marks than token records; the records
    FewMarks { needed: usize },
    // 13: a total that would pass 64 bits; the greatest number of 64 bits
    TotalFull,
}

impl Refusal {
    // The refusal's own number. By a match: a variant that holds something cannot have it as its discriminant.
    pub fn number(self) -> usize
        ensures { result ≡ refusal_number self }
    {
        match self {
            Refusal::NotUtf8 {
                valid: _,
                length: _,
            } => 1,
            Refusal::TooLong => 2,
            Refusal::FewTokens { needed: _ } => 3,
            Refusal::ShortOutput { needed: _ } => 4,
            Refusal::FewErrors { needed: _ } => 5,
            Refusal::OutOfPlace { length: _ } => 6,
            Refusal::NoKind { number: _ } => 7,
            Refusal::AfterEnd => 8,
            Refusal::NoEdition { number: _ } => 9,
            Refusal::TooDeep => 10,
            Refusal::NoReviewer { number: _ } => 11,
            Refusal::FewMarks { needed: _ } => 12,
            Refusal::TotalFull => 13,
        }
    }

    // The number returned with it.
    pub fn value(self) -> usize
        ensures { result ≡ refusal_value self }
    {
        match self {
            Refusal::NotUtf8 { valid, length: _ } => valid,
            Refusal::TooLong => LIMIT,
            Refusal::FewTokens { needed } => needed,
            Refusal::ShortOutput { needed } => needed,
            Refusal::FewErrors { needed } => needed,
            Refusal::OutOfPlace { length } => length,
            Refusal::NoKind { number } => number,
            Refusal::AfterEnd => 0,
            Refusal::NoEdition { number } => number,
            Refusal::TooDeep => DEPTH,
            Refusal::NoReviewer { number } => number,
            Refusal::FewMarks { needed } => needed,
            Refusal::TotalFull => usize::MAX,
        }
    }

    // The second number returned with 1: the length of the faulty sequence. 0 with every other.
    pub fn length(self) -> usize
        ensures { result ≡ refusal_length self }
    {
        match self {
            Refusal::NotUtf8 { valid: _, length } => length,
            _ => 0,
        }
    }
}
