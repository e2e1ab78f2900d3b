// A document that comes in parts, cut anywhere: each token is given as soon as no further bytes could change it, and after a
// closing word the tokens are those of the parts joined. The caller keeps the state, in which nothing of the parts is kept.
// Rules: specs/Checking.antt, Feeding.antt.
#![tactic(auto)]

mod checks;

ghost use Rattle.std.specs.Prelude.{◌≡◌, length};
ghost use Rattle.text_refusals.specs.Told.{told_number, told_count, told_length};
ghost use Rattle.built_parts.specs.Feeding.{no_parts, closed, is_over, feed_of, close_of, feed_memory, close_memory};
ghost use Rattle.built_parts.specs.Told.{feed_refusal, feed_returned, feed_fault, close_refusal, close_returned};
ghost use Rattle.built_parts.specs.Passing.{answered_by, after_refusal};

use built_characters::Character;
use built_lexing::{Lexing, is_astray, lex_end, lex_part, passes_limit};
pub use checks::{Checked, Faulty};
use lexer_token::Record;
use text_refusals::{LIMIT, Refusal};

// The state between two parts: what is in progress of the tokens; of the characters, with the place up to which whole ones
// stand; and whether nothing more is taken.
#[derive(Clone, Copy, Debug, PartialEq, Eq)]
pub struct Parts {
    pub lexing: Lexing,
    pub character: Character,
    pub valid: usize,
    pub ended: bool,
}

// What a call answers, with the state after it.
#[derive(Clone, Copy, Debug, PartialEq, Eq)]
pub struct Fed {
    pub answer: Result<usize, Refusal>,
    pub parts: Parts,
}

impl Parts {
    // Before the first part.
    pub fn start() -> Parts
        ensures { result ≡ no_parts }
    {
        Parts {
            lexing: built_lexing::lex_start(),
            character: Character::Whole,
            valid: 0,
            ended: false,
        }
    }

    // A part: its tokens into the lent records, from the front.
    pub fn feed(self, part: &[u8], records: &mut [Record]) -> Fed
        ensures answer { result ≡ feed_of self part.now (length records.old) }
        ensures number { told_number result.answer ≡ feed_refusal self part.now (length records.old) }
        ensures value { told_count result.answer ≡ feed_returned self part.now }
        ensures length { told_length result.answer ≡ feed_fault self part.now }
        ensures memory { records.new ≡ feed_memory self part.now records.old }
    {
        let outcome = self.taken(part, records);
        self.answered(outcome)
    }

    // The closing word: the token in progress and `Eof` into the lent records.
    pub fn close(self, records: &mut [Record]) -> Fed
        ensures answer { result ≡ close_of self (length records.old) }
        ensures number { told_number result.answer ≡ close_refusal self (length records.old) }
        ensures value { told_count result.answer ≡ close_returned self }
        ensures length { told_length result.answer ≡ 0 }
        ensures memory { records.new ≡ close_memory self records.old }
    {
        let outcome = self.ended(records);
        self.answered(outcome)
    }

    // A part: the count of its tokens and the state after it, or why it is refused.
    fn taken(self, part: &[u8], records: &mut [Record]) -> Result<(usize, Parts), Refusal>
        ensures answer { answered_by self result ≡ feed_of self part.now (length records.old) }
        ensures memory { records.new ≡ feed_memory self part.now records.old }
    {
        let at = self.lexing.at;
        if self.is_over() {
            return Err(Refusal::AfterEnd);
        }
        if passes_limit(at, part.len()) {
            return Err(Refusal::TooLong);
        }
        let checked = checks::check_part(self.character, self.valid, at, part)?;
        let lexed = lex_part(self.lexing, part, records)?;
        let next = Parts {
            lexing: lexed.next,
            character: checked.character,
            valid: checked.valid,
            ended: false,
        };
        Ok((lexed.count, next))
    }

    // The closing word, likewise.
    fn ended(self, records: &mut [Record]) -> Result<(usize, Parts), Refusal>
        ensures answer { answered_by self result ≡ close_of self (length records.old) }
        ensures memory { records.new ≡ close_memory self records.old }
    {
        let at = self.lexing.at;
        if self.is_over() {
            return Err(Refusal::AfterEnd);
        }
        if LIMIT < at {
            return Err(Refusal::TooLong);
        }
        if let Character::Begun { .. } = self.character {
            return Err(Refusal::NotUtf8 {
                valid: self.valid,
                length: 0,
            });
        }
        let lexed = lex_end(self.lexing, records)?;
        Ok((lexed.count, self.closed()))
    }

    // What a call answers by what it came to: refusals 2 and 1 close the state, the others leave it as it was.
    fn answered(self, outcome: Result<(usize, Parts), Refusal>) -> Fed
        ensures { result ≡ answered_by self outcome }
    {
        match outcome {
            Ok((count, parts)) => Fed {
                answer: Ok(count),
                parts,
            },
            Err(refusal) => Fed {
                answer: Err(refusal),
                parts: self.after(refusal),
            },
        }
    }

    // The state after a refusal.
    fn after(self, refusal: Refusal) -> Parts
        ensures { result ≡ after_refusal self refusal }
    {
        match refusal {
            Refusal::TooLong | Refusal::NotUtf8 { .. } => self.closed(),
            _ => self,
        }
    }

    // The state that takes nothing more.
    fn closed(self) -> Parts
        ensures { result ≡ closed self }
    {
        Parts {
            ended: true,
            ..self
        }
    }

    // Whether a state takes nothing more.
    fn is_over(self) -> bool
        ensures { result ≡ is_over self }
    {
        self.ended || is_astray(self.lexing)
    }
}
