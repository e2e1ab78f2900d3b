// The second lexer: the calls of crate `lexer` under their names and with their promises, by the table of byte classes. A token's
// bytes are looked up, each in the table, and no range is tested; the refusals, the UTF-8 check, the loop over the document, the lines
// and the records are the first lexer's. A start reads no byte set: `Cursor::start` serves both.
// Rules: Steps.antt and Whole.antt of crate `lexer`.
#![tactic(auto)]

mod table;

ghost use Rattle.std.specs.Prelude.{◌≡◌, length};
ghost use Rattle.text_refusals.specs.Told.{told_number, told_value, told_length, told_count};
ghost use Rattle.lexer.specs.Steps.{step_of};
ghost use Rattle.lexer.specs.Whole.{lex_answer, lex_memory};
ghost use Rattle.lexer.specs.Told.{step_refusal, step_returned, lex_refusal, lex_returned, lex_fault};

use lexer::Cursor;
use lexer_token::{Record, Token};
pub use table::Table;
use text_refusals::Refusal;

// One token at the cursor, with the next cursor.
pub fn step(cursor: Cursor, doc: &[u8]) -> Result<Option<(Token, Cursor)>, Refusal>
    ensures answer { result ≡ step_of doc.now cursor }
    ensures number { told_number result ≡ step_refusal doc.now cursor }
    ensures value { told_value result ≡ step_returned doc.now cursor }
{
    cursor.step_by::<Table>(doc)
}

// Whole lexing: every token into the lent records, from the front.
pub fn lex(doc: &[u8], records: &mut [Record]) -> Result<usize, Refusal>
    ensures answer { result ≡ lex_answer doc.now (length records.old) }
    ensures number { told_number result ≡ lex_refusal doc.now (length records.old) }
    ensures value { told_count result ≡ lex_returned doc.now }
    ensures length { told_length result ≡ lex_fault doc.now }
    ensures memory { records.new ≡ lex_memory doc.now records.old }
{
    lexer::lex_by::<Table>(doc, records)
}
