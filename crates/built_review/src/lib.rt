// Two reviewers tick off the tokens of one document. Beside the token records lies a lent table of marks, a byte for
// each record, in which each reviewer has a bit. What the records hold does not matter here: only how many there are.
// Rule: specs/Review.antt.
#![tactic(auto)]

ghost use Rattle.std.specs.Prelude.{◌≡◌, cond, ◌^◌, ◌≤◌, length, eqb, not, bit_and};
ghost use Rattle.built_review.specs.Review.{mark_answer, marks_with, ticked_marks, unticked_marks, read_answer, count_answer};
ghost use Rattle.built_review.specs.Told.{mark_refusal, mark_returned, read_returned, count_refusal, count_returned};
ghost use Rattle.text_refusals.specs.Told.{told_number, told_value, told_count, told_flag};

use lexer_token::Record;
use text_classes::{ByteSet, count_of};
use text_refusals::Refusal;

// The entries in which a bit is set.
#[derive(Clone, Copy)]
struct Ticked {
    bit: u8,
}

impl ByteSet for Ticked {
    ghost holds = { λ set b. not (eqb (bit_and b set.bit) 0) };

    fn holds(self, b: u8) -> bool {
        b & self.bit != 0
    }
}

// Sets the reviewer's bit of a token.
pub fn tick(
    records: &[Record],
    marks: &mut [u8],
    reviewer: usize,
    token: usize,
) -> Result<(), Refusal>
    ensures answer { result ≡ mark_answer (length records.now) (length marks.old) reviewer token }
    ensures number { told_number result ≡ mark_refusal (length records.now) (length marks.old) reviewer token }
    ensures value { told_value result ≡ mark_returned (length records.now) (length marks.old) reviewer token }
    ensures memory { marks.new ≡ ticked_marks (length records.now) marks.old reviewer token }
{
    put_tick(records.len(), marks, reviewer, token, true)
}

// Clears the reviewer's bit of a token.
pub fn untick(
    records: &[Record],
    marks: &mut [u8],
    reviewer: usize,
    token: usize,
) -> Result<(), Refusal>
    ensures answer { result ≡ mark_answer (length records.now) (length marks.old) reviewer token }
    ensures number { told_number result ≡ mark_refusal (length records.now) (length marks.old) reviewer token }
    ensures value { told_value result ≡ mark_returned (length records.now) (length marks.old) reviewer token }
    ensures memory { marks.new ≡ unticked_marks (length records.now) marks.old reviewer token }
{
    put_tick(records.len(), marks, reviewer, token, false)
}

// Is the reviewer's bit of a token set?
pub fn is_ticked(
    records: &[Record],
    marks: &[u8],
    reviewer: usize,
    token: usize,
) -> Result<bool, Refusal>
    ensures answer { result ≡ read_answer (length records.now) marks.now reviewer token }
    ensures number { told_number result ≡ mark_refusal (length records.now) (length marks.now) reviewer token }
    ensures value { told_flag result ≡ read_returned (length records.now) marks.now reviewer token }
{
    serve(records.len(), marks.len(), reviewer, token)?;
    let ticked = Ticked {
        bit: own_bit(reviewer),
    };
    Ok(ticked.holds(marks[token]))
}

// How many bits of the reviewer's are set over the records. What the table has beyond them does not count.
pub fn ticks(records: &[Record], marks: &[u8], reviewer: usize) -> Result<usize, Refusal>
    ensures answer { result ≡ count_answer (length records.now) marks.now reviewer }
    ensures number { told_number result ≡ count_refusal (length records.now) (length marks.now) reviewer }
    ensures value { told_count result ≡ count_returned (length records.now) marks.now reviewer }
{
    if 1 < reviewer {
        return Err(Refusal::NoReviewer { number: reviewer });
    }
    if marks.len() < records.len() {
        return Err(Refusal::FewMarks {
            needed: records.len(),
        });
    }
    let ticked = Ticked {
        bit: own_bit(reviewer),
    };
    Ok(count_of(ticked, &marks[..records.len()]))
}

// Sets the reviewer's bit of a token, or clears it.
fn put_tick(
    records: usize,
    marks: &mut [u8],
    reviewer: usize,
    token: usize,
    ticked: bool,
) -> Result<(), Refusal>
    ensures answer { result ≡ mark_answer records (length marks.old) reviewer token }
    ensures memory { marks.new ≡ marks_with (cond ticked 1 0) records marks.old reviewer token }
{
    serve(records, marks.len(), reviewer, token)?;
    let bit = own_bit(reviewer);
    let mark = marks[token];
    let byte = if ticked { mark | bit } else { mark & !bit };
    marks[token] = byte;
    Ok(())
}

// Whether a call on a token is served, by the number of records and of the table's entries.
fn serve(records: usize, entries: usize, reviewer: usize, token: usize) -> Result<(), Refusal>
    ensures { result ≡ mark_answer records entries reviewer token }
{
    if 1 < reviewer {
        return Err(Refusal::NoReviewer { number: reviewer });
    }
    if records <= token {
        return Err(Refusal::OutOfPlace { length: records });
    }
    if entries < records {
        return Err(Refusal::FewMarks { needed: records });
    }
    Ok(())
}

// The byte in which the reviewer's bit alone is set.
fn own_bit(reviewer: usize) -> u8
    requires { reviewer ≤ 1 }
    ensures { result ≡ 2 ^ reviewer }
{
    if reviewer == 0 { 1 } else { 2 }
}
