// `write_value`: the shortest literal or basic string that has a value, into lent memory.
// Rule: specs/Writing.antt.
#![tactic(auto)]

ghost use Rattle.std.specs.Prelude.{◌≡◌, ◌+◌, ◌≤◌, length};
ghost use Rattle.text_refusals.specs.Refusals.{limit};
ghost use Rattle.text.specs.Told.{check_fault};
ghost use Rattle.built_writing.specs.Writing.{spelt, literal_text, basic_text, written, write_answer, written_after};
ghost use Rattle.text_refusals.specs.Told.{told_number, told_count, told_length};
ghost use Rattle.built_writing.specs.Told.{write_refusal, write_returned};
ghost use Rattle.built_writing.specs.WroteText.{WroteText};
ghost use Rattle.built_writing.specs.Measured.{Planned, fitting};
ghost use Rattle.decoder_rules.proofs.StoreLaws.{Stored};

mod spell;
mod weigh;

use crate::spell::{put, put_body};
use crate::weigh::{count, measure_front};
use decoder_rules::Encoding;
use decoder_scans::plain_run;
use text::check_utf8;
use text_refusals::Refusal;

// Writes the shortest text that TOML 1.0.0 derives as a literal or basic string with the value: a literal string where
// there is one, else the basic string with the fewest and then the smallest bytes. It goes to the front of the output;
// what follows it stays. The answer is how many bytes it has. A call that is refused writes nothing.
pub fn write_value(value: &[u8], output: &mut [u8]) -> Result<usize, Refusal>
    ensures answer { result ≡ write_answer value.now (length output.old) }
    ensures output { output.new ≡ written_after result (written value.now) output.old }
    ensures number { told_number result ≡ write_refusal value.now (length output.old) }
    ensures returned { told_count result ≡ write_returned value.now (length output.old) }
    ensures length { told_length result ≡ check_fault value.now }
{
    check_utf8(value)?;
    write_checked(value, output)
}

// A value that passed the check. What is to be written is known before the first byte is written, after one pass.
fn write_checked(value: &[u8], output: &mut [u8]) -> Result<usize, Refusal>
    requires { length value.now ≤ limit }
    ensures { WroteText (written value.now) output.old result output.new }
{
    match plan_of(value, output.len())? {
        Plan::Literal => Ok(write_literal(value, output)),
        Plan::Basic => Ok(write_basic(value, output)),
    }
}

// Which kind of string is written.
#[derive(Clone, Copy, Debug, PartialEq, Eq)]
pub(crate) enum Plan {
    Literal,
    Basic,
}

// A literal string where every byte of the value may stand in one. Nothing is counted where the output cannot be too short:
// no byte is written with more than six.
fn plan_of(value: &[u8], room: usize) -> Result<Plan, Refusal>
    requires { length value.now ≤ limit }
    ensures { Planned value.now room result }
{
    if room < 6 * value.len() + 2 {
        return plan_counted(value, room);
    }
    if plain_run(Encoding::LiteralString, value) == value.len() {
        Ok(Plan::Literal)
    } else {
        Ok(Plan::Basic)
    }
}

fn plan_counted(value: &[u8], room: usize) -> Result<Plan, Refusal>
    requires { length value.now ≤ limit }
    ensures { Planned value.now room result }
{
    let front = measure_front(value);
    if front.rest.len() == 0 {
        return fitting(Plan::Literal, value.len() + 2, room);
    }
    fitting(Plan::Basic, front.bytes + count(front.rest) + 2, room)
}

// The plan, where the n bytes that it writes fit.
fn fitting(plan: Plan, needed: usize, room: usize) -> Result<Plan, Refusal>
    ensures { result ≡ fitting plan needed room }
{
    if room < needed {
        return Err(Refusal::ShortOutput { needed });
    }
    Ok(plan)
}

fn write_literal(value: &[u8], output: &mut [u8]) -> usize
    requires { (length value.now ≤ limit) × (length value.now + 2 ≤ length output.old) }
    ensures { Stored output.old 0 (literal_text value.now) result output.new }
{
    output[0] = b'\'';
    let end = put(value, output, 1);
    output[end] = b'\'';
    end + 1
}

fn write_basic(value: &[u8], output: &mut [u8]) -> usize
    requires { (length value.now ≤ limit) × (length (spelt value.now) + 2 ≤ length output.old) }
    ensures { Stored output.old 0 (basic_text value.now) result output.new }
{
    output[0] = b'"';
    let end = put_body(value, output, 1);
    output[end] = b'"';
    end + 1
}
