// Is a run of tokens one value? Its brackets, commas, comments and newlines are held to the rules of TOML; what its
// tokens hold is not looked at. Rules: specs/Values.antt, Depth.antt, Answers.antt.
#![tactic(auto)]

ghost use Rattle.built_values.specs.Answers.{kinds_of, Judged, ValueAnswer};
ghost use Rattle.text_refusals.specs.Told.{told_number, told_value};
ghost use Rattle.built_values.specs.Told.{value_refusal, value_returned};
ghost use Rattle.std.specs.Prelude.{◌≡◌};
ghost use Rattle.decoder_rules.specs.Encodings.{edition_number};
ghost use Rattle.decoder_rules.specs.declared.Edition.TheVariants.{Toml10};

mod check;
mod depth;
mod kinds;

use crate::check::value;
use crate::depth::is_deep;
use decoder_rules::Edition;
use lexer_token::Record;
use text_refusals::Refusal;

// Are the records from `start` up to `end`, which is not included, one value by TOML 1.0?
pub fn is_value(records: &[Record], start: usize, end: usize) -> Result<bool, Refusal>
    ensures answer { ValueAnswer records.now (edition_number Toml10) start end result }
    ensures number { told_number result ≡ value_refusal records.now (edition_number Toml10) start end }
    ensures value { told_value result ≡ value_returned records.now (edition_number Toml10) start end }
{
    is_value_in(records, Edition::TOML_10, start, end)
}

// The same by the edition that has a number, 10 or 11.
pub fn is_value_in(
    records: &[Record],
    edition: usize,
    start: usize,
    end: usize,
) -> Result<bool, Refusal>
    ensures answer { ValueAnswer records.now edition start end result }
    ensures number { told_number result ≡ value_refusal records.now edition start end }
    ensures value { told_value result ≡ value_returned records.now edition start end }
{
    let n = records.len();
    if n < end {
        return Err(Refusal::OutOfPlace { length: n });
    }
    if end < start {
        return Err(Refusal::OutOfPlace { length: n });
    }
    judge(Edition::try_from(edition)?, &records[start..end])
}

// Is the whole run one value? Its depth is looked at first, so that what is nested is not followed deeper.
fn judge(v: Edition, run: &[Record]) -> Result<bool, Refusal>
    ensures { Judged v (kinds_of run.now) result }
{
    if is_deep(run) {
        return Err(Refusal::TooDeep);
    }
    let Some(end) = value(v, run, 0, 0) else {
        return Ok(false);
    };
    Ok(end == run.len())
}
