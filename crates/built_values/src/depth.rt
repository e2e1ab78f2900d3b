// How deep the brackets of a run are nested.
ghost use Rattle.std.specs.Prelude.{◌≡◌};
ghost use Rattle.built_values.specs.Answers.{kinds_of};
ghost use Rattle.built_values.specs.Told.{passes, deep_from};

use crate::kinds::{is_closing, is_opening, kind_at};
use lexer_token::Record;
use text_refusals::DEPTH;

// Do in some first part the opening brackets pass the closing ones by more than 64?
pub(crate) fn is_deep(records: &[Record]) -> bool
    ensures { result ≡ deep_from 0 0 (kinds_of records.now) }
{
    let mut opened: usize = 0;
    let mut closed: usize = 0;
    for i in 0..records.len() {
        let kind = kind_at(records, i);
        opened += usize::from(is_opening(kind));
        closed += usize::from(is_closing(kind));
        if passes(opened, closed) {
            return true;
        }
    }
    false
}

fn passes(opened: usize, closed: usize) -> bool
    ensures { result ≡ passes opened closed }
{
    DEPTH < opened.saturating_sub(closed)
}
