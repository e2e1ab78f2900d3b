// Is there a value, and where does it end? Each answers the place after the text of its rule, where there is one. A function for each rule of TOML's grammar: `value`, `array`, `inline_table`
// and `keyval` call one another. `level` is how many brackets are open: each array and inline table adds one for its
// items, and it never passes 64, so that the stack is bounded. Commas are steps of a loop, and cost no stack.
ghost use Rattle.std.specs.Prelude.{◌≡◌, true, false, ◌&&◌, eqb, ◌+◌, ◌<◌, ◌≤◌, length, drop};
ghost use Rattle.text_classes.specs.Runs.{stands};
ghost use Rattle.lexer_token.specs.KindNumbers.{kind_number};
ghost use Rattle.lexer_token.specs.declared.TokenKind.TheVariants.{LeftSquareBracket, LeftCurlyBracket, RightCurlyBracket, Whitespace};
ghost use Rattle.built_values.specs.Values.{Val, Keyval, Key, Spaced, Array, InlineTable};
ghost use Rattle.built_values.specs.Answers.{kinds_of};
ghost use Rattle.built_values.specs.Checkers.{table_run, last_comma, Finds, Follows, NoPart, NoDot, NoBlank, Inside};

// A place is an index of the whole run, and not what is left of it, since `Inside` counts the brackets of all of it.

use crate::kinds::{Run, is_at, is_scalar_part, is_simple_key, is_string, kind_at, skip};
use decoder_rules::Edition;
use lexer_token::{Record, TokenKind};

// What follows an item of an array or an inline table, with the place after it.
// Two ways to go on: no Result, since neither is a failure.
#[derive(Clone, Copy)]
pub enum After {
    Closed(usize),
    Separated(usize),
}

// ws mark ws
fn spaced(mark: usize, records: &[Record], at: usize) -> Option<usize>
    requires { (at ≤ length (kinds_of records.now)) × (eqb mark (kind_number Whitespace) ≡ false) }
    ensures { Finds (Spaced mark) NoBlank (kinds_of records.now) at result }
{
    let a = skip(Run::Blanks, records, at);
    if is_at(records, a, mark) {
        return Some(skip(Run::Blanks, records, a + 1));
    }
    None
}

// key = simple-key / dotted-key
fn key(records: &[Record], at: usize) -> Option<usize>
    requires { at ≤ length (kinds_of records.now) }
    ensures { Finds Key NoDot (kinds_of records.now) at result }
{
    let mut p = at;
    // no iterator: a turn goes over an item of several records
    while p < records.len() {
        if !is_simple_key(kind_at(records, p)) {
            return None;
        }
        let Some(next) = spaced(TokenKind::DOT, records, p + 1) else {
            return Some(p + 1);
        };
        p = next;
    }
    None
}

// What stands after the run that follows an item.
fn after_item(run: Run, close: usize, records: &[Record], at: usize) -> Option<After>
    requires { at ≤ length (kinds_of records.now) }
    ensures { Follows run close (kinds_of records.now) at result }
{
    let a = skip(run, records, at);
    if is_at(records, a, close) {
        return Some(After::Closed(a + 1));
    }
    if is_at(records, a, TokenKind::COMMA) {
        return Some(After::Separated(a + 1));
    }
    None
}

// What may stand between the tokens of an inline table.
fn table_run(v: Edition) -> Run
    ensures { result ≡ table_run v }
{
    match v {
        Edition::Toml10 => Run::Blanks,
        Edition::Toml11 => Run::Lines,
    }
}

// Does the closing bracket of an inline table stand at place i, where it may?
fn is_shut(shuts: bool, records: &[Record], i: usize) -> bool
    ensures { result ≡ (shuts && stands (kind_number RightCurlyBracket) (drop i (kinds_of records.now))) }
{
    shuts && is_at(records, i, TokenKind::RIGHT_CURLY_BRACKET)
}

// May a comma be the last in an inline table?
// By the edition: edit last_comma_in_ten changes an arm.
fn last_comma(v: Edition) -> bool
    ensures { result ≡ last_comma v }
{
    match v {
        Edition::Toml10 => false,
        Edition::Toml11 => true,
    }
}

// val = string / scalar / array / inline-table
#[cycle(array_inline_table_keyval_value)]
pub(crate) fn value(v: Edition, records: &[Record], at: usize, level: usize) -> Option<usize>
    requires { Inside (kinds_of records.now) at level }
    ensures { Finds (Val v) NoPart (kinds_of records.now) at result }
{
    if records.len() <= at {
        return None;
    }
    let kind = kind_at(records, at);
    if is_string(kind) {
        return Some(at + 1);
    }
    if is_scalar_part(kind) {
        return Some(skip(Run::Parts, records, at + 1));
    }
    if kind == TokenKind::LEFT_SQUARE_BRACKET {
        return array(v, records, at, level);
    }
    if kind == TokenKind::LEFT_CURLY_BRACKET {
        return inline_table(v, records, at, level);
    }
    None
}

// keyval = key keyval-sep val
#[cycle(array_inline_table_keyval_value)]
fn keyval(v: Edition, records: &[Record], at: usize, level: usize) -> Option<usize>
    requires { Inside (kinds_of records.now) at level }
    ensures { Finds (Keyval v) NoPart (kinds_of records.now) at result }
{
    let after_key = key(records, at)?;
    let after_sep = spaced(TokenKind::EQUALS, records, after_key)?;
    value(v, records, after_sep, level)
}

// array = array-open [ array-values ] ws-comment-newline array-close
#[cycle(array_inline_table_keyval_value)]
fn array(v: Edition, records: &[Record], at: usize, level: usize) -> Option<usize>
    requires { Inside (kinds_of records.now) at level
        × (stands (kind_number LeftSquareBracket) (drop at (kinds_of records.now)) ≡ true) }
    ensures { Finds (Array v) NoPart (kinds_of records.now) at result }
{
    let mut p = at + 1;
    // no iterator: a turn goes over an item of several records
    while p < records.len() {
        let a = skip(Run::Lines, records, p);
        if is_at(records, a, TokenKind::RIGHT_SQUARE_BRACKET) {
            return Some(a + 1);
        }
        let b = value(v, records, a, level + 1)?;
        let after = after_item(Run::Lines, TokenKind::RIGHT_SQUARE_BRACKET, records, b)?;
        match after {
            After::Closed(end) => return Some(end),
            After::Separated(next) => p = next,
        }
    }
    None
}

// inline-table = inline-table-open [ inline-table-keyvals ] inline-table-close
#[cycle(array_inline_table_keyval_value)]
fn inline_table(v: Edition, records: &[Record], at: usize, level: usize) -> Option<usize>
    requires { Inside (kinds_of records.now) at level
        × (stands (kind_number LeftCurlyBracket) (drop at (kinds_of records.now)) ≡ true) }
    ensures { Finds (InlineTable v) NoPart (kinds_of records.now) at result }
{
    let run = table_run(v);
    let mut shuts = true;
    let mut p = at + 1;
    // no iterator: a turn goes over an item of several records
    while p < records.len() {
        let a = skip(run, records, p);
        if is_shut(shuts, records, a) {
            return Some(a + 1);
        }
        let b = keyval(v, records, a, level + 1)?;
        let after = after_item(run, TokenKind::RIGHT_CURLY_BRACKET, records, b)?;
        match after {
            After::Closed(end) => return Some(end),
            After::Separated(next) => p = next,
        }
        shuts = last_comma(v);
    }
    None
}
