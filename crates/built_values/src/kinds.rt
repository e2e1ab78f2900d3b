// The kinds of token records, and runs of them that a rule of TOML takes whole.
ghost use Rattle.std.specs.Prelude.{◌≡◌, ◌&&◌, ◌||◌, eqb, ◌+◌, ◌<◌, ◌≤◌, length, drop, get_or};
ghost use Rattle.text_classes.specs.Runs.{stands};
ghost use Rattle.lexer_token.specs.KindNumbers.{kind_number};
ghost use Rattle.lexer_token.specs.declared.TokenKind.TheVariants.{Whitespace, Comment, Newline};
ghost use Rattle.built_values.specs.Depth.{is_opening, is_closing};
ghost use Rattle.built_values.specs.Answers.{kinds_of};
ghost use Rattle.built_values.specs.Checkers.{is_string, is_scalar_part, is_simple_key, in_run, past};

use lexer_token::{Record, TokenKind};

// A run of tokens that a rule takes whole.
#[derive(Clone, Copy)]
pub enum Run {
    // ws
    Blanks,
    // ws-comment-newline
    Lines,
    // the atoms and dots of a scalar
    Parts,
}

// The number of the kind at place i.
pub(crate) fn kind_at(records: &[Record], i: usize) -> usize
    requires { i < length (kinds_of records.now) }
    ensures { result ≡ get_or (kinds_of records.now) i 0 }
{
    records[i][0]
}

// Does a token of a kind stand at place i?
pub(crate) fn is_at(records: &[Record], i: usize, kind: usize) -> bool
    ensures { result ≡ stands kind (drop i (kinds_of records.now)) }
{
    i < records.len() && kind_at(records, i) == kind
}

// `[` or `{`
pub(crate) fn is_opening(kind: usize) -> bool
    ensures { result ≡ is_opening kind }
{
    kind == TokenKind::LEFT_SQUARE_BRACKET || kind == TokenKind::LEFT_CURLY_BRACKET
}

// `]` or `}`
pub(crate) fn is_closing(kind: usize) -> bool
    ensures { result ≡ is_closing kind }
{
    kind == TokenKind::RIGHT_SQUARE_BRACKET || kind == TokenKind::RIGHT_CURLY_BRACKET
}

// string
pub(crate) fn is_string(kind: usize) -> bool
    ensures { result ≡ is_string kind }
{
    kind == TokenKind::ML_LITERAL_STRING
        || kind == TokenKind::ML_BASIC_STRING
        || kind == TokenKind::BASIC_STRING
        || kind == TokenKind::LITERAL_STRING
}

// a part of a scalar
pub(crate) fn is_scalar_part(kind: usize) -> bool
    ensures { result ≡ is_scalar_part kind }
{
    kind == TokenKind::ATOM || kind == TokenKind::DOT
}

// simple-key
pub(crate) fn is_simple_key(kind: usize) -> bool
    ensures { result ≡ is_simple_key kind }
{
    kind == TokenKind::ATOM || kind == TokenKind::BASIC_STRING || kind == TokenKind::LITERAL_STRING
}

// Does the token at place i belong to the run? A comment does only with its newline after it.
fn is_in(run: Run, records: &[Record], i: usize) -> bool
    requires { i < length (kinds_of records.now) }
    ensures { result ≡ in_run run (get_or (kinds_of records.now) i 0) (drop (i + 1) (kinds_of records.now)) }
{
    let kind = kind_at(records, i);
    match run {
        Run::Blanks => kind == TokenKind::WHITESPACE,
        Run::Lines => is_line_part(kind, is_at(records, i + 1, TokenKind::NEWLINE)),
        Run::Parts => is_scalar_part(kind),
    }
}

// wschar / [ comment ] newline, where `ended` says whether a newline follows
fn is_line_part(kind: usize, ended: bool) -> bool
    ensures { result
        ≡ (eqb kind (kind_number Whitespace) || (eqb kind (kind_number Newline) || eqb kind (kind_number Comment) && ended)) }
{
    kind == TokenKind::WHITESPACE
        || kind == TokenKind::NEWLINE
        || kind == TokenKind::COMMENT && ended
}

// The first place from `at` on that does not belong to the run.
pub(crate) fn skip(run: Run, records: &[Record], at: usize) -> usize
    requires { at ≤ length (kinds_of records.now) }
    ensures left { drop result (kinds_of records.now) ≡ past run (drop at (kinds_of records.now)) }
    ensures place { (at ≤ result) × (result ≤ length (kinds_of records.now)) }
{
    for i in at..records.len() {
        if !is_in(run, records, i) {
            return i;
        }
    }
    records.len()
}
