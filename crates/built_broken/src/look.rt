// What the token at a place asks for, by its first byte, and where it ends. Lexing it makes no token: most are passed over.
// Rule: Table.antt of crate `lexer`.
ghost use Rattle.std.specs.Prelude.{◌<◌, ltb, ◌≡◌, true, length, drop, get_or};
ghost use Rattle.lexer_token.specs.declared.TokenKind.TheVariants.{Atom};
ghost use Rattle.lexer_scans.specs.Extents.{in_atom};
ghost use Rattle.lexer.specs.Table.{kind_of};
ghost use Rattle.decoder_rules.specs.declared.Edition.{Edition};
ghost use Rattle.built_broken.specs.Walk.{Looked};

use built_fronts::{Line, atom_front, line_front};
use decoder_rules::{Edition, Encoding};
use lexer_comments::{comment_front, is_comment_end};
use lexer_scans::{
    atom_run, basic_tail, comment_run, literal_tail, ml_basic_tail, ml_literal_tail, wschar_run,
};
use lexer_token::Span;
use text_classes::{APOSTROPHE, COMMENT_START_SYMBOL, QUOTATION_MARK, is_at, is_triple};

// What is to be asked of a token: nothing, as it is UTF-8 and has no error; whether it is UTF-8; or that, and what is wrong with it,
// decoded by an encoding.
#[derive(Clone, Copy, Debug, PartialEq, Eq)]
pub(crate) enum Asks {
    Nothing,
    Characters,
    Decoding(Encoding),
}

// That, and where the token ends.
#[derive(Clone, Copy, Debug, PartialEq, Eq)]
pub(crate) struct Look {
    pub asks: Asks,
    pub end: usize,
}

// Document and place stay parameters here, as in crate `lexer`, which says why.
pub(crate) fn look_at(v: Edition, doc: &[u8], at: usize) -> Look
    requires { at < length doc.now }
    ensures { Looked v at (drop at doc.now) result }
{
    let b = doc[at];
    match b {
        b'.' | b'=' | b',' | b'[' | b']' | b'{' | b'}' | b'\n' => seen(Asks::Nothing, at + 1),
        b' ' | b'\t' => seen(Asks::Nothing, wschar_run(doc, at + 1)),
        b'\r' => {
            if is_at(doc, at + 1, b'\n') {
                seen(Asks::Nothing, at + 2)
            } else {
                seen(Asks::Nothing, at + 1)
            }
        }
        COMMENT_START_SYMBOL => look_comment(doc, at),
        APOSTROPHE => look_literal(doc, at),
        QUOTATION_MARK => look_basic(v, doc, at),
        _ => look_atom(doc, at),
    }
}

// At a comment's sign: most comments are found to be UTF-8 where their end is looked for. Any other is asked for it as a whole.
fn look_comment(doc: &[u8], at: usize) -> Look
    requires { (at < length doc.now) × (get_or doc.now at 0 ≡ 35) }
    ensures { (v : Edition) → Looked v at (drop at doc.now) result }
{
    let i = comment_front(doc, at + 1);
    if is_comment_end(doc, i) {
        return seen(Asks::Nothing, i);
    }
    seen(Asks::Characters, comment_run(doc, i))
}

// At a byte that begins no other token: most atoms are ASCII, and are found to be so where their end is looked for.
fn look_atom(doc: &[u8], at: usize) -> Look
    requires { (at < length doc.now) × (kind_of (drop at doc.now) ≡ Atom) × (in_atom (get_or doc.now at 0) ≡ true) }
    ensures { (v : Edition) → Looked v at (drop at doc.now) result }
{
    let end = atom_front(doc, at);
    if is_ascii_at(doc, end) {
        return seen(Asks::Nothing, end);
    }
    seen(Asks::Characters, atom_run(doc, at + 1))
}

// Does ASCII stand at place i, or nothing?
fn is_ascii_at(doc: &[u8], i: usize) -> bool
    ensures { result ≡ ltb (get_or doc.now i 0) 0x80 }
{
    doc.get(i).is_none_or(|b| *b < 0x80)
}

// At an apostrophe: three of them open the multi-line kind. Most strings on one line have no error, and are found to be so where their
// closing mark is looked for.
fn look_literal(doc: &[u8], at: usize) -> Look
    requires { (at < length doc.now) × (get_or doc.now at 0 ≡ 39) }
    ensures { (v : Edition) → Looked v at (drop at doc.now) result }
{
    if is_triple(doc, at, APOSTROPHE) {
        let end = ml_literal_tail(doc, at + Span::ML_MARK);
        return seen(Asks::Decoding(Encoding::MlLiteralString), end);
    }
    let i = line_front(Line::Literal, doc, at + Span::MARK);
    if is_at(doc, i, APOSTROPHE) {
        return seen(Asks::Nothing, i + 1);
    }
    let end = literal_tail(doc, at + Span::MARK);
    seen(Asks::Decoding(Encoding::LiteralString), end)
}

// At a quotation mark: the same.
fn look_basic(v: Edition, doc: &[u8], at: usize) -> Look
    requires { (at < length doc.now) × (get_or doc.now at 0 ≡ 34) }
    ensures { Looked v at (drop at doc.now) result }
{
    if is_triple(doc, at, QUOTATION_MARK) {
        let end = ml_basic_tail(doc, at + Span::ML_MARK);
        return seen(Asks::Decoding(Encoding::MlBasicString(v)), end);
    }
    let i = line_front(Line::Basic, doc, at + Span::MARK);
    if is_at(doc, i, QUOTATION_MARK) {
        return seen(Asks::Nothing, i + 1);
    }
    let end = basic_tail(doc, at + Span::MARK);
    seen(Asks::Decoding(Encoding::BasicString(v)), end)
}

fn seen(asks: Asks, end: usize) -> Look
    ensures { (result.asks ≡ asks) × (result.end ≡ end) }
{
    Look { asks, end }
}
