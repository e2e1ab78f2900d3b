// Scanning: how far a run of bytes, or a string after its opening, reaches. Each function that others call takes the
// document and any place, and answers the place after, which beyond the end is that place itself.
// Rules: specs/Extents.antt.
#![tactic(auto)]

ghost use Rattle.std.specs.Prelude.{◌≡◌, true, false, not, ◌+◌, ◌≤◌, ◌<◌, length, drop, get_or};
ghost use Rattle.text_classes.specs.Classes.{wschar};
ghost use Rattle.text_classes.specs.Runs.{run};
ghost use Rattle.text_classes.proofs.RunLaws.{SameEnd};
ghost use Rattle.lexer_scans.specs.Extents.{in_comment, in_atom, line_tail, up_to_two, ml_tail};
ghost use Rattle.lexer_scans.specs.Scans.{is_two, is_three, but_one, but_two, but_three, Clear};

mod search;

pub use search::{ButOne, ButThree, ButTwo, Passed, find, find_in_blocks};
use text_classes::{
    APOSTROPHE, ByteSet, ESCAPE, Not, QUOTATION_MARK, TokenStart, Wschar, is_at, is_triple, run_of,
};

// Over the spaces and tabs.
pub fn wschar_run(doc: &[u8], start: usize) -> usize
    ensures { result ≡ start + run wschar (drop start doc.now) }
{
    run_of(Wschar, doc, start)
}

// Over the bytes of an atom.
pub fn atom_run(doc: &[u8], start: usize) -> usize
    ensures { result ≡ start + run in_atom (drop start doc.now) }
{
    run_of(Not(TokenStart), doc, start)
}

// Over the bytes of a comment.
pub fn comment_run(doc: &[u8], start: usize) -> usize
    ensures { result ≡ start + run in_comment (drop start doc.now) }
{
    find(ButTwo(b'\r', b'\n'), doc, start)
}

// After the opening mark of a literal string.
pub fn literal_tail(doc: &[u8], start: usize) -> usize
    ensures { result ≡ start + line_tail 39 false (drop start doc.now) }
{
    let i = find(ButTwo(APOSTROPHE, b'\n'), doc, start);
    if is_at(doc, i, APOSTROPHE) {
        return i + 1;
    }
    i
}

// The bytes of a basic string that neither end it nor hide the next.
const PLAIN: ButThree = ButThree(QUOTATION_MARK, ESCAPE, b'\n');

// After the opening mark of a basic string.
pub fn basic_tail(doc: &[u8], start: usize) -> usize
    ensures { result ≡ start + line_tail 34 false (drop start doc.now) }
{
    let mut i = start;
    // no iterator: a turn goes over a run and then over escapes
    while i < doc.len() {
        i = find(PLAIN, doc, i);
        if is_at(doc, i, QUOTATION_MARK) {
            return i + 1;
        }
        if !is_at(doc, i, ESCAPE) {
            return i;
        }
        i = over_escapes(doc, i);
    }
    i
}

// From an escape on: over it and the byte that it hides, and over more of them as long as the next one is near. A place
// from which the search goes on.
fn over_escapes(doc: &[u8], start: usize) -> usize
    requires { (start < length doc.now) × (get_or doc.now start 0 ≡ 92) }
    ensures { (start < result) × SameEnd (line_tail 34 false) doc.now start result }
{
    let mut i = start;
    // no iterator: a turn goes over an escape and what is near it
    while i + 1 < doc.len() {
        if doc[i + 1] == b'\n' {
            return i + 1;
        }
        i = near(doc, i + 2);
        if !is_at(doc, i, ESCAPE) {
            return i;
        }
    }
    doc.len()
}

// Over sixteen bytes at most that are no mark, no escape and no LF, one by one and four to a turn: after an escape the
// next is often near, and a block would be read in vain. A place from which the search goes on.
// Four to a turn by hand: with `run_of` a string of escapes takes a tenth more instructions.
fn near(doc: &[u8], start: usize) -> usize
    requires { start ≤ length doc.now }
    ensures { (start ≤ result) × SameEnd (run (but_three 34 92 10)) doc.now start result }
{
    let mut i = start;
    for _ in 0..4 {
        if doc.len() - i < 4 {
            return i;
        }
        if ends_plain(doc[i]) {
            return i;
        }
        if ends_plain(doc[i + 1]) {
            return i + 1;
        }
        if ends_plain(doc[i + 2]) {
            return i + 2;
        }
        if ends_plain(doc[i + 3]) {
            return i + 3;
        }
        i += 4;
    }
    i
}

fn ends_plain(x: u8) -> bool
    ensures { result ≡ is_three 34 92 10 x }
{
    matches!(x, QUOTATION_MARK | ESCAPE | b'\n')
}

// After the three opening marks of a multi-line literal string.
pub fn ml_literal_tail(doc: &[u8], start: usize) -> usize
    ensures { result ≡ start + ml_tail 39 false (drop start doc.now) }
{
    let mut i = start;
    // no iterator: a turn goes over a run and then over a mark
    while i < doc.len() {
        i = find(ButOne(APOSTROPHE), doc, i);
        if is_triple(doc, i, APOSTROPHE) {
            return over_marks(doc, i + 3, APOSTROPHE);
        }
        if i == doc.len() {
            return i;
        }
        i += 1;
    }
    i
}

// After the three opening marks of a multi-line basic string.
pub fn ml_basic_tail(doc: &[u8], start: usize) -> usize
    ensures { result ≡ start + ml_tail 34 false (drop start doc.now) }
{
    let mut i = start;
    // no iterator: a turn goes over a run, and then over a mark or an escape
    while i < doc.len() {
        i = find(ButTwo(QUOTATION_MARK, ESCAPE), doc, i);
        if is_triple(doc, i, QUOTATION_MARK) {
            return over_marks(doc, i + 3, QUOTATION_MARK);
        }
        if doc.len() - i < 2 {
            return doc.len();
        }
        // over a mark, or over an escape and the byte that it hides
        if doc[i] == ESCAPE {
            i += 2;
        } else {
            i += 1;
        }
    }
    i
}

// Over two marks at most.
fn over_marks(doc: &[u8], i: usize, q: u8) -> usize
    requires { i ≤ length doc.now }
    ensures { result ≡ i + up_to_two q (drop i doc.now) }
{
    if is_at(doc, i, q) {
        if is_at(doc, i + 1, q) {
            return i + 2;
        }
        return i + 1;
    }
    i
}
