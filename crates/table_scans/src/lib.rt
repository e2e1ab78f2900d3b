// Scanning by the table: how far a string reaches after its opening. Each function takes the document and any place, and answers the
// place after, which beyond the end is that place itself. Rules: Extents.antt of crate `lexer_scans`; a run of bytes of one set is
// `class_run` of crate `table_classes` with that set.
// The loops of `lexer_scans` again: a trait of what both ask (four runs, four bytes, two triples) is longer than the three loops.
#![tactic(auto)]

ghost use Rattle.std.specs.Prelude.{◌≡◌, false, ◌+◌, ◌≤◌, length, drop};
ghost use Rattle.table_classes.specs.Classed.{byte_of};
ghost use Rattle.lexer_scans.specs.Extents.{line_tail, up_to_two, ml_tail};

use table_classes::{Set, Sign, class_run, is_at, is_triple};

// After the opening mark of a literal string.
pub fn literal_tail(doc: &[u8], start: usize) -> usize
    ensures { result ≡ start + line_tail 39 false (drop start doc.now) }
{
    let i = class_run(Set::InLiteral, doc, start);
    if is_at(doc, i, Sign::Apostrophe) {
        return i + 1;
    }
    i
}

// After the opening mark of a basic string.
pub fn basic_tail(doc: &[u8], start: usize) -> usize
    ensures { result ≡ start + line_tail 34 false (drop start doc.now) }
{
    let mut i = start;
    // no iterator: a turn goes over a run, and then over an escape
    while i < doc.len() {
        i = class_run(Set::InBasic, doc, i);
        if is_at(doc, i, Sign::QuotationMark) {
            return i + 1;
        }
        if !is_at(doc, i, Sign::Backslash) {
            return i;
        }
        if doc.len() - i < 2 {
            return doc.len();
        }
        if is_at(doc, i + 1, Sign::Lf) {
            return i + 1;
        }
        // over the escape and the byte that it hides
        i += 2;
    }
    i
}

// After the three opening marks of a multi-line literal string.
pub fn ml_literal_tail(doc: &[u8], start: usize) -> usize
    ensures { result ≡ start + ml_tail 39 false (drop start doc.now) }
{
    let mut i = start;
    // no iterator: a turn goes over a run, and then over a mark
    while i < doc.len() {
        i = class_run(Set::InMlLiteral, doc, i);
        if is_triple(doc, i, Sign::Apostrophe) {
            return over_marks(doc, i + 3, Sign::Apostrophe);
        }
        if i == doc.len() {
            return i;
        }
        i += 1;
    }
    i
}

// After the three opening marks of a multi-line basic string.
pub fn ml_basic_tail(doc: &[u8], start: usize) -> usize
    ensures { result ≡ start + ml_tail 34 false (drop start doc.now) }
{
    let mut i = start;
    // no iterator: a turn goes over a run, and then over a mark or an escape
    while i < doc.len() {
        i = class_run(Set::InMlBasic, doc, i);
        if is_triple(doc, i, Sign::QuotationMark) {
            return over_marks(doc, i + 3, Sign::QuotationMark);
        }
        if doc.len() - i < 2 {
            return doc.len();
        }
        // over a mark, or over an escape and the byte that it hides
        if is_at(doc, i, Sign::Backslash) {
            i += 2;
        } else {
            i += 1;
        }
    }
    i
}

// Over two marks at most.
fn over_marks(doc: &[u8], i: usize, sign: Sign) -> usize
    requires { i ≤ length doc.now }
    ensures { result ≡ i + up_to_two (byte_of sign) (drop i doc.now) }
{
    if is_at(doc, i, sign) {
        if is_at(doc, i + 1, sign) {
            return i + 2;
        }
        return i + 1;
    }
    i
}
