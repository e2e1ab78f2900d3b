// The first error of a text: its marks' first, the opening's and then the closing's, and then its body's. What surely has no
// error is passed over without a piece being made; at the first error the walk stops.
ghost use Rattle.std.specs.Prelude.{◌≡◌, ◌+◌, ◌<◌, ◌≤◌, length, take, IfSome};
ghost use Rattle.decoder_rules.specs.Pieces.{notes_of};
ghost use Rattle.decoder_rules.specs.Decoding.{errors_of};
ghost use Rattle.decoder_pieces.specs.Steps.{body_bytes, errors_left};
ghost use Rattle.built_broken.specs.Walk.{CleanFront};

use decoder_marks::open_text;
use decoder_pieces::{Body, escape_at};
use decoder_rules::{Encoding, Wrong};
use decoder_scans::{plain_few, plain_run};

// The run of bytes at the front of the body that stand for themselves, which most often is all of it, is passed over at once.
pub(crate) fn first_error(e: Encoding, text: &[u8]) -> Option<Wrong>
    ensures { notes_of result ≡ take 1 (errors_of e text.now) }
{
    let opened = open_text(e, text);
    if let Some(wrong) = opened.opening.or(opened.closing) {
        return Some(wrong);
    }
    let body = opened.body;
    let at = body.at;
    let end = body.end;
    let n = plain_run(e, &text[at..end]);
    error_from(e, body.past(n), text)
}

// The first error of the body `start`.
fn error_from(e: Encoding, start: Body, text: &[u8]) -> Option<Wrong>
    requires { start.end ≤ length text.now }
    ensures { notes_of result ≡ take 1 (errors_left e text.now start) }
{
    let mut body = start;
    // no iterator: a turn goes over a piece, or over bytes that surely have no error
    while body.at < body.end {
        if let Some(n) = clean_front(e, body, text) {
            body = body.past(n);
            continue;
        }
        let (piece, next) = body.step(e, text)?;
        if let Some(wrong) = piece.verdict {
            return Some(wrong);
        }
        body = next;
    }
    None
}

// How many bytes at the front of the body are a short run of bytes that stand for themselves, or an escape that stands for a
// character; None for any other piece, which a step takes.
#[tactic(auto, using(crate::proofs::ErrorLaws::escape_front))]
fn clean_front(e: Encoding, body: Body, text: &[u8]) -> Option<usize>
    requires { (body.at < body.end) × (body.end ≤ length text.now) }
    ensures { IfSome result (λ n. CleanFront e body (body_bytes body text.now) n) }
{
    let at = body.at;
    let end = body.end;
    let s = &text[at..end];
    if !body.dropping {
        let few = plain_few(e, s);
        if few == 8 {
            return None;
        }
        if 0 < few {
            return Some(few);
        }
    }
    escape_at(e, s).map(|escape| escape.take)
}
