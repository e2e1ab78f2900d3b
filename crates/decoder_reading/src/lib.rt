// How much a body gives: its pieces read and counted, by any engine that reads bytes (crate `decoder_pieces`).
#![tactic(auto)]

ghost use Rattle.std.specs.Prelude.{◌≡◌, List, ℕ, ◌≤◌, length};
ghost use Rattle.decoder_rules.specs.Pieces.{gives, notes_of};
ghost use Rattle.decoder_rules.proofs.Fine.{Encodable};
ghost use Rattle.decoder_reading.specs.Reading.{counts_of};

use decoder_pieces::{Body, Bytes};
use decoder_rules::{Encoding, Given, Piece, Wrong};
use text_scalars::encode;

// How many bytes, and how many errors.
#[derive(Clone, Copy, Debug, PartialEq, Eq)]
pub struct Counts {
    pub bytes: usize,
    pub errors: usize,
}

// How many errors a verdict has.
pub fn noted(verdict: Option<Wrong>) -> usize
    ensures { result ≡ length (notes_of verdict) }
{
    match verdict {
        None => 0,
        Some(_) => 1,
    }
}

// How many bytes the pieces of the body `start` give, and how many errors they have.
pub fn count<E: Bytes>(e: Encoding, start: Body, text: &[u8]) -> Counts
    ensures { result ≡ counts_of e text.now start }
{
    let mut body = start;
    let mut bytes = 0;
    let mut errors = 0;
    while let Some((p, next)) = body.step_by::<E>(e, text) {
        bytes += width(p);
        errors += noted(p.verdict);
        body = next;
    }
    Counts { bytes, errors }
}

// How many bytes the piece gives.
fn width(p: Piece) -> usize
    requires { Encodable p.given }
    ensures { (s : List ℕ) → p.take ≤ length s → result ≡ length (gives p s) }
{
    let g = p.given;
    match g {
        Given::Copy => p.take,
        Given::Char(c) => encode(c).len,
        Given::Nothing => 0,
    }
}
