// A body, read piece by piece and by value, as a document is by a cursor. Rule: `piece_of` in Bodies.antt of crate
// `decoder_rules`. What a step answers is said in specs/Steps.antt, and what the steps together come to in specs/Walks.antt.
ghost use Rattle.std.specs.Prelude.{◌≡◌};
ghost use Rattle.decoder_pieces.specs.Steps.{body_bytes, body_step, body_past};

use crate::engine::Bytes;
use crate::piece_at;
use crate::ranges::Ranges;
use crate::string::Left;
use decoder_rules::{Encoding, Piece};

// What is still to be read of a text's body: the bytes from place `at` of the text to `end`, as far as the text has them;
// and whether they are within a line-ending escape, which drops blanks.
#[derive(Clone, Copy, Debug, PartialEq, Eq)]
pub struct Body {
    pub at: usize,
    pub end: usize,
    pub dropping: bool,
}

impl Body {
    // The first piece and the body after it, or none where no byte is left. It answers for every body, one that ends past the text among them.
    pub fn step(self, e: Encoding, text: &[u8]) -> Option<(Piece, Body)>
        ensures { result ≡ body_step e text.now self }
    {
        self.step_by::<Ranges>(e, text)
    }

    // The same by any engine.
    #[tactic(auto, using(crate::proofs::StepLaws::step_none))]
    pub fn step_by<E: Bytes>(self, e: Encoding, text: &[u8]) -> Option<(Piece, Body)>
        ensures { result ≡ body_step e text.now self }
    {
        let at = self.at;
        let end = self.end;
        let s = self.bytes(text);
        if s.len() == 0 {
            return None;
        }
        let p = piece_at::<E>(e, self.dropping, Left { s, at });
        let next = Body {
            at: at + p.take,
            end: end,
            dropping: p.dropping,
        };
        Some((p, next))
    }

    // The body after n of its bytes, where no line-ending escape goes on. Past the last number it begins there.
    pub fn past(self, n: usize) -> Body
        ensures { result ≡ body_past self n }
    {
        Body {
            at: self.at.saturating_add(n),
            end: self.end,
            dropping: false,
        }
    }

    // The bytes of the body. A piece that copies gives the first of them.
    #[tactic(auto, using(crate::proofs::StepLaws::to_the_end))]
    pub fn bytes(self, text: &[u8]) -> &[u8]
        ensures { result.now ≡ body_bytes self text.now }
    {
        let at = self.at;
        let end = self.end;
        if end <= at {
            return &text[..0];
        }
        if end <= text.len() {
            return &text[at..end];
        }
        if at <= text.len() {
            return &text[at..];
        }
        &text[..0]
    }
}
