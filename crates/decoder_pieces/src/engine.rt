// How the bytes of a body are looked at, and what a loop over its pieces may read ahead of them. The decoders of string.rt and the loops of
// crates `decoder_reading` and `decoder_writing` are written once, over any engine: `Ranges` of ranges.rt tests ranges, and `Table` of
// crate `table_pieces` looks each byte up in a table.
ghost use Rattle.std.specs.Prelude.{◌≡◌, ℕ, ◌+◌, Bool, List, Option, drop, IfSome};
ghost use Rattle.text_classes.specs.Classes.{wschar};
ghost use Rattle.text_classes.specs.Runs.{run, first_is, stands};
ghost use Rattle.decoder_rules.specs.Encodings.{plain, basic_invalid, mlb_invalid};
ghost use Rattle.decoder_rules.specs.Escapes.{letter_of};
ghost use Rattle.decoder_rules.specs.Bodies.{skips};
ghost use Rattle.decoder_pieces.specs.Hexes.{digit_of};
ghost use Rattle.decoder_rules.specs.declared.Encoding.{Encoding};
ghost use Rattle.decoder_pieces.specs.declared.string.Escape.{Escape};
ghost use Rattle.decoder_pieces.specs.Engines.{FewAt, EscapeAt};

use crate::Escape;
use decoder_rules::{Edition, Encoding, Letter};

// What the decoders ask of bytes.
pub trait Bytes {
    // How many bytes at the front stand for themselves.
    fn plain_run(e: Encoding, s: &[u8]) -> usize
        ensures { result ≡ run (plain e) s.now };

    // How many bytes at the front are neither basic-unescaped nor a backslash: what the error of an invalid basic string is about.
    fn basic_invalid(s: &[u8]) -> usize
        ensures { result ≡ run basic_invalid s.now };

    // The same over lines.
    fn mlb_invalid(s: &[u8]) -> usize
        ensures { result ≡ run mlb_invalid s.now };

    // The place of the first byte from `start` on that is no blank, or the end.
    fn blanks(s: &[u8], start: usize) -> usize
        ensures { result ≡ start + run wschar (drop start s.now) };

    // Does a backslash stand at place i?
    fn is_escape(s: &[u8], i: usize) -> bool
        ensures { result ≡ stands 0x5C (drop i s.now) };

    // Does a CR?
    fn is_cr(s: &[u8], i: usize) -> bool
        ensures { result ≡ stands 0x0D (drop i s.now) };

    // Does an LF?
    fn is_lf(s: &[u8], i: usize) -> bool
        ensures { result ≡ stands 0x0A (drop i s.now) };

    // Does a line-ending escape drop the byte at place i?
    fn is_skipped(s: &[u8], i: usize) -> bool
        ensures { result ≡ first_is skips (drop i s.now) };

    // What the letter after a backslash is for.
    fn letter_of(v: Edition, b: u8) -> Letter
        ensures { result ≡ letter_of v b };

    // The value of a hex digit; none of any other byte.
    fn digit_of(b: u8) -> Option<u32>
        ensures { result ≡ digit_of b };
}

// What a loop that goes from piece to piece asks besides: two shortcuts. An engine may have none, and answers none.
pub trait Engine: Bytes {
    ghost few_of: { Encoding → Bool → List ℕ → Option ℕ };

    ghost escape_of: { Encoding → List ℕ → Option Escape };

    // How many bytes the piece at the front of s has, where it is a run of fewer than eight that stand for themselves.
    fn few(e: Encoding, dropping: bool, s: &[u8]) -> Option<usize>
        ensures { result ≡ few_of e dropping s.now };

    // The escape at the front of s, where one that stands for a character is there.
    fn escape(e: Encoding, s: &[u8]) -> Option<Escape>
        ensures { result ≡ escape_of e s.now };

    ghost few_is: { (e : Encoding) (d : Bool) (s : List ℕ) → IfSome (few_of e d s) (FewAt e d s) };

    ghost escape_is: { (e : Encoding) (s : List ℕ) → IfSome (escape_of e s) (EscapeAt e s) };
}
