// The engine that tests ranges: blocks of bytes at once, and every single byte by comparisons.
ghost use Rattle.std.specs.Prelude.{◌≡◌};
ghost use Rattle.decoder_rules.specs.Escapes.{new_letter};
ghost use Rattle.decoder_rules.specs.Bodies.{skips};
ghost use Rattle.decoder_pieces.specs.GoodEscapes.{escape_at};
ghost use Rattle.decoder_pieces.specs.Engines.{few_at};
ghost use Rattle.decoder_pieces.specs.EngineLaws.{few_right, escape_right};

use crate::engine::{Bytes, Engine};
use crate::string::{Escape, escape_at};
use decoder_rules::{Edition, Encoding, Letter};
use decoder_scans::{BasicInvalid, MlbInvalid, plain_few, plain_run};
use std::num::wrapping_sub_u8;
use text_classes::{ESCAPE, Wschar, is_at, is_wschar, run_of};

#[derive(Clone, Copy)]
pub struct Ranges;

impl Bytes for Ranges {
    fn plain_run(e: Encoding, s: &[u8]) -> usize {
        plain_run(e, s)
    }

    fn basic_invalid(s: &[u8]) -> usize {
        run_of(BasicInvalid, s, 0)
    }

    fn mlb_invalid(s: &[u8]) -> usize {
        run_of(MlbInvalid, s, 0)
    }

    fn blanks(s: &[u8], start: usize) -> usize {
        run_of(Wschar, s, start)
    }

    fn is_escape(s: &[u8], i: usize) -> bool {
        is_at(s, i, ESCAPE)
    }

    fn is_cr(s: &[u8], i: usize) -> bool {
        is_at(s, i, b'\r')
    }

    fn is_lf(s: &[u8], i: usize) -> bool {
        is_at(s, i, b'\n')
    }

    #[tactic(auto, using(text_classes::proofs::FirstLaws::first_there, text_classes::proofs::FirstLaws::first_beyond))]
    fn is_skipped(s: &[u8], i: usize) -> bool {
        i < s.len() && skips(s[i])
    }

    // In two parts, below the small letters and among them: so each table is small, and the compiler puts it into its callers.
    #[tactic(auto, unfolding(decoder_rules::specs::Escapes::letter_of))]
    fn letter_of(v: Edition, b: u8) -> Letter {
        if b < b'a' {
            return match b {
                b'"' => Letter::Stands(0x22),
                b'\\' => Letter::Stands(0x5C),
                b'U' => Letter::Asks(8),
                _ => Letter::Neither,
            };
        }
        match b {
            b'b' => Letter::Stands(0x08),
            b'f' => Letter::Stands(0x0C),
            b'n' => Letter::Stands(0x0A),
            b'r' => Letter::Stands(0x0D),
            b't' => Letter::Stands(0x09),
            b'u' => Letter::Asks(4),
            _ => new_letter(v, b),
        }
    }

    fn digit_of(b: u8) -> Option<u32> {
        let d = wrapping_sub_u8(b, 0x30);
        if d < 10 {
            return Some(d as u32);
        }
        let l = wrapping_sub_u8(b | 0x20, 0x61);
        if l < 6 {
            return Some((l + 10) as u32);
        }
        None
    }
}

impl Engine for Ranges {
    ghost few_of = { few_at };

    ghost escape_of = { escape_at };

    ghost few_is = { few_right };

    ghost escape_is = { escape_right };

    #[tactic(auto, unfolding(crate::specs::Engines::few_at))]
    fn few(e: Encoding, dropping: bool, s: &[u8]) -> Option<usize> {
        if dropping {
            return None;
        }
        let n = plain_few(e, s);
        if 0 < n && n < 8 { Some(n) } else { None }
    }

    #[inline(always)]
    fn escape(e: Encoding, s: &[u8]) -> Option<Escape> {
        escape_at(e, s)
    }
}

// What a line-ending escape drops.
#[tactic(auto, unfolding(decoder_rules::specs::Bodies::skips))]
fn skips(b: u8) -> bool
    ensures { result ≡ skips b }
{
    is_wschar(b) || (b == b'\n' || b == b'\r')
}

// What TOML 1.1 adds to the letters.
fn new_letter(v: Edition, b: u8) -> Letter
    ensures { result ≡ new_letter v b }
{
    match v {
        Edition::Toml10 => Letter::Neither,
        Edition::Toml11 => match b {
            b'e' => Letter::Stands(0x1B),
            b'x' => Letter::Asks(2),
            _ => Letter::Neither,
        },
    }
}
