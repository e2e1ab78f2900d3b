// A short basic string with escapes of one letter: it is gone over once, before the check, and then written from what is
// known of it. Law: `short_decodes` in proofs/ShortLaws.antt.
#![tactic(auto)]

ghost use Rattle.std.specs.Prelude.{◌≡◌, ◌≤◌, length};
ghost use Rattle.decoder_short.specs.Letters.{letter_char, Marked, SimpleTo, Short, Written, ShortCopied};

use decoder_rules::{Edition, Encoding};
use decoder_scans::is_plain;
use text_characters::wide_at;
use text_classes::{ESCAPE, QUOTATION_MARK};

// Writes what such a text decodes to, in either edition of TOML, to the front of the output, and says how many bytes that is.
// Of any other text, of one that is longer than 40 bytes, and where the output is shorter than the text, nothing is written:
// none.
#[tactic(auto, using(crate::proofs::ShortLaws::short_text))]
pub fn copy_short(text: &[u8], output: &mut [u8]) -> Option<usize>
    ensures { ShortCopied text.now output.old result output.new }
{
    let len = text.len();
    if len < 2 {
        return None;
    }
    if 40 < len {
        return None;
    }
    if text[0] != QUOTATION_MARK {
        return None;
    }
    if text[len - 1] != QUOTATION_MARK {
        return None;
    }
    if output.len() < len {
        return None;
    }
    if simple_run(text) + 1 != len {
        return None;
    }
    Some(write_short(text, output))
}

// Writes what it stands for: a byte for each escape, and any other byte as it is. No iterator: a turn goes over one byte or two.
#[tactic(auto, using(crate::proofs::ShortLaws::spelling_start, crate::proofs::ShortLaws::letter_known, crate::proofs::ShortLaws::spelling_end))]
fn write_short(text: &[u8], output: &mut [u8]) -> usize
    requires { Short text.now × (length text.now ≤ length output.old) }
    ensures { Written text.now output.old output.new result }
{
    let last = text.len() - 1;
    let mut i = 1;
    let mut o = 0;
    while i < last {
        let b = text[i];
        if b == ESCAPE {
            output[o] = letter_char(text[i + 1]).unwrap();
            i += 2;
        } else {
            output[o] = b;
            i += 1;
        }
        o += 1;
    }
    o
}

// The first place, from 1 on, at which neither a character stands that stands for itself nor an escape of one letter. No end
// is asked for: the closing mark is such a place. No iterator: a turn goes over one to four bytes.
#[tactic(auto, using(crate::proofs::ShortLaws::simple_start))]
fn simple_run(s: &[u8]) -> usize
    requires { Marked s.now }
    ensures { SimpleTo s.now result }
{
    let mut i = 1;
    loop {
        let b = s[i];
        if b < 0x80 {
            if b == ESCAPE {
                if s.len() <= i + 2 {
                    return i;
                }
                match letter_char(s[i + 1]) {
                    Some(_) => i += 2,
                    None => return i,
                }
            } else {
                if !is_plain(Encoding::BasicString(Edition::Toml10), b) {
                    return i;
                }
                i += 1;
            }
        } else {
            match wide_at(s, i) {
                Some(n) => i += n,
                None => return i,
            }
        }
    }
}

// The character that a letter stands for after a backslash, in every edition; none for any other byte.
#[tactic(auto, unfolding(crate::specs::Letters::letter_char))]
pub fn letter_char(b: u8) -> Option<u8>
    ensures { result ≡ letter_char b }
{
    match b {
        b'"' => Some(0x22),
        b'\\' => Some(0x5C),
        b'b' => Some(0x08),
        b'f' => Some(0x0C),
        b'n' => Some(0x0A),
        b'r' => Some(0x0D),
        b't' => Some(0x09),
        _ => None,
    }
}
