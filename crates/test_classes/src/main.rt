// Prints, for each byte class, the ranges of bytes for which its function answers true, over all 256
// bytes. The expected ranges, in the file stdout, are copied by hand from the ABNF of TOML 1.0.0, except
// token-start, which is the lexer's own, and continuation, which is UTF-8's.
#![tactic(auto)]

use program_io::{Console, print_hex};
use std::io;

fn main(rt: HostRuntime) -> io::Result<()> {
    ranges(&rt, text_classes::is_wschar, b"wschar")?;
    ranges(&rt, text_classes::is_token_start, b"token-start")?;
    ranges(&rt, text_classes::is_non_ascii, b"non-ascii")?;
    ranges(&rt, text_classes::is_literal_char, b"literal-char")?;
    ranges(&rt, text_classes::is_mll_char, b"mll-char")?;
    ranges(&rt, text_classes::is_basic_unescaped, b"basic-unescaped")?;
    ranges(&rt, text_classes::is_mlb_unescaped, b"mlb-unescaped")?;
    ranges(&rt, text_classes::is_digit, b"DIGIT")?;
    ranges(&rt, text_classes::is_hexdig, b"HEXDIG")?;
    ranges(&rt, text_classes::is_unquoted_char, b"unquoted-key")?;
    ranges(&rt, text_classes::is_continuation, b"continuation")
}

// A range is printed in two parts, where it opens and after its last byte.
fn ranges<F: Fn(u8) -> bool>(console: &impl Console, in_class: F, name: &[u8]) -> io::Result<()>
    requires { F.IsAlwaysCallable in_class }
{
    console.write_bytes(name)?;
    let mut before = None;
    for b in 0..=255 {
        match (before, in_class(b)) {
            (None, true) => byte(console, b" ", b)?,
            (Some(last), false) => byte(console, b"-", last)?,
            _ => {}
        }
        before = if in_class(b) { Some(b) } else { None };
    }
    if let Some(last) = before {
        byte(console, b"-", last)?;
    }
    console.write_bytes(b"\n")
}

fn byte(console: &impl Console, lead: &[u8], b: u8) -> io::Result<()> {
    console.write_bytes(lead)?;
    print_hex(console, b as u64, 2)
}
