// The lister's lines for documents at the borders of what it takes: no bytes, a byte order mark alone, bytes that are not
// UTF-8, a last character that is cut, and as many bytes as it takes, each a token of its own. An empty line stands after
// each listing. The input that is too long is read from standard input, so it has a program of its own: test_lister_long.
#![tactic(auto)]

use program_io::Console;
use std::io;

fn main(rt: HostRuntime) -> io::Result<()> {
    listing(&rt, b"")?;
    listing(&rt, b"\xEF\xBB\xBF")?;
    // After C3, which asks for a byte from 80 to BF, stands a bracket. The last number of the refusal is 1, as Rust
    // documents Utf8Error's error_len: the length of the invalid sequence, after which reading would go on.
    listing(&rt, b"a = \"\xC3(\"\n")?;
    // E2 82 begins a character of three bytes. The last number is 0, as Rust documents error_len: none where the end was
    // reached unexpectedly.
    listing(&rt, b"a = \"\xE2\x82")?;
    let dots = [b'.'; 65536];
    listing(&rt, &dots)
}

fn listing(console: &impl Console, doc: &[u8]) -> io::Result<()> {
    lister_listing::list(console, doc)?;
    console.write_bytes(b"\n")
}
