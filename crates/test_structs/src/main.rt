// Runs whole lexing into token structs: documents with their tokens, as kind, start, end and line, and a
// document that has more tokens than records are lent. The expected lines are in the file stdout.
#![tactic(auto)]

use lexer_token::Token;
use program_io::{Console, print_decimal};
use std::io;
use text_refusals::Refusal;

const DOCUMENTS: [&[u8]; 11] = [
    b"",
    b"\xEF\xBB\xBF",
    b"'''a'''''",
    b"'''a''''''",
    b"'a\r\n",
    b"#x\ry",
    b"a\"b c",
    b"a = \"b\"\n",
    b".......",
    b"........",
    b"a\xFF",
];

fn main(rt: HostRuntime) -> io::Result<()> {
    for doc in DOCUMENTS {
        tokens(&rt, doc)?;
    }
    Ok(())
}

// The tokens of a document, or why there are none; then an empty line.
fn tokens(console: &impl Console, doc: &[u8]) -> io::Result<()> {
    let all = lexer_structs::lex_eight(doc);
    match all.answer {
        Ok(n) => {
            for token in all.tokens.iter().take(n) {
                line(console, *token)?;
            }
        }
        Err(r) => refused(console, r)?,
    }
    console.write_bytes(b"\n")
}

fn line(console: &impl Console, token: Token) -> io::Result<()> {
    let [kind, start, end, line] = token.as_record();
    for number in [kind, start, end] {
        print_decimal(console, number as u64)?;
        console.write_bytes(b" ")?;
    }
    print_decimal(console, line as u64)?;
    console.write_bytes(b"\n")
}

fn refused(console: &impl Console, r: Refusal) -> io::Result<()> {
    console.write_bytes(b"refused ")?;
    print_decimal(console, r.number() as u64)?;
    console.write_bytes(b" ")?;
    print_decimal(console, r.value() as u64)?;
    if r.number() == 1 {
        console.write_bytes(b" ")?;
        print_decimal(console, r.length() as u64)?;
    }
    console.write_bytes(b"\n")
}
