// Prints the byte classes on one page, from the table itself: docs/BYTES.md is what it prints. First the class of each byte, then each
// class with its bytes and the sets that have it, then the other sets that are asked for, each with its classes.
#![tactic(auto)]

use program_io::{Console, print_hex};
use std::io;
use table_classes::{Set, class_of, is_in};

// How many classes there are.
const CLASSES: u8 = 31;

// The sets that bear a name in crate `text_classes`.
const NAMED: [(&[u8], Set); 11] = [
    (b"wschar", Set::Wschar),
    (b"token-start", Set::TokenStart),
    (b"non-ascii", Set::NonAscii),
    (b"literal-char", Set::LiteralChar),
    (b"mll-char", Set::MllChar),
    (b"basic-unescaped", Set::BasicUnescaped),
    (b"mlb-unescaped", Set::MlbUnescaped),
    (b"DIGIT", Set::Digit),
    (b"HEXDIG", Set::Hexdig),
    (b"unquoted-key", Set::UnquotedChar),
    (b"continuation", Set::Continuation),
];

// The other sets that are asked for.
const OTHERS: [(&[u8], Set); 11] = [
    (b"in an atom", Set::InAtom),
    (b"in a comment", Set::InComment),
    (b"in a literal string, up to a mark or LF", Set::InLiteral),
    (
        b"in a basic string, up to a mark, backslash or LF",
        Set::InBasic,
    ),
    (
        b"in a multi-line literal string, up to a mark",
        Set::InMlLiteral,
    ),
    (
        b"in a multi-line basic string, up to a mark or backslash",
        Set::InMlBasic,
    ),
    (b"plain in a multi-line literal body", Set::MllPlain),
    (b"plain in a multi-line basic body", Set::MlbPlain),
    (b"error 7, in a basic body", Set::BasicInvalid),
    (b"error 12, in a multi-line basic body", Set::MlbInvalid),
    (b"dropped by a line-ending escape", Set::Skipped),
];

fn main(rt: HostRuntime) -> io::Result<()> {
    print(
        &rt,
        b"# Byte classes\n\nThe class of each byte, by its first hex digit (down) and its second (across), in hex.\n",
    )?;
    print(
        &rt,
        b"Bytes of one class are in the same sets, and no rule tells them apart.\n\n",
    )?;
    print(
        &rt,
        b"        0  1  2  3  4  5  6  7  8  9  a  b  c  d  e  f\n",
    )?;
    table(&rt)?;
    print(&rt, b"\n| class | bytes | sets |\n|---|---|---|\n")?;
    classes(&rt)?;
    print(&rt, b"\n| other sets | classes |\n|---|---|\n")?;
    for (name, set) in OTHERS {
        members(&rt, name, set)?;
    }
    Ok(())
}

fn print(console: &impl Console, words: &[u8]) -> io::Result<()> {
    console.write_bytes(words)
}

fn hex(console: &impl Console, lead: &[u8], n: u8) -> io::Result<()> {
    console.write_bytes(lead)?;
    print_hex(console, n as u64, 2)
}

fn table(console: &impl Console) -> io::Result<()> {
    for row in 0..16 {
        console.write_bytes(b"    ")?;
        print_hex(console, row as u64, 1)?;
        console.write_bytes(b" ")?;
        line(console, row)?;
    }
    Ok(())
}

fn line(console: &impl Console, row: u8) -> io::Result<()> {
    for column in 0..16 {
        hex(console, b" ", class_of(row % 16 * 16 + column))?;
    }
    print(console, b"\n")
}

fn classes(console: &impl Console) -> io::Result<()> {
    for class in 0..CLASSES {
        hex(console, b"| ", class)?;
        print(console, b" |")?;
        bytes(console, class)?;
        sign(console, class, first_of(class))?;
        print(console, b" |")?;
        sets(console, first_of(class))?;
        print(console, b" |\n")?;
    }
    Ok(())
}

// The bytes of a class, as ranges.
fn bytes(console: &impl Console, class: u8) -> io::Result<()> {
    let mut before = false;
    for b in 0..=255 {
        before = next(console, class, b, before)?;
    }
    if before {
        hex(console, b"-", 255)?;
    }
    Ok(())
}

// Opens or closes a range at `b`, and answers whether `b` is of the class.
fn next(console: &impl Console, class: u8, b: u8, before: bool) -> io::Result<bool> {
    let yes = class_of(b) == class;
    if yes && !before {
        hex(console, b" ", b)?;
    }
    if before && !yes {
        last(console, class, b)?;
    }
    Ok(yes)
}

// Closes a range before `b`; one of a single byte is closed already.
fn last(console: &impl Console, class: u8, b: u8) -> io::Result<()> {
    if 1 < b {
        if class_of(b - 2) == class {
            hex(console, b"-", b - 1)?;
        }
    }
    Ok(())
}

// The sign of a class that has one byte alone, as it is written or in words.
fn sign(console: &impl Console, class: u8, b: u8) -> io::Result<()> {
    if class < 7 {
        return Ok(());
    }
    match b {
        b'\t' => print(console, b" tab"),
        b'\n' => print(console, b" LF"),
        b'\r' => print(console, b" CR"),
        b' ' => print(console, b" space"),
        _ => quoted(console, b),
    }
}

fn quoted(console: &impl Console, b: u8) -> io::Result<()> {
    print(console, b" `")?;
    print(console, &[b])?;
    print(console, b"`")
}

// The first byte of a class.
fn first_of(class: u8) -> u8 {
    (0..255).find(|b| class_of(*b) == class).unwrap_or(255)
}

// The sets that have a byte, and so its whole class.
fn sets(console: &impl Console, b: u8) -> io::Result<()> {
    for (name, set) in NAMED {
        if is_in(set, b) {
            print(console, b" ")?;
            print(console, name)?;
        }
    }
    Ok(())
}

// A set with its classes.
fn members(console: &impl Console, name: &[u8], set: Set) -> io::Result<()> {
    print(console, b"| ")?;
    print(console, name)?;
    print(console, b" |")?;
    for class in 0..CLASSES {
        if is_in(set, first_of(class)) {
            hex(console, b" ", class)?;
        }
    }
    print(console, b" |\n")
}
