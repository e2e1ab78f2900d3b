// The lines that there are: for the name of each call, how the words after it are read. A line form is
// a variant of its family below, and a row of `LINES`.
// One more than the longest document that is taken, of 65,536 bytes, can need: decoded it has at most
// one and a half times its bytes, and at most two errors more than bytes. Lexed it has at most one
// token more than bytes.
const OUTPUT: usize = 98305;

pub const RECORDS: usize = 65539;

// One more than such a document can need, written as a string: six bytes for each of its own, and two marks.
pub const WRITTEN: usize = 393219;

// The limit of a number that may be any, and that of a flag.
const ANY: usize = usize::MAX;

pub(crate) const FLAG: usize = 1;

// The calls of the reader.
#[derive(Clone, Copy)]
pub enum ReaderCall {
    Lex,
    LexLine,
    LexCap,
    Dec,
    DecCap,
    DecIn,
    Utf8,
    Fault,
    Start,
    Step,
    StepLine,
    Span,
    Text,
    Pos,
    Desc,
}

// The calls that requests added.
#[derive(Clone, Copy)]
pub enum BuiltCall {
    Write,
    WriteCap,
    Mend,
    MendIn,
    MendCap,
    Tick,
    Untick,
    Ticked,
    Ticks,
    Value,
    ValueIn,
    Broken,
    BrokenIn,
    Tally,
    TallyOn,
}

// The calls over a document that comes in parts.
#[derive(Clone, Copy)]
pub enum PartsCall {
    Parts,
    PartsCap,
    Bytes,
}

// The calls of the reader as the second engine makes them, by the table of byte classes.
#[derive(Clone, Copy)]
pub enum TableCall {
    Lex,
    LexLine,
    Dec,
    DecIn,
    Step,
}

#[derive(Clone, Copy)]
pub enum Call {
    Reader(ReaderCall),
    Built(BuiltCall),
    Parts(PartsCall),
    Table(TableCall),
}

// How a line of a call is read: a number for each of the limits follows the name, three at the most, each within its
// limit; and then a document, where `document` says so.
#[derive(Clone, Copy)]
pub(crate) struct Line {
    pub call: Call,
    pub limits: &'static [usize],
    pub document: bool,
}

// The name of each line, its call, the limits of its numbers, and whether a document follows them.
static LINES: [(&[u8], Call, &[usize], bool); 38] = [
    (b"lex", Call::Reader(ReaderCall::Lex), &[], true),
    (b"lexline", Call::Reader(ReaderCall::LexLine), &[], true),
    (
        b"lexcap",
        Call::Reader(ReaderCall::LexCap),
        &[RECORDS],
        true,
    ),
    (b"dec", Call::Reader(ReaderCall::Dec), &[ANY], true),
    (
        b"deccap",
        Call::Reader(ReaderCall::DecCap),
        &[ANY, OUTPUT, RECORDS],
        true,
    ),
    (b"decin", Call::Reader(ReaderCall::DecIn), &[ANY, ANY], true),
    (b"utf8", Call::Reader(ReaderCall::Utf8), &[], true),
    (b"fault", Call::Reader(ReaderCall::Fault), &[], true),
    (b"start", Call::Reader(ReaderCall::Start), &[], true),
    (b"step", Call::Reader(ReaderCall::Step), &[ANY, FLAG], true),
    (
        b"stepline",
        Call::Reader(ReaderCall::StepLine),
        &[ANY, FLAG, ANY],
        true,
    ),
    (b"span", Call::Reader(ReaderCall::Span), &[ANY, ANY], true),
    (b"text", Call::Reader(ReaderCall::Text), &[ANY, ANY], true),
    (b"pos", Call::Reader(ReaderCall::Pos), &[ANY], true),
    (b"desc", Call::Reader(ReaderCall::Desc), &[ANY], false),
    (b"write", Call::Built(BuiltCall::Write), &[], true),
    (
        b"writecap",
        Call::Built(BuiltCall::WriteCap),
        &[WRITTEN],
        true,
    ),
    (b"mend", Call::Built(BuiltCall::Mend), &[], true),
    (b"mendin", Call::Built(BuiltCall::MendIn), &[ANY], true),
    (
        b"mendcap",
        Call::Built(BuiltCall::MendCap),
        &[WRITTEN, RECORDS],
        true,
    ),
    (
        b"tick",
        Call::Built(BuiltCall::Tick),
        &[ANY, ANY, RECORDS],
        true,
    ),
    (
        b"untick",
        Call::Built(BuiltCall::Untick),
        &[ANY, ANY, RECORDS],
        true,
    ),
    (
        b"ticked",
        Call::Built(BuiltCall::Ticked),
        &[ANY, ANY, RECORDS],
        true,
    ),
    (
        b"ticks",
        Call::Built(BuiltCall::Ticks),
        &[ANY, RECORDS],
        true,
    ),
    (b"value", Call::Built(BuiltCall::Value), &[ANY, ANY], true),
    (
        b"valuein",
        Call::Built(BuiltCall::ValueIn),
        &[ANY, ANY, ANY],
        true,
    ),
    (b"broken", Call::Built(BuiltCall::Broken), &[], true),
    (b"brokenin", Call::Built(BuiltCall::BrokenIn), &[ANY], true),
    (b"tally", Call::Built(BuiltCall::Tally), &[], true),
    (b"tallyon", Call::Built(BuiltCall::TallyOn), &[ANY], true),
    (b"parts", Call::Parts(PartsCall::Parts), &[ANY, ANY], true),
    (
        b"partscap",
        Call::Parts(PartsCall::PartsCap),
        &[RECORDS, ANY, ANY],
        true,
    ),
    (b"bytes", Call::Parts(PartsCall::Bytes), &[], true),
    (b"tlex", Call::Table(TableCall::Lex), &[], true),
    (b"tlexline", Call::Table(TableCall::LexLine), &[], true),
    (b"tdec", Call::Table(TableCall::Dec), &[ANY], true),
    (b"tdecin", Call::Table(TableCall::DecIn), &[ANY, ANY], true),
    (
        b"tstep",
        Call::Table(TableCall::Step),
        &[ANY, FLAG, ANY],
        true,
    ),
];

// The line of a name.
pub(crate) fn line_of(name: &[u8]) -> Option<Line> {
    let (_, call, limits, document) = *LINES.iter().find(|line| line.0 == name)?;
    Some(Line {
        call,
        limits,
        document,
    })
}

// How many words such a line has, with its name.
pub(crate) fn words_of(line: Line) -> usize {
    line.limits.len() + if line.document { 2 } else { 1 }
}
