// Runs of bytes: those that stand for themselves, sixteen and eight at a time, and the others one
// by one. Rule: the byte sets in Encodings.antt of crate `decoder_rules`.
#![tactic(auto)]

ghost use Rattle.std.specs.Prelude.{◌≡◌, ◌+◌, ◌<◌, ◌≤◌, true, length, take};
ghost use Rattle.text_classes.specs.Runs.{run};
ghost use Rattle.text_classes.proofs.RunLaws.{Block, SameEnd};
ghost use Rattle.decoder_rules.specs.declared.Encoding.{Encoding};
ghost use Rattle.decoder_rules.specs.declared.Encoding.TheVariants.{LiteralString, BasicString, MlLiteralString, MlBasicString};
ghost use Rattle.decoder_rules.specs.declared.Edition.TheVariants.{Toml10};
ghost use Rattle.decoder_rules.specs.Encodings.{basic_invalid, mlb_invalid, plain};
ghost use Rattle.decoder_scans.specs.Scan.{mask_of, is_marked, Wide, stops_of};

use decoder_rules::{Edition, Encoding};
use std::num::wrapping_sub_u8;
use text_classes::{
    APOSTROPHE, ByteSet, ESCAPE, QUOTATION_MARK, is_basic_unescaped, is_mlb_unescaped, run_of,
};

// Neither basic-unescaped nor a backslash: what the error of an invalid basic string is about.
#[derive(Clone, Copy)]
pub struct BasicInvalid;

impl ByteSet for BasicInvalid {
    ghost holds = { λ _. basic_invalid };

    #[tactic(auto, unfolding(decoder_rules::specs::Encodings::basic_invalid))]
    fn holds(self, b: u8) -> bool {
        !(is_basic_unescaped(b) || b == ESCAPE)
    }
}

// The same over lines, where quotation marks and LF stand for themselves, and a CR is another error's.
#[derive(Clone, Copy)]
pub struct MlbInvalid;

impl ByteSet for MlbInvalid {
    ghost holds = { λ _. mlb_invalid };

    #[tactic(auto, unfolding(decoder_rules::specs::Encodings::mlb_invalid, decoder_rules::specs::Encodings::mlb_plain))]
    fn holds(self, b: u8) -> bool {
        !((is_mlb_unescaped(b) || (b == QUOTATION_MARK || b == b'\n'))
            || (b == ESCAPE || b == b'\r'))
    }
}

// The bytes that stand for themselves: a bit for each below 40, a bit for each from 40 to 7F, and whether all from 80 on
// do.
#[derive(Clone, Copy)]
struct Mask {
    pub low: u64,
    pub mid: u64,
    pub high: bool,
}

fn mask_of(e: Encoding) -> Mask
    ensures { result ≡ mask_of e }
{
    match e {
        Encoding::LiteralString => Mask {
            low: 0xFFFF_FF7F_0000_0200,
            mid: 0x7FFF_FFFF_FFFF_FFFF,
            high: true,
        },
        Encoding::BasicString(_) => Mask {
            low: 0xFFFF_FFFB_0000_0200,
            mid: 0x7FFF_FFFF_EFFF_FFFF,
            high: true,
        },
        Encoding::MlLiteralString => Mask {
            low: 0xFFFF_FFFF_0000_0600,
            mid: 0x7FFF_FFFF_FFFF_FFFF,
            high: true,
        },
        Encoding::MlBasicString(_) => Mask {
            low: 0xFFFF_FFFF_0000_0600,
            mid: 0x7FFF_FFFF_EFFF_FFFF,
            high: true,
        },
        Encoding::UnquotedKey => Mask {
            low: 0x03FF_2000_0000_0000,
            mid: 0x07FF_FFFE_87FF_FFFE,
            high: false,
        },
    }
}

// Does the mask have the byte?
fn is_marked(mask: Mask, b: u8) -> bool
    ensures { result ≡ is_marked mask b }
{
    if b < 64 {
        return (mask.low >> u64::from(b)) & 1 == 1;
    }
    if b < 128 {
        return (mask.mid >> u64::from(b - 64)) & 1 == 1;
    }
    mask.high
}

// Does the byte stand for itself?
#[tactic(auto, using(crate::proofs::ScanLaws::marked_plain))]
pub fn is_plain(e: Encoding, b: u8) -> bool
    ensures { result ≡ plain e b }
{
    is_marked(mask_of(e), b)
}

// Those bytes, as a set. Its mask is made once: a set that held the encoding alone would ask at each byte which one it is.
#[derive(Clone, Copy)]
struct Plain {
    e: Encoding,
    mask: Mask,
    ghost own: { mask ≡ mask_of e },
}

impl Plain {
    fn of(e: Encoding) -> Self
        ensures { result.e ≡ e }
    {
        Plain {
            e,
            mask: mask_of(e),
        }
    }
}

impl ByteSet for Plain {
    ghost holds = { λ p. plain p.e };

    #[tactic(auto, using(crate::proofs::ScanLaws::marked_plain))]
    fn holds(self, b: u8) -> bool {
        is_marked(self.mask, b)
    }
}

// How many bytes at the front stand for themselves, of which eight count at most.
pub fn plain_few(e: Encoding, s: &[u8]) -> usize
    ensures { result ≡ run (plain e) (take 8 s.now) }
{
    run_of(Plain::of(e), &s[..s.len().min(8)], 0)
}

// How many bytes at the front stand for themselves. A caller that names its encoding goes to its scan at once.
#[inline(always)]
pub fn plain_run(e: Encoding, s: &[u8]) -> usize
    ensures { result ≡ run (plain e) s.now }
{
    match e {
        Encoding::LiteralString => wide_run::<Literal>(s),
        Encoding::MlLiteralString => wide_run::<MlLiteral>(s),
        Encoding::BasicString(_) => wide_run::<Basic>(s),
        Encoding::MlBasicString(_) => wide_run::<MlBasic>(s),
        Encoding::UnquotedKey => run_of(Plain::of(Encoding::UnquotedKey), s, 0),
    }
}

// An encoding that is scanned in blocks. Each is a type, so that the compiler makes a scan of its own for it, with its bytes as
// constants.
trait Scanned {
    ghost of: { Encoding };

    fn encoding() -> Encoding
        ensures { result ≡ of };

    ghost wide: { Wide of };
}

struct Literal;

impl Scanned for Literal {
    ghost of = { LiteralString };

    ghost wide = { tt };

    fn encoding() -> Encoding {
        Encoding::LiteralString
    }
}

struct MlLiteral;

impl Scanned for MlLiteral {
    ghost of = { MlLiteralString };

    ghost wide = { tt };

    fn encoding() -> Encoding {
        Encoding::MlLiteralString
    }
}

// In which edition makes no difference.
struct Basic;

impl Scanned for Basic {
    ghost of = { BasicString Toml10 };

    ghost wide = { tt };

    fn encoding() -> Encoding {
        Encoding::BasicString(Edition::Toml10)
    }
}

struct MlBasic;

impl Scanned for MlBasic {
    ghost of = { MlBasicString Toml10 };

    ghost wide = { tt };

    fn encoding() -> Encoding {
        Encoding::MlBasicString(Edition::Toml10)
    }
}

// Blocks of sixteen bytes are passed over first, then one of eight, and then the bytes one by one.
#[inline(never)]
fn wide_run<S: Scanned>(s: &[u8]) -> usize
    ensures { result ≡ run (plain S.of) s.now }
{
    let wide = plain_blocks::<S>(s, 0, 16);
    let i = plain_blocks::<S>(s, wide, 8);
    run_of(Plain::of(S::encoding()), s, i)
}

// Blocks of n bytes that stand for themselves, passed over.
// No iterator: what is asked for is the place behind the blocks, which `chunks_exact` would have counted beside it.
fn plain_blocks<S: Scanned>(s: &[u8], start: usize, n: usize) -> usize
    requires { (start ≤ length s.now) × (0 < n) }
    ensures { SameEnd (run (plain S.of)) s.now start result }
{
    let mut i = start;
    while n <= s.len() - i {
        if !plain_block::<S>(s, i, n) {
            return i;
        }
        i += n;
    }
    i
}

// What a block is given up at, besides DEL: two bytes, the bytes below `low`, and those of which, with the bits of `flip`
// turned, `span` begin at `from`. With the tab's bits turned the tab is 0 and the other controls 1 to 1F.
#[derive(Clone, Copy)]
struct Stops {
    pub first: u8,
    pub second: u8,
    pub low: u8,
    pub flip: u8,
    pub from: u8,
    pub span: u8,
}

// In a line the controls but the tab; over lines those but the tab and the LF.
fn stops_of(e: Encoding) -> Stops
    ensures { result ≡ stops_of e }
{
    match e {
        Encoding::LiteralString => Stops {
            first: APOSTROPHE,
            second: APOSTROPHE,
            low: 0x00,
            flip: 0x09,
            from: 0x01,
            span: 31,
        },
        Encoding::BasicString(_) => Stops {
            first: QUOTATION_MARK,
            second: ESCAPE,
            low: 0x00,
            flip: 0x09,
            from: 0x01,
            span: 31,
        },
        Encoding::MlLiteralString => Stops {
            first: 0x7F,
            second: 0x7F,
            low: 0x09,
            flip: 0x00,
            from: 0x0B,
            span: 21,
        },
        Encoding::MlBasicString(_) => Stops {
            first: ESCAPE,
            second: ESCAPE,
            low: 0x09,
            flip: 0x00,
            from: 0x0B,
            span: 21,
        },
        Encoding::UnquotedKey => Stops {
            first: 0x7F,
            second: 0x7F,
            low: 0x00,
            flip: 0x09,
            from: 0x01,
            span: 31,
        },
    }
}

// Whether n bytes from i on surely stand for themselves. A flag for each test, one comparison in
// each, and no branch among them, so that the compiler takes sixteen at once.
fn plain_block<S: Scanned>(s: &[u8], i: usize, n: usize) -> bool
    requires { i + n ≤ length s.now }
    ensures { result ≡ true → Block (plain S.of) s.now i n }
{
    let stops = stops_of(S::encoding());
    let mut first = false;
    let mut second = false;
    let mut delete = false;
    let mut low = false;
    let mut mid = false;
    for j in 0..n {
        let b = s[i + j];
        first |= b == stops.first;
        second |= b == stops.second;
        delete |= b == 0x7F;
        low |= b < stops.low;
        mid |= wrapping_sub_u8(b ^ stops.flip, stops.from) < stops.span;
    }
    !(first || second || delete || low || mid)
}
