// Lines: the LFs that end them. Rule: specs/Lines.antt.
ghost use Rattle.std.specs.Prelude.{◌≡◌, eqb};
ghost use Rattle.lexer.specs.Lines.{line_feeds};

use text_classes::{ByteSet, count_of};

// The byte that ends a line.
#[derive(Clone, Copy)]
struct LineFeed;

impl ByteSet for LineFeed {
    ghost holds = { λ _ b. eqb b 10 };

    fn holds(self, b: u8) -> bool {
        b == b'\n'
    }
}

// How many LFs there are.
pub fn line_feeds(s: &[u8]) -> usize
    ensures { result ≡ line_feeds s.now }
{
    count_of(LineFeed, s)
}
