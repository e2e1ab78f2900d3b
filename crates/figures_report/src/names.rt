// Standard input as names, a name a line.
ghost use Rattle.std.specs.Prelude.{◌≤◌, length, IfErr, IfOk, IfSome};

use program_io::Console;
use std::io;

// How far the input was read: its memory holds bytes not yet taken from `at` up to `end`; `ended` says that there are no more to come.
// A struct of its own, and not that of `answers`, which writes a line for which it has no room: here such a name is cut.
#[derive(Clone, Copy)]
pub(crate) struct Unread {
    pub at: usize,
    pub end: usize,
    pub ended: bool,
}

// Reads up to an LF or the input's end, and answers how long the name is; none at the end. Of a name that its memory does not hold,
// as much is kept as there is room for. A proved loop has to end, and nothing says that the input does: so the loop counts to a number
// that no run reaches.
pub(crate) fn next_name<C: Console>(
    console: &C,
    unread: &mut Unread,
    input: &mut [u8],
    name: &mut [u8],
) -> io::Result<Option<usize>>
    ensures within { IfOk result (λ r. IfSome r (λ len. len ≤ length name.new)) }
    ensures error { IfErr result C.fails }
{
    let mut len = 0;
    for _ in 0..u64::MAX {
        if unread.ended {
            break;
        }
        match input.get(unread.at..unread.end) {
            Some(part) if !part.is_empty() => {
                if let Some(n) = part.iter().position(|b| *b == b'\n') {
                    unread.at = unread.at.saturating_add(n + 1);
                    return Ok(Some(keep(&part[..n], name, len)));
                }
                len = keep(part, name, len);
                unread.at = unread.end;
            }
            _ => refill(console, unread, input)?,
        }
    }
    if 0 < len {
        return Ok(Some(len));
    }
    Ok(None)
}

fn refill<C: Console>(console: &C, unread: &mut Unread, input: &mut [u8]) -> io::Result<()>
    ensures error { IfErr result C.fails }
{
    unread.at = 0;
    unread.end = console.read_bytes(input)?;
    unread.ended = unread.end == 0;
    Ok(())
}

// Keeps more of the name, as much as there is room for, after the first `len` bytes, and answers how much is kept.
fn keep(part: &[u8], name: &mut [u8], len: usize) -> usize
    requires { len ≤ length name.old }
    ensures { result ≤ length name.old }
{
    let n = part.len().min(name.len() - len);
    name[len..len + n].copy_from_slice(&part[..n]);
    len + n
}
