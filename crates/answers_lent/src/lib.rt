// The memory that is lent to a call of a line: no more of it than the line asks for, and no more than
// there is.
#![tactic(auto)]

ghost use Rattle.std.specs.Prelude.{min, ◌≡◌, ◌++◌, length, take, drop};

use std::cmp::min;

// The first records, as many as are asked for, but no more than there are.
pub fn front<const N: usize>(records: &[[usize; N]], asked: usize) -> &[[usize; N]]
    ensures { result.now ≡ take (min asked (length records.now)) records.now }
{
    &records[..min(asked, records.len())]
}

// Copies `part` to the front of `bytes`, as far as both reach, and answers how many bytes that are.
pub fn copy(part: &[u8], bytes: &mut [u8]) -> usize
    ensures answer { result ≡ min (length part.now) (length bytes.old) }
    ensures memory { bytes.new ≡ take result part.now ++ drop result bytes.old }
{
    let count = min(part.len(), bytes.len());
    bytes[..count].copy_from_slice(&part[..count]);
    count
}
