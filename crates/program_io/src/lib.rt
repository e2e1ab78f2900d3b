// Standard input and output as the programs use them: bytes and numbers, over std. What is read and
// written is not known to any contract; known is that a call fails only where the system did.
#![tactic(auto)]

ghost use Rattle.std.specs.Prelude.{IfErr, ⊤};
ghost use Rattle.std.specs.Io.{ReadsAtMost};
ghost use Rattle.std.specs.declared.io.Error.{Error};

pub use io::{decimal, hex};
use std::io::{Read, Result};

// Standard input and output.
pub trait Console {
    // The errors with which a read or a write may fail. A function over any console can promise of its
    // own errors that they are among these only where it passes on what a read or a write answered.
    ghost fails: { Error → Type 0 };

    // Writes all of the bytes. After an error some of them may have been written.
    fn write_bytes(&self, bytes: &[u8]) -> Result<()>
        ensures error { IfErr result fails };

    // Reads to the front of the buffer, and answers how many bytes it read; none at the input's end.
    fn read_bytes(&self, buffer: &mut [u8]) -> Result<usize>
        ensures bound { ReadsAtMost result buffer.new }
        ensures error { IfErr result fails };
}

// The process's own standard input and output: the system may fail with any error.
impl Console for HostRuntime {
    ghost fails = { λ _. ⊤ };

    fn write_bytes(&self, bytes: &[u8]) -> Result<()> {
        self.write_all(bytes)
    }

    fn read_bytes(&self, buffer: &mut [u8]) -> Result<usize> {
        self.stdin().read(buffer)
    }
}

// Writes the number in decimal, with no line end.
pub fn print_decimal<C: Console>(console: &C, number: u64) -> Result<()>
    ensures error { IfErr result C.fails }
{
    let mut text = [0u8; 20];
    let count = decimal(number, &mut text);
    console.write_bytes(&text[..count])
}

// Writes the number in hex, in lower case, with zeros in front up to `width` digits and no line end.
pub fn print_hex<C: Console>(console: &C, number: u64, width: usize) -> Result<()>
    ensures error { IfErr result C.fails }
{
    let mut text = [0u8; 16];
    let count = hex(number, width, &mut text);
    console.write_bytes(&text[..count])
}

// Reads until the buffer is full or the input ends, and answers how many bytes it read to the buffer's front.
pub fn read_full<C: Console>(console: &C, buffer: &mut [u8]) -> Result<usize>
    ensures bound { ReadsAtMost result buffer.new }
    ensures error { IfErr result C.fails }
{
    let mut done = 0;
    // no iterator: a read says how many bytes it has read
    while done < buffer.len() {
        let count = console.read_bytes(&mut buffer[done..])?;
        if count == 0 {
            break;
        }
        done += count;
    }
    Ok(done)
}
