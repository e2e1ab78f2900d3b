// A file's bytes, as many as there is memory for.
ghost use Rattle.std.specs.Io.{ReadsAtMost};

use std::fs::File;
use std::io::{Read, Result};
use std::rt::Files;

// Opens the file of a name, where there is one that can be read. A name that is not UTF-8 opens none.
pub(crate) fn open<F: Files>(files: &F, name: &[u8]) -> Option<F::File> {
    let path = str::from_utf8(name).ok()?;
    File::open(files, path).ok()
}

// Reads until the memory is full or the file ends, and answers how many bytes are there.
pub(crate) fn read_file<R: Read>(file: &mut R, doc: &mut [u8]) -> Result<usize>
    ensures { ReadsAtMost result doc.new }
{
    let mut len = 0;
    // no iterator: a read says how many bytes it has read
    while len < doc.len() {
        let count = file.read(&mut doc[len..])?;
        if count == 0 {
            break;
        }
        len += count;
    }
    Ok(len)
}
