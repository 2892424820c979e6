// Standard input, read to its end.
ghost use Rattle.std.specs.Prelude.{◌≤◌, length, IfOk};

use std::io::{self, Read};

// Reads until the buffer is full, the input ends or a read fails, and answers what was read, as it stands in the buffer. A read that fails is not the
// end of the text. No contract can speak of what is read.
fn read_all<'a>(input: &mut impl Read, text: &'a mut [u8]) -> io::Result<&'a [u8]>
    ensures { IfOk result (λ read. length read.now ≤ length text.old) }
{
    let mut done = 0;
    while done < text.len() {
        match input.read(&mut text[done..])? {
            0 => break,
            more => done += more,
        }
    }
    Ok(&text[..done])
}

// The text where it is wanted; else nothing is read.
pub fn read_wanted<'a>(rt: &impl Input, wanted: bool, text: &'a mut [u8]) -> io::Result<&'a [u8]>
    ensures { IfOk result (λ read. length read.now ≤ length text.old) }
{
    if wanted {
        return read_all(&mut rt.reader(), text);
    }
    Ok(&[])
}
