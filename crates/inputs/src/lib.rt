// Reads an input to the front of lent bytes.
#![tactic(auto)]

ghost use Rattle.std.specs.Prelude.{◌≤◌, length, take};
ghost use Rattle.std.specs.Io.KnownBytes.{Consumes};

use std::io::Read;

// Reads until the bytes are full, the input ends or a read fails, and returns how many bytes it put at their front.
pub fn read_full<R: Read>(input: &mut R, bytes: &mut [u8]) -> usize
    ensures within { result ≤ length bytes.new }
    ensures taken { Consumes (R.remaining input.old) (R.remaining input.new) (take result bytes.new) }
{
    let mut got = 0;
    while got < bytes.len() {
        match input.read(&mut bytes[got..]) {
            Ok(0) | Err(_) => break,
            Ok(count) => got += count,
        }
    }
    got
}
