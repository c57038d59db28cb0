// An input read into a lent buffer, as far as the buffer goes. No memory is asked for.
#![tactic(auto)]

ghost use Rattle.std.specs.Prelude.{◌≡◌, ℕ, min, take, length, IfOk, IfSome, OnErr};
ghost use Rattle.std.specs.Io.{ReadsAtMost};
ghost use Rattle.std.specs.Io.KnownBytes.{ReadConsumes, Consumes};

use std::io::{self, ErrorKind, Read};

#[cfg(test)]
mod tests;

// One read, tried again where a signal interrupts it; the last of 2^64 tries is answered as it comes.
fn read_some<R: Read>(input: &mut R, part: &mut [u8]) -> io::Result<usize>
    ensures bound { ReadsAtMost result part.new }
    ensures bytes { ReadConsumes (R.remaining input.old) (R.remaining input.new) result part.new }
{
    for _ in 0..u64::MAX {
        match input.read(part) {
            Err(e) if e.kind() == ErrorKind::Interrupted => {}
            result => return result,
        }
    }
    input.read(part)
}

// Reads until the buffer is full or the input ends. How many bytes were read: they stand at the buffer's start. No `for`: a turn goes on by
// as many bytes as the reader gives.
pub fn read_full<R: Read>(input: &mut R, buffer: &mut [u8]) -> io::Result<usize>
    // At any reader.
    ensures bound { ReadsAtMost result buffer.new }
    ensures length { length buffer.new ≡ length buffer.old }

    // Where the reader's bytes are known. After an error those that were read stand at the buffer's start.
    ensures bytes { IfOk result (λ n. IfSome (R.remaining input.old) (λ bytes. take n buffer.new ≡ take (length buffer.old) bytes)) }
    ensures count { IfOk result (λ n. IfSome (R.remaining input.old) (λ bytes. n ≡ min (length buffer.old) (length bytes))) }
    ensures rest { IfOk result (λ n. Consumes (R.remaining input.old) (R.remaining input.new) (take n buffer.new)) }
    ensures err { OnErr result ((n : ℕ) × Consumes (R.remaining input.old) (R.remaining input.new) (take n buffer.new)) }
{
    let mut at = 0;
    while at < buffer.len() {
        let n = read_some(input, &mut buffer[at..])?;
        if n == 0 {
            return Ok(at);
        }
        at += n;
    }
    Ok(at)
}
