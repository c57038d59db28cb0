// The program `mark`: reads a model and a second sheet from standard input and writes one line, as document 01 says.
// `SAFE done` for an accepted certificate, `UNSAFE done` for an accepted run, else `REFUSED number sheet place done score`.
#![tactic(auto)]

ghost use Rattle.std.specs.Prelude.{◌≡◌, OnOk, IfOk, IfSome, take};
ghost use Rattle.std.specs.Io.KnownBytes.{Appends};
ghost use Rattle.rules.specs.Program.{printed};

use inputs::read_full;
use marking::text::{LINE_LENGTH, mark_text};
use std::io::{self, Read, Write};

// How many bytes of the input are read: one more than is ever marked, so that a longer one is seen to be one.
const INPUT_LENGTH: usize = 65537;

// Writes the line for an input, at once: by `write!` each word and number of a line would be a write of its own, with others' output between
// them where several programs write to one place.
fn write_line<W: Write>(output: &mut W, input: &[u8]) -> io::Result<()>
    ensures { OnOk result (Appends (W.contents output.old) (W.contents output.new) (printed input.now)) }
{
    let mut line = [0u8; LINE_LENGTH];
    let size = mark_text(input, &mut line);
    output.write_all(&line[..size])
}

// What a reader gives, as far as it is marked.
fn read_input<'a, R: Read + Drop>(
    mut input: R,
    buffer: &'a mut [u8; INPUT_LENGTH],
) -> io::Result<&'a [u8]>
    ensures { IfOk result (λ read. IfSome (R.remaining input) (λ bytes. read.now ≡ take 65537 bytes)) }
{
    let n = read_full(&mut input, buffer)?;
    Ok(&buffer[..n])
}

// Writes the line for all that a reader gives.
fn mark<R: Read + Drop, W: Write>(input: R, output: &mut W) -> io::Result<()>
    ensures { OnOk result (IfSome (R.remaining input) (λ bytes. Appends (W.contents output.old) (W.contents output.new) (printed bytes))) }
{
    let mut buffer = [0u8; INPUT_LENGTH];
    let read = read_input(input, &mut buffer)?;
    write_line(output, read)
}

fn main(rt: HostRuntime) -> io::Result<()> {
    mark(rt.reader(), &mut io::writer(&rt))
}
