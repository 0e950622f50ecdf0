// The report program: a bitmap from standard input, its report on standard output. It reads, calls `picture::respond` and writes;
// nothing else. A read or a write that fails is told on standard error; what could not be read has no answer.
#![tactic(auto)]

ghost use Rattle.std.specs.Prelude.{◌<◌, length, IfOk};
ghost use Rattle.bitmap.specs.Picture.{longest};
ghost use Rattle.grain_report.specs.Reading.{Reads};

use std::io;
use std::io::{Read, Write};

// One byte more than the longest picture has, so that a longer one is seen (20).
const BUFFER: usize = bitmap::LONGEST + 1;

// Reads until the input ends or the buffer is full: a pipe may hand over less than is asked for.
fn read_input<R: Read>(input: &mut R, buffer: &mut [u8]) -> io::Result<usize>
    requires { longest < length buffer.old }
    ensures { IfOk result (Reads (R.remaining input.old) (R.remaining input.new) buffer.new) }
{
    let mut count = 0;
    while count < buffer.len() {
        match input.read(&mut buffer[count..])? {
            0 => break,
            more => count += more,
        }
    }
    Ok(count)
}

// Answers the bytes of a picture.
fn answer(rt: &HostRuntime, bytes: &[u8]) -> io::Result<()> {
    let mut out = [0; csv_text::ROOM];
    let count = picture::respond(bytes, &mut out);
    rt.stdout()
        .write_all(&out[..count])
        .or_else(|error| eprintln!(rt; "standard output: {error}"))
}

fn main(rt: HostRuntime) -> io::Result<()> {
    let mut buffer = [0; BUFFER];
    match read_input(&mut rt.stdin(), &mut buffer) {
        Ok(count) => answer(&rt, &buffer[..count]),
        Err(error) => eprintln!(rt; "standard input: {error}"),
    }
}
