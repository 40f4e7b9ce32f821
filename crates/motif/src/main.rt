// The program motif: reads standard input, does the job, and writes what it gives. Nothing that matters is here.
#![tactic(auto)]

ghost use Rattle.std.specs.Prelude.{◌<◌, ◌≤◌, length, take, IfOk};
ghost use Rattle.std.specs.Io.KnownBytes.{Consumes, IsAtEnd};

use job::{BUFFER, LONGEST_TEXT};
use std::fmt::Display;
use std::io;
use std::io::{Read, Write};

// Reads until the buffer is full or the input ends. Answers how much of the buffer was filled.
fn read_all<R: Read>(reader: &mut R, buf: &mut [u8]) -> io::Result<usize>
    ensures within { IfOk result (λ n. n ≤ length buf.new) }
    ensures bytes { IfOk result (λ n. Consumes (R.remaining reader.old) (R.remaining reader.new) (take n buf.new)) }
    ensures end { IfOk result (λ n. n < length buf.new → IsAtEnd (R.remaining reader.new)) }
{
    let mut n = 0;
    while n < buf.len() {
        match reader.read(&mut buf[n..])? {
            0 => break,
            more => n += more,
        }
    }
    Ok(n)
}

// A complaint goes out in one write. One that cannot be written is lost.
fn complain(stderr: &impl Eprint, complaint: impl Display + Drop) {
    let _ = eprintln!(stderr; "motif: {complaint}");
}

// The answer to an input, written by way of a buffer.
fn answer<W: Write>(stdout: &mut W, stderr: &impl Eprint, input: &[u8], out: &mut [u8]) {
    match job::job(input, out) {
        Ok(n) => {
            if stdout.write_all(&out[..n]).is_err() {
                complain(stderr, "the output cannot be written");
            }
        }
        Err(why) => complain(stderr, why),
    }
}

fn serve<R: Read, W: Write>(
    stdin: &mut R,
    stdout: &mut W,
    stderr: &impl Eprint,
    input: &mut [u8],
    out: &mut [u8],
) {
    match read_all(stdin, input) {
        Ok(n) => answer(stdout, stderr, &input[..n], out),
        Err(_) => complain(stderr, "the input cannot be read"),
    }
}

// The longest input that can be accepted is a length byte, 255 bytes of the pattern and the longest text. One byte more tells that it is
// longer.
const INPUT: usize = 1 + 255 + LONGEST_TEXT + 1;

fn main(rt: HostRuntime) {
    let mut input = [0u8; INPUT];
    let mut out = [0u8; BUFFER];
    serve(
        &mut rt.stdin(),
        &mut rt.stdout(),
        &rt.stderr(),
        &mut input,
        &mut out,
    );
}
