// The program's work: from the input's bytes to the bytes to print.
#![tactic(auto)]

mod lines;

ghost use Rattle.std.specs.Prelude.{◌≡◌, ◌≤◌, length, IfOk};
ghost use Rattle.job.specs.Limits.{list_size};
ghost use Rattle.job.specs.Answer.{answer_of, buffer_after};
ghost use Rattle.job.specs.Internal.Searching.{Tells};

pub use input::LONGEST_TEXT;
use refusal::Refusal;
use rules::{NO_CAP, Report};
use std::error::Error;
use std::fmt;

// The entries of the search's list.
pub const LIST: usize = 8192;
// The bytes of a buffer that has room for the longest output.
pub const BUFFER: usize = 196608;

// The buffer is too short for the longest output.
#[derive(Debug, Clone, Copy, PartialEq, Eq)]
pub struct ShortBuffer;

impl fmt::Display for ShortBuffer {
    fn fmt<W: fmt::Write>(&self, f: &mut fmt::Formatter<W>) -> fmt::Result {
        f.write_str("the buffer is too short")
    }
}

impl Error for ShortBuffer {}

// The search that an input asks for, which fills the list from its start.
fn searched(input: &[u8], positions: &mut [u32]) -> Result<Report, Refusal>
    requires { length positions.old ≡ list_size }
    ensures { Tells input.now positions.new result }
{
    let len = input::parse(input)?;
    let end = 1 + len;
    let built = preparation::prepare_alone(&input[1..end], &classes::identity_classes())?;
    search::colussi(built.pattern, &input[end..], NO_CAP, positions)
}

// Writes what document 01 prints for the input at the start of the buffer, and answers the number of bytes written; the rest of the buffer
// is unchanged. A buffer shorter than BUFFER bytes is unchanged.
pub fn job(input: &[u8], out: &mut [u8]) -> Result<usize, ShortBuffer>
    ensures answer { result ≡ answer_of input.now (length out.old) }
    ensures buffer { out.new ≡ buffer_after input.now out.old }
    ensures within { IfOk result (λ n. n ≤ length out.new) }
{
    if out.len() < BUFFER {
        return Err(ShortBuffer);
    }
    let mut positions = [0u32; LIST];
    Ok(match searched(input, &mut positions) {
        Ok(report) => lines::put_report(out, report, &positions),
        Err(why) => lines::put_refused(out, why),
    })
}
