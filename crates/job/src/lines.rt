// The lines that the program prints.
ghost use Rattle.std.specs.Prelude.{◌≡◌, ◌+◌, ◌*◌, ◌≤◌, ◌++◌, length, take};
ghost use Rattle.job.specs.Limits.{list_size, buffer_size};
ghost use Rattle.job.specs.Text.{ascii, decimal};
ghost use Rattle.job.specs.Printed.{refused_line, ending_line, position_lines, report_lines};
ghost use Rattle.job.specs.Internal.Writing.{Puts, Writes};

use refusal::Refusal;
use rules::{Ending, Report};

// A buffer, of which the first `len` bytes are written.
#[derive(Drop)]
struct Lines<'a> {
    out: &'a mut [u8],
    len: usize,
}

impl Lines<'_> {
    fn put(&mut self, bytes: &[u8])
        requires { self.old.len + length bytes.now ≤ length self.old.out.now }
        ensures { Writes self.old self.new bytes.now }
    {
        let end = self.len + bytes.len();
        self.out[self.len..end].copy_from_slice(bytes);
        self.len = end;
    }

    #[tactic(auto, using(crate::proofs::Decimals::length_decimal, crate::proofs::Decimals::printed_decimal))]
    fn put_decimal(&mut self, n: u64)
        requires { self.old.len + 20 ≤ length self.old.out.now }
        ensures { Writes self.old self.new (decimal n) }
    {
        self.put(itoa::Buffer::new().format(n).as_bytes());
    }

    // A word, a number and a newline.
    #[tactic(auto, using(crate::proofs::Decimals::length_decimal, crate::proofs::Writing::length_kept))]
    fn put_line(&mut self, word: &[u8], n: u64)
        requires { self.old.len + length word.now + 21 ≤ length self.old.out.now }
        ensures writes { Writes self.old self.new (word.now ++ (decimal n ++ ascii "\n")) }
        ensures upper_bound { self.new.len ≤ self.old.len + length word.now + 21 }
    {
        self.put(word);
        self.put_decimal(n);
        self.put(b"\n");
    }

    #[tactic(auto, unfolding(crate::specs::Printed::ending_line, crate::specs::Printed::line, crate::specs::Text::ascii))]
    fn put_ending(&mut self, ending: Ending)
        requires { self.old.len + 34 ≤ length self.old.out.now }
        ensures writes { Writes self.old self.new (ending_line ending) }
        ensures upper_bound { self.new.len ≤ self.old.len + 34 }
    {
        match ending {
            Ending::Done => self.put(b"end done\n"),
            Ending::Spent(b) => self.put_line(b"end spent at ", b as u64),
            Ending::Full(b) => self.put_line(b"end full at ", b as u64),
        }
    }

    // The positions, one a line.
    #[tactic(auto, using(crate::proofs::Writing::length_kept))]
    fn put_positions(&mut self, positions: &[u32])
        requires { self.old.len + 21 * length positions.now ≤ length self.old.out.now }
        ensures { Writes self.old self.new (position_lines positions.now) }
    {
        for &position in positions {
            self.put_line(b"", u64::from(position));
        }
    }
}

#[tactic(auto, unfolding(crate::specs::Printed::refused_line, crate::specs::Printed::line, crate::specs::Text::ascii))]
pub fn put_refused(out: &mut [u8], why: Refusal) -> usize
    requires { 32 ≤ length out.old }
    ensures { Puts out.old out.new 0 (refused_line why) result }
{
    let mut lines = Lines { out, len: 0 };
    lines.put_line(b"refused ", u64::from(why.number()));
    lines.len
}

pub fn put_report(out: &mut [u8], report: Report, positions: &[u32]) -> usize
    requires { (report.written ≤ length positions.now) × (length positions.now ≤ list_size) × (buffer_size ≤ length out.old) }
    ensures { Puts out.old out.new 0 (report_lines report.ending report.count (take report.written positions.now)) result }
{
    let mut lines = Lines { out, len: 0 };
    lines.put_ending(report.ending);
    lines.put_line(b"count ", report.count);
    lines.put_line(b"charge ", charge::charge(report.count));
    lines.put_line(b"places ", report.written as u64);
    lines.put_positions(&positions[..report.written]);
    lines.len
}
