// The scan: the longest prefix at every position of a text, by the comparisons of Knuth, Morris and Pratt. They are counted by what they do: each
// takes the scan on by a letter of the text, so that there are n of them, but for those after which the same letter is compared again.
ghost use Rattle.std.specs.Prelude.{◌≡◌, ◌+◌, ◌-◌, ◌≤◌, ◌<◌, length};
ghost use Rattle.admission.specs.Admitted.{longest_text};
ghost use Rattle.prefixes.specs.Longest.{lengths_in};
ghost use Rattle.prefixes.specs.CarriedOn.{comparisons};
ghost use Rattle.lengths.specs.Internal.Steps.{letters_of, Tables};
ghost use Rattle.lengths.specs.Internal.Scan.{Scans, Carries};

use super::steps::{Spot, Text, begin, extend, extend_any, leave, stays};

// How many windows of m letters end before a text of n does. Those of one letter are not asked for: there is nothing to compare in them once it is
// found.
fn windows_inside(m: usize, n: usize) -> usize
    ensures { (1 < m → result ≡ n - m) × (m ≤ 1 → result ≡ 0) }
{
    if 1 < m { n.saturating_sub(m) } else { 0 }
}

// A window, how much of the pattern is matched in it, and how many letters of the text were compared again.
#[derive(Clone, Copy)]
pub struct Reached {
    pub window: usize,
    pub matched: usize,
    pub again: u64,
}

// The letters of a pattern, and a table of hmax for them.
#[derive(Clone, Copy)]
pub struct Prefixes<'a> {
    pub letters: &'a [u8],
    pub hmax: &'a [u16],
    pub ghost tables: { Tables letters.now hmax.now },
}

impl Prefixes<'_> {
    // The windows that end before the text does: no test asks for its end. A shift by 1, which a run of one letter makes at each position, is found
    // by a glance at the table.
    fn inside(&self, text: Text, lengths: &mut [u16]) -> Reached
        requires text_len_bound { (length text.bytes.now ≤ longest_text) × (length text.bytes.now ≤ length lengths.old) }
        ensures scans { Scans self.now.letters.now (letters_of text.entry) lengths.old lengths.new result.window result.matched result.again }
        ensures again_le_longest_text { result.again ≤ longest_text }
    {
        let m = self.letters.len();
        let x = self.letters[0];
        let first = self.hmax[1] as usize;
        let last = windows_inside(m, text.bytes.len());
        let mut b: usize = 0;
        let mut i: usize = 0;
        let mut again: u64 = 0;
        while b < last {
            let Spot { window, matched } = begin(x, text, lengths, b, i);
            if last <= window {
                return Reached {
                    window,
                    matched,
                    again,
                };
            }
            let r = extend(self.letters, text, window, matched, m);
            if r == first {
                lengths[window] = r as u16;
                again += stays(1, r, m);
                b = window + 1;
                i = r - 1;
                continue;
            }
            let s = leave(self.hmax, lengths, window, r, r + 1);
            again += stays(s, r, m);
            b = window + s;
            i = r.saturating_sub(s);
        }
        Reached {
            window: b,
            matched: i,
            again,
        }
    }

    // The other windows, from window b with i letters matched in it; answers how many letters were compared again. Where no letter is left to compare
    // the last entries are written in the same way.
    fn rest(&self, text: Text, lengths: &mut [u16], mut b: usize, mut i: usize) -> u64
        requires text_len_bound { (length text.bytes.now ≤ longest_text) × (length text.bytes.now ≤ length lengths.old) }
        requires i_in_bounds { (i ≤ length self.now.letters.now) × (b + i ≤ length text.bytes.now) }
        ensures carries { Carries self.now.letters.now (letters_of text.entry) lengths.old lengths.new b i result }
        ensures upper_bound { result ≤ longest_text }
    {
        let m = self.letters.len();
        let n = text.bytes.len();
        let x = self.letters[0];
        let mut again: u64 = 0;
        while b < n {
            let Spot { window, matched } = begin(x, text, lengths, b, i);
            if n <= window {
                return again;
            }
            let end = m.min(n - window);
            let r = extend_any(self.letters, text, window, matched, end);
            let s = leave(self.hmax, lengths, window, r, (r + 1).min(n - window));
            again += stays(s, r, end);
            b = window + s;
            i = r.saturating_sub(s);
        }
        again
    }

    // The whole text.
    pub fn scan(&self, text: Text, lengths: &mut [u16]) -> u64
        requires text_len_bound { (length text.bytes.now ≤ longest_text) × (length text.bytes.now ≤ length lengths.old) }
        ensures value { result ≡ comparisons self.now.letters.now (letters_of text.entry) }
        ensures lengths_after { lengths.new ≡ lengths_in self.now.letters.now (letters_of text.entry) lengths.old }
    {
        let Reached {
            window,
            matched,
            again,
        } = self.inside(text, lengths);
        let more = self.rest(text, lengths, window, matched);
        again + more + text.bytes.len() as u64
    }
}
