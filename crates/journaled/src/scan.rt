// The scan of a text in Colussi's order that writes a journal, by the tables of a pattern. It makes exactly the comparisons that it counts, and the
// count is where the next entry goes. Those at holes are added up as a window is left, from the rank that it is left with: the ranks from d on are
// theirs.
ghost use Rattle.std.specs.Prelude.{◌≡◌, ◌+◌, ◌-◌, ◌^◌, ◌≤◌, ◌<◌, eqb, length, replicate};
ghost use Rattle.words.specs.Tables.{letter};
ghost use Rattle.admission.specs.Admitted.{longest_text};
ghost use Rattle.checked.specs.Check.{IsPrepared};
ghost use Rattle.classes.specs.Classes.{through, letters_in};
ghost use Rattle.columns.specs.Ended.{ended_with};
ghost use Rattle.intake.specs.Sizes.{longest_pattern};
ghost use Rattle.journal.specs.Journal.{written};
ghost use Rattle.pattern.specs.Letters.{own_bytes, word_of, text_of};
ghost use Rattle.rules.specs.Colussi.{colussi};
ghost use Rattle.rules.specs.Report.{Reported};
ghost use Rattle.search.specs.Internal.ColussiScan.{DueAt};

use columns::with_holes;
use pattern::{CLASSES, LONGEST_PATTERN, Pattern};
use rules::{Ending, Report};

// Whether a comparison is due at rank i of window b: it is not past the last rank, nor where the text is known.
fn due(pattern: &Pattern, b: usize, i: usize, e: usize) -> bool
    requires { (pattern.now.len ≤ longest_pattern) × (b < 2 ^ 32) }
    ensures { DueAt pattern.now.order pattern.now.len b i e result }
{
    i < pattern.len && e <= b + usize::from(pattern.order[i])
}

// Whether x is the letter at a position of a text.
fn agree(x: u8, classes: &[u8; CLASSES], text: &[u8], position: usize) -> bool
    requires { position < length text.now }
    ensures { result ≡ eqb x (letter (through classes.now text.now) position) }
{
    let byte = text[position];
    let class = classes[usize::from(byte)];
    x == class
}

// The report of a scan that ends at rank i with c comparisons made, h of them at holes in the windows that it left.
fn ended(ending: Ending, c: usize, h: usize, i: usize, d: usize, k: usize) -> Report
    requires { h + (i - d) < 2 ^ 64 }
    ensures { result ≡ ended_with ending c (c - (h + (i - d))) (h + (i - d)) k }
{
    with_holes(ending, c as u64, (h + i.saturating_sub(d)) as u64, k)
}

// The whole text.
pub fn scan(
    pattern: &Pattern,
    letters: &[u8; LONGEST_PATTERN],
    text: &[u8],
    cap: usize,
    positions: &mut [u32],
    journal: &mut [u32],
) -> Report
    requires prepared { IsPrepared pattern.now }
    requires letters { letters.now ≡ letters_in (own_bytes pattern.now) pattern.now.classes (replicate longest_pattern 0) }
    requires room { (length text.now ≤ longest_text) × (cap ≤ length journal.old) }
    ensures reported { Reported (word_of pattern.now) (colussi (word_of pattern.now) (text_of pattern.now text.now) cap (length positions.old)) positions.old positions.new result }
    ensures journal_after { journal.new ≡ written (colussi (word_of pattern.now) (text_of pattern.now text.now) cap (length positions.old)).last.made journal.old }
{
    let m = pattern.len;
    let d = pattern.noholes;
    if text.len() < m {
        return with_holes(Ending::Done, 0, 0, 0);
    }
    let last = text.len() - m;
    let mut b: usize = 0;
    let mut i: usize = 0;
    let mut e: usize = 0;
    let mut c: usize = 0;
    let mut h: usize = 0;
    let mut k: usize = 0;
    while b <= last {
        if due(pattern, b, i, e) {
            if c == cap {
                return ended(Ending::Spent(b), c, h, i, d, k);
            }
            let o = usize::from(pattern.order[i]);
            let p = b + o;
            if agree(letters[o], &pattern.classes, text, p) {
                journal[c] = (2 * p + 1) as u32;
                c += 1;
                i += 1;
            } else {
                journal[c] = (2 * p) as u32;
                c += 1;
                let (left, rank) = (b, i);
                b += usize::from(pattern.shift[rank]);
                i = usize::from(pattern.next[rank]);
                // Last, so that it stays a branch: most windows are left at a rank before d.
                if d <= rank {
                    h += rank + 1 - d;
                    e = left + m;
                }
            }
        } else {
            if k == positions.len() {
                return ended(Ending::Full(b), c, h, i, d, k);
            }
            positions[k] = b as u32;
            k += 1;
            h += i - d;
            e = b + m;
            b += usize::from(pattern.shift[m]);
            i = usize::from(pattern.next[m]);
        }
    }
    ended(Ending::Done, c, h, i, d, k)
}
