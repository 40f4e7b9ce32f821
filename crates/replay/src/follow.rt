// A pass over a journal by the rules of Colussi's order, by the tables of a pattern. The answers are the journal's, and neither the text nor the
// pattern's letters are asked for. Comparisons at holes are added up as a window is left, from the rank that it is left with: the ranks from d on are
// theirs.
ghost use Rattle.std.specs.Prelude.{◌≡◌, ◌≢◌, ◌+◌, ◌-◌, ◌^◌, ◌≤◌, ◌<◌, MatchOption, length};
ghost use Rattle.admission.specs.Admitted.{longest_text};
ghost use Rattle.columns.specs.Ended.{ended_with};
ghost use Rattle.intake.specs.Sizes.{longest_pattern};
ghost use Rattle.search.specs.Internal.ColussiScan.{DueAt};
ghost use Rattle.replay.specs.Internal.{Lent, FollowedFor};

use columns::with_holes;
use pattern::Pattern;
use rules::{Ending, Report};

// Whether a comparison is due at rank i of window b: it is not past the last rank, nor where the text is known.
fn due(pattern: &Pattern, b: usize, i: usize, e: usize) -> bool
    requires { (pattern.now.len ≤ longest_pattern) × (b < 2 ^ 32) }
    ensures { DueAt pattern.now.order pattern.now.len b i e result }
{
    i < pattern.len && e <= b + usize::from(pattern.order[i])
}

// The report of a pass that ends at rank i with c comparisons made, h of them at holes in the windows that it left.
fn ended(ending: Ending, c: usize, h: usize, i: usize, d: usize, k: usize) -> Report
    requires { h + (i - d) < 2 ^ 64 }
    ensures { result ≡ ended_with ending c (c - (h + (i - d))) (h + (i - d)) k }
{
    with_holes(ending, c as u64, (h + i.saturating_sub(d)) as u64, k)
}

// A report, unless entries remain after the first c.
fn if_all_read(report: Report, c: usize, journal: &[u32]) -> Option<Report>
    ensures { MatchOption result (c ≢ length journal.now) (λ r. (c ≡ length journal.now) × (r ≡ report)) }
{
    (c == journal.len()).then_some(report)
}

// The pass for a text of n bytes and a list of so many entries: its report, if the journal is accepted. What it tells holds of whatever pattern has
// these tables. Positions are written as far as the lent list goes: with an empty one the pass only follows, and where it is inlined it then adds
// nothing up.
#[inline]
pub fn follow(
    pattern: &Pattern,
    n: usize,
    size: usize,
    journal: &[u32],
    positions: &mut [u32],
) -> Option<Report>
    requires lent { Lent pattern.now.order pattern.now.shift pattern.now.next pattern.now.len pattern.now.noholes }
    requires n_le_longest_text { n ≤ longest_text }
    ensures { FollowedFor pattern.now.order pattern.now.shift pattern.now.next pattern.now.len pattern.now.noholes n size journal.now positions.old positions.new result }
{
    let m = pattern.len;
    let d = pattern.noholes;
    if n < m {
        return if_all_read(with_holes(Ending::Done, 0, 0, 0), 0, journal);
    }
    let last = n - m;
    let mut b: usize = 0;
    let mut i: usize = 0;
    let mut e: usize = 0;
    let mut c: usize = 0;
    let mut h: usize = 0;
    let mut k: usize = 0;
    while b <= last {
        if due(pattern, b, i, e) {
            if c == journal.len() {
                return Some(ended(Ending::Spent(b), c, h, i, d, k));
            }
            let v = journal[c] as usize;
            if v / 2 != b + usize::from(pattern.order[i]) {
                return None;
            }
            c += 1;
            let equal = v % 2 == 1;
            if equal {
                i += 1;
            } else {
                let (left, rank) = (b, i);
                b += usize::from(pattern.shift[rank]);
                i = usize::from(pattern.next[rank]);
                // Last, so that it stays a branch: most windows are left at a rank before d.
                if d <= rank {
                    h += rank + 1 - d;
                    e = left + m;
                }
            }
        } else {
            if k == size {
                return if_all_read(ended(Ending::Full(b), c, h, i, d, k), c, journal);
            }
            if k < positions.len() {
                positions[k] = b as u32;
            }
            k += 1;
            h += i - d;
            e = b + m;
            b += usize::from(pattern.shift[m]);
            i = usize::from(pattern.next[m]);
        }
    }
    if_all_read(ended(Ending::Done, c, h, i, d, k), c, journal)
}
