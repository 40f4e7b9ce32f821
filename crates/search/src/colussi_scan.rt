// The scan of a text in Colussi's order, over the tables of a pattern that are lent. It makes exactly the comparisons that it counts. Those at
// holes are added up as a window is left, from the rank that it is left with: the ranks from d on are theirs.
ghost use Rattle.std.specs.Prelude.{◌≡◌, ◌+◌, ◌-◌, ◌^◌, ◌≤◌, ◌<◌, length, get_or, take};
ghost use Rattle.classes.specs.Classes.{through};
ghost use Rattle.columns.specs.Ended.{ended_with};
ghost use Rattle.rules.specs.Colussi.{colussi};
ghost use Rattle.rules.specs.Report.{Reported};
ghost use Rattle.search.specs.Internal.ColussiScan.{Lent, DueAt, edge_after_rank};

use super::compare::Text;
use columns::with_holes;
use pattern::{LONGEST_PATTERN, Pattern};
use rules::{Ending, Report};

// The next window, the rank that it starts with and the known edge. And the holes that were compared in the window before.
#[derive(Clone, Copy)]
pub struct Next {
    pub window: usize,
    pub rank: usize,
    pub edge: usize,
    pub holes: usize,
}

// Window b is left with a rank, at which it misses.
#[tactic(auto, unfolding(crate::specs::Internal::ColussiScan::edge_after_rank))]
pub fn leave(pattern: &Pattern, b: usize, rank: usize, e: usize) -> Next
    requires { (rank ≤ pattern.now.len) × (pattern.now.len ≤ 256) × (b + pattern.now.len < 2 ^ 32) }
    ensures window { result.window ≡ b + get_or pattern.now.shift rank 0 }
    ensures rank { result.rank ≡ get_or pattern.now.next rank 0 }
    ensures edge { result.edge ≡ edge_after_rank pattern.now.len pattern.now.noholes b rank e }
    ensures holes { result.holes ≡ rank + 1 - pattern.now.noholes }
{
    let window = b + usize::from(pattern.shift[rank]);
    let i = usize::from(pattern.next[rank]);
    if rank < pattern.noholes {
        return Next {
            window,
            rank: i,
            edge: e,
            holes: 0,
        };
    }
    Next {
        window,
        rank: i,
        edge: b + pattern.len,
        holes: rank + 1 - pattern.noholes,
    }
}

// Whether a comparison is due at rank i of window b: it is not past the last rank, nor where the text is known.
pub fn due(pattern: &Pattern, b: usize, i: usize, e: usize) -> bool
    requires { (i ≤ pattern.now.len) × (pattern.now.len ≤ 256) × (b < 2 ^ 32) }
    ensures { DueAt pattern.now.order pattern.now.len b i e result }
{
    i != pattern.len && e <= b + usize::from(pattern.order[i])
}

// The report of a scan that ends at rank i, with h comparisons at holes in the windows that it left.
fn ended(ending: Ending, cap: u64, left: u64, h: u64, i: usize, d: usize, k: usize) -> Report
    requires { (left ≤ cap) × (h + (i - d) < 2 ^ 64) }
    ensures { result ≡ ended_with ending (cap - left) (cap - left - (h + (i - d))) (h + (i - d)) k }
{
    with_holes(ending, cap - left, h + i.saturating_sub(d) as u64, k)
}

// The whole text.
pub fn scan(
    pattern: &Pattern,
    letters: &[u8; LONGEST_PATTERN],
    text: &[u8],
    cap: u64,
    positions: &mut [u32],
) -> Report
    requires lent { Lent letters.now pattern.now }
    requires short { length text.now < 2 ^ 32 }
    ensures { let w = take pattern.now.len letters.now in Reported w (colussi w (through pattern.now.classes text.now) cap (length positions.old)) positions.old positions.new result }
{
    let m = pattern.len;
    let d = pattern.noholes;
    if text.len() < m {
        return with_holes(Ending::Done, 0, 0, 0);
    }
    let last = text.len() - m;
    let text = Text {
        classes: &pattern.classes,
        bytes: text,
    };
    let first = usize::from(pattern.order[0]);
    let x = letters[first];
    let mut b: usize = 0;
    let mut i: usize = 0;
    let mut e: usize = 0;
    let mut left: u64 = cap;
    let mut h: u64 = 0;
    let mut k: usize = 0;
    while b <= last {
        if due(pattern, b, i, e) {
            let o = usize::from(pattern.order[i]);
            if left == 0 {
                return ended(Ending::Spent(b), cap, left, h, i, d, k);
            }
            left -= 1;
            if text.agrees(letters[o], b + o) {
                i += 1;
            } else {
                let after = leave(pattern, b, i, e);
                b = after.window;
                i = after.rank;
                e = after.edge;
                h += after.holes as u64;
                // Rank 0 is a nohole's where there are any, and it is due: windows that miss there are passed at once.
                if i == 0 && 0 < d && b <= last {
                    let spot = text.ahead(x, first, last, b, left);
                    b = spot.window;
                    i = spot.rank;
                    left = spot.left;
                }
            }
        } else {
            if k == positions.len() {
                return ended(Ending::Full(b), cap, left, h, i, d, k);
            }
            positions[k] = b as u32;
            k += 1;
            h += (i - d) as u64;
            e = b + m;
            b += usize::from(pattern.shift[m]);
            i = usize::from(pattern.next[m]);
        }
    }
    ended(Ending::Done, cap, left, h, i, d, k)
}
