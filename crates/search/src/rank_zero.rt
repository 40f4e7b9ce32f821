// Windows that miss at rank 0, in a search that leaves such a window by 1, for rank 0 again: a scan of the text for one letter. Both searches
// pass them so.
ghost use Rattle.std.specs.Prelude.{◌≡◌, ◌+◌, ◌^◌, ◌≤◌, ◌<◌, length, MatchOption};
ghost use Rattle.classes.specs.Classes.{through};
ghost use Rattle.search.specs.Internal.RankZero.{Passed, FirstAt, Ahead};

use super::compare::Text;

// A window, the rank reached in it and what is left of the cap.
#[derive(Clone, Copy)]
pub struct Spot {
    pub window: usize,
    pub rank: usize,
    pub left: u64,
}

impl<'a> Text<'a> {
    // The first place from `from` on and below `end` that has the letter x. By fours as long as four are left: what a loop does beside comparing, it
    // does once for four.
    fn skip(self, x: u8, from: usize, end: usize) -> Option<usize>
        requires { (from ≤ end) × (end ≤ length self.bytes.now) }
        ensures { let text = through self.entry.classes.now self.entry.bytes.now in MatchOption result (Passed text x from end) (λ p. FirstAt text x from end p) }
    {
        let mut p = from;
        while 4 <= end - p {
            if self.agrees(x, p) {
                return Some(p);
            }
            if self.agrees(x, p + 1) {
                return Some(p + 1);
            }
            if self.agrees(x, p + 2) {
                return Some(p + 2);
            }
            if self.agrees(x, p + 3) {
                return Some(p + 3);
            }
            p += 4;
        }
        (p..end).find(|q| self.agrees(x, *q))
    }

    // From rank 0 of window b, where x is due at place o: past the windows that miss, to rank 1 of the first that does not. It stops at rank 0
    // past the last window, or where nothing is left of the cap.
    pub fn ahead(self, x: u8, o: usize, last: usize, b: usize, left: u64) -> Spot
        requires { (b ≤ last) × (last + o < length self.bytes.now) × (length self.bytes.now < 2 ^ 32) }
        ensures { Ahead (through self.entry.classes.now self.entry.bytes.now) x o last b left result.window result.rank result.left }
    {
        if left == 0 {
            return Spot {
                window: b,
                rank: 0,
                left,
            };
        }
        let from = b + o;
        if self.agrees(x, from) {
            return Spot {
                window: b,
                rank: 1,
                left: left - 1,
            };
        }
        let room = (left - 1).min((last - b) as u64) as usize;
        match self.skip(x, from + 1, from + 1 + room) {
            Some(place) => Spot {
                window: place - o,
                rank: 1,
                left: left - 1 - (place - from) as u64,
            },
            None => Spot {
                window: b + 1 + room,
                rank: 0,
                left: left - 1 - room as u64,
            },
        }
    }
}
