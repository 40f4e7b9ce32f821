// The scan of a text in Colussi's order up to the first occurrence, over the tables of a pattern that are lent. It makes exactly the comparisons
// that it counts. There is no list, no column is asked for, and no cap: the comparisons are never as many as the largest (`never_spent`).
ghost use Rattle.std.specs.Prelude.{◌≡◌, ◌^◌, ◌<◌, length, take};
ghost use Rattle.classes.specs.Classes.{through};
ghost use Rattle.rules.specs.Stopped.{stopped};
ghost use Rattle.search.specs.Stop.{stop_of};
ghost use Rattle.search.specs.Internal.ColussiScan.{Lent};

use super::Stop;
use super::colussi_scan::{due, leave};
use super::compare::Text;
use pattern::{LONGEST_PATTERN, Pattern};
use rules::{Ending, NO_CAP};

pub fn scan(pattern: &Pattern, letters: &[u8; LONGEST_PATTERN], text: &[u8]) -> Stop
    requires lent { Lent letters.now pattern.now }
    requires short { length text.now < 2 ^ 32 }
    ensures { result ≡ stop_of (stopped (take pattern.now.len letters.now) (through pattern.now.classes text.now)) }
{
    let m = pattern.len;
    let d = pattern.noholes;
    if text.len() < m {
        return Stop {
            ending: Ending::Done,
            count: 0,
        };
    }
    let last = text.len() - m;
    let text = Text {
        classes: &pattern.classes,
        bytes: text,
    };
    let first = usize::from(pattern.order[0]);
    let x = letters[first];
    let mut b: usize = 0;
    let mut i: usize = 0;
    let mut e: usize = 0;
    let mut left: u64 = NO_CAP;
    while b <= last {
        if due(pattern, b, i, e) {
            let o = usize::from(pattern.order[i]);
            left -= 1;
            if text.agrees(letters[o], b + o) {
                i += 1;
            } else {
                let after = leave(pattern, b, i, e);
                b = after.window;
                i = after.rank;
                e = after.edge;
                // As in the scan with a list.
                if i == 0 && 0 < d && b <= last {
                    let spot = text.ahead(x, first, last, b, left);
                    b = spot.window;
                    i = spot.rank;
                    left = spot.left;
                }
            }
        } else {
            return Stop {
                ending: Ending::Full(b),
                count: NO_CAP - left,
            };
        }
    }
    Stop {
        ending: Ending::Done,
        count: NO_CAP - left,
    }
}
