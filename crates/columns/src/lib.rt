// The report of a search that ends, from its count and one of the two columns: the other is what that leaves of the count.
#![tactic(auto)]

ghost use Rattle.std.specs.Prelude.{◌≡◌, ◌-◌};
ghost use Rattle.columns.specs.Ended.{ended_with};

use rules::{Ending, Report};

// With so many comparisons at noholes.
pub fn with_noholes(ending: Ending, count: u64, noholes: u64, written: usize) -> Report
    ensures answer { result ≡ ended_with ending count noholes (count - noholes) written }
{
    Report {
        ending,
        count,
        noholes,
        holes: count.saturating_sub(noholes),
        written,
    }
}

// With so many comparisons at holes.
pub fn with_holes(ending: Ending, count: u64, holes: u64, written: usize) -> Report
    ensures answer { result ≡ ended_with ending count (count - holes) holes written }
{
    Report {
        ending,
        count,
        noholes: count.saturating_sub(holes),
        holes,
        written,
    }
}
