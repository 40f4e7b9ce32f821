// How a search ended, as numbers: rows and C have it so.
#![tactic(auto)]

ghost use Rattle.std.specs.Prelude.{◌≡◌};
ghost use Rattle.endings.specs.Endings.{ending_number, ending_window};

use rules::Ending;

// 0 for done, 1 for spent, 2 for full.
pub fn ending_number(ending: Ending) -> u32
    ensures answer { result ≡ ending_number ending }
{
    match ending {
        Ending::Done => 0,
        Ending::Spent(_) => 1,
        Ending::Full(_) => 2,
    }
}

// The window of an ending, or 0.
pub fn ending_window(ending: Ending) -> usize
    ensures answer { result ≡ ending_window ending }
{
    match ending {
        Ending::Done => 0,
        Ending::Spent(window) | Ending::Full(window) => window,
    }
}
