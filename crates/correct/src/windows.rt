// The windows that cover a place.
ghost use Rattle.std.specs.Prelude.{◌≤◌, ◌<◌};
ghost use Rattle.admission.specs.Admitted.{longest_text};
ghost use Rattle.correct.specs.Internal.{IsAround};

// The part of the text that those windows make up, from start on and below end; they are the positions from start on and below past.
#[derive(Clone, Copy, Default)]
pub struct Part {
    pub start: usize,
    pub end: usize,
    pub past: usize,
}

// For windows of m bytes in a text of n. Where m is 0, which no prepared pattern's is, the part is empty.
pub fn around(place: usize, m: usize, n: usize) -> Part
    requires { (place < n) × (n ≤ longest_text) }
    ensures { IsAround m n place result }
{
    if m == 0 {
        return Part::default();
    }
    let start = (place + 1).saturating_sub(m);
    let end = place.saturating_add(m).min(n);
    let past = (end + 1).saturating_sub(m);
    Part { start, end, past }
}
