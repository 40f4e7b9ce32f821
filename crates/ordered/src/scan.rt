// The scan of a text in a custom order, over tables that are lent. Every window begins with rank 0, so that a turn of the loop is a window. It
// makes exactly the comparisons that it counts, and adds up those at noholes as a window is left, from the rank that it is left with.
ghost use Rattle.std.specs.Prelude.{◌≡◌, ℕ, ◌+◌, ◌≤◌, ◌<◌, eqb, length, get_or, MatchOption};
ghost use Rattle.words.specs.Tables.{letter};
ghost use Rattle.admission.specs.Admitted.{longest_text};
ghost use Rattle.custom.specs.Custom.{custom};
ghost use Rattle.intake.specs.Sizes.{longest_pattern};
ghost use Rattle.rules.specs.Report.{Reported};
ghost use Rattle.ordered.specs.Internal.{letters_of, MarkedAmong, Agreed, Reaches, LentTables};

use classes::CLASSES;
use columns::with_noholes;
use ones::{WORDS, is_marked};
use rules::{Ending, Report};

// How many of the first i places of an order are marked, for each i up to all of them.
pub fn fill_among(order: &[u8], marks: &[u64; WORDS], among: &mut [u16])
    requires { (length order.now ≤ longest_pattern) × (length order.now < length among.old) }
    ensures { MarkedAmong order.now marks.now among.new (length order.now) }
{
    let mut count: u16 = 0;
    among[0] = 0;
    for (i, &place) in order.iter().enumerate() {
        count += u16::from(is_marked(marks, place as usize));
        among[i + 1] = count;
    }
}

// A text, and the classes that its bytes are read through.
#[derive(Clone, Copy)]
pub struct Text<'a> {
    pub classes: &'a [u8; CLASSES],
    pub bytes: &'a [u8],
}

impl<'a> Text<'a> {
    // Whether x is the letter at a position.
    #[tactic(auto, using(classes::proofs::Through::class_entry, classes::proofs::Through::through_at))]
    fn agrees(self, x: u8, position: usize) -> bool
        requires { position < length self.bytes.now }
        ensures { result ≡ eqb x (letter (letters_of self.entry) position) }
    {
        let Text { classes, bytes } = self;
        x == classes[bytes[position] as usize]
    }
}

// The first rank from 1 on and below `end` whose letter differs from the text's in window b.
fn reach(letters: &[u8], order: &[u8], text: Text, b: usize, end: usize) -> Option<usize>
    requires le_end { (1 ≤ end) × (end ≤ length order.now) × (b + length letters.now ≤ length text.bytes.now) }
    requires by_index { (i : ℕ) → i < length order.now → get_or order.now i 0 < length letters.now }
    ensures { let t = letters_of text.entry in
        MatchOption result (Agreed letters.now order.now t b end) (λ r. Reaches letters.now order.now t b end r) }
{
    for i in 1..end {
        let place = order[i] as usize;
        if !text.agrees(letters[place], b + place) {
            return Some(i);
        }
    }
    None
}

// The whole text.
pub fn scan(
    letters: &[u8],
    order: &[u8],
    shifts: &[u16],
    among: &[u16],
    text: Text,
    cap: u64,
    positions: &mut [u32],
) -> Report
    requires lent_tables { LentTables letters.now order.now shifts.now among.now }
    requires text_len { length text.bytes.now ≤ longest_text }
    ensures { Reported letters.now (custom order.now letters.now (letters_of text.entry) cap (length positions.old)) positions.old positions.new result }
{
    let m = letters.len();
    if text.bytes.len() < m {
        return with_noholes(Ending::Done, 0, 0, 0);
    }
    let last = text.bytes.len() - m;
    // What a miss at rank 0 does is the same each time.
    let o = order[0] as usize;
    let x = letters[o];
    let step = shifts[0] as usize;
    let gained = among[1] as u64;
    let mut b: usize = 0;
    let mut left: u64 = cap;
    let mut q: u64 = 0;
    let mut k: usize = 0;
    while b <= last {
        if left == 0 {
            return with_noholes(Ending::Spent(b), cap - left, q, k);
        }
        if !text.agrees(x, b + o) {
            left -= 1;
            q += gained;
            b += step;
            continue;
        }
        let end = left.min(m as u64) as usize;
        if let Some(r) = reach(letters, order, text, b, end) {
            left -= r as u64 + 1;
            q += among[r + 1] as u64;
            b += shifts[r] as usize;
            continue;
        }
        // All that were compared agree: the cap is spent, or the pattern occurs.
        left -= end as u64;
        q += among[end] as u64;
        if end < m {
            return with_noholes(Ending::Spent(b), cap - left, q, k);
        }
        if k == positions.len() {
            return with_noholes(Ending::Full(b), cap - left, q, k);
        }
        positions[k] = b as u32;
        k += 1;
        b += shifts[m] as usize;
    }
    with_noholes(Ending::Done, cap - left, q, k)
}
