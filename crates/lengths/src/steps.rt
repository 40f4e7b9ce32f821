// The steps of a scan: windows that miss at place 0, a window's letters compared, and a window left. The comparisons that the scan counts are made
// here, each once.
ghost use Rattle.std.specs.Prelude.{◌≡◌, ℕ, ◌+◌, ◌≤◌, ◌<◌, min, eqb, length, get_or, MatchOption};
ghost use Rattle.words.specs.Tables.{letter};
ghost use Rattle.hmax.specs.Table.{entry_bound};
ghost use Rattle.lengths.specs.Internal.Steps.{letters_of, Passes, Finds, Begins, Extends, LeavesBy, Stays};

use classes::CLASSES;

// A text, and the classes that its bytes are read through.
#[derive(Clone, Copy)]
pub struct Text<'a> {
    pub classes: &'a [u8; CLASSES],
    pub bytes: &'a [u8],
}

impl<'a> Text<'a> {
    // Whether x is the letter at a position.
    #[tactic(auto, using(classes::proofs::Through::class_entry, classes::proofs::Through::through_at))]
    fn agrees(self, x: u8, position: usize) -> bool
        requires { position < length self.bytes.now }
        ensures { result ≡ eqb x (letter (letters_of self.entry) position) }
    {
        let Text { classes, bytes } = self;
        x == classes[bytes[position] as usize]
    }
}

// The first position from `from` on that has the letter x. A window that does not begin with x has nothing matched: its entry is 0.
fn pass(x: u8, text: Text, lengths: &mut [u16], from: usize) -> Option<usize>
    requires { (from ≤ length text.bytes.now) × (length text.bytes.now ≤ length lengths.old) }
    ensures { let t = letters_of text.entry in
        MatchOption result (Passes t x lengths.old lengths.new from (length text.entry.bytes.now)) (λ r. Finds t x lengths.old lengths.new from r) }
{
    for b in from..text.bytes.len() {
        if text.agrees(x, b) {
            return Some(b);
        }
        lengths[b] = 0;
    }
    None
}

// A window, and how much of the pattern is matched in it.
#[derive(Clone, Copy)]
pub struct Spot {
    pub window: usize,
    pub matched: usize,
}

// Where letters are compared on from window b: there, if something is matched in it; else in the first window that begins with x, or at the text's
// end.
pub fn begin(x: u8, text: Text, lengths: &mut [u16], b: usize, i: usize) -> Spot
    requires { (b ≤ length text.bytes.now) × (length text.bytes.now ≤ length lengths.old) }
    ensures { Begins (letters_of text.entry) x lengths.old lengths.new b i result.window result.matched }
{
    if 0 < i {
        return Spot {
            window: b,
            matched: i,
        };
    }
    match pass(x, text, lengths, b) {
        Some(window) => Spot { window, matched: 1 },
        None => Spot {
            window: text.bytes.len(),
            matched: 0,
        },
    }
}

// The first place from `from` on and below `end` whose letter differs from the text's in window b, or `end`. There is a place to compare, so that
// the end is tested for only after a comparison.
pub fn extend(letters: &[u8], text: Text, b: usize, from: usize, end: usize) -> usize
    requires { (from < end) × (end ≤ length letters.now) × (b + end ≤ length text.bytes.now) }
    ensures { Extends letters.now (letters_of text.entry) b from end result }
{
    let mut p = from;
    while text.agrees(letters[p], b + p) {
        p += 1;
        if p == end {
            break;
        }
    }
    p
}

// The same where there may be none.
pub fn extend_any(letters: &[u8], text: Text, b: usize, from: usize, end: usize) -> usize
    requires { (from ≤ end) × (end ≤ length letters.now) × (b + end ≤ length text.bytes.now) }
    ensures { Extends letters.now (letters_of text.entry) b from end result }
{
    if from < end {
        extend(letters, text, b, from, end)
    } else {
        from
    }
}

// 1, if the letters at r were compared and the window is left by at most r: the text's letter there is compared again. Every other comparison takes
// the scan on by a letter of the text.
pub fn stays(s: usize, r: usize, end: usize) -> u64
    ensures { Stays s r end result }
{
    u64::from(r < end && s <= r)
}

// Leaves window b, where i letters are matched, and answers by how much: the first k whose hmax is i, or `end`. The entries of the windows up to
// there follow from hmax.
pub fn leave(hmax: &[u16], lengths: &mut [u16], b: usize, i: usize, end: usize) -> usize
    requires le_end { (1 ≤ end) × (end ≤ length hmax.now) × (b + end ≤ length lengths.old) × (i < entry_bound) }
    requires i_bound { i ≤ get_or hmax.now 0 0 }
    requires by_index { (k : ℕ) → k < end → k ≤ min (get_or hmax.now k 0) i }
    ensures { LeavesBy hmax.now lengths.old lengths.new b i end result }
{
    lengths[b] = i as u16;
    for k in 1..end {
        let h = hmax[k] as usize;
        if h == i {
            return k;
        }
        lengths[b + k] = (h.min(i) - k) as u16;
    }
    end
}
