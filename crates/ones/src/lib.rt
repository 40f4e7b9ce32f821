// 256 marks as bits of four words, and how many of them lie below a place: by counting ones.
#![tactic(auto)]

ghost use Rattle.std.specs.Prelude.{◌≡◌, ◌≤◌, ◌<◌};
ghost use Rattle.words.specs.Numbers.{count};
ghost use Rattle.ones.specs.Marks.{marked, whole_words, low_ones, ones_below};

// The bits of a word, the words, and the places that they mark.
pub const BITS: usize = 64;

pub const WORDS: usize = 4;

pub const PLACES: usize = WORDS * BITS;

fn ones_of(word: u64) -> u16
    ensures { (result ≡ low_ones word 64) × (result ≤ 64) }
{
    word.count_ones() as u16
}

// The ones of what a word has below one of its places.
fn remainder(word: u64, place: usize) -> u16
    requires { place < 64 }
    ensures { (result ≡ low_ones word place) × (result ≤ 64) }
{
    ones_of(word & ((1 << place) - 1))
}

// The ones of the first words: of none, of one, up to all of them. They are counted once, for any number of places.
pub fn whole_words(marks: &[u64; WORDS]) -> [u16; WORDS + 1]
    ensures answer { result ≡ whole_words marks.now }
{
    let mut whole = [0; WORDS + 1];
    for (i, &word) in marks.iter().enumerate() {
        whole[i + 1] = whole[i] + ones_of(word);
    }
    whole
}

// How many marks lie below a place: ones of the whole words below it, plus ones of the last word's remainder below it. From the place PLACES on
// all marks do.
#[tactic(auto, using(crate::proofs::Counting::inside, crate::proofs::Counting::past, crate::proofs::Counting::counted))]
pub fn ones_below(marks: &[u64; WORDS], whole: &[u16; WORDS + 1], p: usize) -> usize
    ensures answer { result ≡ ones_below marks.now whole.now p }
    ensures meaning { whole.now ≡ whole_words marks.now → result ≡ count p (marked marks.now) }
{
    if PLACES <= p {
        return usize::from(whole[WORDS]);
    }
    let i = p / BITS;
    usize::from(whole[i]) + usize::from(remainder(marks[i], p % BITS))
}

// Whether a place is marked. None past the last is.
#[tactic(auto, using(crate::proofs::Counting::bit_read, crate::proofs::Counting::none_past))]
pub fn is_marked(marks: &[u64; WORDS], place: usize) -> bool
    ensures answer { result ≡ marked marks.now place }
{
    if PLACES <= place {
        return false;
    }
    (marks[place / BITS] >> (place % BITS)) & 1 == 1
}
