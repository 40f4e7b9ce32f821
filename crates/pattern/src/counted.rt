// Marks of which those below a place are counted.
ghost use Rattle.std.specs.Prelude.{◌≡◌, ◌≤◌};
ghost use Rattle.words.specs.Numbers.{count};
ghost use Rattle.ones.specs.Marks.{marked, whole_words};

use ones::{WORDS, ones_below, whole_words};

// The marks, and the ones of their first words.
#[derive(Clone, Copy)]
pub struct Counted<'a> {
    pub marks: &'a [u64; WORDS],
    whole: [u16; WORDS + 1],
    ghost sums: { whole ≡ whole_words marks.now },
}

impl<'a> Counted<'a> {
    pub fn new(marks: &'a [u64; WORDS]) -> Self
        ensures { result.marks.now ≡ marks.now }
    {
        let whole = whole_words(marks);
        Counted { marks, whole }
    }

    // How many marks lie below the place p.
    #[tactic(auto, using(crate::proofs::Bits::marked_le))]
    pub fn below(&self, p: usize) -> usize
        ensures { (result ≡ count p (marked self.now.marks.now)) × (result ≤ p) }
    {
        ones_below(self.marks, &self.whole, p)
    }
}
