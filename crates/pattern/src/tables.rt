// The two tables of a pattern's letters in the scratch.
ghost use Rattle.std.specs.Prelude.{◌≡◌, ◌+◌, ◌≤◌, length};
ghost use Rattle.words.specs.Tables.{hmax, kmin};
ghost use Rattle.pattern.specs.Internal.Scratch.{Sizes, HasTables};

use super::sizes::KMINS;

// The letters, and a scratch that is filled: hmax(k) is its entry k, and kmin(p) its entry KMINS + p.
#[derive(Clone, Copy)]
pub struct Tables<'a> {
    pub letters: &'a [u8],
    pub scratch: &'a [u16],
    ghost sizes: { Sizes letters.now scratch.now },
    ghost filled: { HasTables letters.now scratch.now },
}

impl<'a> Tables<'a> {
    // m
    pub fn len(&self) -> usize
        ensures { result ≡ length self.now.letters.now }
    {
        self.letters.len()
    }

    #[tactic(auto, using(crate::proofs::Kmins::hmax_le))]
    pub fn hmax(&self, k: usize) -> usize
        requires { (1 ≤ k) × (k ≤ length self.now.letters.now) }
        ensures { (result ≡ hmax self.now.letters.now k) × (result ≤ length self.now.letters.now) }
    {
        usize::from(self.scratch[k])
    }

    #[tactic(auto, using(crate::proofs::Kmins::kmin_le))]
    pub fn kmin(&self, p: usize) -> usize
        requires { p ≤ length self.now.letters.now }
        ensures { (result ≡ kmin self.now.letters.now p) × (result ≤ length self.now.letters.now + 1) }
    {
        usize::from(self.scratch[KMINS + p])
    }
}
