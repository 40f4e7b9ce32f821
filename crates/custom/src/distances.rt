// The shifts of a custom order: of the distances from 1 on, the first that is not ruled out. Two letters of the pattern are compared for each test.
ghost use Rattle.std.specs.Prelude.{◌≡◌, suc, ◌≤◌, ◌<◌, ◌++◌, length, drop, slice_index};
ghost use Rattle.words.specs.Numbers.{tabulate};
ghost use Rattle.custom.specs.Custom.{match_rules_out, present_rules_out, custom_shift};
ghost use Rattle.custom.specs.Internal.{Lent, Passed};

// The letters of a pattern, and the order in which they are compared: an arrangement of its places.
#[derive(Clone, Copy)]
pub struct Ranks<'a> {
    pub letters: &'a [u8],
    pub order: &'a [u8],
    pub ghost lent: { Lent letters.now order.now },
}

impl Ranks<'_> {
    // Whether a match at rank j rules distance k out.
    #[tactic(auto, unfolding(crate::specs::Custom::match_rules_out))]
    fn match_rules_out(&self, j: usize, k: usize) -> bool
        requires { j < length self.now.letters.now }
        ensures { result ≡ match_rules_out self.now.letters.now (slice_index self.now.order.now j) k }
    {
        let place = usize::from(self.order[j]);
        k <= place && self.letters[place] != self.letters[place - k]
    }

    // Whether the mismatch at rank i does. There is none at rank m.
    #[tactic(auto, unfolding(crate::specs::Custom::present_rules_out, crate::specs::Custom::mismatch_rules_out))]
    fn present_rules_out(&self, i: usize, k: usize) -> bool
        ensures { result ≡ present_rules_out self.now.letters.now self.now.order.now i k }
    {
        if self.letters.len() <= i {
            return false;
        }
        let place = usize::from(self.order[i]);
        k <= place && self.letters[place] == self.letters[place - k]
    }

    // The shift of rank i. Entry k of the list tells how many of the first ranks are known not to rule k out: no pair of letters is compared again
    // for a rank that has passed.
    fn shift_at(&self, i: usize, passed: &mut [u16]) -> usize
        requires i_in_bounds { i ≤ length self.now.letters.now }
        requires passed { Passed self.now.letters.now self.now.order.now passed.old }
        ensures value { result ≡ custom_shift self.now.letters.now self.now.order.now i }
        ensures known { Passed self.now.letters.now self.now.order.now passed.new }
    {
        let m = self.letters.len();
        let mut shift = m;
        'distances: for k in 1..m {
            if self.present_rules_out(i, k) {
                continue 'distances;
            }
            'ranks: for j in usize::from(passed[k])..i {
                if self.match_rules_out(j, k) {
                    passed[k] = j as u16;
                    continue 'distances;
                }
            }
            passed[k] = i as u16;
            shift = k;
            break;
        }
        shift
    }

    // The shifts of all ranks.
    #[tactic(auto, using(crate::proofs::Filling::shift_small))]
    pub fn fill(&self, passed: &mut [u16], shifts: &mut [u16])
        requires passed { Passed self.now.letters.now self.now.order.now passed.old }
        requires letters_in_bounds { length self.now.letters.now < length shifts.old }
        ensures { let w = self.now.letters.now in
            shifts.new ≡ tabulate (suc (length w)) (custom_shift w self.now.order.now) ++ drop (suc (length w)) shifts.old }
    {
        for (i, shift) in shifts[..=self.letters.len()].iter_mut().enumerate() {
            *shift = self.shift_at(i, passed) as u16;
        }
    }
}
