// Asks how many marks lie below each place, and below some past the last, and checks each answer against a count bit by bit. The expected
// output is that of an oracle of separate make, tests/tallies_oracle.
#![tactic(auto)]

mod sets;

use ones::{BITS, PLACES, WORDS};
use sets::Extreme;
use std::io;

// How many places are asked of a set: 0 to PLACES + 1, and two far past the last.
const ASKED: usize = PLACES + 4;

const FAR: [usize; 2] = [512, usize::MAX];
// An extreme set has all places below one of these, from none to all ..
const ENDS: [usize; 11] = [0, 1, 63, 64, 65, 127, 128, 129, 192, 255, 256];
// .. or one of these alone.
const ALONE: [usize; 8] = [0, 63, 64, 127, 128, 191, 192, 255];
// Random sets come in pairs.
const PAIRS: u64 = 100;

const SEED: u64 = 88172645463325252;
// Of the checksum.
const FACTOR: u64 = 31;

const PRIME: u64 = 1000003;

#[derive(Clone, Copy, Default)]
struct Tally {
    answers: u64,
    checksum: u64,
    differ: u64,
}

impl Tally {
    fn with(mut self, answer: u64, counted: u64) -> Self {
        self.answers = self.answers.wrapping_add(1);
        self.checksum = (self.checksum % PRIME * FACTOR).wrapping_add(answer) % PRIME;
        if answer != counted {
            self.differ = self.differ.wrapping_add(1);
        }
        self
    }
}

// The marks below a place, bit by bit.
fn counted(marks: &[u64; WORDS], p: usize) -> u64 {
    let mut n: u64 = 0;
    for q in 0..p.min(PLACES) {
        n = n.wrapping_add(marks[q / BITS] >> (q % BITS) & 1);
    }
    n
}

fn try_set(before: Tally, marks: &[u64; WORDS]) -> Tally {
    let whole = ones::whole_words(marks);
    let mut tally = before;
    for p in (0..PLACES + 2).chain(FAR) {
        let answer = ones::ones_below(marks, &whole, p) as u64;
        tally = tally.with(answer, counted(marks, p));
    }
    tally
}

// A set's kind and place, how many marks it has, and the checksum of its answers alone.
fn show_set(rt: &impl Print, kind: Extreme, place: usize, marks: &[u64; WORDS]) -> io::Result<()> {
    let name = kind.name();
    let all = ones::ones_below(marks, &ones::whole_words(marks), PLACES);
    let checksum = try_set(Tally::default(), marks).checksum;
    println!(rt; "{name} {place}: {all}, checksum {checksum}")
}

fn try_extremes(
    rt: &impl Print,
    before: Tally,
    kind: Extreme,
    places: &[usize],
) -> io::Result<Tally> {
    let mut tally = before;
    for &place in places {
        let marks = kind.marks(place);
        show_set(rt, kind, place, &marks)?;
        tally = try_set(tally, &marks);
    }
    Ok(tally)
}

// Each pair is a draw, and the sparser set of the marks that it has in common with the next draw.
fn try_random(before: Tally) -> Tally {
    let mut tally = before;
    let mut x = SEED;
    for _ in 0..PAIRS {
        let one = sets::draw(x);
        let other = sets::draw(one[3]);
        tally = try_set(tally, &one);
        tally = try_set(tally, &sets::common(&one, &other));
        x = other[3];
    }
    tally
}

fn main(rt: HostRuntime) -> io::Result<()> {
    let below = try_extremes(&rt, Tally::default(), Extreme::Below, &ENDS)?;
    let only = try_extremes(&rt, below, Extreme::Only, &ALONE)?;
    let all = try_random(only);
    let sets = all.answers / ASKED as u64;
    println!(rt; "sets {sets}")?;
    println!(rt; "answers {}", all.answers)?;
    println!(rt; "checksum {}", all.checksum)?;
    println!(rt; "{} differ", all.differ)
}
