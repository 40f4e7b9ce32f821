// Random numbers, patterns and texts, by formulas without a state, so that an oracle can draw them again.
ghost use Rattle.std.specs.Prelude.{◌<◌, ◌≤◌, length};

use crate::judge::LIST;
use pattern::LONGEST_PATTERN;

// 2^32, and two odd numbers below it.
const HALF: u64 = 1 << 32;

const FIRST: u64 = 2654435769;

const SECOND: u64 = 2246822519;
// Half of the sizes are at most this.
const SHORT: u64 = 8;
// A mask for the letters a and b, and one for many bytes: all bits but one that a and b have, so that no byte is 0, which a pattern must not
// hold.
const NO_BIT: u8 = 0;

const MANY_BITS: u8 = 191;
// What each number of a case decides.
const LETTERS: u64 = 0;

const UNIT: u64 = 1;

const PATTERN: u64 = 2;

const PATTERN_PIECE: u64 = 3;

const TEXT_LENGTH: u64 = 4;

const TEXT_PIECE: u64 = 5;

// Number i of a stream.
pub fn number(stream: u64, i: u64) -> u64 {
    let a = stream.wrapping_add(i) % HALF * FIRST;
    let b = (a ^ (a >> 32)) % HALF * SECOND;
    b ^ (b >> 29)
}

// A length that a pattern may have.
fn size(stream: u64, i: u64) -> usize
    ensures { (0 < result) × (result ≤ 256) }
{
    let x = number(stream, i);
    let most = if x % 2 == 0 {
        SHORT
    } else {
        LONGEST_PATTERN as u64
    };
    1 + (x / 2 % most) as usize
}

// Fills with pieces of a word that is read in a circle, each from a random place on and with random changes to the bits of the mask.
fn fill(word: &[u8], piece: usize, mask: u8, stream: u64, out: &mut [u8])
    requires { (0 < length word.now) × (0 < piece) }
{
    for (i, byte) in out.iter_mut().enumerate() {
        let start = number(stream, (i / piece) as u64);
        let at = start.wrapping_add(i as u64) % word.len() as u64;
        *byte = word[at as usize] ^ ((start / HALF % 256) as u8 & mask);
    }
}

// A pattern of pieces of the start of a random word, and its length.
pub fn pattern(stream: u64, out: &mut [u8]) -> usize
    ensures { (0 < result) × (result ≤ 256) }
{
    let letters = number(stream, LETTERS);
    let mask = if letters % 4 == 0 { MANY_BITS } else { NO_BIT };
    let mut word = [0u8; LONGEST_PATTERN];
    fill(b"ab", 1, mask, letters, &mut word);
    let unit = size(stream, UNIT);
    let piece = size(stream, PATTERN_PIECE);
    fill(&word[0..unit], piece, NO_BIT, number(stream, PATTERN), out);
    size(stream, PATTERN)
}

// A text of pieces of the pattern, and its length.
pub fn text(stream: u64, bytes: &[u8], out: &mut [u8]) -> usize
    requires { 0 < length bytes.now }
    ensures { result ≤ 400 }
{
    let drawn = number(stream, TEXT_LENGTH);
    fill(bytes, size(stream, TEXT_PIECE), NO_BIT, drawn, out);
    (drawn % LIST as u64) as usize
}
