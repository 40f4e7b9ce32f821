// Sets of marks: extreme ones, and random ones by a formula, so that an oracle can draw them again.
use ones::{BITS, PLACES, WORDS};

// What an extreme set marks: all places below one, or that place only.
#[derive(Clone, Copy)]
pub enum Extreme {
    Below,
    Only,
}

impl Extreme {
    pub fn marks(self, place: usize) -> [u64; WORDS] {
        let mut marks = [0u64; WORDS];
        for q in 0..PLACES {
            let marked = match self {
                Extreme::Below => q < place,
                Extreme::Only => q == place,
            };
            if marked {
                marks[q / BITS] |= 1 << (q % BITS);
            }
        }
        marks
    }

    pub fn name(self) -> &'static str {
        match self {
            Extreme::Below => "below",
            Extreme::Only => "only",
        }
    }
}

// Marsaglia's xorshift.
fn next(x: u64) -> u64 {
    let a = x ^ (x << 13);
    let b = a ^ (a >> 7);
    b ^ (b << 17)
}

// The four numbers after x. The next draw goes on after the last of them.
pub fn draw(x: u64) -> [u64; WORDS] {
    let a = next(x);
    let b = next(a);
    let c = next(b);
    [a, b, c, next(c)]
}

// The marks that both have.
pub fn common(a: &[u64; WORDS], b: &[u64; WORDS]) -> [u64; WORDS] {
    std::array::from_fn(|i| a[i] & b[i])
}
