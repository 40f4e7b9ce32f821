// The answer of the call for prefix lengths.
ghost use Rattle.std.specs.Prelude.{◌≡◌};
ghost use Rattle.carried.specs.Carried.{carried_lengths};

use super::Lengths;
use refusal::Refusal;

impl From<Result<u64, Refusal>> for Lengths {
    ghost from_gives = { λ answer result. result ≡ carried_lengths answer };

    fn from(answer: Result<u64, Refusal>) -> Self {
        match answer {
            Ok(count) => Lengths { refusal: 0, count },
            Err(why) => Lengths {
                refusal: u32::from(why.number()),
                count: 0,
            },
        }
    }
}
