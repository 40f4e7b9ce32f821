// The answer of the search for the first position.
ghost use Rattle.std.specs.Prelude.{◌≡◌};
ghost use Rattle.carried.specs.Carried.{carried_first};

use super::First;
use first::FirstAnswer;
use refusal::Refusal;

// So is the position 0 where there is none.
impl From<Result<FirstAnswer, Refusal>> for First {
    ghost from_gives = { λ answer result. result ≡ carried_first answer };

    fn from(answer: Result<FirstAnswer, Refusal>) -> Self {
        match answer {
            Ok(found) => match found.position {
                Some(position) => First {
                    refusal: 0,
                    found: 1,
                    position,
                    count: found.count,
                },
                None => First {
                    refusal: 0,
                    found: 0,
                    position: 0,
                    count: found.count,
                },
            },
            Err(why) => First {
                refusal: u32::from(why.number()),
                found: 0,
                position: 0,
                count: 0,
            },
        }
    }
}
