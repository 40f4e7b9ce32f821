// The answer of the correction of a list.
ghost use Rattle.std.specs.Prelude.{◌≡◌};
ghost use Rattle.carried.specs.Carried.{carried_update};

use super::Update;
use refusal::Refusal;

impl From<Result<usize, Refusal>> for Update {
    ghost from_gives = { λ answer result. result ≡ carried_update answer };

    fn from(answer: Result<usize, Refusal>) -> Self {
        match answer {
            Ok(used) => Update { refusal: 0, used },
            Err(why) => Update {
                refusal: u32::from(why.number()),
                used: 0,
            },
        }
    }
}
