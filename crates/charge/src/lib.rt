// The charge of a search.
#![tactic(auto)]

ghost use Rattle.std.specs.Prelude.{◌≡◌, ◌+◌, ◌*◌, ◌≤◌, ◌<◌};
ghost use Rattle.charge.specs.Charged.{charged};

// The charge of a count of comparisons: its started thousands.
#[tactic(auto, unfolding(crate::specs::Charged::charged))]
pub fn charge(count: u64) -> u64
    ensures answer { result ≡ charged count }
    ensures started { (count ≤ 1000 * result) × (1000 * result < count + 1000) }
{
    count.div_ceil(1000)
}
