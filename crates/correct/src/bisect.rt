// Where a bound stands among entries that ascend.
ghost use Rattle.std.specs.Prelude.{length};
ghost use Rattle.lists.specs.Lists.{Ascending, Splits};

// How many entries are below a bound.
pub fn below(list: &[u32], bound: usize) -> usize
    requires { Ascending list.now }
    ensures { Splits list.now bound result }
{
    list.partition_point(|&entry| (entry as usize) < bound)
}
