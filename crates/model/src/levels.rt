// How many levels a tree of so many items may have.
ghost use Rattle.std.specs.Prelude.{◌≡◌};
ghost use Rattle.model.specs.Levels.{most_levels};

/// The most levels of a tree of so many items: the largest d with 3 · 2^(d - 1) at most two more than that, 0 for none.
pub fn levels_for(items: u32) -> u8
    ensures { result ≡ most_levels items }
{
    if items == 0 {
        return 0;
    }
    let thirds = (items as u64 + 2) / 3;
    (thirds.ilog2() + 1) as u8
}
