ghost use Rattle.std.specs.Prelude.{◌≡◌, ◌<◌, ℕ, length, get_or};
ghost use Rattle.mem_bench.specs.Regions.{IsSettled, no_region};

use crate::region::Region;
use bench_model::Choice;

/// Leaves what a cold cycle leaves of all regions: what the cut leaves, or without one the bytes as
/// read.
pub fn settle_all(regions: &mut Vec<Region>, cut: Option<Choice>)
    ensures long { length regions.new.items ≡ length regions.old.items }
    ensures each { (k : ℕ) → k < length regions.old.items
        → IsSettled cut (get_or regions.old.items k no_region)
        (get_or regions.new.items k no_region) }
{
    for k in 0..regions.len() {
        settle(&mut regions[k], cut);
    }
}

/// The same of one region.
fn settle(region: &mut Region, cut: Option<Choice>)
    ensures { IsSettled cut region.old region.new }
{
    match cut {
        Some(choice) => region.cut(choice),
        None => region.sync(),
    }
}
