ghost use Rattle.std.specs.Prelude.{◌≡◌, ◌≤◌, sum};
ghost use Rattle.shelf.specs.Plan.{Placed, start};

use crate::address::BlockAddress;
use crate::plan::ClosedPlan;

// How many blocks the drives before a drive have.
fn blocks_before(plan: &ClosedPlan, drive: u32) -> usize
    requires { drive ≤ 9 }
    ensures value { result ≡ start plan.now.sizes drive }
    ensures bound { result ≤ 524288 }
{
    (1..drive).map(|before| plan.size(before) as usize).sum()
}

// How many blocks all drives have.
pub fn blocks(plan: &ClosedPlan) -> usize
    ensures value { result ≡ sum plan.now.sizes }
    ensures bound { result ≤ 524288 }
{
    blocks_before(plan, 9)
}

// Where a block lies among the blocks of all drives, drive by drive from drive 1 on.
pub fn place(plan: &ClosedPlan, at: BlockAddress) -> Option<usize>
    ensures { Placed plan.now.sizes at.drive at.block result }
{
    if plan.has(at) {
        Some(blocks_before(plan, at.drive) + at.block as usize)
    } else {
        None
    }
}
