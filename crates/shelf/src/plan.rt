ghost use Rattle.std.specs.Prelude.{◌≡◌, ℕ, ◌≤◌, length, slice_index};
ghost use Rattle.shelf.specs.Plan.{after_declare, declare_answer, no_drives, plan_has, size_of, within};

use crate::address::BlockAddress;
use crate::refusal::PlanRefusal;

// A plan in which drives may still be declared. Closing it ends that.
#[derive(Drop)]
pub struct OpenPlan {
    plan: ClosedPlan,
}

// A plan that stands: the blocks of drives 1 to 8, 0 for a drive that was not declared. Shelves
// are made of it.
#[derive(Clone, Copy, Debug, PartialEq, Eq)]
pub struct ClosedPlan {
    sizes: [u32; 8],
    ghost eight: { length sizes ≡ 8 },
    ghost few: { (k : ℕ) → slice_index sizes k ≤ 65536 },
}

impl OpenPlan {
    // A plan without drives.
    pub fn new() -> OpenPlan
        ensures { result.plan.sizes ≡ no_drives }
    {
        OpenPlan {
            plan: ClosedPlan { sizes: [0; 8] },
        }
    }

    // Declares a drive of so many blocks. A refusal changes nothing.
    pub fn declare(&mut self, drive: u32, blocks: u32) -> Result<(), PlanRefusal>
        ensures answer { result ≡ declare_answer self.old.plan.sizes drive blocks }
        ensures after { self.new.plan.sizes ≡ after_declare self.old.plan.sizes drive blocks }
    {
        if !(1..=8).contains(&drive) {
            return Err(PlanRefusal::NoSuchDrive);
        }
        if !(1..=65536).contains(&blocks) {
            return Err(PlanRefusal::BadLength);
        }
        let plan = &mut self.plan;
        let size = &mut plan.sizes[drive as usize - 1];
        if *size != 0 {
            return Err(PlanRefusal::DeclaredBefore);
        }
        *size = blocks;
        Ok(())
    }

    // The plan as it stands.
    pub fn close(self) -> ClosedPlan
        ensures { result.sizes ≡ self.plan.sizes }
    {
        self.plan
    }
}

impl ClosedPlan {
    // How many blocks a drive has, 0 where there is no such drive: the rules have sizes so, and an
    // `Option` beside a size that is never 0 would say no more.
    pub fn size(&self, drive: u32) -> u32
        ensures value { result ≡ size_of self.now.sizes drive }
        ensures bound { result ≤ 65536 }
    {
        match drive {
            1..=8 => self.sizes[drive as usize - 1],
            _ => 0,
        }
    }

    // Whether there is such a block.
    pub fn has(&self, at: BlockAddress) -> bool
        ensures { result ≡ plan_has self.now.sizes at.drive at.block }
    {
        at.block < self.size(at.drive)
    }

    // Whether no drive has more blocks than the limit.
    pub fn is_within(&self, limit: u32) -> bool
        ensures { result ≡ within limit self.now.sizes }
    {
        self.sizes.iter().all(|size| *size <= limit)
    }
}
