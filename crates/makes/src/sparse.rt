ghost use Rattle.std.specs.Prelude.{◌≡◌, ℕ, ◌*◌, ◌<◌, ◌≤◌, true, length, replicate};
ghost use Rattle.makes.specs.Slot.{Apart, find as the_find, idle};
ghost use Rattle.makes.specs.Sparse.{claim as the_claim, claimed, sparse, sparse_check, sparse_made, sparse_slots, sparse_words};
ghost use Rattle.shelf.specs.Meaning.{after_write, write_answer};
ghost use Rattle.shelf.specs.Plan.{size_of, within};

use crate::slot;
use crate::slot::Slot;
use crate::store::Store;
use shelf::address::BlockAddress;
use shelf::make;
use shelf::make::Shelf;
use shelf::plan::ClosedPlan;
use shelf::refusal::{BlockFault, BlockRefusal, ShelfRefusal};

// A shelf that holds the blocks that were written. Each has a slot, with 128 words that are lent.
// Slots and words are two rows beside one another, since each is lent by itself.
#[derive(Drop)]
pub struct Sparse<'a> {
    plan: ClosedPlan,
    slots: &'a mut [Slot],
    store: Store<'a>,
    ghost few: { within 4096 plan.sizes ≡ true },
    ghost apart: { Apart slots.now },
    ghost room: { (d b : ℕ) → b < size_of plan.sizes d → 128 * length slots.now ≤ length store.words.now },
}

// Whether a sparse shelf can be made of a plan, so many slots and so many words.
pub fn check(plan: &ClosedPlan, slots: usize, words: usize) -> Result<(), ShelfRefusal>
    ensures { result ≡ sparse_check plan.now.sizes slots words }
{
    make::check_drives::<Sparse>(plan)?;
    if slots > 524288 || words < 128 * slots {
        return Err(ShelfRefusal::UnfitMemory);
    }
    Ok(())
}

impl<'a> Shelf for Sparse<'a> {
    ghost use Rattle.makes.specs.SparseLaws.{has_nothing, has_words, is_bounded};
    ghost use Rattle.shelf.proofs.Drives.{eight_drives};
    ghost use Rattle.std.proofs.Common.{refl};
    ghost use Rattle.std.proofs.lemmas.Bool.{leb-true};

    const LONGEST: u32 = 4096;

    ghost meaning = { λ s. sparse s.plan.sizes s.slots.now s.store.words.now };

    ghost most = { 4096 };

    ghost offered = { leb-true 4096 65536 refl };

    ghost bounded = { is_bounded };

    ghost drives = { λ s d h. eight_drives s.plan.sizes d h };

    ghost blocks = { has_words };

    ghost nowhere = { has_nothing };

    fn limit() -> u32
        ensures { result ≡ 4096 }
    {
        Self::LONGEST
    }

    // The plan's, as in the other make. A body for all makes would want a plan of each.
    fn size(&self, drive: u32) -> u32 {
        self.plan.size(drive)
    }

    fn spare(&self) -> usize {
        slot::count_idle(self.slots)
    }

    fn holds(&self, at: BlockAddress) -> bool {
        self.plan.has(at) && self.slot_of(at).is_some()
    }

    // The test that the block is there stands here and in `write`: the contract of a function for it
    // would be longer than it is.
    fn read(&self, at: BlockAddress, out: &mut [u32; 128]) -> Result<(), BlockFault> {
        if !self.plan.has(at) {
            return Err(BlockRefusal::NoSuchBlock.at(at));
        }
        match self.slot_of(at) {
            Some(slot) => self.store.get(slot, out),
            None => out.fill(0),
        }
        Ok(())
    }

    // Of the lent slots and words only those change that the block has then.
    fn write(&mut self, at: BlockAddress, words: &[u32; 128]) -> Result<(), BlockFault>
        ensures answer { result ≡ write_answer (sparse self.old.plan.sizes self.old.slots.now self.old.store.words.now) at.drive at.block }
        ensures after { sparse self.new.plan.sizes self.new.slots.now self.new.store.words.now ≡ after_write (sparse self.old.plan.sizes self.old.slots.now self.old.store.words.now) at.drive at.block words.now }
        ensures slots { self.new.slots.now ≡ sparse_slots self.old.plan.sizes self.old.slots.now at.drive at.block }
        ensures words { self.new.store.words.now ≡ sparse_words self.old.plan.sizes self.old.slots.now self.old.store.words.now at.drive at.block words.now }
        ensures lent { (self.new.slots.ghost_name ≡ self.old.slots.ghost_name) × (self.new.store.words.ghost_name ≡ self.old.store.words.ghost_name) }
    {
        if !self.plan.has(at) {
            return Err(BlockRefusal::NoSuchBlock.at(at));
        }
        let slot = self.claim(at).ok_or(BlockRefusal::RunsShort.at(at))?;
        self.store.put(slot, words);
        Ok(())
    }
}

impl<'a> Sparse<'a> {
    // A shelf of the plan's drives that holds no block, over the lent slots, which are cleared, and
    // the lent words. It has no drives where the check refuses.
    pub fn new(plan: &ClosedPlan, slots: &'a mut [Slot], words: &'a mut [u32]) -> Sparse<'a>
        ensures made { sparse result.plan.sizes result.slots.now result.store.words.now ≡ sparse_made plan.now.sizes (length slots.old) (length words.old) }
        ensures cleared { result.slots.now ≡ replicate (length slots.old) idle }
        ensures same { result.store.words.now ≡ words.old }
        ensures lent { (result.slots.ghost_name ≡ slots.entry.ghost_name) × (result.store.words.ghost_name ≡ words.entry.ghost_name) }
    {
        slots.fill(Slot::idle());
        let checked = check(plan, slots.len(), words.len());
        Sparse {
            plan: make::kept_plan(plan, checked),
            slots,
            store: Store::new(words),
        }
    }

    // The slot of a block, if it has one.
    fn slot_of(&self, at: BlockAddress) -> Option<usize>
        ensures { result ≡ the_find self.now.slots.now at.drive at.block }
    {
        slot::find(self.slots, at)
    }

    // The slot that a write of the block goes to: its own, or else one that is not used, if there
    // is one.
    fn slot_for(&self, at: BlockAddress) -> Option<usize>
        ensures { result ≡ the_claim self.now.slots.now at.drive at.block }
    {
        self.slot_of(at).or_else(|| slot::first_idle(self.slots))
    }

    // Uses the slot that a write of the block goes to for the block, and answers which it is.
    fn claim(&mut self, at: BlockAddress) -> Option<usize>
        ensures plan { self.new.plan ≡ self.old.plan }
        ensures words { self.new.store.words.now ≡ self.old.store.words.now }
        ensures lent { (self.new.slots.ghost_name ≡ self.old.slots.ghost_name) × (self.new.store.words.ghost_name ≡ self.old.store.words.ghost_name) }
        ensures answer { result ≡ the_claim self.old.slots.now at.drive at.block }
        ensures slots { self.new.slots.now ≡ claimed self.old.slots.now at.drive at.block }
    {
        let slot = self.slot_for(at)?;
        self.slots[slot] = Slot { held: Some(at) };
        Some(slot)
    }
}
