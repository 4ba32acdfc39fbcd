ghost use Rattle.std.specs.Prelude.{◌≡◌, ◌*◌, ◌≤◌, length, sum};
ghost use Rattle.makes.specs.Dense.{dense, dense_check, dense_made, dense_words};
ghost use Rattle.shelf.specs.Meaning.{after_write, write_answer};

use crate::store::Store;
use shelf::address::BlockAddress;
use shelf::make::Shelf;
use shelf::plan::ClosedPlan;
use shelf::refusal::{BlockFault, BlockRefusal, ShelfRefusal};
use shelf::{layout, make};

// A shelf that holds every block: the blocks of its drives, drive by drive, in words that are lent.
#[derive(Drop)]
pub struct Dense<'a> {
    plan: ClosedPlan,
    store: Store<'a>,
    ghost enough: { 128 * sum plan.sizes ≤ length store.words.now },
}

// Whether so many words hold the drives of a plan.
pub fn check(plan: &ClosedPlan, words: usize) -> Result<(), ShelfRefusal>
    ensures { result ≡ dense_check plan.now.sizes words }
{
    make::check_drives::<Dense>(plan)?;
    if words < 128 * layout::blocks(plan) {
        return Err(ShelfRefusal::UnfitMemory);
    }
    Ok(())
}

impl<'a> Shelf for Dense<'a> {
    ghost use Rattle.makes.specs.DenseLaws.{has_nothing, has_words, is_bounded};
    ghost use Rattle.shelf.proofs.Drives.{eight_drives};
    ghost use Rattle.std.proofs.Common.{refl};
    ghost use Rattle.std.proofs.lemmas.Bool.{leb-true};

    const LONGEST: u32 = 65536;

    ghost meaning = { λ s. dense s.plan.sizes s.store.words.now };

    ghost most = { 65536 };

    ghost offered = { leb-true 65536 65536 refl };

    ghost bounded = { is_bounded };

    ghost drives = { λ s d h. eight_drives s.plan.sizes d h };

    ghost blocks = { has_words };

    ghost nowhere = { has_nothing };

    fn limit() -> u32
        ensures { result ≡ 65536 }
    {
        Self::LONGEST
    }

    // The plan's, as in the other make. A body for all makes would want a plan of each.
    fn size(&self, drive: u32) -> u32 {
        self.plan.size(drive)
    }

    fn spare(&self) -> usize {
        0
    }

    fn holds(&self, at: BlockAddress) -> bool {
        self.plan.has(at)
    }

    // The block's place, or the refusal, is found here and in `write`: the contract of a function for
    // it would be longer than it is.
    fn read(&self, at: BlockAddress, out: &mut [u32; 128]) -> Result<(), BlockFault> {
        let place = layout::place(&self.plan, at).ok_or(BlockRefusal::NoSuchBlock.at(at))?;
        self.store.get(place, out);
        Ok(())
    }

    // Of the lent words only those of the block change.
    fn write(&mut self, at: BlockAddress, words: &[u32; 128]) -> Result<(), BlockFault>
        ensures answer { result ≡ write_answer (dense self.old.plan.sizes self.old.store.words.now) at.drive at.block }
        ensures after { dense self.new.plan.sizes self.new.store.words.now ≡ after_write (dense self.old.plan.sizes self.old.store.words.now) at.drive at.block words.now }
        ensures words { self.new.store.words.now ≡ dense_words self.old.plan.sizes self.old.store.words.now at.drive at.block words.now }
        ensures lent { self.new.store.words.ghost_name ≡ self.old.store.words.ghost_name }
    {
        let place = layout::place(&self.plan, at).ok_or(BlockRefusal::NoSuchBlock.at(at))?;
        self.store.put(place, words);
        Ok(())
    }
}

impl<'a> Dense<'a> {
    // A shelf of the plan's drives, over the lent words as they are. It has no drives where the
    // check refuses.
    pub fn new(plan: &ClosedPlan, words: &'a mut [u32]) -> Dense<'a>
        ensures made { dense result.plan.sizes result.store.words.now ≡ dense_made plan.now.sizes words.old }
        ensures same { result.store.words.now ≡ words.old }
        ensures lent { result.store.words.ghost_name ≡ words.entry.ghost_name }
    {
        let checked = check(plan, words.len());
        Dense {
            plan: make::kept_plan(plan, checked),
            store: Store::new(words),
        }
    }
}
