ghost use Rattle.std.specs.Prelude.{◌≡◌, ℕ, ◌<◌, ◌≤◌, false, []};
ghost use Rattle.shelf.specs.Meaning.{after_write, Block, drives_answer, kept_sizes, Meaning, read_answer, read_out, write_answer};

use crate::address::BlockAddress;
use crate::plan::{ClosedPlan, OpenPlan};
use crate::refusal::{BlockFault, ShelfRefusal};

// A shelf of discs. A make is one way to keep the blocks of a shelf: a type that implements this
// trait. All that is built on shelves goes by what they mean, so that it serves every make.
pub trait Shelf {
    // The most blocks that a drive of this make may have.
    const LONGEST: u32;

    // What a shelf means.
    ghost meaning: { Self → Meaning };
    // The same number as LONGEST, for clauses and laws.
    ghost most: { ℕ };

    // The make's LONGEST. Each make has the same body for it: a default body would owe that LONGEST
    // is `most`, which the prover cannot be told of a type with a lifetime.
    fn limit() -> u32
        ensures { result ≡ most };

    // How many blocks a drive has, 0 where there is no such drive.
    fn size(&self, drive: u32) -> u32
        ensures { result ≡ (meaning self.now).size drive };

    // How many blocks that are not held can still be written.
    fn spare(&self) -> usize
        ensures { result ≡ (meaning self.now).spare };

    // Whether a block is held: a write of it never runs short.
    fn holds(&self, at: BlockAddress) -> bool
        ensures { result ≡ (meaning self.now).held at.drive at.block };

    // Reads a block. A refusal leaves the buffer.
    fn read(&self, at: BlockAddress, out: &mut [u32; 128]) -> Result<(), BlockFault>
        ensures answer { result ≡ read_answer (meaning self.now) at.drive at.block }
        ensures after { out.new ≡ read_out (meaning self.now) at.drive at.block out.old };

    // Writes a block. A refusal keeps the shelf.
    fn write(&mut self, at: BlockAddress, words: &[u32; 128]) -> Result<(), BlockFault>
        ensures answer { result ≡ write_answer (meaning self.old) at.drive at.block }
        ensures after { meaning self.new ≡ after_write (meaning self.old) at.drive at.block words.now };

    // No make offers more than 65,536 blocks.
    ghost offered: { most ≤ 65536 };

    // No drive of a shelf is longer than its make offers.
    ghost bounded: { (s : Self) (d : ℕ) → (meaning s).size d ≤ most };

    // There are no drives but 1 to 8.
    ghost drives: { (s : Self) (d : ℕ) → 0 < (meaning s).size d → (1 ≤ d) × (d ≤ 8) };

    // Every block has 128 words of 32 bits.
    ghost blocks: { (s : Self) (d b : ℕ) → b < (meaning s).size d → Block ((meaning s).block d b) };

    // Where there is no block there are no words, and nothing is held.
    ghost nowhere: { (s : Self) (d b : ℕ) → (meaning s).size d ≤ b → ((meaning s).block d b ≡ []) × ((meaning s).held d b ≡ false) };
}

// Whether no drive of a plan is too long for a make.
pub fn check_drives<S: Shelf>(plan: &ClosedPlan) -> Result<(), ShelfRefusal>
    ensures { result ≡ drives_answer S.Shelf.most plan.now.sizes }
{
    if plan.is_within(S::limit()) {
        Ok(())
    } else {
        Err(ShelfRefusal::DriveTooLong)
    }
}

// The plan of the shelf that is made of a plan: one without drives where the check refused.
pub fn kept_plan(plan: &ClosedPlan, checked: Result<(), ShelfRefusal>) -> ClosedPlan
    ensures { result.sizes ≡ kept_sizes checked plan.now.sizes }
{
    match checked {
        Ok(()) => *plan,
        Err(_) => OpenPlan::new().close(),
    }
}
