ghost use Rattle.shelf.specs.Refusal.{block_number, fault, plan_number, shelf_number};
ghost use Rattle.std.specs.Prelude.{◌≡◌};

use crate::address::BlockAddress;
use thiserror::Error;

// Why a plan takes no declaration.
#[derive(Clone, Copy, Debug, PartialEq, Eq, Error)]
pub enum PlanRefusal {
    // the drive is not 1 to 8
    #[error("a drive is 1 to 8")]
    NoSuchDrive = 1,
    // the blocks are not 1 to 65,536
    #[error("a drive has 1 to 65536 blocks")]
    BadLength = 2,
    // the drive was declared before
    #[error("the drive was declared before")]
    DeclaredBefore = 3,
}

// Why no shelf can be made of a plan in memory that is lent.
#[derive(Clone, Copy, Debug, PartialEq, Eq, Error)]
pub enum ShelfRefusal {
    // a drive is longer than the make's longest
    #[error("a drive is longer than this make offers")]
    DriveTooLong = 4,
    // the lent words are too few for the blocks or slots, or there are over 524,288 slots
    #[error("the lent words are too few, or there are over 524288 slots")]
    UnfitMemory = 5,
}

// Why a block is not read or written. It is told with the block: see BlockFault.
#[derive(Clone, Copy, Debug, PartialEq, Eq, Error)]
pub enum BlockRefusal {
    // the drive has no such block
    #[error("there is no such block")]
    NoSuchBlock = 6,
    // the write runs short: the block is not held, and there is nothing to spare
    #[error("the write runs short: no slot is left")]
    RunsShort = 7,
}

// A refusal of a block, and which block it was.
#[derive(Clone, Copy, Debug, PartialEq, Eq)]
pub struct BlockFault {
    pub refusal: BlockRefusal,
    pub at: BlockAddress,
}

impl BlockRefusal {
    // The fault that tells the refusal of a block.
    pub fn at(self, at: BlockAddress) -> BlockFault
        ensures { result ≡ fault self at.drive at.block }
    {
        BlockFault { refusal: self, at }
    }
}

// The refusal's number. Each enum of refusals has such an impl: one for all would be written by a
// macro of ours, which the gate does not take.
impl From<PlanRefusal> for u8 {
    ghost from_gives = { λ refusal number. number ≡ plan_number refusal };

    fn from(refusal: PlanRefusal) -> u8 {
        refusal as u8
    }
}

// The refusal's number.
impl From<ShelfRefusal> for u8 {
    ghost from_gives = { λ refusal number. number ≡ shelf_number refusal };

    fn from(refusal: ShelfRefusal) -> u8 {
        refusal as u8
    }
}

// The refusal's number.
impl From<BlockRefusal> for u8 {
    ghost from_gives = { λ refusal number. number ≡ block_number refusal };

    fn from(refusal: BlockRefusal) -> u8 {
        refusal as u8
    }
}
