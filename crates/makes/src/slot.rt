ghost use Rattle.makes.specs.Slot.{count_idle, find as the_find, first_idle, idle as the_idle, tells as the_tells};
ghost use Rattle.std.specs.Prelude.{◌≡◌};

use shelf::address::BlockAddress;

// A place for a block of a sparse shelf: the block that it is used for, if it is used.
#[derive(Clone, Copy, Debug, PartialEq, Eq)]
pub struct Slot {
    pub held: Option<BlockAddress>,
}

impl Slot {
    // A slot that is not used.
    pub fn idle() -> Slot
        ensures { result ≡ the_idle }
    {
        Slot { held: None }
    }

    // Whether it is used for the block.
    pub(crate) fn tells(&self, at: BlockAddress) -> bool
        ensures { result ≡ the_tells self.now at.drive at.block }
    {
        self.held == Some(at)
    }
}

// The first slot that is used for the block. The two searches are compiled by themselves: within
// their callers a loop would be laid anew each time, and where the jumps that leave a slot come to
// stand close together, some processors take several times as long.
#[inline(never)]
pub(crate) fn find(slots: &[Slot], at: BlockAddress) -> Option<usize>
    ensures { result ≡ the_find slots.now at.drive at.block }
{
    slots.iter().position(|slot| slot.tells(at))
}

// The first slot that is not used.
#[inline(never)]
pub(crate) fn first_idle(slots: &[Slot]) -> Option<usize>
    ensures { result ≡ first_idle slots.now }
{
    slots.iter().position(|slot| slot.held.is_none())
}

// How many slots are not used: a sum of ones, as in `room_of`, which takes fewer instructions than a
// `filter` with a `count`.
pub(crate) fn count_idle(slots: &[Slot]) -> usize
    ensures { result ≡ count_idle slots.now }
{
    slots
        .iter()
        .map(|slot| usize::from(slot.held.is_none()))
        .sum()
}
