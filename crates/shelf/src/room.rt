ghost use Rattle.shelf.specs.Room.{room_of as the_room};
ghost use Rattle.std.specs.Prelude.{◌≡◌};

use crate::address::BlockAddress;
use crate::make::Shelf;

// What a drive has: its blocks, how many of them are held, and how many of the others can still
// be written.
#[derive(Clone, Copy, Debug, PartialEq, Eq)]
pub struct Room {
    pub blocks: u32,
    pub held: u32,
    pub left: u32,
}

// The room of a drive.
pub fn room_of<S: Shelf>(shelf: &S, drive: u32) -> Room
    ensures { result ≡ the_room (S.Shelf.meaning shelf.now) drive }
{
    let blocks = shelf.size(drive);
    // a sum of ones: of a `filter` with a `count` the compiler keeps a loop over a dense drive
    let held = (0..blocks)
        .map(|block| u32::from(shelf.holds(BlockAddress { drive, block })))
        .sum::<u32>();
    let left = shelf.spare().min((blocks - held) as usize) as u32;
    Room { blocks, held, left }
}
