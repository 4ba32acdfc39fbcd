ghost use Rattle.std.specs.Prelude.{◌≡◌, ◌-◌, ◌≤◌, length, drop, replicate};

pub mod methods;

// At most 64 bytes, oldest first. The bytes behind the length are zero, so that two queues that
// hold the same bytes are the same value.
// An array with a length beside it, since a record takes no memory of its own and is `Copy`, which
// neither a `Vec` nor an `ArrayVec` is. It has no `Model`, by which clauses would see a list: laws
// over all records rest on what is true of every queue's fields, and a list does not tell that.
#[derive(Clone, Copy, Debug, PartialEq, Eq)]
pub struct Queue {
    bytes: [u8; 64],
    len: usize,
    ghost sized: { length bytes ≡ 64 },
    ghost few: { len ≤ 64 },
    ghost blank: { drop len bytes ≡ replicate (64 - len) 0 },
}

// Why a queue takes no more: it holds 64 bytes.
#[derive(Clone, Copy, Debug, PartialEq, Eq)]
pub struct Full;
