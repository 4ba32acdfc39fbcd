ghost use Rattle.std.specs.Prelude.{◌≡◌, ◌≤◌, [], ◌++◌, length, take, drop, Decides};
ghost use Rattle.record.specs.Queue.{after_push, items, push_answer};

use super::{Full, Queue};

// Puts bytes to the front of a buffer. A function of its own, since of a part of a local array the
// proof does not close.
fn put_front(to: &mut [u8], from: &[u8])
    requires { length from.now ≤ length to.old }
    ensures { to.new ≡ from.now ++ drop (length from.now) to.old }
{
    to[..from.len()].copy_from_slice(from);
}

impl Queue {
    // A queue that holds nothing.
    pub fn new() -> Queue
        ensures { items result ≡ [] }
    {
        Queue {
            bytes: [0; 64],
            len: 0,
        }
    }

    // The bytes of a slice, or the first 64 of them.
    pub fn from_slice(from: &[u8]) -> Queue
        ensures { items result ≡ take 64 from.now }
    {
        let len = from.len().min(64);
        let mut bytes = [0; 64];
        put_front(&mut bytes, &from[..len]);
        Queue { bytes, len }
    }

    // How many bytes it holds.
    pub fn len(&self) -> usize
        ensures value { result ≡ length (items self.now) }
        ensures bound { result ≤ 64 }
    {
        self.as_slice().len()
    }

    // What it holds, oldest first.
    pub fn as_slice(&self) -> &[u8]
        ensures value { result.now ≡ items self.now }
        ensures bound { length result.now ≤ 64 }
    {
        &self.bytes[0..self.len]
    }

    // Puts a byte behind the others. A full queue refuses, and keeps what it has.
    pub fn push(&mut self, byte: u8) -> Result<(), Full>
        ensures answer { result ≡ push_answer (items self.old) }
        ensures after { items self.new ≡ after_push (items self.old) byte }
    {
        if self.len >= 64 {
            return Err(Full);
        }
        self.bytes[self.len] = byte;
        self.len += 1;
        Ok(())
    }

    // Takes the n oldest bytes out, or all where there are fewer, and hands them back.
    pub fn take_front(&mut self, n: usize) -> Queue
        ensures value { items result ≡ take n (items self.old) }
        ensures after { items self.new ≡ drop n (items self.old) }
    {
        let cut = n.min(self.len);
        let front = Queue::from_slice(&self.bytes[0..cut]);
        *self = Queue::from_slice(&self.bytes[cut..self.len]);
        front
    }

    // Whether two queues hold the same bytes.
    pub fn same(&self, other: &Queue) -> bool
        ensures { Decides result (self.now ≡ other.now) }
    {
        self == other
    }
}
