ghost use Rattle.transfer.specs.Transfer.{after_read, after_write, read_answer, write_answer};
ghost use Rattle.std.specs.Prelude.{◌≡◌, ◌+◌, ◌^◌, ◌<◌};

use crate::fault::TransferFault;
use crate::span::Span;
use shelf::address::BlockAddress;
use shelf::make::Shelf;

// Consecutive blocks of a drive: the first, and how many.
#[derive(Clone, Copy, Debug, PartialEq, Eq)]
pub struct Extent {
    pub first: BlockAddress,
    pub count: u32,
}

impl Extent {
    // Block i of the extent, counted from 0.
    fn block(self, i: u32) -> BlockAddress
        requires { self.first.block + i < 2 ^ 32 }
        ensures { result ≡ record { drive = self.first.drive; block = self.first.block + i } }
    {
        BlockAddress {
            block: self.first.block + i,
            ..self.first
        }
    }
}

// Reads an extent into the words of a span, block by block, up to the first that is refused. Memory
// and span are two parameters, here and below, since the memory is lent in two ways.
pub fn read_blocks<S: Shelf>(
    shelf: &S,
    extent: Extent,
    memory: &mut [u32],
    span: Span,
) -> Result<(), TransferFault>
    ensures answer { result ≡ read_answer (S.Shelf.meaning shelf.now) extent memory.old span }
    ensures after { memory.new ≡ after_read (S.Shelf.meaning shelf.now) extent memory.old span }
{
    if !span.reaches(extent.count, memory.len()) {
        return Err(TransferFault::Unreachable);
    }
    let mut block = [0; 128];
    for i in 0..extent.count {
        shelf.read(extent.block(i), &mut block)?;
        span.scatter(memory, i, &block);
    }
    Ok(())
}

// Writes an extent from the words of a span, block by block, up to the first that is refused. It is
// no one function with `read_blocks`: there the memory is lent to be written, and here the shelf.
pub fn write_blocks<S: Shelf>(
    shelf: &mut S,
    extent: Extent,
    memory: &[u32],
    span: Span,
) -> Result<(), TransferFault>
    ensures answer { result ≡ write_answer (S.Shelf.meaning shelf.old) extent memory.now span }
    ensures after { S.Shelf.meaning shelf.new ≡ after_write (S.Shelf.meaning shelf.old) extent memory.now span }
{
    if !span.reaches(extent.count, memory.len()) {
        return Err(TransferFault::Unreachable);
    }
    for i in 0..extent.count {
        let block = span.gather(memory, i);
        shelf.write(extent.block(i), &block)?;
    }
    Ok(())
}
