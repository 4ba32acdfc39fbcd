// A shelf of discs, made from arguments, written and read.
use crate::failure::Failure;
use crate::options;
use crate::options::{Drive, Request};
use makes::dense::Dense;
use makes::slot::Slot;
use makes::sparse::Sparse;
use makes::{dense, sparse};
use shelf::address::BlockAddress;
use shelf::layout;
use shelf::make::Shelf;
use shelf::plan::{ClosedPlan, OpenPlan};
use shelf::refusal::{BlockFault, ShelfRefusal};
use shelf::room::{Room, room_of};
use std::fmt;
use transfer::blocks::{Extent, read_blocks, write_blocks};
use transfer::fault::TransferFault;
use transfer::span::Span;

// The make of a shelf: dense, or sparse with so many slots.
#[derive(Clone, Copy)]
pub(crate) enum Make {
    Dense,
    Sparse(u32),
}

impl Make {
    // How many slots a shelf has.
    fn slots(self) -> usize {
        match self {
            Make::Dense => 0,
            Make::Sparse(slots) => slots as usize,
        }
    }

    // How many words a shelf of a plan needs.
    fn words(self, plan: &ClosedPlan) -> usize {
        match self {
            Make::Dense => 128 * layout::blocks(plan),
            Make::Sparse(slots) => 128 * slots as usize,
        }
    }

    // Whether a shelf of a plan can be made in so many lent words.
    fn check(self, plan: &ClosedPlan, lent: usize) -> Result<(), ShelfRefusal> {
        match self {
            Make::Dense => dense::check(plan, lent),
            Make::Sparse(slots) => sparse::check(plan, slots as usize, lent),
        }
    }
}

impl fmt::Display for Make {
    fn fmt<W: fmt::Write>(&self, f: &mut fmt::Formatter<W>) -> fmt::Result {
        match self {
            Make::Dense => {
                let longest = Dense::LONGEST;
                write!(f, "dense make: drives of up to {longest} blocks, all held")
            }
            Make::Sparse(slots) => {
                let longest = Sparse::LONGEST;
                write!(
                    f,
                    "sparse make: drives of up to {longest} blocks, held in {slots} slots"
                )
            }
        }
    }
}

// A refusal as it is told: its number, and what it means.
#[derive(Clone, Copy)]
struct Refused<R>(R);

impl<R: Copy + fmt::Display> fmt::Display for Refused<R>
where
    u8: From<R>,
{
    fn fmt<W: fmt::Write>(&self, f: &mut fmt::Formatter<W>) -> fmt::Result {
        let Refused(refusal) = *self;
        write!(f, "refused {}, {refusal}", u8::from(refusal))
    }
}

// The plan of the drives, each declared in its turn.
fn plan_of(rt: &HostRuntime, drives: &[Drive]) -> Result<ClosedPlan, Failure<'static>> {
    let mut plan = OpenPlan::new();
    for drive in drives {
        let Drive { number, blocks } = *drive;
        match plan.declare(number, blocks) {
            Ok(()) => println!(rt; "declare drive {number}, {blocks} blocks: done")?,
            Err(refusal) => {
                println!(rt;
                    "declare drive {number}, {blocks} blocks: {}",
                    Refused(refusal)
                )?;
            }
        }
    }
    Ok(plan.close())
}

// Whether a shelf of the plan can be made.
fn show_check(rt: &HostRuntime, checked: Result<(), ShelfRefusal>) -> Result<(), Failure<'static>> {
    match checked {
        Ok(()) => println!(rt; "check: passed")?,
        Err(refusal) => println!(rt; "check: {}; the shelf has no drives", Refused(refusal))?,
    }
    Ok(())
}

// The handle and the shelf are two parameters of what follows. A struct of them would be no plainer:
// it would have the loan of each, and hide which functions print.

// The drives of a shelf, and the room that is left on each.
fn show_room<S: Shelf>(rt: &HostRuntime, shelf: &S) -> Result<(), Failure<'static>> {
    for drive in 1..=8 {
        let Room { blocks, held, left } = room_of(shelf, drive);
        if blocks > 0 {
            println!(rt; "drive {drive}: {blocks} blocks, {held} held, room for {left} more")?;
        }
    }
    println!(rt; "spare: {}", shelf.spare())?;
    Ok(())
}

// The words of a block, up to the last that is not zero.
#[derive(Clone, Copy)]
struct Words<'a>(&'a [u32; 128]);

impl fmt::Display for Words<'_> {
    fn fmt<W: fmt::Write>(&self, f: &mut fmt::Formatter<W>) -> fmt::Result {
        let Words(words) = *self;
        let Some(last) = words.iter().rposition(|word| *word != 0) else {
            return write!(f, " all zeros");
        };
        for word in words.iter().take(last + 1) {
            write!(f, " {word}")?;
        }
        if last < 127 {
            write!(f, ", then zeros")?;
        }
        Ok(())
    }
}

// Says that a block was refused, and why.
fn show_refusal(rt: &HostRuntime, what: &str, fault: BlockFault) -> Result<(), Failure<'static>> {
    let BlockFault { refusal, at } = fault;
    let BlockAddress { drive, block } = at;
    println!(rt; "{what} drive {drive}, block {block}: {}", Refused(refusal))?;
    Ok(())
}

// Writes a block, and tells how it went.
fn write<S: Shelf>(
    rt: &HostRuntime,
    shelf: &mut S,
    at: BlockAddress,
    words: &[u32; 128],
) -> Result<(), Failure<'static>> {
    let BlockAddress { drive, block } = at;
    match shelf.write(at, words) {
        Ok(()) => println!(rt; "write drive {drive}, block {block}: done")?,
        Err(fault) => show_refusal(rt, "write", fault)?,
    }
    Ok(())
}

// Reads a block, and tells how it went.
fn read<S: Shelf>(rt: &HostRuntime, shelf: &S, at: BlockAddress) -> Result<(), Failure<'static>> {
    let BlockAddress { drive, block } = at;
    let mut words = [0; 128];
    match shelf.read(at, &mut words) {
        Ok(()) => println!(rt; "read drive {drive}, block {block}:{}", Words(&words))?,
        Err(fault) => show_refusal(rt, "read", fault)?,
    }
    Ok(())
}

// Says how a transfer went.
fn show_transfer(
    rt: &HostRuntime,
    what: &str,
    extent: Extent,
    moved: Result<(), TransferFault>,
) -> Result<(), Failure<'static>> {
    let Extent { first, count } = extent;
    let BlockAddress { drive, block } = first;
    match moved {
        Ok(()) => println!(rt; "copy: {what} drive {drive}, {count} blocks from {block} on: done")?,
        Err(TransferFault::Unreachable) => println!(rt; "copy: the memory is too short")?,
        Err(TransferFault::Refused(fault)) => show_refusal(rt, "copy: at", fault)?,
    }
    Ok(())
}

// Copies blocks by way of memory: all are read before the first is written.
fn copy<S: Shelf>(
    rt: &HostRuntime,
    shelf: &mut S,
    source: Extent,
    to: BlockAddress,
) -> Result<(), Failure<'static>> {
    // consecutive places from 0 on
    let span = Span {
        first: 0,
        second: 2048,
    };
    let mut memory: Vec<u32> = vec![in rt.alloc(); 0; 128 * source.count as usize]?;
    let got = read_blocks(shelf, source, &mut memory, span);
    show_transfer(rt, "read", source, got)?;
    if got.is_ok() {
        let target = Extent {
            first: to,
            count: source.count,
        };
        let put = write_blocks(shelf, target, &memory, span);
        show_transfer(rt, "write", target, put)?;
    }
    Ok(())
}

// Does what is asked of a shelf, and tells how it went.
fn answer<S: Shelf>(
    rt: &HostRuntime,
    shelf: &mut S,
    request: &Request,
) -> Result<(), Failure<'static>> {
    match request {
        Request::Write(at, words) => write(rt, shelf, *at, words),
        Request::Read(at) => read(rt, shelf, *at),
        Request::Copy(source, to) => copy(rt, shelf, *source, *to),
    }
}

// Does all that is asked, and shows the room before and after.
fn play<S: Shelf>(
    rt: &HostRuntime,
    shelf: &mut S,
    requests: &[Request],
) -> Result<(), Failure<'static>> {
    show_room(rt, shelf)?;
    if requests.is_empty() {
        return Ok(());
    }
    for request in requests {
        answer(rt, shelf, request)?;
    }
    show_room(rt, shelf)
}

// Makes a shelf as the arguments tell, and plays on it.
pub(crate) fn run<'a>(rt: &HostRuntime, make: Make, args: &'a [String]) -> Result<(), Failure<'a>> {
    let options = options::read(rt.alloc(), args)?;
    println!(rt; "{make}")?;
    let plan = plan_of(rt, &options.drives)?;
    let lent = match options.lent {
        Some(words) => words as usize,
        None => make.words(&plan),
    };
    println!(rt; "lent: {lent} words")?;
    show_check(rt, make.check(&plan, lent))?;
    // the slots first, which take less where the check passes: where they cannot be had, no words are
    // filled in vain
    let mut places: Vec<Slot> = vec![in rt.alloc(); Slot::idle(); make.slots()]?;
    let mut memory: Vec<u32> = vec![in rt.alloc(); 0; lent]?;
    let requests = &options.requests;
    match make {
        Make::Dense => play(rt, &mut Dense::new(&plan, &mut memory), requests),
        Make::Sparse(_) => play(
            rt,
            &mut Sparse::new(&plan, &mut places, &mut memory),
            requests,
        ),
    }
}
