// The options of `een421 disc`.
use crate::failure::Failure;
use shelf::address::BlockAddress;
use std::alloc::Global;
use transfer::blocks::Extent;

// What is asked of a shelf, in the order of the options.
#[derive(Drop)]
pub(crate) enum Request {
    Write(BlockAddress, [u32; 128]),
    Read(BlockAddress),
    // these blocks, to those from this one on
    Copy(Extent, BlockAddress),
}

// A drive that is declared.
#[derive(Clone, Copy)]
pub(crate) struct Drive {
    pub(crate) number: u32,
    pub(crate) blocks: u32,
}

// All options: the drives, how many words are lent if that is told, and what is asked then.
#[derive(Drop)]
pub(crate) struct Options {
    pub(crate) drives: Vec<Drive>,
    pub(crate) lent: Option<u32>,
    pub(crate) requests: Vec<Request>,
}

// What one option says.
#[derive(Drop)]
enum Choice {
    Drive(Drive),
    Lend(u32),
    Ask(Request),
}

// A word in hex digits, one to eight of them. `from_str_radix` alone would take a sign before them,
// and more zeros.
fn hex(digits: &str) -> Option<u32> {
    if digits.len() > 8 || digits.starts_with('+') {
        return None;
    }
    u32::from_str_radix(digits, 16).ok()
}

// A number of 32 bits, decimal or, behind `0x`, hex.
pub(crate) fn number(text: &str) -> Option<u32> {
    match text.strip_prefix("0x") {
        Some(digits) => hex(digits),
        None => text.parse().ok(),
    }
}

// Two numbers with a separator between them.
fn pair(text: &str, separator: char) -> Option<(u32, u32)> {
    let (first, second) = text.split_once(separator)?;
    Some((number(first)?, number(second)?))
}

// `DRIVE=BLOCKS`
fn drive_of(text: &str) -> Option<Drive> {
    let (number, blocks) = pair(text, '=')?;
    Some(Drive { number, blocks })
}

// `DRIVE:BLOCK`
fn block_of(text: &str) -> Option<BlockAddress> {
    let (drive, block) = pair(text, ':')?;
    Some(BlockAddress { drive, block })
}

// 1 to 128 words with commas between them, and zeros behind.
fn block_words(text: &str) -> Option<[u32; 128]> {
    let mut words = [0; 128];
    let mut places = words.iter_mut();
    for word in text.split(',') {
        *places.next()? = number(word)?;
    }
    Some(words)
}

// `DRIVE:BLOCK=WORD,WORD,..`
fn write(text: &str) -> Option<Request> {
    let (place, words) = text.split_once('=')?;
    Some(Request::Write(block_of(place)?, block_words(words)?))
}

// `DRIVE:BLOCK+COUNT=DRIVE:BLOCK`
fn copy(text: &str) -> Option<Request> {
    let (from, to) = text.split_once('=')?;
    let (from, count) = from.split_once('+')?;
    let source = Extent {
        first: block_of(from)?,
        count: number(count)?,
    };
    Some(Request::Copy(source, block_of(to)?))
}

// What an option says, if there is one of that name that can take the value.
fn choice_of(name: &str, value: &str) -> Option<Choice> {
    match name {
        "--drive" => Some(Choice::Drive(drive_of(value)?)),
        "--lend" => Some(Choice::Lend(number(value)?)),
        "--write" => Some(Choice::Ask(write(value)?)),
        "--read" => Some(Choice::Ask(Request::Read(block_of(value)?))),
        "--copy" => Some(Choice::Ask(copy(value)?)),
        _ => None,
    }
}

// The options that arguments spell, two arguments to each. A last one alone has an empty value.
pub(crate) fn read<'a>(heap: Global, args: &'a [String]) -> Result<Options, Failure<'a>> {
    let mut options = Options {
        drives: Vec::new(heap),
        lent: None,
        requests: Vec::new(heap),
    };
    for words in args.chunks(2) {
        let mut words = words.iter().map(|word| word.as_str());
        let name = words.next().unwrap_or("");
        let value = words.next().unwrap_or("");
        match choice_of(name, value).ok_or(Failure::NoOption { name, value })? {
            Choice::Drive(drive) => options.drives.push(drive)?,
            Choice::Lend(words) => options.lent = Some(words),
            Choice::Ask(request) => options.requests.push(request)?,
        }
    }
    Ok(options)
}
