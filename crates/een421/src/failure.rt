use card::refusal::{CardRefusal, WriterRefusal};
use std::alloc::AllocError;
use std::io;
use thiserror::Error;

// Why a command is not done.
#[derive(Debug, Drop, Error)]
pub(crate) enum Failure<'a> {
    // the arguments spell no command
    #[error("the arguments are no command; try `een421 help`")]
    Usage,
    // a word is no option of the command
    #[error("`disc` cannot take `{name} {value}`: it is no option, or its value cannot be read; try `een421 help`")]
    NoOption { name: &'a str, value: &'a str },
    // the file cannot be read
    #[error("cannot read {0}: {1}; check its name, or make a card with `een421 card new FILE`")]
    Unreadable(&'a str, io::Error),
    // the file cannot be written
    #[error("cannot write {0}: {1}; check that its folder is there and may be written")]
    Unwritable(&'a str, io::Error),
    // the file is no card
    #[error("{file} is no card: refusal {} at bit {}: {}; check that the file is whole and unchanged", u8::from(.refusal.fault), .refusal.bit, .refusal.fault)]
    NoCard { file: &'a str, refusal: CardRefusal },
    // the card cannot be written
    #[error("the card cannot be written: refusal {}: {}", u8::from(*.0), .0)]
    Unfit(#[from] WriterRefusal),
    // the file does not hold what was written to it
    #[error("{0} does not hold what was written to it; check the disc, and write it again")]
    Changed(&'a str),
    // the arguments cannot be read, or the output cannot be written
    #[error("cannot use the terminal: {0}")]
    Console(#[from] io::Error),
    // there is no memory for a list or for the words that are lent
    #[error("there is not enough memory")]
    Memory(#[from(alloc)] AllocError),
}
