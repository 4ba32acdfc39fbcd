// The commands over cards in files. The handle and a file's name are two parameters, as the handle and
// a shelf are in `disc`.
use crate::failure::Failure;
use crate::show::show_record;
use card::codec::{LONGEST, copy_card, read_card, write_checked};
use card::refusal::CopyRefusal;
use record::machine::Record;
use std::fs;

// The bytes of a file.
fn read_file<'a>(rt: &HostRuntime, file: &'a str) -> Result<Vec<u8>, Failure<'a>> {
    fs::read(rt, file).map_err(|error| Failure::Unreadable(file, error))
}

// Makes a file of bytes.
fn write_file<'a>(rt: &HostRuntime, file: &'a str, bytes: &[u8]) -> Result<(), Failure<'a>> {
    fs::write(rt, file, bytes).map_err(|error| Failure::Unwritable(file, error))
}

// The record that bytes of a file are the card of.
fn record_of<'a>(file: &'a str, bytes: &[u8]) -> Result<Record, Failure<'a>> {
    read_card(bytes).map_err(|refusal| Failure::NoCard { file, refusal })
}

// Writes the card of a fresh machine to a file, reads the file back and compares by `same`, whose
// contract says what it decides.
pub(crate) fn new<'a>(rt: &HostRuntime, file: &'a str) -> Result<(), Failure<'a>> {
    let mut out = [0; LONGEST];
    let (n, machine) = write_checked(&Record::fresh(), &mut out)?;
    write_file(rt, file, &out[..n])?;
    println!(rt; "wrote {file}: the card of a fresh machine, {n} bytes")?;
    let bytes = read_file(rt, file)?;
    let back = record_of(file, &bytes)?;
    if !back.same(&machine) {
        return Err(Failure::Changed(file));
    }
    println!(rt; "read it back: the same record")?;
    Ok(())
}

// Prints the record of the card in a file.
pub(crate) fn show<'a>(rt: &HostRuntime, file: &'a str) -> Result<(), Failure<'a>> {
    let bytes = read_file(rt, file)?;
    let machine = record_of(file, &bytes)?;
    let n = bytes.len();
    println!(rt; "{file}: a card of edition 1, {n} bytes")?;
    show_record(rt, &machine)
}

// Reads the card in a file, writes it to another and says whether the bytes are the same.
pub(crate) fn copy<'a>(rt: &HostRuntime, from: &'a str, to: &'a str) -> Result<(), Failure<'a>> {
    let bytes = read_file(rt, from)?;
    let mut out = [0; LONGEST];
    let n = copy_card(&bytes, &mut out).map_err(|refusal| match refusal {
        CopyRefusal::Unread(refusal) => Failure::NoCard {
            file: from,
            refusal,
        },
        CopyRefusal::Unwritten(refusal) => Failure::Unfit(refusal),
    })?;
    write_file(rt, to, &out[..n])?;
    if read_file(rt, to)? != bytes {
        return Err(Failure::Changed(to));
    }
    println!(rt; "copied {from} to {to}: {n} bytes, the same as they were")?;
    Ok(())
}
