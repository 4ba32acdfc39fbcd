// A machine record as people like to read it.
use crate::failure::Failure;
use record::machine::{Record, WORDS};
use std::fmt;

// The names of a record's words, in the order of its words. They stand beside the words, and in no
// pairs with them: a record tells numbers, and the names are the program's.
const NAMES: [&str; WORDS] = [
    "R0", "R1", "R2", "R3", "R4", "R5", "R6", "R7", "R8", "R9", "R10", "R11", "R12", "PC", "SYSSP",
    "SYSFP", "USRSP", "USRFP", "PDBR", "INTVEC", "CGBR", "CGLEN", "DEBUG", "TIMER",
];

// The bits of a flags word, from the lowest on, and their names.
const FLAGS: [(u32, &str); 7] = [
    (1, "R"),
    (2, "Z"),
    (4, "N"),
    (8, "ERR"),
    (16, "SYS"),
    (32, "IP"),
    (64, "VM"),
];

// The names of the flags that are on in a flags word.
#[derive(Clone, Copy)]
struct Flags(u32);

impl fmt::Display for Flags {
    fn fmt<W: fmt::Write>(&self, f: &mut fmt::Formatter<W>) -> fmt::Result {
        let mut on = FLAGS.iter().filter(|(bit, _)| self.0 & *bit != 0);
        if let Some((_, first)) = on.next() {
            write!(f, "{first}")?;
        }
        for (_, name) in on {
            write!(f, " {name}")?;
        }
        Ok(())
    }
}

// Bytes as text: printable characters as they are, others by their number in hex.
#[derive(Clone, Copy)]
struct Quoted<'a>(&'a [u8]);

impl fmt::Display for Quoted<'_> {
    fn fmt<W: fmt::Write>(&self, f: &mut fmt::Formatter<W>) -> fmt::Result {
        write!(f, "\"")?;
        for byte in self.0 {
            let shown = char::from(*byte);
            match shown {
                '"' | '\\' => write!(f, "\\{shown}")?,
                ' '..='~' => write!(f, "{shown}")?,
                _ => write!(f, "\\x{byte:02x}")?,
            }
        }
        write!(f, "\"")
    }
}

// Prints a machine record: a line for its flags, for each word and for each queue. Each line is
// printed by itself, so that a pipe that takes no more has whole lines.
pub(crate) fn show_record(rt: &HostRuntime, machine: &Record) -> Result<(), Failure<'static>> {
    let flags = machine.flags();
    let names = Flags(flags);
    println!(rt; "flags   {flags:08x} {names}")?;
    for (name, word) in NAMES.iter().zip(machine.words()) {
        println!(rt; "{name:<7} {word:08x} {word:>10}")?;
    }
    let keys = machine.keys.as_slice();
    let tray = machine.tray.as_slice();
    println!(rt;
        "keys    {} waiting, oldest first: {}",
        keys.len(),
        Quoted(keys)
    )?;
    println!(rt;
        "tray    {} characters, oldest first: {}",
        tray.len(),
        Quoted(tray)
    )?;
    Ok(())
}
