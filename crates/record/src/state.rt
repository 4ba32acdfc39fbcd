ghost use Rattle.record.specs.Flags.{conditions_of, mode_of};
ghost use Rattle.std.specs.Prelude.{◌≡◌};

use crate::pdbr::Pdbr;

// The flags that instructions of a user program may change: Z, N and ERR.
#[derive(Clone, Copy, Debug, PartialEq, Eq, Default)]
pub struct Conditions {
    pub z: bool,
    pub n: bool,
    pub err: bool,
}

// What an unprivileged instruction may change: the sixteen registers of the mode that runs, of
// which 13, 14 and 15 are SP, FP and PC, and the condition flags.
#[derive(Clone, Copy, Debug, PartialEq, Eq)]
pub struct Core {
    pub regs: [u32; 16],
    pub conditions: Conditions,
}

// The flags that only system mode may change: R, SYS, IP and VM.
#[derive(Clone, Copy, Debug, PartialEq, Eq)]
pub struct Mode {
    pub running: bool,
    pub system: bool,
    pub in_interrupt: bool,
    pub paging: bool,
}

// A stack pointer and a frame pointer.
#[derive(Clone, Copy, Debug, PartialEq, Eq, Default)]
pub struct StackPair {
    pub sp: u32,
    pub fp: u32,
}

// The registers by which the kernel steers the machine.
#[derive(Clone, Copy, Debug, PartialEq, Eq, Default)]
pub struct Control {
    pub pdbr: Pdbr,
    pub intvec: u32,
    pub cgbr: u32,
    pub cglen: u32,
    pub debug: u32,
    pub timer: u32,
}

// Z, N and ERR of a flags word: bits 1, 2 and 3.
impl From<u32> for Conditions {
    ghost from_gives = { λ word it. it ≡ conditions_of word };

    fn from(word: u32) -> Conditions {
        Conditions {
            z: word / 2 % 2 == 1,
            n: word / 4 % 2 == 1,
            err: word / 8 % 2 == 1,
        }
    }
}

// R, SYS, IP and VM of a flags word: bits 0, 4, 5 and 6.
impl From<u32> for Mode {
    ghost from_gives = { λ word it. it ≡ mode_of word };

    fn from(word: u32) -> Mode {
        Mode {
            running: word % 2 == 1,
            system: word / 16 % 2 == 1,
            in_interrupt: word / 32 % 2 == 1,
            paging: word / 64 % 2 == 1,
        }
    }
}
