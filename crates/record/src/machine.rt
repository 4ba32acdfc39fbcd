ghost use Rattle.std.specs.Prelude.{◌≡◌, length};

use crate::queue::Queue;
use crate::state::{Control, Core, Mode, StackPair};

pub mod methods;

// How many words a machine record has: R0 to R12, PC, SYSSP, SYSFP, USRSP, USRFP, PDBR, INTVEC,
// CGBR, CGLEN, DEBUG and TIMER, in this order.
pub const WORDS: usize = 24;

// The machine record. The stack pair of the mode that runs is in registers 13 and 14; `parked`
// has the pair of the other mode.
#[derive(Clone, Copy, Debug, PartialEq, Eq)]
pub struct Record {
    pub core: Core,
    pub mode: Mode,
    pub parked: StackPair,
    pub control: Control,
    pub keys: Queue,
    pub tray: Queue,
    ghost sized: { length core.regs ≡ 16 },
}
