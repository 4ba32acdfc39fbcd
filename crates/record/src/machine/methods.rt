ghost use Rattle.std.specs.Prelude.{◌≡◌, ◌%◌, ◌<◌, length, if◌then◌else◌, Decides};
ghost use Rattle.record.specs.Contents.{contents, fresh_contents, running_pair, switched, system_pair, user_pair, with_flags, with_system};
ghost use Rattle.record.specs.Queue.{items};
ghost use Rattle.record.specs.View.{ViewsTell, contents_of, control_of, flags_word, fresh_view, pair_of, registers_of, view, view_with_flags, words as the_words};

use super::{Record, WORDS};
use crate::pdbr::Pdbr;
use crate::queue::Queue;
use crate::state::{Conditions, Control, Core, Mode, StackPair};

// Among words in the published order: SYSSP and SYSFP, or USRSP and USRFP.
fn pair_of(words: &[u32; WORDS], system: bool) -> StackPair
    ensures { result ≡ pair_of words.now system }
{
    let at = if system { 14 } else { 16 };
    StackPair {
        sp: words[at],
        fp: words[at + 1],
    }
}

// Among words in the published order: PDBR to TIMER.
fn control_of(words: &[u32; WORDS]) -> Control
    ensures { result ≡ control_of words.now }
{
    Control {
        pdbr: Pdbr::new(words[18]),
        intvec: words[19],
        cgbr: words[20],
        cglen: words[21],
        debug: words[22],
        timer: words[23],
    }
}

// The registers of the mode that runs, with that pair: R0 to R12, SP, FP, PC. They are listed one by
// one: of parts copied into an array the proof did not close.
fn registers_of(w: &[u32; WORDS], pair: StackPair) -> [u32; 16]
    ensures { result ≡ registers_of w.now pair }
{
    [
        w[0], w[1], w[2], w[3], w[4], w[5], w[6], w[7], w[8], w[9], w[10], w[11], w[12], pair.sp,
        pair.fp, w[13],
    ]
}

impl Record {
    // The record of these words in their published order, these flags, keys and tray. Of the
    // flags word the seven low bits count.
    pub fn new(words: &[u32; WORDS], flags: u32, keys: Queue, tray: Queue) -> Record
        ensures after { contents result ≡ contents_of (record { words = words.entry.now; flags = flags; keys = items keys; tray = items tray }) }
        ensures view { view (contents result) ≡ record { words = words.entry.now; flags = flags % 128; keys = items keys; tray = items tray } }
    {
        let mode = Mode::from(flags);
        let conditions = Conditions::from(flags);
        let running = pair_of(words, mode.system);
        let parked = pair_of(words, !mode.system);
        let core = Core {
            regs: registers_of(words, running),
            conditions,
        };
        Record {
            core,
            mode,
            parked,
            control: control_of(words),
            keys,
            tray,
        }
    }

    // A fresh machine: R, SYS and IP on, all else zero.
    pub fn fresh() -> Record
        ensures after { contents result ≡ fresh_contents }
        ensures view { view (contents result) ≡ fresh_view }
    {
        Record {
            core: Core {
                regs: [0; 16],
                conditions: Conditions::default(),
            },
            mode: Mode {
                running: true,
                system: true,
                in_interrupt: true,
                paging: false,
            },
            parked: StackPair::default(),
            control: Control::default(),
            keys: Queue::new(),
            tray: Queue::new(),
        }
    }

    // SP and FP of the mode that runs.
    fn running_pair(&self) -> StackPair
        ensures { result ≡ running_pair (contents self.now) }
    {
        StackPair {
            sp: self.core.regs[13],
            fp: self.core.regs[14],
        }
    }

    // SP and FP of system or user mode.
    fn pair(&self, system: bool) -> StackPair
        ensures { result ≡ (if system then system_pair (contents self.now) else user_pair (contents self.now)) }
    {
        if self.mode.system == system {
            self.running_pair()
        } else {
            self.parked
        }
    }

    // SYSSP and SYSFP.
    pub fn system_pair(&self) -> StackPair
        ensures { result ≡ system_pair (contents self.now) }
    {
        self.pair(true)
    }

    // USRSP and USRFP.
    pub fn user_pair(&self) -> StackPair
        ensures { result ≡ user_pair (contents self.now) }
    {
        self.pair(false)
    }

    // The twenty-four words in their published order. They are listed one by one: of parts copied into
    // an array the proof did not close.
    pub fn words(&self) -> [u32; WORDS]
        ensures value { result ≡ the_words (contents self.now) }
        ensures len { length result ≡ 24 }
    {
        let r = self.core.regs;
        let system = self.system_pair();
        let user = self.user_pair();
        let c = self.control;
        [
            r[0],
            r[1],
            r[2],
            r[3],
            r[4],
            r[5],
            r[6],
            r[7],
            r[8],
            r[9],
            r[10],
            r[11],
            r[12],
            r[15],
            system.sp,
            system.fp,
            user.sp,
            user.fp,
            c.pdbr.word(),
            c.intvec,
            c.cgbr,
            c.cglen,
            c.debug,
            c.timer,
        ]
    }

    // The flags word: R, Z, N, ERR, SYS, IP and VM are bits 0 to 6, and the other bits are 0.
    pub fn flags(&self) -> u32
        ensures value { result ≡ flags_word (contents self.now) }
        ensures bound { result < 128 }
    {
        u32::from(self.mode.running)
            + 2 * u32::from(self.core.conditions.z)
            + 4 * u32::from(self.core.conditions.n)
            + 8 * u32::from(self.core.conditions.err)
            + 16 * u32::from(self.mode.system)
            + 32 * u32::from(self.mode.in_interrupt)
            + 64 * u32::from(self.mode.paging)
    }

    // Goes to the other mode: the running pair and the parked one trade places.
    fn switch_mode(&mut self)
        ensures { contents self.new ≡ switched (contents self.old) }
    {
        let running = self.running_pair();
        self.core.regs[13] = self.parked.sp;
        self.core.regs[14] = self.parked.fp;
        self.parked = running;
        self.mode.system = !self.mode.system;
    }

    // Turns SYS on or off. Where that changes the mode, the pair of the new one runs.
    pub fn set_system(&mut self, on: bool)
        ensures after { contents self.new ≡ with_system (contents self.old) on }
        ensures words { the_words (contents self.new) ≡ the_words (contents self.old) }
    {
        if self.mode.system != on {
            self.switch_mode();
        }
    }

    // Sets every flag as the low seven bits of a flags word say; the other bits set nothing.
    pub fn set_flags(&mut self, word: u32)
        ensures after { contents self.new ≡ with_flags (contents self.old) word }
        ensures view { view (contents self.new) ≡ view_with_flags (view (contents self.old)) word }
    {
        let mode = Mode::from(word);
        self.set_system(mode.system);
        self.mode = mode;
        self.core.conditions = Conditions::from(word);
    }

    // Whether two records are the same.
    pub fn same(&self, other: &Record) -> bool
        ensures { Decides result (self.now ≡ other.now) }
    {
        self == other
    }

    // The law that words, flags, keys and tray tell a record: see `ViewsTell`.
    pub fn views_tell()
        ensures { ViewsTell }
    {}
}
