ghost use Rattle.std.specs.Prelude.{◌^◌, ◌<◌};

// Where a writer stands: how many bytes are full, the pending bits as a number, and how many
// those are.
#[derive(Clone, Copy, Debug, PartialEq, Eq)]
pub struct Place {
    pub full: usize,
    pub pending: u8,
    pub count: u8,
    ghost few: { count < 8 },
    ghost small: { pending < 2 ^ count },
}
