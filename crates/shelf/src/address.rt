// A block of a disc: its drive, and its number there.
#[derive(Clone, Copy, Debug, PartialEq, Eq)]
pub struct BlockAddress {
    pub drive: u32,
    pub block: u32,
}
