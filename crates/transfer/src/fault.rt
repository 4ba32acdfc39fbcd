ghost use Rattle.transfer.specs.declared.fault.TransferFault.TheVariants.{Refused};
ghost use Rattle.std.specs.Prelude.{◌≡◌};

use shelf::refusal::BlockFault;

// Why a transfer stopped. It has no numbers of its own: who asked for the transfer gives each case
// the number that the case has there.
#[derive(Clone, Copy, Debug, PartialEq, Eq)]
pub enum TransferFault {
    // a word of the span lies beyond the memory: nothing has moved
    Unreachable,
    // the shelf refused this block: those before it have moved
    Refused(BlockFault),
}

// By hand, since the clauses of a transfer name the fault that `?` makes, and a derived conversion
// has no contract.
impl From<BlockFault> for TransferFault {
    ghost from_gives = { λ x y. y ≡ Refused x };

    fn from(fault: BlockFault) -> TransferFault {
        TransferFault::Refused(fault)
    }
}
