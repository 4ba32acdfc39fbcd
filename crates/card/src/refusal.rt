ghost use Rattle.card.specs.Refusal.{card_number, told, writer_number};
ghost use Rattle.card.specs.declared.refusal.CopyRefusal.TheVariants.{Unread, Unwritten};
ghost use Rattle.std.specs.Prelude.{◌≡◌};

use thiserror::Error;

// Why a bit writer refuses.
#[derive(Clone, Copy, Debug, PartialEq, Eq, Error)]
pub enum WriterRefusal {
    // there is no place for a full byte
    #[error("there is no place for a full byte")]
    NoPlace = 12,
    // the width is not 1 to 32, or the value does not fit in it
    #[error("a value does not fit its width")]
    BadField = 13,
}

// Why bytes are no card.
#[derive(Clone, Copy, Debug, PartialEq, Eq, Error)]
pub enum CardFault {
    // the bytes end within a field
    #[error("the bytes end within a field")]
    BytesEnd = 14,
    // the edition is not 1
    #[error("the edition is not 1")]
    WrongEdition = 15,
    // a count of keys or of tray characters is over 64
    #[error("a count of keys or tray characters is over 64")]
    CountOver = 16,
    // the padding is not zero
    #[error("the padding is not zero")]
    BadPadding = 17,
    // bytes are left over behind the padding
    #[error("bytes are left over behind the card")]
    LeftOver = 18,
}

// Why a card is not read, with the first bit of the field at which that showed. Bits count from 0
// at the top bit of the first byte.
#[derive(Clone, Copy, Debug, PartialEq, Eq)]
pub struct CardRefusal {
    pub fault: CardFault,
    pub bit: usize,
}

// Why a card is not copied: it cannot be read, or its copy cannot be written.
#[derive(Clone, Copy, Debug, PartialEq, Eq)]
pub enum CopyRefusal {
    // refusals 14 to 18, with their bit
    Unread(CardRefusal),
    // refusal 12
    Unwritten(WriterRefusal),
}

// The refusal's number. Each enum of refusals has such an impl: one for all would be written by a
// macro of ours, which the gate does not take.
impl From<WriterRefusal> for u8 {
    ghost from_gives = { λ refusal it. it ≡ writer_number refusal };

    fn from(refusal: WriterRefusal) -> u8 {
        refusal as u8
    }
}

// The refusal's number.
impl From<CardFault> for u8 {
    ghost from_gives = { λ fault it. it ≡ card_number fault };

    fn from(fault: CardFault) -> u8 {
        fault as u8
    }
}

impl CardFault {
    // The fault, at the field that begins with this bit.
    pub(crate) fn at(self, bit: usize) -> CardRefusal
        ensures { result ≡ told self bit }
    {
        CardRefusal { fault: self, bit }
    }
}

// This and the next by hand: the clauses of `copy_card` name the refusal that `?` makes, and a
// derived conversion has no contract.
impl From<CardRefusal> for CopyRefusal {
    ghost from_gives = { λ x y. y ≡ Unread x };

    fn from(refusal: CardRefusal) -> CopyRefusal {
        CopyRefusal::Unread(refusal)
    }
}

impl From<WriterRefusal> for CopyRefusal {
    ghost from_gives = { λ x y. y ≡ Unwritten x };

    fn from(refusal: WriterRefusal) -> CopyRefusal {
        CopyRefusal::Unwritten(refusal)
    }
}
