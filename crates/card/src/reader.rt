ghost use Rattle.std.specs.Prelude.{◌≡◌, ◌+◌, ◌*◌, ◌^◌, ◌<◌, ◌≤◌, [], length, map, take, drop, IfOk, slice_index};
ghost use Rattle.card.specs.Bits.{spelled, stream};
ghost use Rattle.card.specs.Card.{count as the_count, edition as the_edition, ending as the_ending, field, gather, mapped};
ghost use Rattle.record.specs.Queue.{items};

use crate::field::{COUNT, EDITION, Field, PADDING, Width};
use crate::refusal::{CardFault, CardRefusal};
use record::queue::Queue;

// Bytes and a place in them are two parameters. Fields stand at places that are sums of constants
// and counts: a struct of the two would be built anew for each field, and one that moves along the
// bytes would owe at each step that its next place is still a number.

// The bit at a place.
fn bit(bytes: &[u8], at: usize) -> u32
    requires { at < 8 * length bytes.now }
    ensures value { result ≡ slice_index (stream bytes.now) at }
    ensures bound { result < 2 }
{
    u32::from(bytes[at / 8] >> (7 - at % 8)) % 2
}

// The number that so many bits spell.
fn number(bytes: &[u8], from: u32, width: Width) -> u32
    requires { from + width.bits ≤ 8 * length bytes.now }
    ensures value { result ≡ spelled 0 (take width.bits (drop from (stream bytes.now))) }
    ensures bound { result < 2 ^ width.bits }
{
    let mut value = 0;
    for i in 0..width.bits {
        value = value * 2 + bit(bytes, from as usize + i as usize);
    }
    value
}

// The field at a place, or that the bytes end within it.
pub(crate) fn read_field(bytes: &[u8], at: u32, width: Width) -> Result<u32, CardRefusal>
    ensures value { result ≡ field (stream bytes.now) at width.bits }
    ensures bound { IfOk result (λ v. v < 2 ^ width.bits) }
{
    if (at as usize + width.bits as usize).div_ceil(8) > bytes.len() {
        return Err(CardFault::BytesEnd.at(at as usize));
    }
    Ok(number(bytes, at, width))
}

// Fields of one width from a place on, as many as there is a place for. The place of a field goes on
// by the width; worked out from an index it would be a product, which would have to be shown to fit.
pub(crate) fn read_fields<T: Field>(
    bytes: &[u8],
    from: u32,
    out: &mut [T],
) -> Result<(), CardRefusal>
    requires { from + T.wide * length out.old < 2 ^ 32 }
    ensures { mapped (λ _. map T.value out.new) result ≡ gather [] (stream bytes.now) from T.wide (length out.old) }
{
    let mut at = from;
    for field in out.iter_mut() {
        *field = T::of_number(read_field(bytes, at, T::width())?);
        at += T::width().bits;
    }
    Ok(())
}

// So many characters from a place on.
pub(crate) fn read_queue(bytes: &[u8], from: u32, n: u32) -> Result<Queue, CardRefusal>
    requires place { from < 4096 }
    requires few { n ≤ 64 }
    ensures { mapped items result ≡ gather [] (stream bytes.now) from 8 n }
{
    let mut room = [0; 64];
    let characters: &mut [u8] = &mut room[..n as usize];
    read_fields(bytes, from, characters)?;
    Ok(Queue::from_slice(characters))
}

// The edition, which is 1.
pub(crate) fn read_edition(bytes: &[u8]) -> Result<(), CardRefusal>
    ensures { result ≡ the_edition (stream bytes.now) }
{
    if read_field(bytes, 0, EDITION)? != 1 {
        return Err(CardFault::WrongEdition.at(0));
    }
    Ok(())
}

// A count of keys or tray characters, which is at most 64.
pub(crate) fn read_count(bytes: &[u8], at: u32) -> Result<u32, CardRefusal>
    ensures { result ≡ the_count (stream bytes.now) at }
{
    let n = read_field(bytes, at, COUNT)?;
    if n > 64 {
        return Err(CardFault::CountOver.at(at as usize));
    }
    Ok(n)
}

// The end: seven zeros, and nothing behind them.
pub(crate) fn read_end(bytes: &[u8], at: u32) -> Result<(), CardRefusal>
    ensures { result ≡ the_ending (stream bytes.now) at }
{
    if read_field(bytes, at, PADDING)? != 0 {
        return Err(CardFault::BadPadding.at(at as usize));
    }
    let end = at as usize + 7;
    if end / 8 < bytes.len() {
        return Err(CardFault::LeftOver.at(end));
    }
    Ok(())
}
