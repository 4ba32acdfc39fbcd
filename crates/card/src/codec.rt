ghost use Rattle.std.specs.Prelude.{◌≡◌, ℕ, ◌*◌, ◌^◌, ◌<◌, length, map, OnOk, slice_index};
ghost use Rattle.card.specs.Bits.{fields};
ghost use Rattle.card.specs.Card.{after_write, card_bits, mapped, read as the_card, size, write_answer};
ghost use Rattle.card.specs.Laws.{Proper, ReadsBack, WritesBack, after_copy, checked_answer, copy_answer};
ghost use Rattle.card.specs.Writer.{Moved, Ready, lent, run, state};
ghost use Rattle.record.specs.Contents.{contents};
ghost use Rattle.record.specs.View.{view};

use crate::field::{COUNT, EDITION, FLAGS, Field, PADDING};
use crate::reader::{read_count, read_edition, read_end, read_field, read_fields, read_queue};
use crate::refusal::{CardRefusal, CopyRefusal, WriterRefusal};
use crate::writer::BitWriter;
use record::machine::{Record, WORDS};

// The most bytes that a card has: 100, 64 keys and 64 tray characters.
pub const LONGEST: usize = 228;

// The first bits of the fields behind the edition. Behind the words come the keys, the tray and
// the padding.
const FLAGS_AT: u32 = 4;

const KEY_COUNT_AT: u32 = 11;

const TRAY_COUNT_AT: u32 = 18;

const WORDS_AT: u32 = 25;

const KEYS_AT: u32 = WORDS_AT + 32 * WORDS as u32;

// Puts a row of fields.
fn put_fields<T: Field>(w: &mut BitWriter, values: &[T])
    requires { Ready (state w.old) (T.wide * length values.now) }
    ensures same { lent w.new ≡ lent w.old }
    ensures after { state w.new ≡ run (state w.old) (fields T.wide (map T.value values.now)) }
    ensures moved { Moved (state w.old) (state w.new) (T.wide * length values.now) }
    ensures fit { (i : ℕ) → slice_index (map T.value values.now) i < 2 ^ T.wide }
{
    for value in values {
        w.put_known(value.number(), T::width());
    }
}

// Puts a machine record's card, field by field.
fn put_card(w: &mut BitWriter, machine: &Record)
    requires { Ready (state w.old) (8 * size (view (contents machine.now))) }
    ensures same { lent w.new ≡ lent w.old }
    ensures after { state w.new ≡ run (state w.old) (card_bits (view (contents machine.now))) }
    ensures moved { Moved (state w.old) (state w.new) (8 * size (view (contents machine.now))) }
    ensures proper { Proper (view (contents machine.now)) }
{
    let words = machine.words();
    let keys = machine.keys.as_slice();
    let tray = machine.tray.as_slice();
    w.put_known(1, EDITION);
    w.put_known(machine.flags(), FLAGS);
    w.put_known(keys.len() as u32, COUNT);
    w.put_known(tray.len() as u32, COUNT);
    put_fields(w, &words);
    put_fields(w, keys);
    put_fields(w, tray);
    w.put_known(0, PADDING);
}

// Writes a machine record's card to the front of a buffer and answers how many bytes it has. A
// buffer that is too short is refused and stays as it is.
pub fn write_card(machine: &Record, out: &mut [u8]) -> Result<usize, WriterRefusal>
    ensures answer { result ≡ write_answer (view (contents machine.now)) out.old }
    ensures after { out.new ≡ after_write (view (contents machine.now)) out.old }
    ensures proper { OnOk result (Proper (view (contents machine.now))) }
{
    if out.len() < 100 + machine.keys.len() + machine.tray.len() {
        return Err(WriterRefusal::NoPlace);
    }
    let mut w = BitWriter::new(out);
    put_card(&mut w, machine);
    w.finish()
}

// Reads the machine record that bytes are the card of, or refuses with the first bit of the field
// at which they are none.
pub fn read_card(bytes: &[u8]) -> Result<Record, CardRefusal>
    ensures { mapped (λ m. view (contents m)) result ≡ the_card bytes.now }
{
    read_edition(bytes)?;
    let flags = read_field(bytes, FLAGS_AT, FLAGS)?;
    let keyed = read_count(bytes, KEY_COUNT_AT)?;
    let trayed = read_count(bytes, TRAY_COUNT_AT)?;
    let mut words = [0; WORDS];
    read_fields(bytes, WORDS_AT, &mut words)?;
    let keys = read_queue(bytes, KEYS_AT, keyed)?;
    let tray = read_queue(bytes, KEYS_AT + 8 * keyed, trayed)?;
    read_end(bytes, KEYS_AT + 8 * keyed + 8 * trayed)?;
    Ok(Record::new(&words, flags, keys, tray))
}

// Writes a machine record's card and reads it back. It answers how many bytes the card has, and
// the record that was read, which is the same; or it refuses a buffer that is too short.
pub fn write_checked(machine: &Record, out: &mut [u8]) -> Result<(usize, Record), WriterRefusal>
    ensures answer { result ≡ checked_answer machine.now out.old }
    ensures after { out.new ≡ after_write (view (contents machine.now)) out.old }
{
    let n = write_card(machine, out)?;
    match read_card(&out[0..n]) {
        Ok(back) => Ok((n, back)),
        Err(_) => unreachable(),
    }
}

// Reads a card and writes it again: the same bytes, unless they are no card or the buffer is too
// short. Then the buffer stays as it is.
pub fn copy_card(bytes: &[u8], out: &mut [u8]) -> Result<usize, CopyRefusal>
    ensures answer { result ≡ copy_answer (the_card bytes.now) bytes.now out.old }
    ensures after { out.new ≡ after_copy (the_card bytes.now) bytes.now out.old }
{
    let machine = read_card(bytes)?;
    Ok(write_card(&machine, out)?)
}

// The law that a card that is written reads back as what was written: see `ReadsBack`.
pub fn reads_back()
    ensures { ReadsBack }
{}

// The law that bytes that read as a card are that card, so that no two cards mean one record: see
// `WritesBack`.
pub fn writes_back()
    ensures { WritesBack }
{}

#[cfg(test)]
mod tests {
    use super::*;
    use std::test::Fail;

    // What reading refuses, as its number and bit; zeros where it refuses nothing, since tests keep
    // their values.
    fn refusal(bytes: &[u8]) -> (u8, usize) {
        match read_card(bytes) {
            Ok(_) => (0, 0),
            Err(refusal) => (u8::from(refusal.fault), refusal.bit),
        }
    }

    #[test]
    fn fresh_card(rt: HostRuntime) -> Result<(), Fail> {
        let mut out = [255; LONGEST];
        let n = write_card(&Record::fresh(), &mut out)?;
        assert!(rt; n == 100);
        assert!(rt; out[0] == 0x16 && out[1] == 0x20 && out[2] == 0);
        assert_eq!(rt; out[100], 255);
        Ok(())
    }

    #[test]
    fn refused_cards(rt: HostRuntime) {
        let mut card = [0; 101];
        assert_eq!(rt; refusal(&card[0..0]), (14, 0));
        assert_eq!(rt; refusal(&card), (15, 0));
        card[0] = 0x16;
        card[1] = 0x30;
        card[2] = 0x40;
        assert_eq!(rt; refusal(&card), (16, 11));
        card[1] = 0x20;
        card[2] = 0;
        assert_eq!(rt; refusal(&card[0..50]), (14, 377));
        assert_eq!(rt; refusal(&card), (18, 800));
        card[99] = 1;
        assert_eq!(rt; refusal(&card), (17, 793));
        card[99] = 0x80;
        assert_eq!(rt; refusal(&card[0..100]), (0, 0));
    }
}
