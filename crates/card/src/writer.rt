ghost use Rattle.std.specs.Prelude.{◌≡◌, ◌+◌, ◌/◌, ◌<◌, ◌≤◌, true, length, nat_le};
ghost use Rattle.card.specs.Bits.{bits};
ghost use Rattle.card.specs.Writer.{Moved, PutsPack, Ready, after_finish, after_put, finish_answer, lent, narrow, put_answer, room, run, start, state, step, within};

use crate::field::Width;
use crate::place::Place;
use crate::refusal::WriterRefusal;

// A buffer and a place in it go together as `BitWriter` below. What stores bits (`push`, `store`) is
// a function of the two and no method of it: we tried that, and in `finish`, which takes a writer by
// value, what the buffer holds at the end was not proved of a writer whose methods had lent it on.
//
// A value and its width are two parameters. As a struct they would be put together at each call only
// to be taken apart in it.
//
// That a writer has a place for the bits to come (`Ready`), keeps its buffer (`same`) and moves on by
// so many bits (`moved`) is said of each call. These are facts of a call and of no value, so no type
// can carry them. A `Model` in place of `state` would hide which buffer a writer has.

// One bit more: the eighth pending bit stores the byte.
fn push(out: &mut [u8], at: Place, bit: u8) -> Place
    requires bit { bit < 2 }
    requires place { 7 ≤ at.count → at.full < length out.old }
    ensures { within out.new result ≡ step (within out.old at) bit }
{
    let value = at.pending * 2 + bit;
    if at.count < 7 {
        return Place {
            full: at.full,
            pending: value,
            count: at.count + 1,
        };
    }
    out[at.full] = value;
    Place {
        full: at.full + 1,
        pending: 0,
        count: 0,
    }
}

// Whether there is a place for each byte that so many more bits fill.
fn fits(len: usize, at: Place, width: u32) -> bool
    ensures { result ≡ nat_le (at.full + (at.count + width) / 8) len }
{
    let bytes = (u64::from(at.count) + u64::from(width)) / 8;
    at.full <= len && bytes as usize <= len - at.full
}

// The low bits of a value, most significant first.
fn store(out: &mut [u8], from: Place, value: u32, width: Width) -> Place
    requires { room (within out.old from) width.bits ≡ true }
    ensures { within out.new result ≡ run (within out.old from) (bits width.bits value) }
{
    let mut at = from;
    for left in (0..width.bits).rev() {
        at = push(out, at, ((value >> left) % 2) as u8);
    }
    at
}

// Whether the width is 1 to 32 and the value fits in it.
fn is_narrow(value: u32, width: u32) -> bool
    ensures { result ≡ narrow value width }
{
    width > 0 && width <= 32 && (width == 32 || value >> width == 0)
}

// Writes bits into a buffer, most significant first. The buffer is lent, so that no writer takes
// memory. Full bytes are stored at once, and up to seven bits are pending. A writer is spent by
// `finish` or `strike`; it cannot be let go.
pub struct BitWriter<'a> {
    out: &'a mut [u8],
    place: Place,
}

impl<'a> BitWriter<'a> {
    // A writer at the front of the buffer.
    pub fn new(out: &'a mut [u8]) -> BitWriter<'a>
        ensures same { lent result ≡ out.entry.ghost_name }
        ensures after { state result ≡ start out.old }
    {
        BitWriter {
            out,
            place: Place {
                full: 0,
                pending: 0,
                count: 0,
            },
        }
    }

    // Puts a value of so many bits. It refuses a width that is not 1 to 32 or a value that does
    // not fit in it, then a byte that has no place, and changes nothing then.
    pub fn put(&mut self, value: u32, width: u32) -> Result<(), WriterRefusal>
        ensures same { lent self.new ≡ lent self.old }
        ensures answer { result ≡ put_answer (state self.old) value width }
        ensures after { state self.new ≡ after_put (state self.old) value width }
    {
        if !is_narrow(value, width) {
            return Err(WriterRefusal::BadField);
        }
        if !fits(self.out.len(), self.place, width) {
            return Err(WriterRefusal::NoPlace);
        }
        self.put_known(value, Width { bits: width });
        Ok(())
    }

    // The low bits of a value, where the caller knows that they have a place.
    pub(crate) fn put_known(&mut self, value: u32, width: Width)
        requires { Ready (state self.old) width.bits }
        ensures same { lent self.new ≡ lent self.old }
        ensures after { state self.new ≡ run (state self.old) (bits width.bits value) }
        ensures moved { Moved (state self.old) (state self.new) width.bits }
    {
        self.place = store(self.out, self.place, value, width);
    }

    // Pads with zeros to a full byte and answers how many bytes were written, or refuses where
    // that byte has no place. The full bytes stay either way.
    pub fn finish(self) -> Result<usize, WriterRefusal>
        ensures answer { result ≡ finish_answer (state self.entry) }
        ensures after { self.exit.0.now ≡ after_finish (state self.entry) }
    {
        let BitWriter { out, place } = self;
        let pad = (8 - u32::from(place.count)) % 8;
        if !fits(out.len(), place, pad) {
            return Err(WriterRefusal::NoPlace);
        }
        Ok(store(out, place, 0, Width { bits: pad }).full)
    }

    // Ends the writer and writes nothing more. The full bytes stay.
    pub fn strike(self)
        ensures { self.exit.0.now ≡ self.entry.out.now }
    {
        let BitWriter { out: _, place: _ } = self;
    }
}

// The law of what bits leave in a buffer: see `PutsPack`.
pub fn puts_pack()
    ensures { PutsPack }
{}
