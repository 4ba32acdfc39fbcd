ghost use Rattle.std.specs.Prelude.{◌≡◌, ℕ, ◌+◌, ◌*◌, ◌^◌, ◌<◌, ◌≤◌, length, take, drop, slice_index};
ghost use Rattle.std.proofs.Math.Seq.{paste};

// A lent row of words, read and written by the block. That it stays the row that was lent (`lent`) is
// said by each call that has it, here and in the makes: it compares two moments, so that it is a fact
// of no value, and no ghost field can have it.
#[derive(Drop)]
pub(crate) struct Store<'a> {
    pub(crate) words: &'a mut [u32],
    ghost fit: { (k : ℕ) → slice_index words.now k < 2 ^ 32 },
}

impl<'a> Store<'a> {
    // The words that are lent.
    pub(crate) fn new(words: &'a mut [u32]) -> Store<'a>
        ensures same { result.words.now ≡ words.old }
        ensures lent { result.words.ghost_name ≡ words.entry.ghost_name }
    {
        Store { words }
    }

    // Reads the block at place i.
    pub(crate) fn get(&self, i: usize, out: &mut [u32; 128])
        requires { 128 * i + 128 ≤ length self.now.words.now }
        ensures { out.new ≡ take 128 (drop (128 * i) self.now.words.now) }
    {
        out.copy_from_slice(&self.words[128 * i..128 * i + 128]);
    }

    // Writes the block at place i.
    pub(crate) fn put(&mut self, i: usize, from: &[u32; 128])
        requires { 128 * i + 128 ≤ length self.old.words.now }
        ensures lent { self.new.words.ghost_name ≡ self.old.words.ghost_name }
        ensures len { length self.new.words.now ≡ length self.old.words.now }
        ensures after { self.new.words.now ≡ paste self.old.words.now (128 * i) from.now 128 }
    {
        self.words[128 * i..128 * i + 128].copy_from_slice(from);
    }
}
