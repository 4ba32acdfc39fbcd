ghost use Rattle.std.specs.Prelude.{◌≡◌, ◌+◌, ◌*◌, ◌^◌, ◌<◌, length};
ghost use Rattle.transfer.specs.Span.{gathered, place as the_place, reaches as the_reaches, Reaches, scattered};

use std::array;

// The words of a page.
const PAGE: usize = 2048;

// A span: where consecutive virtual words lie in memory. `first` is the place of the first word,
// and `second` the base of the page that holds those behind the first word's page; it does not
// count if there are none. Pages begin at multiples of 2,048, in memory as among virtual addresses,
// so the first word's place tells how many words are left in its page. Up to 2,048 words lie in at
// most two pages.
#[derive(Clone, Copy, Debug, PartialEq, Eq)]
pub struct Span {
    pub first: u32,
    pub second: u32,
}

impl Span {
    // Where word k lies.
    fn place(self, k: usize) -> usize
        requires { k < 2 ^ 40 }
        ensures { result ≡ the_place self k }
    {
        let at = self.first as usize % PAGE + k;
        if at < PAGE {
            self.first as usize + k
        } else {
            self.second as usize + (at - PAGE)
        }
    }

    // Whether the words of so many blocks lie in a memory of so many words.
    pub(crate) fn reaches(self, blocks: u32, len: usize) -> bool
        ensures { result ≡ the_reaches self len (128 * blocks) }
    {
        (0..128 * blocks as usize).all(|k| self.place(k) < len)
    }

    // The words of the span's block i, counted from 0.
    pub(crate) fn gather(self, memory: &[u32], i: u32) -> [u32; 128]
        requires { Reaches self (length memory.now) (128 * i + 128) }
        ensures { result ≡ gathered memory.now self (128 * i) 128 }
    {
        let k = 128 * i as usize;
        array::from_fn(|j| memory[self.place(k + j)])
    }

    // Puts a block's words to the places of the span's block i, counted from 0.
    pub(crate) fn scatter(self, memory: &mut [u32], i: u32, block: &[u32; 128])
        requires { Reaches self (length memory.old) (128 * i + 128) }
        ensures { memory.new ≡ scattered memory.old self (128 * i) block.now }
    {
        for (j, word) in block.iter().enumerate() {
            memory[self.place(128 * i as usize + j)] = *word;
        }
    }
}
