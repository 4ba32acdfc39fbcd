ghost use Rattle.record.specs.Pdbr.{pdbr_word};
ghost use Rattle.std.specs.Prelude.{◌≡◌};

// The page directory base register. Its word goes in by `new` and comes out by `word`: a `From` each
// way would say no more, and would hide where a word becomes a register. So would a `Model`, by which
// clauses would take it for a number.
#[derive(Clone, Copy, Debug, PartialEq, Eq, Default)]
pub struct Pdbr {
    base: u32,
}

impl Pdbr {
    // The register that holds this word.
    pub fn new(word: u32) -> Pdbr
        ensures { pdbr_word result ≡ word }
    {
        Pdbr { base: word }
    }

    // The word that it holds.
    pub fn word(self) -> u32
        ensures { result ≡ pdbr_word self }
    {
        self.base
    }
}
