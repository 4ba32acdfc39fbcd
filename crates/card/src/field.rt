ghost use Rattle.std.specs.Prelude.{◌≡◌, ℕ, ◌^◌, ◌<◌, ◌≤◌};

// A width of at most 32 bits.
#[derive(Clone, Copy, Debug, PartialEq, Eq)]
pub struct Width {
    pub bits: u32,
    ghost few: { bits ≤ 32 },
}

// The width of the edition.
pub(crate) const EDITION: Width = Width { bits: 4 };

// The width of the flags.
pub(crate) const FLAGS: Width = Width { bits: 7 };

// The width of a count of keys or tray characters.
pub(crate) const COUNT: Width = Width { bits: 7 };

// The width of the zeros at the end.
pub(crate) const PADDING: Width = Width { bits: 7 };

// What a card has rows of: numbers that each take a field of one width. Words and characters have an
// impl each, of one shape, since the width is the type's own; and methods of its own, since from a
// clause nobody learns which number `Into` or `TryFrom` gives. That a number fits its width is said
// of each call that gives or takes one: a type for a number with its width would be built at each
// only to be taken apart.
pub trait Field: Copy {
    // The number that a value is.
    ghost value: { Self → ℕ };
    // How many bits it takes.
    ghost wide: { ℕ };

    // The width of its field.
    fn width() -> Width
        ensures { result.bits ≡ wide };

    // The number that it is.
    fn number(self) -> u32
        ensures value { result ≡ value self }
        ensures fits { result < 2 ^ wide };

    // The value that a number is.
    fn of_number(number: u32) -> Self
        requires { number < 2 ^ wide }
        ensures { value result ≡ number };
}

// Characters.
impl Field for u8 {
    ghost value = { λ x. x };

    ghost wide = { 8 };

    fn width() -> Width {
        Width { bits: 8 }
    }

    fn number(self) -> u32 {
        u32::from(self)
    }

    fn of_number(number: u32) -> u8 {
        number as u8
    }
}

// Words.
impl Field for u32 {
    ghost value = { λ x. x };

    ghost wide = { 32 };

    fn width() -> Width {
        Width { bits: 32 }
    }

    fn number(self) -> u32 {
        self
    }

    fn of_number(number: u32) -> u32 {
        number
    }
}
