//! Letters.
ghost use Rattle.std.specs.Prelude.{◌≡◌, ◌<◌};
ghost use Rattle.bit_table_layout.specs.Letters.{letter_of};

use std::marker::Model;

/// A letter `a` to `z`. A contract sees it as its place in the alphabet: 0 is `a`, 25 is `z`.
#[derive(Clone, Copy, Debug, PartialEq, Eq)]
pub struct Letter {
    index: u8,
}

impl Model for Letter {
    ghost use Rattle.std.specs.Prelude.{ℕ, ◌<◌};

    ghost Value = { ℕ };

    ghost view = { λ letter. letter.index };

    ghost invariant = { λ letter. letter.index < 26 };

    ghost inverse = { λ n. record { index = n } };
}

impl Letter {
    /// The letter that a byte `a` to `z` is; none for every other byte.
    pub fn new(byte: u8) -> Option<Letter>
        ensures { result ≡ letter_of byte }
    {
        match byte {
            b'a'..=b'z' => Some(Letter { index: byte - b'a' }),
            _ => None,
        }
    }

    /// Its place in the alphabet, from 0 for `a` to 25 for `z`.
    pub fn index(self) -> usize
        ensures index { result ≡ self }
        ensures below { result < 26 }
    {
        self.index as usize
    }
}
