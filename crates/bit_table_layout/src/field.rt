//! A field of a layout.
ghost use Rattle.std.specs.Prelude.{◌≡◌, IfOk, IsTrue};
ghost use Rattle.bit_table_layout.specs.Fields.{is_field, takes};

use super::field_word::FieldWord;
use std::alloc::{AllocError, Global};
use std::marker::Model;

/// A field: whole numbers of 1 to 64 bits, with or without a sign.
#[derive(Debug, Drop)]
pub struct Field {
    name: String,
    width: u32,
    signed: bool,
}

impl Model for Field {
    ghost use Rattle.std.specs.Prelude.{IsTrue, string_bytes};
    ghost use Rattle.bit_table_layout.specs.Fields.{FieldShape, is_field};

    ghost Value = { FieldShape };

    ghost view = { λ f. record { name = string_bytes f.name; width = f.width; signed = f.signed } };

    ghost invariant = { λ f.
        IsTrue (is_field (record { name = string_bytes f.name; width = f.width; signed = f.signed })) };
}

impl Field {
    // The field that a word spelled.
    pub(crate) fn new(alloc: Global, word: FieldWord) -> Result<Field, AllocError>
        requires { IsTrue (is_field word) }
        ensures { IfOk result (λ field. field ≡ word.entry) }
    {
        let mut name = String::new(alloc);
        for byte in word.name() {
            name.push(char::from(*byte))?;
        }
        Ok(Field {
            name,
            width: word.width(),
            signed: word.signed(),
        })
    }

    /// The name: 1 to 16 bytes, a letter `a` to `z` followed by `a` to `z`, `0` to `9` or `_`.
    pub fn name(&self) -> &str
        ensures name { result.now ≡ self.now.name }
        ensures lawful { IsTrue (is_field self.now) }
    {
        self.name.as_str()
    }

    /// How many bits a number of this field has: 1 to 64.
    pub fn width(&self) -> u32
        ensures width { result ≡ self.now.width }
        ensures lawful { IsTrue (is_field self.now) }
    {
        self.width
    }

    /// Whether the numbers have a sign.
    pub fn signed(&self) -> bool
        ensures { result ≡ self.now.signed }
    {
        self.signed
    }

    /// Whether the field takes a number: 0 to `2^N - 1` without a sign, `-2^(N-1)` to `2^(N-1) - 1` with one.
    pub fn takes(&self, value: i128) -> bool
        ensures { result ≡ takes self.now value }
    {
        let (least, limit) = if self.signed {
            let half = 1i128 << (self.width - 1);
            (-half, half)
        } else {
            (0, 1i128 << self.width)
        };
        least <= value && value < limit
    }
}

/// The same field, with a name in memory of its own.
impl Clone for Field {
    ghost is_clone = { λ field other. other ≡ field };

    fn clone(&self) -> Result<Field, AllocError> {
        Ok(Field {
            name: self.name.clone()?,
            width: self.width,
            signed: self.signed,
        })
    }
}
