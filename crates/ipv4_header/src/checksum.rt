//! The checksum of the internet (RFC 1071), and that of a header.

ghost use Rattle.std.specs.Prelude.{◌≡◌, ℕ, ◌+◌, ◌↔◌, IsTrue};
ghost use Rattle.ipv4_header.specs.Checksum.{carried_around, checksum_of, ones_sum};
ghost use Rattle.ipv4_header.specs.Fields.{AreBytes};

use crate::header::{Header, MAX_LEN};

// The ones' complement sum of two words: what is carried out of the highest digit is added to the lowest.
fn add_carried_around(a: u16, b: u16) -> u16
    ensures { result ≡ carried_around (a + b) }
{
    let (sum, carry) = a.overflowing_add(b);
    if carry { sum + 1 } else { sum }
}

/// The ones' complement sum of the words of 16 bits that bytes make in network order, a last odd byte padded with zeros
/// behind it.
pub fn ones_complement_sum(bytes: &[u8]) -> u16
    ensures { result ≡ ones_sum bytes.now }
{
    let mut sum = 0u16;
    let mut rest = bytes;
    while let [high, low, others @ ..] = rest {
        sum = add_carried_around(sum, u16::from_be_bytes([*high, *low]));
        rest = others;
    }
    match rest {
        [last, ..] => add_carried_around(sum, u16::from_be_bytes([*last, 0])),
        [] => sum,
    }
}

// The complement of that sum. That these are bytes says their type.
fn checksum(bytes: &[u8]) -> u16
    ensures value { result ≡ checksum_of bytes.now }
    ensures bytes { AreBytes bytes.now }
{
    !ones_complement_sum(bytes)
}

impl<'a> Header<'a> {
    ghost use Rattle.ipv4_header.specs.Header.{fields_with, IsChecksumOf};

    /// The checksum that the other fields want: the complement of the ones' complement sum of the header's words, its
    /// checksum field taken as zero.
    pub fn wanted_checksum(&self) -> u16
        ensures { IsChecksumOf self.now result }
    {
        let mut bytes = [0u8; MAX_LEN];
        let blank = self.with_checksum(0);
        blank.write(&mut bytes);
        checksum(&bytes[..blank.len()])
    }

    /// Whether the checksum field has the checksum that the other fields want.
    ///
    /// A receiver who sums up all words takes `0xffff` for `0x0000` too, the other zero of ones' complement; here it is
    /// wrong, as no sender writes it.
    pub fn has_right_checksum(&self) -> bool
        ensures { IsTrue result ↔ IsChecksumOf self.now self.now.checksum }
    {
        self.checksum == self.wanted_checksum()
    }

    /// The same header with the checksum that its other fields want.
    pub fn with_right_checksum(&self) -> Header<'a>
        ensures right { IsChecksumOf result result.checksum }
        ensures fields { (n : ℕ) → fields_with n result ≡ fields_with n self.now }
        ensures options { result.options ≡ self.now.options }
    {
        self.with_checksum(self.wanted_checksum())
    }

    // The same header with this checksum.
    fn with_checksum(&self, checksum: u16) -> Header<'a>
        ensures checksum { result.checksum ≡ checksum }
        ensures fields { (n : ℕ) → fields_with n result ≡ fields_with n self.now }
        ensures options { result.options ≡ self.now.options }
    {
        let mut header = *self;
        header.checksum = checksum;
        header
    }
}
