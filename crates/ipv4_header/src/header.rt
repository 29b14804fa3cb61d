//! The header of an IPv4 packet (RFC 791, section 3.1).

ghost use Rattle.std.specs.Prelude.{◌≡◌, ◌+◌, ◌%◌, ◌^◌, ◌<◌, ◌≤◌, IfOk, IfErr, length, take, drop};
ghost use Rattle.bit_slice.specs.Memory.{memory};
ghost use Rattle.std.specs.Net.Addr.{ipv4_bits};
ghost use Rattle.bit_slice.specs.Network.{network};
ghost use Rattle.ipv4_header.specs.Fields.{AreBytes};

use crate::field::{load, store};
use std::net::Ipv4Addr;
use thiserror::Error;

/// The version that a header names.
pub const VERSION: u8 = 4;

/// How many bytes a header without options has.
pub const MIN_LEN: usize = 20;

/// How many bytes a header has at most: a header length of 15 words.
pub const MAX_LEN: usize = 60;

/// The first of the three flags: no sender sets it.
pub const RESERVED: u8 = 0b100;

/// The flag DF: the packet is not to be cut into fragments.
pub const DONT_FRAGMENT: u8 = 0b010;

/// The flag MF: fragments come behind this one.
pub const MORE_FRAGMENTS: u8 = 0b001;

/// The fields of a header. The version is 4, and the header length follows from the options.
#[derive(Clone, Copy)]
pub struct Header<'a> {
    pub type_of_service: u8,
    /// Of the header and the data, in bytes.
    pub total_length: u16,
    pub identification: u16,
    /// Three bits: `RESERVED`, `DONT_FRAGMENT` and `MORE_FRAGMENTS`.
    pub flags: u8,
    /// Where the data begin in those of the whole packet, in units of eight bytes. 13 bits.
    pub fragment_offset: u16,
    /// How many hops are left.
    pub time_to_live: u8,
    pub protocol: u8,
    pub checksum: u16,
    pub source: Ipv4Addr,
    pub destination: Ipv4Addr,
    /// The bytes of the options, padded to words of four bytes: at most 40.
    pub options: &'a [u8],

    ghost three_bits: { flags < 2 ^ 3 },
    ghost thirteen_bits: { fragment_offset < 2 ^ 13 },
    ghost whole_words: { length options.now % 4 ≡ 0 },
    ghost few_options: { length options.now ≤ 40 },
    ghost holds_header: { 20 + length options.now ≤ total_length },

    // What the types of the others say.
    ghost eight_bits: { (type_of_service < 2 ^ 8) × (time_to_live < 2 ^ 8) × (protocol < 2 ^ 8) },
    ghost sixteen_bits: { (total_length < 2 ^ 16) × (identification < 2 ^ 16) × (checksum < 2 ^ 16) },
    ghost thirty_two_bits: { (ipv4_bits source < 2 ^ 32) × (ipv4_bits destination < 2 ^ 32) },
    ghost bytes: { AreBytes options.now },
}

/// Why bytes begin with no header: the first of these that holds.
#[derive(Clone, Copy, PartialEq, Eq, Debug, Error)]
pub enum HeaderError {
    /// So many bytes are fewer than `MIN_LEN`.
    #[error("{0} bytes are fewer than the 20 of the shortest header")]
    TooFewBytes(usize),
    /// The version is not 4.
    #[error("version {0} is not 4")]
    NotVersion4(u8),
    /// The header length, in words of four bytes, is below 5.
    #[error("a header length of {0} words is below 5")]
    HeaderTooShort(u8),
    /// The header length, in words of four bytes, goes beyond so many bytes.
    #[error("a header length of {words} words goes beyond the {bytes} bytes")]
    HeaderCutOff { words: u8, bytes: usize },
    /// The total length, in bytes, does not cover a header of so many words.
    #[error("a total length of {total} bytes does not cover a header of {words} words")]
    TotalTooSmall { total: u16, words: u8 },
}

impl<'a> Header<'a> {
    ghost use Rattle.ipv4_header.specs.Header.{fields_of, header_len, BeginsWith, IsFault};
    ghost use Rattle.ipv4_header.specs.Fields.{fields_bits};

    /// The header that some bytes begin with.
    ///
    /// Whether the data are there too is for the caller, who has `total_length`: a packet that was caught on its way is
    /// often cut off behind its header.
    pub fn read(bytes: &'a [u8]) -> Result<Header<'a>, HeaderError>
        ensures ok { IfOk result (BeginsWith bytes.now) }
        ensures err { IfErr result (λ error. IsFault bytes.now error) }
    {
        if bytes.len() < MIN_LEN {
            return Err(HeaderError::TooFewBytes(bytes.len()));
        }
        let version: u8 = load(bytes, 0, 4);
        if version != VERSION {
            return Err(HeaderError::NotVersion4(version));
        }
        let words: u8 = load(bytes, 4, 4);
        if words < 5 {
            return Err(HeaderError::HeaderTooShort(words));
        }
        let len = 4 * usize::from(words);
        if bytes.len() < len {
            return Err(HeaderError::HeaderCutOff {
                words,
                bytes: bytes.len(),
            });
        }
        let total_length: u16 = load(bytes, 16, 16);
        if usize::from(total_length) < len {
            return Err(HeaderError::TotalTooSmall {
                total: total_length,
                words,
            });
        }
        Ok(Header {
            type_of_service: load(bytes, 8, 8),
            total_length,
            identification: load(bytes, 32, 16),
            flags: load(bytes, 48, 3),
            fragment_offset: load(bytes, 51, 13),
            time_to_live: load(bytes, 64, 8),
            protocol: load(bytes, 72, 8),
            checksum: load(bytes, 80, 16),
            source: Ipv4Addr::from_bits(load(bytes, 96, 32)),
            destination: Ipv4Addr::from_bits(load(bytes, 128, 32)),
            options: &bytes[MIN_LEN..len],
        })
    }

    /// How many bytes the header has: 20 and those of the options.
    pub fn len(&self) -> usize
        ensures { result ≡ header_len self.now }
    {
        MIN_LEN + self.options.len()
    }

    /// Writes the header into the first `len()` bytes, and leaves those behind them.
    pub fn write(&self, bytes: &mut [u8])
        requires room { header_len self.now ≤ length bytes.old }
        ensures written { BeginsWith bytes.new self.now }
        ensures behind { drop (header_len self.now) bytes.new ≡ drop (header_len self.now) bytes.old }
        ensures len { length bytes.new ≡ length bytes.old }
    {
        let (front, rest) = bytes.split_at_mut(MIN_LEN);
        self.write_fields(front);
        rest[..self.options.len()].copy_from_slice(self.options);
    }

    // Writes the twelve fields before the options.
    fn write_fields(&self, bytes: &mut [u8])
        requires { length bytes.old ≡ 20 }
        ensures bits { memory network bytes.new ≡ fields_bits (fields_of self.now) }
        ensures len { length bytes.new ≡ length bytes.old }
    {
        let words = (self.len() / 4) as u8;
        store(bytes, 0, 4, VERSION);
        store(bytes, 4, 4, words);
        store(bytes, 8, 8, self.type_of_service);
        store(bytes, 16, 16, self.total_length);
        store(bytes, 32, 16, self.identification);
        store(bytes, 48, 3, self.flags);
        store(bytes, 51, 13, self.fragment_offset);
        store(bytes, 64, 8, self.time_to_live);
        store(bytes, 72, 8, self.protocol);
        store(bytes, 80, 16, self.checksum);
        store(bytes, 96, 32, self.source.to_bits());
        store(bytes, 128, 32, self.destination.to_bits());
    }
}
