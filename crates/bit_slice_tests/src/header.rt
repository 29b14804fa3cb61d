//! A header of eight bytes.

ghost use Rattle.std.specs.Prelude.{◌≡◌, ◌^◌, ◌<◌, length};
ghost use Rattle.bit_slice_tests.specs.Header.{header_bytes};

use crate::fields::{put, take};

/// A header of a protocol: 4, 12, 16 and 32 bits, one behind another.
#[derive(Clone, Copy)]
pub struct Header {
    /// Below 16.
    pub version: u8,
    /// Below 4096.
    pub length: u16,
    pub id: u16,
    pub sequence: u32,

    ghost four: { version < 2 ^ 4 },
    ghost twelve: { length < 2 ^ 12 },

    // What the types of the others say.
    ghost sixteen: { id < 2 ^ 16 },
    ghost thirty_two: { sequence < 2 ^ 32 },
}

/// Writes a header into eight bytes.
pub fn write(header: Header, bytes: &mut [u8])
    requires { length bytes.old ≡ 8 }
    ensures { bytes.new ≡ header_bytes header.version header.length header.id header.sequence }
{
    write_fields(
        bytes,
        header.version,
        header.length,
        header.id,
        header.sequence,
    );
}

// Writes the fields of a header.
fn write_fields(bytes: &mut [u8], version: u8, count: u16, id: u16, sequence: u32)
    requires size { length bytes.old ≡ 8 }
    requires four { version < 2 ^ 4 }
    requires twelve { count < 2 ^ 12 }
    ensures { bytes.new ≡ header_bytes version count id sequence }
{
    put(bytes, 0, 4, version);
    put(bytes, 4, 12, count);
    put(bytes, 16, 16, id);
    put(bytes, 32, 32, sequence);
}

/// The header that eight bytes hold.
pub fn read(bytes: &[u8]) -> Header
    requires { length bytes.now ≡ 8 }
    ensures { bytes.now ≡ header_bytes result.version result.length result.id result.sequence }
{
    let version = take(bytes, 0, 4);
    let length = take(bytes, 4, 12);
    let id = take(bytes, 16, 16);
    let sequence = take(bytes, 32, 32);
    Header {
        version,
        length,
        id,
        sequence,
    }
}

/// A header written and read again.
pub fn passed(header: Header, bytes: &mut [u8]) -> Header
    requires { length bytes.old ≡ 8 }
    ensures version { result.version ≡ header.version }
    ensures length { result.length ≡ header.length }
    ensures id { result.id ≡ header.id }
    ensures sequence { result.sequence ≡ header.sequence }
{
    write(header, bytes);
    read(bytes)
}
