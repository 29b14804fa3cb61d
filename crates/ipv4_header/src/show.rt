//! A header as a table: each field's name, what it holds as people write it, and its bits.

ghost use Rattle.std.specs.Prelude.{◌+◌, ◌*◌, ◌≤◌, length};

use crate::header::{DONT_FRAGMENT, Header, MAX_LEN, MORE_FRAGMENTS, RESERVED, VERSION};
use bit_slice::{BitSlice, Bits, Msb0};
use std::alloc::AllocGlobal;
use std::net::Ipv4Addr;
use std::{fmt, io};

// What a field holds.
#[derive(Clone, Copy)]
enum Value {
    Number(u16),
    Words(usize),
    Length { total: u16, header: usize },
    Flags(u8),
    Units(u16),
    Protocol(u8),
    Checksum { found: u16, wanted: u16 },
    Address(Ipv4Addr),
}

impl fmt::Display for Value {
    fn fmt<W: fmt::Write>(&self, f: &mut fmt::Formatter<W>) -> fmt::Result {
        match *self {
            Value::Number(number) => write!(f, "{number}"),
            Value::Words(words) => write!(f, "{words} words"),
            Value::Length { total, header } => {
                write!(
                    f,
                    "{total} bytes, {} of data",
                    usize::from(total).saturating_sub(header)
                )
            }
            Value::Flags(flags) => write_flags(flags, f),
            Value::Units(units) => write!(f, "{units} (byte {})", u32::from(units) * 8),
            Value::Protocol(protocol) => match protocol_name(protocol) {
                Some(name) => write!(f, "{protocol} ({name})"),
                None => write!(f, "{protocol}"),
            },
            Value::Checksum { found, wanted } if found == wanted => write!(f, "{found:04x}, right"),
            Value::Checksum { found, wanted } => write!(
                f,
                "{found:04x}, wrong: {wanted:04x} is right"
            ),
            Value::Address(address) => write!(f, "{address}"),
        }
    }
}

// Writes the names of the flags that are set, from the first bit on.
fn write_flags<W: fmt::Write>(flags: u8, f: &mut fmt::Formatter<W>) -> fmt::Result {
    let mut before = "";
    for (flag, name) in [
        (RESERVED, "reserved"),
        (DONT_FRAGMENT, "DF"),
        (MORE_FRAGMENTS, "MF"),
    ] {
        if flags & flag != 0 {
            write!(f, "{before}{name}")?;
            before = ", ";
        }
    }
    f.write_str(if before.is_empty() { "none" } else { "" })
}

// The name of a protocol, of the few that are met most.
fn protocol_name(protocol: u8) -> Option<&'static str> {
    match protocol {
        1 => Some("ICMP"),
        2 => Some("IGMP"),
        6 => Some("TCP"),
        17 => Some("UDP"),
        _ => None,
    }
}

// Some bits, each as a digit, a space where a byte ends.
#[derive(Clone, Copy)]
struct Digits<'a> {
    bytes: &'a [u8],
    at: usize,
    width: usize,

    ghost low: { at ≤ 480 },
    ghost short: { width ≤ 32 },
    ghost inside: { at + width ≤ length bytes.now * 8 },
}

impl fmt::Display for Digits<'_> {
    fn fmt<W: fmt::Write>(&self, f: &mut fmt::Formatter<W>) -> fmt::Result {
        let bits = BitSlice::<u8, Msb0>::from_place(self.bytes, self.at, self.width);
        for i in 0..bits.len() {
            if i > 0 && (self.at + i) % 8 == 0 {
                f.write_str(" ")?;
            }
            f.write_str(if bits.bit(i) { "1" } else { "0" })?;
        }
        Ok(())
    }
}

// A field: its name, where its bits begin and how many they are, and what it holds.
#[derive(Clone, Copy)]
struct Row {
    name: &'static str,
    at: usize,
    width: usize,
    value: Value,

    ghost short: { width ≤ 32 },
    ghost inside: { at + width ≤ 160 },
}

impl Row {
    fn new(name: &'static str, at: usize, width: usize, value: Value) -> Row
        requires short { width ≤ 32 }
        requires inside { at + width ≤ 160 }
    {
        Row {
            name,
            at,
            width,
            value,
        }
    }
}

// The fields in their order.
fn rows(header: &Header<'_>) -> [Row; 12] {
    let small = |number: u8| Value::Number(u16::from(number));
    let total = Value::Length {
        total: header.total_length,
        header: header.len(),
    };
    let checksum = Value::Checksum {
        found: header.checksum,
        wanted: header.wanted_checksum(),
    };
    [
        Row::new("version", 0, 4, small(VERSION)),
        Row::new("header length", 4, 4, Value::Words(header.len() / 4)),
        Row::new("type of service", 8, 8, small(header.type_of_service)),
        Row::new("total length", 16, 16, total),
        Row::new(
            "identification",
            32,
            16,
            Value::Number(header.identification),
        ),
        Row::new("flags", 48, 3, Value::Flags(header.flags)),
        Row::new(
            "fragment offset",
            51,
            13,
            Value::Units(header.fragment_offset),
        ),
        Row::new("time to live", 64, 8, small(header.time_to_live)),
        Row::new("protocol", 72, 8, Value::Protocol(header.protocol)),
        Row::new("header checksum", 80, 16, checksum),
        Row::new("source", 96, 32, Value::Address(header.source)),
        Row::new("destination", 128, 32, Value::Address(header.destination)),
    ]
}

/// Prints the header that some bytes begin with field by field, or why there is none.
pub fn print_header<R: Print + AllocGlobal>(rt: &R, bytes: &[u8]) -> io::Result<()> {
    match Header::read(bytes) {
        Ok(header) => {
            print_fields(rt, &header, bytes)?;
            print_options(rt, &header, bytes)?;
            print_mended(rt, &header)
        }
        Err(error) => println!(rt; "  refused: {error}"),
    }
}

// Prints the fields of a header.
fn print_fields<R: Print + AllocGlobal>(rt: &R, header: &Header<'_>, bytes: &[u8]) -> io::Result<()>
    requires { 20 ≤ length bytes.now }
{
    for row in &rows(header)[..] {
        print_row(rt, *row, bytes)?;
    }
    Ok(())
}

// Prints one of them.
fn print_row<R: Print + AllocGlobal>(rt: &R, row: Row, bytes: &[u8]) -> io::Result<()>
    requires { 20 ≤ length bytes.now }
{
    let text = format!(in rt.alloc(); "{}", row.value)?;
    let digits = Digits {
        bytes,
        at: row.at,
        width: row.width,
    };
    println!(rt; "  {:<16} {text:<30} {digits}", row.name)
}

// Prints its options word by word.
fn print_options<R: Print + AllocGlobal>(
    rt: &R,
    header: &Header<'_>,
    bytes: &[u8],
) -> io::Result<()>
    requires { 20 + length header.now.options.now ≤ length bytes.now }
{
    for i in 0..header.options.len() / 4 {
        let text = hex::encode(rt.alloc(), &header.options[4 * i..4 * i + 4])?;
        let digits = Digits {
            bytes,
            at: 160 + 32 * i,
            width: 32,
        };
        println!(rt; "  {:<16} {text:<30} {digits}", "options")?;
    }
    Ok(())
}

// Prints the bytes of a header with the right checksum, where it has a wrong one.
fn print_mended<R: Print + AllocGlobal>(rt: &R, header: &Header<'_>) -> io::Result<()> {
    if header.has_right_checksum() {
        return Ok(());
    }
    let mut bytes = [0u8; MAX_LEN];
    header.with_right_checksum().write(&mut bytes);
    let text = hex::encode(rt.alloc(), &bytes[..header.len()])?;
    println!(rt; "  {:<16} {text}", "mended")
}
