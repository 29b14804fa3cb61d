//! Calls of images.

use crate::given::Given;
use crate::shown::{begin, decline, end, no_such_call, show_made, show_nothing, words_text};
use bit_addressing_sample_orders::texts::{number, read_words};
use bit_table::containers::{BitStore, WordPaths};
use bit_table::{Digits, Fault, Layout, image};
use std::io;
use std::str::SplitWhitespace;

/// `image::line`, of a row count and bytes.
pub fn image_line_case(rt: &HostRuntime, mut words: SplitWhitespace<'_>) -> io::Result<()> {
    let alloc = rt.alloc();
    let rows = number(words.next().unwrap_or(""));
    let bytes = read_words::<u8>(alloc, words.next().unwrap_or(""))?;
    begin(rt)?;
    let outcome = image::line(alloc, rows, bytes.as_slice());
    end(rt, outcome.is_ok())?;
    match outcome {
        Ok(line) => println!(rt; "made {line}"),
        Err(_) => show_nothing(rt),
    }
}

/// `image::write`, by the digit rule that the line names.
pub fn image_write_case<T: BitStore, O: WordPaths<T>>(
    rt: &HostRuntime,
    given: &Given<'_, T>,
) -> io::Result<()> {
    let alloc = rt.alloc();
    let line = if given.call == "low" {
        "low a:u1"
    } else {
        "high a:u1"
    };
    let Ok(layout) = Layout::parse(alloc, line.as_bytes()) else {
        return no_such_call(rt);
    };
    let window = given.window::<O>();
    begin(rt)?;
    let outcome = image::write(alloc, &layout, window);
    end(rt, outcome.is_ok())?;
    match outcome {
        Ok(bytes) => {
            let text = words_text(alloc, bytes.as_slice())?;
            println!(rt; "made {text}")
        }
        Err(_) => show_nothing(rt),
    }
}

/// `image::read`, of a row count and bytes, by a layout of seven bits.
pub fn image_read_case<T: BitStore, O: WordPaths<T> + Digits<T>>(
    rt: &HostRuntime,
    mut words: SplitWhitespace<'_>,
) -> io::Result<()> {
    let alloc = rt.alloc();
    let rows = number(words.next().unwrap_or("")) as u64;
    let bytes = read_words::<u8>(alloc, words.next().unwrap_or(""))?;
    let Ok(layout) = Layout::parse(alloc, b"high a:u3 b:i4") else {
        return no_such_call(rt);
    };
    begin(rt)?;
    let outcome = image::read::<T, O>(alloc, &layout, rows, bytes.as_slice());
    if let Err(Fault::Refused(cause)) = &outcome {
        return decline(rt, cause.word());
    }
    end(rt, outcome.is_ok())?;
    show_made(rt, outcome.ok())
}
