//! A reader and a writer that fail when they are told to.

ghost use Rattle.std.specs.Prelude.{◌<◌, Some};

use std::io::{self, Error, ErrorKind, Read, Write};

/// Gives its first `first` bytes in one piece, then pieces of at most `piece` bytes, and fails once `until_fault` more
/// bytes are given.
#[derive(Drop)]
pub struct Cut<'a> {
    /// What is still to be given.
    pub rest: &'a [u8],
    /// How many bytes the first piece has, or 0 where it is as the others.
    pub first: usize,
    /// The most bytes of a piece.
    pub piece: usize,
    /// How many bytes are given before the fault.
    pub until_fault: usize,
    ghost gives_some: { 0 < piece },
}

impl Read for Cut<'_> {
    ghost remaining = { λ s. Some s.rest.now };

    fn read(&mut self, buf: &mut [u8]) -> io::Result<usize> {
        if self.until_fault == 0 {
            return Err(Error::from(ErrorKind::BrokenPipe));
        }
        let piece = if self.first > 0 {
            self.first
        } else {
            self.piece
        };
        let most = piece
            .min(self.until_fault)
            .min(self.rest.len())
            .min(buf.len());
        buf[..most].copy_from_slice(&self.rest[..most]);
        self.rest = &self.rest[most..];
        self.first = 0;
        self.until_fault -= most;
        Ok(most)
    }
}

/// How a writer ends.
#[derive(Clone, Copy, PartialEq, Eq, Debug)]
pub enum Stop {
    /// It takes all.
    Never,
    /// It fails.
    Fails,
    /// It takes no byte.
    TakesNone,
}

/// Takes at most `most` bytes a call, and `room` in all, unless it never ends.
#[derive(Drop)]
pub struct Narrow {
    /// What was taken.
    pub taken: Vec<u8>,
    /// The most bytes of one call.
    pub most: usize,
    /// How many bytes are still taken before it ends.
    pub room: usize,
    /// How it ends.
    pub stop: Stop,
}

impl Write for Narrow {
    ghost contents = { λ s. Some s.taken.items };

    fn write(&mut self, buf: &[u8]) -> io::Result<usize> {
        let mut count = buf.len().min(self.most);
        if self.stop != Stop::Never {
            if self.room == 0 && self.stop == Stop::Fails {
                return Err(Error::from(ErrorKind::BrokenPipe));
            }
            count = count.min(self.room);
            self.room -= count;
        }
        self.taken.extend_from_slice(&buf[..count])?;
        Ok(count)
    }

    fn flush(&mut self) -> io::Result<()> {
        Ok(())
    }
}
