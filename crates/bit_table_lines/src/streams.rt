//! A reader and a writer that remember whether they failed.
ghost use Rattle.std.specs.Prelude.{◌≡◌, ◌<◌, true, false, OnOk, OnErr, IfErr};
ghost use Rattle.std.specs.Io.{ReadsAtMost};
ghost use Rattle.std.specs.Io.KnownBytes.{Appends, ReadConsumes};
ghost use Rattle.bit_table_lines.specs.Streams.{AppendsPart};

use super::run_error::RunError;
use std::io::{Read, Write};

/// The reader of a script. It remembers whether a read failed.
#[derive(Drop)]
pub struct Input<R> {
    reader: R,
    failed: bool,
}

impl<R> Input<R> {
    ghost use Rattle.bit_table_lines.specs.Ends.{input_reader, input_failed};

    /// An input over the reader, of which no read has failed.
    pub fn new(reader: R) -> Input<R>
        ensures reader { input_reader result ≡ reader }
        ensures failed { input_failed result ≡ false }
    {
        Input {
            reader,
            failed: false,
        }
    }

    /// Whether a read failed since the input was made.
    pub fn failed(&self) -> bool
        ensures { result ≡ input_failed self.now }
    {
        self.failed
    }

    /// The reader, as the reads have left it.
    pub fn into_inner(self) -> R
        ensures { result ≡ input_reader self }
    {
        self.reader
    }
}

impl<R: Read> Input<R> {
    ghost use Rattle.bit_table_lines.specs.Ends.{input_reader, input_failed};

    // Reads once into `piece`, and answers how many bytes came: none at the end.
    pub(crate) fn read(&mut self, piece: &mut [u8]) -> Result<usize, RunError>
        ensures bound { ReadsAtMost result piece.new }
        ensures bytes { ReadConsumes (R.remaining (input_reader self.old)) (R.remaining (input_reader self.new))
            result piece.new }
        ensures ok { OnOk result (input_failed self.new ≡ input_failed self.old) }
        ensures err { OnErr result (input_failed self.new ≡ true) }
        ensures fault { IfErr result (λ e. e ≡ RunError.Read) }
    {
        match self.reader.read(piece) {
            Ok(count) => Ok(count),
            Err(_) => {
                self.failed = true;
                Err(RunError::Read)
            }
        }
    }
}

/// The writer of a script's answers. It remembers whether a write failed or took no byte.
#[derive(Drop)]
pub struct Output<W> {
    writer: W,
    failed: bool,
}

impl<W> Output<W> {
    ghost use Rattle.bit_table_lines.specs.Ends.{output_writer, output_failed};

    /// An output over the writer, of which no write has failed.
    pub fn new(writer: W) -> Output<W>
        ensures writer { output_writer result ≡ writer }
        ensures failed { output_failed result ≡ false }
    {
        Output {
            writer,
            failed: false,
        }
    }

    /// Whether a write failed or took no byte since the output was made.
    pub fn failed(&self) -> bool
        ensures { result ≡ output_failed self.now }
    {
        self.failed
    }

    /// The writer, as the writes have left it.
    pub fn into_inner(self) -> W
        ensures { result ≡ output_writer self }
    {
        self.writer
    }
}

impl<W: Write> Output<W> {
    ghost use Rattle.bit_table_lines.specs.Ends.{output_writer, output_failed};

    // Writes all the bytes, in as many calls as the writer wants.
    pub(crate) fn put(&mut self, bytes: &[u8]) -> Result<(), RunError>
        ensures all { OnOk result (Appends (W.contents (output_writer self.old))
            (W.contents (output_writer self.new)) bytes.now) }
        ensures ok { OnOk result (output_failed self.new ≡ output_failed self.old) }
        ensures part { OnErr result (AppendsPart (W.contents (output_writer self.old))
            (W.contents (output_writer self.new)) bytes.now) }
        ensures err { OnErr result (output_failed self.new ≡ true) }
        ensures fault { IfErr result (λ e. e ≡ RunError.Write) }
    {
        let mut rest = bytes;
        while !rest.is_empty() {
            match self.writer.write(rest) {
                Ok(count) if count > 0 => rest = &rest[count..],
                _ => {
                    self.failed = true;
                    return Err(RunError::Write);
                }
            }
        }
        Ok(())
    }
}
