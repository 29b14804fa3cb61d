//! The words of a line.
ghost use Rattle.std.specs.Prelude.{◌≡◌};
ghost use Rattle.std.specs.Iterator.{YieldsFirstRef, item_count};
ghost use Rattle.bit_table_layout.specs.LineWords.{is_separator, words};

/// Whether a byte separates words: a space, a tab or a carriage return.
pub fn is_separator(byte: u8) -> bool
    ensures { result ≡ is_separator byte }
{
    byte == b' ' || byte == b'\t' || byte == b'\r'
}

/// The words of a line that are left: its longest runs of bytes other than separators, from the front.
#[derive(Clone, Copy)]
pub struct Words<'a> {
    rest: &'a [u8],
}

impl<'a> Words<'a> {
    ghost use Rattle.bit_table_layout.specs.LineWordsLeft.{words_left};

    /// All the words of a line.
    pub fn new(line: &'a [u8]) -> Words<'a>
        ensures { words_left result ≡ words line.now }
    {
        Words { rest: line }
    }
}

impl<'a> Iterator for Words<'a> {
    type Item = &'a [u8];

    ghost use Rattle.std.specs.Iterator.{YieldsFirstRef, item_count};
    ghost use Rattle.bit_table_layout.specs.LineWordsLeft.{words_left};

    ghost next_gives = { YieldsFirstRef words_left };

    ghost remaining = { item_count words_left };

    fn next(&mut self) -> Option<&'a [u8]> {
        let Some(start) = self.rest.iter().position(|byte| !is_separator(*byte)) else {
            self.rest = &[];
            return None;
        };
        let from = &self.rest[start..];
        let end = from
            .iter()
            .position(|byte| is_separator(*byte))
            .unwrap_or(from.len());
        self.rest = &from[end..];
        Some(&from[..end])
    }
}
