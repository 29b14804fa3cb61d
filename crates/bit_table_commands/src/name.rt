//! The names of commands.
ghost use Rattle.std.specs.Prelude.{◌≡◌};
ghost use Rattle.bit_table_commands.specs.Commands.{name_text, name_of};

// The name of a command: the first word of its line.
#[derive(Clone, Copy)]
pub(crate) enum Name {
    Insert,
    Delete,
    Set,
    Get,
    Copy,
    Swap,
    Rotate,
    Dup,
    Image,
    Load,
    Keep,
    Back,
    Mark,
    And,
    Or,
    Xor,
    Not,
    Count,
    List,
    Drop,
}

// All names.
const NAMES: [Name; 20] = [
    Name::Insert,
    Name::Delete,
    Name::Set,
    Name::Get,
    Name::Copy,
    Name::Swap,
    Name::Rotate,
    Name::Dup,
    Name::Image,
    Name::Load,
    Name::Keep,
    Name::Back,
    Name::Mark,
    Name::And,
    Name::Or,
    Name::Xor,
    Name::Not,
    Name::Count,
    Name::List,
    Name::Drop,
];

impl Name {
    // The name as a line has it.
    fn text(self) -> &'static str
        ensures { result.now ≡ name_text self }
    {
        match self {
            Name::Insert => "insert",
            Name::Delete => "delete",
            Name::Set => "set",
            Name::Get => "get",
            Name::Copy => "copy",
            Name::Swap => "swap",
            Name::Rotate => "rotate",
            Name::Dup => "dup",
            Name::Image => "image",
            Name::Load => "load",
            Name::Keep => "keep",
            Name::Back => "back",
            Name::Mark => "mark",
            Name::And => "and",
            Name::Or => "or",
            Name::Xor => "xor",
            Name::Not => "not",
            Name::Count => "count",
            Name::List => "list",
            Name::Drop => "drop",
        }
    }

    // The name that a word is, if it is one.
    pub(crate) fn of(word: &[u8]) -> Option<Name>
        ensures { result ≡ name_of word.now }
    {
        NAMES
            .iter()
            .copied()
            .find(|name| name.text().as_bytes() == word)
    }
}
