//! Commands of the layer, by words of a device, in one run; and the order of the devices' bits.

ghost use Rattle.std.specs.Prelude.{◌≡◌, ◌<◌};
ghost use Rattle.register_map.specs.Words.{upper_half_first};

use crate::map::RegisterMap;
use crate::order::UpperHalfFirst;
use crate::{COUNTER, PORT, TIMER, WORDS};
use bit_addressing::{BitEnd, BitIdx, OrderCandidate, SpanCommand, SpanReply, verify_for_type};
use std::io;

/// Runs seven commands over words of zeros, and prints what each answers and what the words are then.
pub fn print_commands(rt: &impl Print, map: &RegisterMap<3>) -> io::Result<()>
    requires { map.now.size ≡ 2 }
{
    let mut memory = [0u32; WORDS];
    let commands = [
        (TIMER, SpanCommand::Store(0, 0x1234_5678)),
        (PORT, SpanCommand::Set(0)),
        (PORT, SpanCommand::Replace(3, false)),
        (COUNTER, SpanCommand::Invert(1)),
        (COUNTER, SpanCommand::Read(12)),
        (TIMER, SpanCommand::Copy(0, 4, 8)),
        (TIMER, SpanCommand::Load(0)),
    ];
    let mut replies = [SpanReply::Done; 7];
    map.run(&mut memory, &commands, &mut replies);
    println!(rt; "Seven commands by words, from zeros")?;
    for (device, reply) in commands.iter().map(|command| command.0).zip(replies.iter()) {
        match *reply {
            SpanReply::Word(word) => println!(rt; "  device {device}: word {word:08x}")?,
            SpanReply::Bit(bit) => println!(rt; "  device {device}: bit {bit}")?,
            SpanReply::Done => println!(rt; "  device {device}: done")?,
            SpanReply::Refused => println!(rt; "  device {device}: refused")?,
        }
    }
    println!(rt; "  memory {:08x} {:08x}", memory[0], memory[1])?;
    println!(rt)
}

/// Prints whether the devices' order is lawful, its mask of the first half of a word, and where four indices lie.
pub fn print_order(rt: &impl Print) -> io::Result<()> {
    let lawful = verify_for_type::<u32, UpperHalfFirst>().is_ok();
    let half = UpperHalfFirst::mask(None, Some(BitEnd::new_unchecked(16))).into_inner();
    let (first, last) = (position_of(0), position_of(31));
    let (below, above) = (position_of(15), position_of(16));
    println!(rt;
        "Order: lawful {lawful}, first half {half:08x}, indices 0 15 16 31 at {first} {below} {above} {last}"
    )
}

/// The position of an index in a word, by the devices' order.
pub fn position_of(index: u8) -> u8
    requires { index < 32 }
    ensures { result ≡ upper_half_first index }
{
    BitIdx::<u32>::new_unchecked(index)
        .position::<UpperHalfFirst>()
        .into_inner()
}
