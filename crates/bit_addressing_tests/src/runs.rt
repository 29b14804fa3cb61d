//! Runs over spans: the rows, a device's registers, both orders of two spans' commands, and disjoint spans.

ghost use Rattle.std.specs.Prelude.{◌≡◌, IfOk};
ghost use Rattle.bit_addressing.specs.Span.{extent};

use crate::callers::set_and_read;
use bit_addressing::{
    BitIdx, BitOrder, BitRegister, BitSpan, Lsb0, Msb0, SpanCommand, SpanReply, all_fit, disjoint,
    order_of_spans_is_free, run,
};
use std::process::Abort;
use std::test::Fail;

// The span of these numbers.
fn span<R: BitRegister, O: BitOrder<R>>(
    word: usize,
    head: u8,
    len: usize,
) -> Result<BitSpan<R, O>, Fail>
    ensures { IfOk result (λ span. span ≡ extent word head len) }
{
    Ok(BitSpan::new(word, BitIdx::new(head)?, len)?)
}

// Runs the commands, once all that is asked is tested.
fn run_tested<R: BitRegister, O: BitOrder<R>, A: Abort>(
    rt: &A,
    memory: &mut [R],
    spans: &[BitSpan<R, O>],
    commands: &[(usize, SpanCommand<R>)],
    replies: &mut [SpanReply<R>],
) {
    assert!(rt; disjoint(spans));
    assert!(rt; all_fit(spans, memory.len()));
    assert!(rt; replies.len() == commands.len());
    run(memory, spans, commands, replies);
}

// Runs commands one by one and all at once, over bits 0 to before 3 and 3 to before 8 of a byte, and compares.
fn byte_rows<O: BitOrder<u8>, A: Abort>(
    rt: &A,
    before: u8,
    rows: [(usize, SpanCommand<u8>, SpanReply<u8>, u8); 7],
) -> Result<(), Fail> {
    let spans = [span::<u8, O>(0, 0, 3)?, span::<u8, O>(0, 3, 5)?];
    let mut commands = [(0, SpanCommand::Load(0)); 7];
    let mut wanted = [SpanReply::Refused; 7];
    let mut memory = [before];
    for (k, (number, command, reply, after)) in rows.iter().copied().enumerate() {
        let mut replies = [SpanReply::Done];
        run_tested(rt, &mut memory, &spans, &[(number, command)], &mut replies);
        assert!(rt; replies == [reply], "row {k}");
        assert!(rt; memory == [after], "row {k}");
        if k < 7 {
            commands[k] = (number, command);
            wanted[k] = reply;
        }
    }
    let once = memory;
    memory = [before];
    let mut replies = [SpanReply::Done; 7];
    run_tested(rt, &mut memory, &spans, &commands, &mut replies);
    assert!(rt; replies == wanted);
    assert!(rt; memory == once);
    Ok(())
}

#[test]
fn two_spans_of_a_byte(rt: HostRuntime) -> Result<(), Fail> {
    // span, command, reply, memory after
    let rows = [
        (1, SpanCommand::Load(0), SpanReply::Word(0xf0), 0xf0),
        (0, SpanCommand::Store(0, 0xff), SpanReply::Word(0x00), 0xf7),
        (1, SpanCommand::Invert(0), SpanReply::Word(0xf0), 0x0f),
        (1, SpanCommand::Read(5), SpanReply::Refused, 0x0f),
        (
            0,
            SpanCommand::Replace(0, false),
            SpanReply::Bit(true),
            0x0e,
        ),
        (1, SpanCommand::Copy(0, 1, 2), SpanReply::Done, 0x1e),
        (2, SpanCommand::Set(0), SpanReply::Refused, 0x1e),
    ];
    byte_rows::<Lsb0, _>(&rt, 0xf0, rows)?;

    // The same lists of bits under the other order: each byte's digits reversed.
    let rows = [
        (1, SpanCommand::Load(0), SpanReply::Word(0x0f), 0x0f),
        (0, SpanCommand::Store(0, 0xff), SpanReply::Word(0x00), 0xef),
        (1, SpanCommand::Invert(0), SpanReply::Word(0x0f), 0xf0),
        (1, SpanCommand::Read(5), SpanReply::Refused, 0xf0),
        (
            0,
            SpanCommand::Replace(0, false),
            SpanReply::Bit(true),
            0x70,
        ),
        (1, SpanCommand::Copy(0, 1, 2), SpanReply::Done, 0x78),
        (2, SpanCommand::Set(0), SpanReply::Refused, 0x78),
    ];
    byte_rows::<Msb0, _>(&rt, 0x0f, rows)
}

// The registers of a device in two words: 12 bits of control, 8 bits that are nobody's, a counter of 24 bits
// that crosses the words' edge, and 20 bits of status.
const CONTROL: usize = 0;

const COUNTER: usize = 1;

const STATUS: usize = 2;

// The spans of the registers.
fn registers() -> Result<[BitSpan<u32, Lsb0>; 3], Fail> {
    Ok([span(0, 0, 12)?, span(0, 20, 24)?, span(1, 12, 20)?])
}

#[test]
fn three_registers_of_a_device(rt: HostRuntime) -> Result<(), Fail> {
    let mut memory = [0x1234_5678u32, 0x9abc_def0];
    let commands = [
        (CONTROL, SpanCommand::Replace(0, true)),
        (COUNTER, SpanCommand::Load(1)),
        (STATUS, SpanCommand::Invert(0)),
    ];
    let wanted = [
        SpanReply::Bit(false),
        SpanReply::Word(0x0ef0),
        SpanReply::Word(0x9abc_d000),
    ];
    let mut replies = [SpanReply::Done; 3];
    run_tested(&rt, &mut memory, &registers()?, &commands, &mut replies);
    assert!(rt; replies == wanted);
    assert!(rt; memory == [0x1234_5679, 0x6543_2ef0]);
    Ok(())
}

// Commands to the device and their replies. At first control is 0x678, nobody's bits are 0x45, the counter
// is 0xef0123 and status 0x9abcd.
const DIALOGUE: [(usize, SpanCommand<u32>, SpanReply<u32>); 14] = [
    (CONTROL, SpanCommand::Load(0), SpanReply::Word(0x0000_0678)),
    // control 0x679
    (
        CONTROL,
        SpanCommand::Replace(0, true),
        SpanReply::Bit(false),
    ),
    (COUNTER, SpanCommand::Load(0), SpanReply::Word(0x1230_0000)),
    (COUNTER, SpanCommand::Load(1), SpanReply::Word(0x0000_0ef0)),
    // counter 0xef0000
    (COUNTER, SpanCommand::Clear(0), SpanReply::Word(0x1230_0000)),
    // counter 0x345000: the value's digits past the counter's end are not written
    (
        COUNTER,
        SpanCommand::Store(1, 0x0001_2345),
        SpanReply::Word(0x0000_0ef0),
    ),
    (STATUS, SpanCommand::Read(3), SpanReply::Bit(true)),
    // status 0x9abce
    (STATUS, SpanCommand::Swap(0, 1), SpanReply::Done),
    // status 0x65431
    (STATUS, SpanCommand::Invert(0), SpanReply::Word(0x9abc_e000)),
    // counter 0x345045, from one word to the other
    (COUNTER, SpanCommand::Copy(12, 0, 8), SpanReply::Done),
    // control 0xfff
    (CONTROL, SpanCommand::Set(0), SpanReply::Word(0x0000_0679)),
    (CONTROL, SpanCommand::Load(1), SpanReply::Refused),
    (STATUS, SpanCommand::Copy(10, 0, 11), SpanReply::Refused),
    (3, SpanCommand::Set(0), SpanReply::Refused),
];

#[test]
fn registers_of_a_device(rt: HostRuntime) -> Result<(), Fail> {
    let mut memory = [0x1234_5678u32, 0x9abc_def0];
    let commands = DIALOGUE.map(|(register, command, _)| (register, command));
    let mut replies = [SpanReply::Done; 14];
    run_tested(&rt, &mut memory, &registers()?, &commands, &mut replies);
    for k in 0..14 {
        assert!(rt; replies[k] == DIALOGUE[k].2, "command {k}");
    }
    assert!(rt; memory == [0x0454_5fff, 0x6543_1345]);
    Ok(())
}

// The replies to four commands at bits 0 to before 3 and 3 to before 8 of a byte, and the byte afterwards.
fn four_replies(
    rt: &impl Abort,
    before: u8,
    commands: [(usize, SpanCommand<u8>); 4],
) -> Result<([SpanReply<u8>; 4], u8), Fail> {
    let spans = [span::<u8, Lsb0>(0, 0, 3)?, span::<u8, Lsb0>(0, 3, 5)?];
    let mut memory = [before];
    let mut replies = [SpanReply::Done; 4];
    run_tested(rt, &mut memory, &spans, &commands, &mut replies);
    Ok((replies, memory[0]))
}

#[test]
fn order_of_two_spans(rt: HostRuntime) -> Result<(), Fail> {
    // command and reply
    let replace = (0, SpanCommand::Replace(0, true));
    let replaced = SpanReply::Bit(false);
    let load = (0, SpanCommand::Load(0));
    let loaded = SpanReply::Word(0x01);
    let invert = (1, SpanCommand::Invert(0));
    let inverted = SpanReply::Word(0xf0);
    let load_other = (1, SpanCommand::Load(0));
    let loaded_other = SpanReply::Word(0x08);

    let (replies, after) = four_replies(&rt, 0xf0, [replace, invert, load, load_other])?;
    assert!(rt; replies == [replaced, inverted, loaded, loaded_other]);
    assert!(rt; after == 0x09);

    let (replies, after) = four_replies(&rt, 0xf0, [invert, load_other, replace, load])?;
    assert!(rt; replies == [inverted, loaded_other, replaced, loaded]);
    assert!(rt; after == 0x09);
    order_of_spans_is_free::<u8, Lsb0>();
    Ok(())
}

#[test]
fn a_bit_is_set_and_a_neighbour_read(rt: HostRuntime) -> Result<(), Fail> {
    let spans = [span::<u8, Lsb0>(0, 0, 3)?, span::<u8, Lsb0>(0, 3, 5)?];
    let commands = [
        (0, SpanCommand::Replace(0, true)),
        (1, SpanCommand::Read(0)),
    ];
    let mut memory = [0xf8u8];
    let mut replies = [SpanReply::Done; 2];
    assert!(rt; disjoint(&spans));
    assert!(rt; all_fit(&spans, memory.len()));
    set_and_read(&mut memory, &spans, &commands, &mut replies);
    assert!(rt; memory == [0xf9]);
    assert!(rt; replies == [SpanReply::Bit(false), SpanReply::Bit(true)]);
    Ok(())
}

#[test]
fn spans_are_disjoint(rt: HostRuntime) -> Result<(), Fail> {
    // two spans, each by word, head and length; whether they share no bit
    let rows = [
        ((0, 0, 3), (0, 3, 5), true),
        ((0, 3, 5), (0, 0, 3), true),
        ((0, 0, 4), (0, 3, 5), false),
        ((0, 3, 5), (0, 0, 4), false),
        ((0, 0, 8), (0, 0, 8), false),
        ((0, 0, 64), (0, 2, 0), true),
        ((0, 2, 0), (0, 0, 64), true),
        ((0, 2, 0), (0, 2, 0), true),
        ((1, 0, 64), (0, 63, 1), true),
        ((1, 0, 64), (0, 63, 2), false),
        (
            (9223372036854775806, 0, 64),
            (9223372036854775805, 60, 8),
            false,
        ),
        (
            (9223372036854775806, 4, 60),
            (9223372036854775805, 60, 8),
            true,
        ),
    ];
    for (one, other, apart) in rows {
        let spans = [
            span::<u64, Lsb0>(one.0, one.1, one.2)?,
            span::<u64, Lsb0>(other.0, other.1, other.2)?,
        ];
        assert!(rt; disjoint(&spans) == apart, "{} {} {}", one.0, one.1, one.2);
    }
    Ok(())
}

#[test]
fn the_last_of_three_spans_meets_the_first(rt: HostRuntime) -> Result<(), Fail> {
    let spans = [
        span::<u64, Lsb0>(0, 0, 4)?,
        span::<u64, Lsb0>(0, 8, 4)?,
        span::<u64, Lsb0>(0, 3, 1)?,
    ];
    assert!(rt; !disjoint(&spans));
    assert!(rt; disjoint(&spans[..2]));
    assert!(rt; disjoint(&spans[..0]));
    assert!(rt; all_fit(&spans, 1));
    assert!(rt; !all_fit(&spans, 0));
    Ok(())
}
