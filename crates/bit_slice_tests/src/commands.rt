//! Commands at a window: each in range, and out of it, and none.

use bit_addressing_memory::Lsb0;
use bit_slice::{WindowCommand, WindowReply, run_window};
use bit_slice_views::BitSlice;
use bit_slice_views_mut::BitSliceMut;
use std::alloc::AllocError;
use std::process::Abort;

type Command<'a> = WindowCommand<BitSlice<'a, u8, Lsb0>>;

// The replies to commands at the 8 bits from place 4 on of two bytes.
fn replies_at(
    rt: &HostRuntime,
    words: &mut [u8; 2],
    commands: &[Command<'_>],
    want: &[WindowReply],
) -> bool {
    let mut view = BitSliceMut::<u8, Lsb0>::from_place_mut(words, 4, 8);
    match run_window(rt.alloc(), &mut view, commands) {
        Ok(replies) => replies.as_slice() == want,
        Err(_) => false,
    }
}

#[test]
fn single_bits_are_written_and_read(rt: HostRuntime) {
    let mut words = [0x0fu8, 0xf0];
    let commands = [
        Command::Set(0, true),
        Command::Replace(0, false),
        Command::Set(7, true),
        Command::Swap(7, 1),
        Command::Read(1),
        Command::Read(7),
    ];
    let want = [
        WindowReply::Done,
        WindowReply::Bit(true),
        WindowReply::Done,
        WindowReply::Done,
        WindowReply::Bit(true),
        WindowReply::Bit(false),
    ];
    assert!(rt; replies_at(&rt, &mut words, &commands, &want) && words == [0x2f, 0xf0]);
}

#[test]
fn all_bits_are_changed(rt: HostRuntime) {
    let mut words = [0x0fu8, 0xf0];
    let commands = [
        Command::Fill(true),
        Command::CountOnes,
        Command::Set(0, false),
        Command::RotateLeft(3),
        Command::RotateRight(1),
        Command::Reverse,
        Command::Not,
        Command::FirstOne,
        Command::LastOne,
    ];
    let want = [
        WindowReply::Done,
        WindowReply::Count(8),
        WindowReply::Done,
        WindowReply::Done,
        WindowReply::Done,
        WindowReply::Done,
        WindowReply::Done,
        WindowReply::Place(Some(1)),
        WindowReply::Place(Some(1)),
    ];
    assert!(rt; replies_at(&rt, &mut words, &commands, &want) && words == [0x2f, 0xf0]);
}

#[test]
fn right_sides_are_windows(rt: HostRuntime) {
    let others = [0b0101_0011u8];
    let other = BitSlice::<u8, Lsb0>::from_slice(&others);
    let short = other.part(0, 2);
    let mut words = [0x0fu8, 0xf0];
    let commands = [
        Command::CopyFrom(other),
        Command::Equal(other),
        Command::Equal(short),
        Command::CopyWithin(0, 2, 6),
        Command::And(short),
        Command::Or(other),
        Command::Xor(short),
    ];
    let want = [
        WindowReply::Done,
        WindowReply::Bit(true),
        WindowReply::Bit(false),
        WindowReply::Done,
        WindowReply::Done,
        WindowReply::Done,
        WindowReply::Done,
    ];
    assert!(rt; replies_at(&rt, &mut words, &commands, &want) && words == [0x0f, 0xf5]);
}

#[test]
fn what_is_out_of_range_is_refused_and_changes_nothing(rt: HostRuntime) {
    let others = [0xffu8];
    let short = BitSlice::<u8, Lsb0>::from_parts(&others, 0, 7);
    let mut words = [0x5fu8, 0xfa];
    let commands = [
        Command::Set(8, true),
        Command::Replace(8, true),
        Command::Swap(0, 8),
        Command::Swap(8, 0),
        Command::RotateLeft(9),
        Command::RotateRight(9),
        Command::CopyWithin(3, 2, 0),
        Command::CopyWithin(3, 9, 0),
        Command::CopyWithin(0, 4, 5),
        Command::CopyWithin(0, 0, 9),
        Command::CopyFrom(short),
        Command::Read(8),
    ];
    let want = [WindowReply::Refused; 12];
    assert!(rt; replies_at(&rt, &mut words, &commands, &want) && words == [0x5f, 0xfa]);
    assert!(rt; replies_at(&rt, &mut words, &[], &[]) && words == [0x5f, 0xfa]);
}
