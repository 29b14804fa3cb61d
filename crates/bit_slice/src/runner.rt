//! Commands at one window.

ghost use Rattle.std.specs.Prelude.{◌≡◌, true, [], IfOk, IsErr, IsOk, length};
ghost use Rattle.std.specs.Vec.{vec_capacity, vec_len};
ghost use Rattle.bit_addressing_memory.specs.Memory.{read_by};
ghost use Rattle.bit_slice.specs.Commands.{is_in_range, list_after, lists_after, replies_to, reply_to};
ghost use Rattle.bit_slice.specs.Commands.{edited, told};
ghost use Rattle.bit_slice_views.specs.View.{view_bits};

use crate::command::{WindowCommand, WindowReply};
use bit_slice_access::BitsCopy;
use bit_slice_views::{BitSlice, Bits};
use bit_slice_views_mut::{BitsMut, and_view, or_view, xor_view};
use bit_slice_words::WordPaths;
use std::alloc::{AllocError, Allocator};

/// Carries out commands at a window, one after another, and answers a reply to each.
///
/// A command with an index or a length out of range is refused, and changes nothing. All memory is taken before the
/// first command: where there is not enough, nothing is changed.
pub fn run_window<V: BitsMut, A: Allocator>(
    alloc: A,
    view: &mut V,
    commands: &[WindowCommand<BitSlice<'_, V::Store, V::Order>>],
) -> Result<Vec<WindowReply, A>, AllocError>
where
    V::Order: WordPaths<V::Store>,
    ensures replies { IfOk result (λ replies. replies.items
        ≡ replies_to (view_bits (read_by V.Store.BitRegister V.Order.position)) commands.now (V.bits view.old)) }
    ensures list { IsOk result → V.bits view.new
        ≡ lists_after (view_bits (read_by V.Store.BitRegister V.Order.position)) commands.now (V.bits view.old) }
    ensures none { commands.now ≡ [] → IsOk result }
    ensures refused { IsErr result → view.new ≡ view.old }
    ensures len { length (V.bits view.new) ≡ length (V.bits view.old) }
    ensures frame { V.frame view.new ≡ V.frame view.old }
{
    let mut replies = Vec::with_capacity(alloc, commands.len())?;
    for command in commands {
        replies.push_reserved(run_one(view, command));
    }
    Ok(replies)
}

// Carries one command out, or refuses it.
#[tactic(auto, unfolding(crate::specs::Commands::list_after, crate::specs::Commands::reply_to))]
fn run_one<V: BitsMut>(
    view: &mut V,
    command: &WindowCommand<BitSlice<'_, V::Store, V::Order>>,
) -> WindowReply
where
    V::Order: WordPaths<V::Store>,
    ensures list { V.bits view.new
        ≡ list_after (view_bits (read_by V.Store.BitRegister V.Order.position)) command.now (V.bits view.old) }
    ensures reply { result
        ≡ reply_to (view_bits (read_by V.Store.BitRegister V.Order.position)) command.now (V.bits view.old) }
    ensures len { length (V.bits view.new) ≡ length (V.bits view.old) }
    ensures frame { V.frame view.new ≡ V.frame view.old }
{
    if !command.is_in_range(view.len()) {
        return WindowReply::Refused;
    }
    carry_out(view, command)
}

// Carries one command out that is in range.
fn carry_out<V: BitsMut>(
    view: &mut V,
    command: &WindowCommand<BitSlice<'_, V::Store, V::Order>>,
) -> WindowReply
where
    V::Order: WordPaths<V::Store>,
    requires { is_in_range (view_bits (read_by V.Store.BitRegister V.Order.position)) (length (V.bits view.old)) command.now
        ≡ true }
    ensures list { V.bits view.new
        ≡ edited (view_bits (read_by V.Store.BitRegister V.Order.position)) command.now (V.bits view.old) }
    ensures reply { result ≡ told (view_bits (read_by V.Store.BitRegister V.Order.position)) command.now (V.bits view.old) }
    ensures len { length (V.bits view.new) ≡ length (V.bits view.old) }
    ensures frame { V.frame view.new ≡ V.frame view.old }
{
    match command {
        WindowCommand::Set(i, bit) => view.set(*i, *bit),
        WindowCommand::Replace(i, bit) => return WindowReply::Bit(view.replace(*i, *bit)),
        WindowCommand::Swap(i, j) => view.swap(*i, *j),
        WindowCommand::Fill(bit) => view.fill(*bit),
        WindowCommand::Reverse => view.reverse(),
        WindowCommand::RotateLeft(by) => view.rotate_left(*by),
        WindowCommand::RotateRight(by) => view.rotate_right(*by),
        WindowCommand::CopyWithin(from, upto, dest) => view.copy_within(*from..*upto, *dest),
        WindowCommand::CopyFrom(other) => view.copy_from_bitslice(other),
        WindowCommand::And(other) => and_view(view, *other),
        WindowCommand::Or(other) => or_view(view, *other),
        WindowCommand::Xor(other) => xor_view(view, *other),
        WindowCommand::Not => view.invert(),
        WindowCommand::CountOnes => return WindowReply::Count(view.count_ones()),
        WindowCommand::FirstOne => return WindowReply::Place(view.first_one()),
        WindowCommand::LastOne => return WindowReply::Place(view.last_one()),
        WindowCommand::Equal(other) => return WindowReply::Bit(view.as_bitslice() == *other),
        WindowCommand::Read(i) => return WindowReply::Bit(view.bit(*i)),
    }
    WindowReply::Done
}
