//! A register map: devices that share words, and a driver's calls at one of them.

ghost use Rattle.std.specs.Prelude.{◌≡◌, ℕ, ◌+◌, ◌*◌, ◌<◌, ◌≤◌, ◌↔◌, true, false, not, [], ◌∷◌, length, slice_set};
ghost use Rattle.std.specs.Prelude.{IsNone, IfErr, IfOk, IfSome, IsOk, IsTrue, OnErr, OnOk};
ghost use Rattle.bit_addressing.specs.Memory.{Copies};
ghost use Rattle.bit_addressing.specs.Span.{span_place};
ghost use Rattle.bit_addressing.specs.Runs.{commands_of, span_at, AllFit, AreDisjoint, IsInside, IsOutside, Runs};
ghost use Rattle.register_map.specs.Words.{digits_first, words};
ghost use Rattle.register_map.specs.Devices.{extents_of, IsFault};
ghost use Rattle.register_map.specs.Registers.{bits_of, flag_of, number_of, registers, width_of, HasDevice, HasFlag};
ghost use Rattle.register_map.specs.Registers.{HasRoom, IsFree, IsMap, IsNoFlag, IsNoNumber, IsOwn, KeepsOthers};

use crate::device::Device;
use crate::errors::{MapError, Refusal};
use crate::order::UpperHalfFirst;
use crate::sheet::{fault, spans};
use bit_addressing::entries::{copy_between, read_entry};
use bit_addressing::{BitSpan, Lsb0, SpanCommand, SpanReply, run};
use std::marker::Model;

type Span = BitSpan<u32, UpperHalfFirst>;

/// Devices that share the words of a memory. No bit is two devices'.
///
/// A contract sees it as the spans of the devices and the number of the words. Its calls are handed these words, and any
/// behind them are left as they are.
#[derive(Drop)]
pub struct RegisterMap<const N: usize> {
    spans: [Span; N],
    size: usize,
}

impl<const N: usize> Model for RegisterMap<N> {
    ghost use Rattle.register_map.specs.Registers.{registers, IsMap, Registers};

    ghost Value = { Registers };

    ghost view = { λ map. registers map.spans map.size };

    ghost invariant = { λ map. IsMap (registers map.spans map.size) };
}

// Make.
impl<const N: usize> RegisterMap<N> {
    /// The map of these devices in so many words, unless one of them ends beyond the words or two have a bit in common.
    ///
    /// There are `N` devices. (They come as a slice, since an array of names whose length is a parameter is not proved.)
    pub fn new(devices: &[Device], size: usize) -> Result<RegisterMap<N>, MapError>
        requires { length devices.now ≡ N }
        ensures ok { IsOk result
            ↔ (AreDisjoint 32 (extents_of devices.now) × AllFit 32 (extents_of devices.now) size) }
        ensures map { IfOk result (λ map. map ≡ registers (extents_of devices.now) size) }
        ensures err { IfErr result (IsFault devices.now size) }
    {
        match fault(devices, size) {
            Some(error) => Err(error),
            None => Ok(RegisterMap {
                spans: spans(devices),
                size,
            }),
        }
    }
}

// Read.
impl<const N: usize> RegisterMap<N> {
    /// What a device has, as a number: its first bit is the lowest digit.
    pub fn read(&self, memory: &[u32], device: usize) -> Result<u32, Refusal>
        requires memory { self.now.size ≤ length memory.now }
        ensures ok { IsOk result ↔ HasDevice self.now device }
        ensures value { IfOk result (λ number. number ≡ number_of (bits_of self.now memory.now device)) }
        ensures err { IfErr result (λ refusal. refusal ≡ Refusal.NoDevice device) }
    {
        let (place, width) = self.part(device)?;
        Ok(number_at(memory, place, width))
    }

    /// Whether a flag of a device, the bit of that number, is set.
    pub fn flag(&self, memory: &[u32], device: usize, flag: usize) -> Result<bool, Refusal>
        requires memory { self.now.size ≤ length memory.now }
        ensures ok { IsOk result ↔ HasFlag self.now device flag }
        ensures value { IfOk result (λ is. is ≡ flag_of self.now memory.now device flag) }
        ensures err { IfErr result (IsNoFlag self.now device flag) }
    {
        let (place, width) = self.part(device)?;
        if flag >= width {
            return Err(Refusal::NoFlag { flag, width });
        }
        Ok(read_entry::<u32, UpperHalfFirst>(memory, place + flag))
    }

    /// Whose the bit at a place of the words is, if it is a device's.
    pub fn owner(&self, place: usize) -> Option<usize>
        ensures none { IsNone result ↔ IsFree self.now place }
        ensures some { IfSome result (λ device. HasDevice self.now device × IsOwn self.now device place) }
    {
        owner_among(&self.spans, place)
    }

    // Where a device lies: the place of its first bit, and how many bits it has.
    fn part(&self, device: usize) -> Result<(usize, usize), Refusal>
        ensures ok { IsOk result ↔ HasDevice self.now device }
        ensures place { IfOk result (λ part. part.0 ≡ span_place 32 (span_at self.now.spans device)) }
        ensures width { IfOk result (λ part. part.1 ≡ width_of self.now device) }
        ensures err { IfErr result (λ refusal. refusal ≡ Refusal.NoDevice device) }

        // What the type says.
        ensures map { IsMap self.now }
    {
        let spans = &self.spans;
        if device >= spans.len() {
            return Err(Refusal::NoDevice(device));
        }
        let (word, head, width) = spans[device].raw_parts();
        Ok((word * 32 + head.into_inner() as usize, width))
    }
}

// The number whose digits are the bits from a place on, the first one the lowest.
fn number_at(memory: &[u32], place: usize, width: usize) -> u32
    requires few { width ≤ 32 }
    requires within { place + width ≤ length memory.now * 32 }
    ensures { Copies digits_first (0 ∷ []) (result ∷ []) words memory.now place 0 width }
{
    let mut word = [0];
    copy_between::<u32, UpperHalfFirst, u32, Lsb0>(memory, place, &mut word, 0, width);
    word[0]
}

// The number of the span that a place is one of.
fn owner_among(spans: &[Span], place: usize) -> Option<usize>
    ensures none { IsNone result
        ↔ ((d : ℕ) → d < length spans.now → IsOutside 32 (span_at spans.now d) place) }
    ensures some { IfSome result (λ d. (d < length spans.now) × IsInside 32 (span_at spans.now d) place) }
{
    for number in 0..spans.len() {
        if has(spans[number], place) {
            return Some(number);
        }
    }
    None
}

// Whether a place is one of a span's.
fn has(span: Span, place: usize) -> bool
    ensures { IsTrue result ↔ IsInside 32 span place }
{
    let (word, head, width) = span.raw_parts();
    let first = word as u128 * 32 + head.into_inner() as u128;
    let place = place as u128;
    first <= place && place < first + width as u128
}

// Change.
impl<const N: usize> RegisterMap<N> {
    /// Makes a device have a number, whose lowest digit is the device's first bit.
    pub fn store(&self, memory: &mut [u32], device: usize, number: u32) -> Result<(), Refusal>
        requires memory { self.now.size ≤ length memory.old }
        ensures ok { IsOk result ↔ HasRoom self.now device number }
        ensures own { OnOk result (number_of (bits_of self.now memory.new device) ≡ number) }
        ensures others { KeepsOthers self.now memory.old memory.new device }
        ensures err { OnErr result (memory.new ≡ memory.old) }
        ensures cause { IfErr result (IsNoNumber self.now device number) }
    {
        let (place, width) = self.part(device)?;
        if u64::from(number) >= 1u64 << width {
            return Err(Refusal::TooGreat { number, width });
        }
        copy_between::<u32, Lsb0, u32, UpperHalfFirst>(&[number], 0, memory, place, width);
        Ok(())
    }

    /// Sets a flag of a device, and answers what it was.
    pub fn set(&self, memory: &mut [u32], device: usize, flag: usize) -> Result<bool, Refusal>
        requires memory { self.now.size ≤ length memory.old }
        ensures ok { IsOk result ↔ HasFlag self.now device flag }
        ensures was { IfOk result (λ was. was ≡ flag_of self.now memory.old device flag) }
        ensures own { OnOk result (bits_of self.now memory.new device
            ≡ slice_set (bits_of self.now memory.old device) flag true) }
        ensures others { KeepsOthers self.now memory.old memory.new device }
        ensures err { OnErr result (memory.new ≡ memory.old) }
        ensures cause { IfErr result (IsNoFlag self.now device flag) }
    {
        self.replace(memory, device, flag, true)
    }

    /// Clears a flag of a device, and answers what it was.
    pub fn clear(&self, memory: &mut [u32], device: usize, flag: usize) -> Result<bool, Refusal>
        requires memory { self.now.size ≤ length memory.old }
        ensures ok { IsOk result ↔ HasFlag self.now device flag }
        ensures was { IfOk result (λ was. was ≡ flag_of self.now memory.old device flag) }
        ensures own { OnOk result (bits_of self.now memory.new device
            ≡ slice_set (bits_of self.now memory.old device) flag false) }
        ensures others { KeepsOthers self.now memory.old memory.new device }
        ensures err { OnErr result (memory.new ≡ memory.old) }
        ensures cause { IfErr result (IsNoFlag self.now device flag) }
    {
        self.replace(memory, device, flag, false)
    }

    /// Inverts a flag of a device, and answers what it was.
    pub fn invert(&self, memory: &mut [u32], device: usize, flag: usize) -> Result<bool, Refusal>
        requires memory { self.now.size ≤ length memory.old }
        ensures ok { IsOk result ↔ HasFlag self.now device flag }
        ensures was { IfOk result (λ was. was ≡ flag_of self.now memory.old device flag) }
        ensures own { IfOk result (λ was. bits_of self.now memory.new device
            ≡ slice_set (bits_of self.now memory.old device) flag (not was)) }
        ensures others { KeepsOthers self.now memory.old memory.new device }
        ensures err { OnErr result (memory.new ≡ memory.old) }
        ensures cause { IfErr result (IsNoFlag self.now device flag) }
    {
        let was = self.flag(memory, device, flag)?;
        self.replace(memory, device, flag, !was)
    }

    // Makes a flag of a device `bit`, and answers what it was.
    fn replace(
        &self,
        memory: &mut [u32],
        device: usize,
        flag: usize,
        bit: bool,
    ) -> Result<bool, Refusal>
        requires memory { self.now.size ≤ length memory.old }
        ensures ok { IsOk result ↔ HasFlag self.now device flag }
        ensures was { IfOk result (λ was. was ≡ flag_of self.now memory.old device flag) }
        ensures own { OnOk result (bits_of self.now memory.new device
            ≡ slice_set (bits_of self.now memory.old device) flag bit) }
        ensures others { KeepsOthers self.now memory.old memory.new device }
        ensures err { OnErr result (memory.new ≡ memory.old) }
        ensures cause { IfErr result (IsNoFlag self.now device flag) }
    {
        let was = self.flag(memory, device, flag)?;
        let mut replies = [SpanReply::Done];
        let command = (device, SpanCommand::Replace(flag, bit));
        self.run(memory, &[command], &mut replies);
        Ok(was)
    }

    /// Carries out commands, each at the device of its number, one after another. A command whose device or whose own
    /// numbers are out of range is refused, and changes nothing.
    pub fn run(
        &self,
        memory: &mut [u32],
        commands: &[(usize, SpanCommand<u32>)],
        replies: &mut [SpanReply<u32>],
    )
        requires memory { self.now.size ≤ length memory.old }
        requires places { length replies.old ≡ length commands.now }
        ensures run { Runs words memory.old memory.new self.now.spans commands.now replies.new }
        ensures kept { (d : ℕ) → HasDevice self.now d → commands_of d commands.now ≡ []
            → bits_of self.now memory.new d ≡ bits_of self.now memory.old d }

        // What the type says.
        ensures map { IsMap self.now }
    {
        run(memory, &self.spans, commands, replies);
    }
}
