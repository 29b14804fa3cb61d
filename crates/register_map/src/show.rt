//! What the program prints: whose each bit is, what a driver's calls leave of all devices, and which maps there are none of.

ghost use Rattle.std.specs.Prelude.{◌≡◌, ◌≤◌, length};

use crate::commands::position_of;
use crate::device::Device;
use crate::errors::Refusal;
use crate::map::RegisterMap;
use crate::{COUNTER, PORT, TIMER, WORDS};
use std::{fmt, io};

/// Prints the data sheet.
pub fn print_devices(rt: &impl Print, devices: &[Device]) -> io::Result<()> {
    println!(rt; "Devices in {WORDS} words of 32 bits, the upper half of a word first")?;
    for device in devices {
        let (name, place, width) = (device.name, device.place, device.width);
        println!(rt; "  {name:<8} {width:>2} bits from bit {place}")?;
    }
    println!(rt)
}

// The positions of a word, 31 first, each by the first letter of the device whose bit is there.
#[derive(Clone, Copy)]
struct Owners<'a> {
    devices: &'a [Device],
    map: &'a RegisterMap<3>,
    word: u8,
}

impl fmt::Display for Owners<'_> {
    fn fmt<W: fmt::Write>(&self, f: &mut fmt::Formatter<W>) -> fmt::Result {
        for position in (0..32u8).rev() {
            if position < 31 && position % 8 == 7 {
                f.write_str(" ")?;
            }
            // The order is its own inverse: an index has the position of the index that its position is.
            let place = usize::from(self.word) * 32 + usize::from(position_of(position));
            let owner = self
                .map
                .owner(place)
                .and_then(|number| self.devices.get(number));
            let letter = owner.and_then(|device| device.name.chars().next());
            write!(f, "{}", letter.unwrap_or('.'))?;
        }
        Ok(())
    }
}

/// Prints whose bit is at each position of the words.
pub fn print_owners(rt: &impl Print, devices: &[Device], map: &RegisterMap<3>) -> io::Result<()> {
    println!(rt; "Whose bit is at each position, 31 to 0")?;
    for word in 0..WORDS as u8 {
        let owners = Owners { devices, map, word };
        println!(rt; "  word {word}   {owners}")?;
    }
    println!(rt)
}

// A call of a driver at one device.
#[derive(Clone, Copy)]
enum Call {
    Store(u32),
    Set(usize),
    Clear(usize),
    Invert(usize),
}

impl Call {
    // Its name, and the number or the flag that it is about.
    fn words(self) -> (&'static str, u64) {
        match self {
            Call::Store(number) => ("store", u64::from(number)),
            Call::Set(flag) => ("set", flag as u64),
            Call::Clear(flag) => ("clear", flag as u64),
            Call::Invert(flag) => ("invert", flag as u64),
        }
    }

    // Makes the call, and answers what the flag was, if it is one of a flag.
    fn make(
        self,
        map: &RegisterMap<3>,
        memory: &mut [u32],
        device: usize,
    ) -> Result<Option<bool>, Refusal>
        requires { map.now.size ≤ length memory.old }
    {
        match self {
            Call::Store(number) => {
                map.store(memory, device, number)?;
                Ok(None)
            }
            Call::Set(flag) => Ok(Some(map.set(memory, device, flag)?)),
            Call::Clear(flag) => Ok(Some(map.clear(memory, device, flag)?)),
            Call::Invert(flag) => Ok(Some(map.invert(memory, device, flag)?)),
        }
    }
}

// Three devices that work, three calls that are refused.
const SESSION: [(usize, Call); 11] = [
    (TIMER, Call::Store(74_565)),
    (COUNTER, Call::Store(4_095)),
    (PORT, Call::Set(0)),
    (PORT, Call::Set(7)),
    (COUNTER, Call::Invert(11)),
    (TIMER, Call::Clear(16)),
    (PORT, Call::Store(165)),
    (PORT, Call::Clear(0)),
    (PORT, Call::Set(8)),
    (COUNTER, Call::Store(4_096)),
    (3, Call::Set(0)),
];

/// Prints what each call of a driver leaves of all devices, or why it is refused. The bits that are no device's are ones,
/// and stay.
pub fn print_session(rt: &impl Print, devices: &[Device], map: &RegisterMap<3>) -> io::Result<()>
    requires { map.now.size ≤ 2 }
{
    let mut memory = [0, 0xff00_ffff];
    println!(rt;
        "{:<25}timer{:<17}port{:<6}counter{:<7}words",
        "", "", "", ""
    )?;
    print!(rt; "  {:<23}", "at first")?;
    print_state(rt, map, &memory)?;
    println!(rt)?;
    for (device, call) in SESSION {
        let (name, (verb, number)) = (name_of(devices, device), call.words());
        print!(rt; "  {name:<8} {verb:<6} {number:<6}  ")?;
        print_outcome(rt, map, &mut memory, device, call)?;
    }
    println!(rt)
}

// The name of the device of a number, if there is one.
fn name_of(devices: &[Device], number: usize) -> &'static str {
    match devices.get(number) {
        Some(device) => device.name,
        None => "none",
    }
}

// Makes a call, and prints what it leaves.
fn print_outcome(
    rt: &impl Print,
    map: &RegisterMap<3>,
    memory: &mut [u32],
    device: usize,
    call: Call,
) -> io::Result<()>
    requires { map.now.size ≤ length memory.old }
{
    match call.make(map, memory, device) {
        Err(refusal) => println!(rt; "refused: {refusal}"),
        Ok(None) => {
            print_state(rt, map, memory)?;
            println!(rt)
        }
        Ok(Some(was)) => {
            print_state(rt, map, memory)?;
            println!(rt; "  was {}", u8::from(was))
        }
    }
}

// Prints what each device has, its first bit last, and the words.
fn print_state(rt: &impl Print, map: &RegisterMap<3>, memory: &[u32]) -> io::Result<()>
    requires { map.now.size ≤ length memory.now }
{
    if let (Ok(timer), Ok(port), Ok(counter)) = (
        map.read(memory, TIMER),
        map.read(memory, PORT),
        map.read(memory, COUNTER),
    ) {
        print!(rt; "{timer:020b}  {port:08b}  {counter:012b} ")?;
    }
    for word in memory {
        print!(rt; " {word:08x}")?;
    }
    Ok(())
}

/// Prints why two wrong data sheets are refused.
pub fn print_refused_maps(rt: &impl Print) -> io::Result<()> {
    let timer = Device::new("timer", 0, 20);
    print_refused(rt, &[timer, Device::new("port", 19, 8)])?;
    print_refused(rt, &[timer, Device::new("counter", 53, 12)])?;
    println!(rt)
}

// Prints why two devices make no map.
fn print_refused(rt: &impl Print, devices: &[Device]) -> io::Result<()>
    requires { length devices.now ≡ 2 }
{
    let (name, place) = (devices[1].name, devices[1].place);
    match RegisterMap::<2>::new(devices, WORDS) {
        Ok(_) => println!(rt; "{name} from bit {place}: taken"),
        Err(error) => println!(rt; "{name} from bit {place}: refused, {error}"),
    }
}
