//! A data sheet: devices one after another, and why they make no map.

ghost use Rattle.std.specs.Prelude.{◌≡◌, ◌↔◌, length, IfSome, IsNone};
ghost use Rattle.bit_addressing.specs.Runs.{AllFit, AreDisjoint};
ghost use Rattle.register_map.specs.Devices.{extents_of, IsFault};

use crate::device::Device;
use crate::errors::MapError;
use crate::order::UpperHalfFirst;
use bit_addressing::{BitSpan, disjoint};

/// The spans of devices.
pub fn spans<const N: usize>(devices: &[Device]) -> [BitSpan<u32, UpperHalfFirst>; N]
    requires { length devices.now ≡ N }
    ensures { result ≡ extents_of devices.now }
{
    let mut spans = [BitSpan::default(); N];
    for k in 0..N {
        spans[k] = devices[k].span();
    }
    spans
}

/// A fault of devices that are to lie in so many words, if they have one.
pub fn fault(devices: &[Device], size: usize) -> Option<MapError>
    ensures none { IsNone result
        ↔ (AreDisjoint 32 (extents_of devices.now) × AllFit 32 (extents_of devices.now) size) }
    ensures some { IfSome result (IsFault devices.now size) }
{
    for k in 0..devices.len() {
        let device = devices[k];
        if !device.span().fits(size) {
            return Some(MapError::DoesNotFit {
                name: device.name,
                size,
            });
        }
        for j in 0..k {
            let earlier = devices[j];
            if !disjoint(&[earlier.span(), device.span()]) {
                return Some(MapError::Overlap {
                    earlier: earlier.name,
                    later: device.name,
                });
            }
        }
    }
    None
}
