//! A word of a move by one place, where the positions go straight with the indices: it is made of itself and of the word
//! beside it, by shifts of one.

ghost use Rattle.std.specs.Prelude.{◌≡◌, ℕ, ◌+◌, ◌-◌, ◌*◌, ◌<◌, ◌≤◌, length, slice_index_or};
ghost use Rattle.bit_addressing_memory.specs.Prelude.{entry, indexed, read_by};
ghost use Rattle.bit_addressing_memory.specs.MoveSteps.{CanPut, Gathers};
ghost use Rattle.bit_addressing_memory.specs.Sweep.{SameButReads, reads_of, sweep_lender, sweep_words};
ghost use Rattle.bit_addressing_memory.specs.Ways.{AreNear, by_way};

use crate::direction::Straight;
use crate::masking::stored;
use crate::moves::{BitMove, part_of};
use crate::shift::{joined, raised};
use crate::sweep::{Sweep, Way};
use bit_addressing_order::mem::bits_of;
use bit_addressing_order::{BitEnd, BitIdx, BitOrder, BitRegister};

// The word `k` of a move by one place: the bits beside its own inside the target, its own beside it.
#[inline(always)]
pub(crate) fn near_word<R: BitRegister, O: BitOrder<R>>(
    sweep: &mut Sweep<'_, R>,
    straight: Straight<R, O>,
    way: Way,
    k: usize,
    task: BitMove,
) -> R
    requires near { AreNear way task.source task.target }
    requires can { CanPut R.BITS sweep.old task.source task.target task.len k (k + 1) }
    ensures { Gathers (read_by R.BitRegister O.position) 3 sweep.old sweep.new task.source task.target task.len k result }
{
    let (from, upto) = part_of::<R>(k, task.target, task.len);
    let own = sweep.read(k);
    let beside = bits_beside::<R, O>(sweep, straight, way, k, own, from, upto);
    let head = BitIdx::new_unchecked(from as u8);
    let tail = BitEnd::new_unchecked(upto as u8);
    stored::<R, O>(own, beside, head, tail)
}

// The bits beside those of the word `k` from one index up to before another, as a word: those one place behind upwards, one
// before downwards.
#[inline(always)]
fn bits_beside<R: BitRegister, O: BitOrder<R>>(
    sweep: &mut Sweep<'_, R>,
    straight: Straight<R, O>,
    way: Way,
    k: usize,
    own: R,
    from: usize,
    upto: usize,
) -> R
    requires own { own ≡ slice_index_or (sweep_words sweep.old) k own }
    requires index { upto ≤ R.BITS }
    requires before { 0 < by_way way 1 (k * R.BITS + from) }
    requires within { k * R.BITS + by_way way upto 0 < length (sweep_words sweep.old) * R.BITS }
    ensures digits { (i : ℕ) → from ≤ i → i < upto → indexed R.number O.position result i
        ≡ entry (read_by R.BitRegister O.position) (sweep_words sweep.old)
        (by_way way (k * R.BITS + i + 1) (k * R.BITS + i - 1)) }
    ensures reads { reads_of sweep.new ≤ reads_of sweep.old + 1 }
    ensures same { SameButReads sweep.old sweep.new }
    ensures lender { sweep_lender sweep.new ≡ sweep_lender sweep.old }
{
    match way {
        Way::Up => {
            if upto < bits_of::<R>() {
                return joined::<R, O>(straight.direction, own, own, 1);
            }
            let behind = sweep.read(k + 1);
            joined::<R, O>(straight.direction, own, behind, 1)
        }
        Way::Down => {
            if from > 0 {
                return raised::<R, O>(straight.direction, own, 1);
            }
            let before = sweep.read(k - 1);
            joined::<R, O>(straight.direction, before, own, R::BITS - 1)
        }
    }
}
