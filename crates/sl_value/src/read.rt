// The value of a number in a view.
ghost use Rattle.std.specs.Prelude.{◌≡◌, ◌+◌, ◌<◌, ◌≤◌, length};
ghost use Rattle.sl_saves.specs.Views.{IsLive};
ghost use Rattle.sl_value.specs.Counted.{value_read};

use crate::whole::Whole;
use sl_saves::{View, place_below};

/// What a view of the number `id` gives for the number `k`: the counters of the least number, from
/// `k` on, that was saved. It takes no memory.
pub fn read_value(view: &View, id: u64, k: u64) -> Whole
    requires least { 1 ≤ k }
    requires most { k ≤ id }
    requires near { id < k + length view.now.slots }
    requires at { view.now.at < length view.now.slots }
    requires live { IsLive view.now id k }
    ensures { result ≡ value_read view.now id k }
{
    let size = view.slots.len();
    let mut place = view.at as usize;
    let mut number = id;
    loop {
        let slot = view.slots.get(place);
        if u64::from(slot.back) > number - k {
            return Whole {
                packets: slot.packets,
                bytes: slot.bytes,
            };
        }
        number -= u64::from(slot.back);
        place = place_below(size, place, slot.back as usize);
    }
}
