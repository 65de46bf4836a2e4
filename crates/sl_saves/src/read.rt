// The walk back over a view.
ghost use Rattle.std.specs.Prelude.{◌≡◌, ℕ, List, ◌+◌, ◌-◌, ◌<◌, ◌≤◌, ◌↔◌, length, IsSome};
ghost use Rattle.std.specs.Prelude.{IfSome, Some, None, nat_lt, if◌then◌else◌};
ghost use Rattle.sl_saves.specs.Calls.{Call, number, saves, saved};
ghost use Rattle.sl_saves.specs.Walks.{stopped};
ghost use Rattle.sl_saves.specs.Views.{place_below, IsLive, IsShown, IsFitting, held_saved, read};

use crate::entry::{Saved, Slot, View};
use crate::place::place_below;

/// The last miscredit on the way, with one number more: the greatest age that was credited there
/// is `reach`, and the number lies `age` above the one that is read.
fn last_bad(bad: Option<(u64, u16)>, number: u64, reach: u16, age: u64) -> Option<(u64, u16)>
    ensures { result ≡ (if nat_lt age reach then Some (number, reach) else bad) }
{
    if u64::from(reach) > age {
        Some((number, reach))
    } else {
        bad
    }
}

/// What is answered at the slot of the number that is read.
fn stopped(slot: &Slot, bad: Option<(u64, u16)>) -> Saved
    ensures { result ≡ stopped slot.now bad }
{
    match bad {
        Some((by, reach)) => Saved::Miscredited { by, reach },
        None => Saved::Value {
            packets: slot.packets,
            bytes: slot.bytes,
            inflight: slot.inflight,
        },
    }
}

/// What a view of the number `id` says was saved for the number `k`, or none where the walk back
/// from `id` comes to a slot in which nothing is saved.
pub fn try_read_saved(view: &View, id: u64, k: u64) -> Option<Saved>
    requires least { 1 ≤ k }
    requires most { k ≤ id }
    requires near { id < k + length view.now.slots }
    requires at { view.now.at < length view.now.slots }
    ensures live { IsSome result ↔ IsLive view.now id k }
    ensures value { IfSome result (λ saved. saved ≡ read view.now id k) }
{
    let size = view.slots.len();
    let mut place = view.at as usize;
    let mut number = id;
    let mut bad = None;
    loop {
        let slot = view.slots.get(place);
        if slot.back == 0 {
            return None;
        }
        if number == k {
            return Some(stopped(slot, bad));
        }
        let age = number - k;
        if u64::from(slot.back) > age {
            return Some(Saved::Skipped { to: number });
        }
        bad = last_bad(bad, number, slot.reach, age);
        number -= u64::from(slot.back);
        place = place_below(size, place, slot.back as usize);
    }
}

/// What a view of the number `id` says was saved for the number `k`.
pub fn read_saved(view: &View, id: u64, k: u64) -> Saved
    requires least { 1 ≤ k }
    requires most { k ≤ id }
    requires near { id < k + length view.now.slots }
    requires at { view.now.at < length view.now.slots }
    requires live { IsLive view.now id k }
    ensures walk { result ≡ read view.now id k }

    // It is what the calls saved that the view shows, with totals that stay at their last value.
    ensures saved { (n : ℕ) (calls : List Call) → IsShown n view.now calls → number calls ≡ id
        → result ≡ held_saved (saved k (saves n calls)) }
    ensures fitting { (n : ℕ) (calls : List Call) → IsShown n view.now calls → number calls ≡ id
        → IsFitting (saved k (saves n calls)) → result ≡ saved k (saves n calls) }
{
    match try_read_saved(view, id, k) {
        Some(saved) => saved,
        None => unreachable!(),
    }
}
