// Laws of values, as functions that do nothing and whose contracts say them.
ghost use Rattle.std.specs.Prelude.{◌≡◌, ◌↔◌, ℕ, ◌+◌, ◌<◌, ◌≤◌, List, None, length};
ghost use Rattle.sl_machine.specs.Turns.{Turn};
ghost use Rattle.sl_parts.specs.Lists.{Each};
ghost use Rattle.sl_layout.specs.Net.{Net, unit_place};
ghost use Rattle.sl_layout.specs.Serving.{served};
ghost use Rattle.sl_net.specs.Wired.{IsNet};
ghost use Rattle.sl_saves.specs.declared.entry.View.{View};
ghost use Rattle.sl_saves.specs.Views.{IsShown};
ghost use Rattle.sl_model.specs.History.{History, id};
ghost use Rattle.sl_model.specs.Calls.{calls};
ghost use Rattle.sl_wire.specs.declared.message.Msg.{Msg};
ghost use Rattle.sl_wire.specs.Sizes.{Sizes};
ghost use Rattle.sl_value.specs.Held.{collected_in, IsUncollected, turned};
ghost use Rattle.sl_value.specs.Counted.{value_read, counted};
ghost use Rattle.sl_value.specs.Valued.{value_in};

use sl_model::{calls_lead_to_id, entries_are_values};
use sl_net::nets_are_wired;

/// A view that shows the calls of a unit's history gives for a number what the unit counted before
/// its id reached this number, whether it saved the number or skipped it. cs are the unit's data
/// channels, as choices.
pub fn values_are_counts()
    ensures { (n : ℕ) (cs : List ℕ) (h : History) (view : View) (k : ℕ)
        → IsShown n view (calls cs h) → 1 ≤ k → k ≤ id h
        → id h < k + length view.slots → value_read view (id h) k ≡ counted k h }
{
    entries_are_values();
    calls_lead_to_id()
}

/// A control plane that keeps values, whatever turns it took and whatever messages came: it has no
/// value of a unit for a number exactly where the number is 0 or above the one up to which the
/// unit's rows are collected, or where it doesn't serve the unit.
pub fn values_are_none_exactly()
    ensures none { (net : Net) (a : ℕ) (sizes : Sizes) (ts : List (Turn Msg)) (unit k : ℕ)
        → IsNet net
        → (value_in (turned net a sizes ts).kept unit k ≡ None)
        ↔ IsUncollected (collected_in (turned net a sizes ts).control.units unit) k }
    ensures served { (net : Net) (a : ℕ) (sizes : Sizes) (ts : List (Turn Msg)) (unit : ℕ)
        → IsNet net
        → (collected_in (turned net a sizes ts).control.units unit ≡ None)
        ↔ Each (λ v. unit_place net v.unit ≡ unit → ⊥) (served net a) }
{
    nets_are_wired()
}
