// What holds of the observer whatever its turns are. The functions do nothing: their contracts
// are the laws, and the proofs are in proofs/.
ghost use Rattle.std.specs.Prelude.{◌≡◌, ◌≤◌, ◌+◌, ◌⊎◌, ℕ, List, Some};
ghost use Rattle.std.specs.List.{All};
ghost use Rattle.sl_machine.specs.Machine.{After};
ghost use Rattle.sl_machine.specs.Turns.{Turn, after};
ghost use Rattle.sl_layout.specs.Net.{Net, links_from, links_out};
ghost use Rattle.sl_net.specs.Wired.{IsNet};
ghost use Rattle.sl_layout.specs.declared.actor.Sort.TheVariants.{Begin as BeginSort};
ghost use Rattle.sl_saves.specs.declared.entry.Saved.{Saved};
ghost use Rattle.sl_wire.specs.declared.message.Msg.{Msg};
ghost use Rattle.sl_wire.specs.declared.message.Msg.TheVariants.{Begin};
ghost use Rattle.sl_observe.specs.Observer.{ObserverState, unit_at, saved_of, register_floor};
ghost use Rattle.sl_observe.specs.Observer.{observer_act, observer_rules};
ghost use Rattle.sl_observe.specs.Turns.{IsReported};

use sl_net::nets_are_wired;

/// Each link that leads from the observer carries begins. So a begin on each of them is one to each
/// control plane.
pub fn begins_take_all_links()
    ensures { (net : Net) → IsNet net → links_out net 0 BeginSort ≡ links_from net 0 }
{
    nets_are_wired();
}

/// A row that was collected stays as it is, whatever comes later.
pub fn rows_stay()
    ensures { (s : ObserverState) (ts : List (Turn Msg)) (unit k : ℕ) (row : Saved)
        → saved_of (unit_at s.units unit) k ≡ Some row
        → saved_of (unit_at (after observer_rules s ts).state.units unit) k ≡ Some row }
{}

/// A row that is collected was so before, or a Done on its unit was taken that has it for its
/// number.
pub fn rows_come_in_reports()
    ensures { (s : ObserverState) (ts : List (Turn Msg)) (unit k : ℕ) (row : Saved)
        → saved_of (unit_at (after observer_rules s ts).state.units unit) k ≡ Some row
        → (saved_of (unit_at s.units unit) k ≡ Some row) ⊎ IsReported ts unit k row }
{}

/// No more snapshots are issued than are asked for. Each begin that is put is of the last snapshot
/// issued, and where that is a new one, it lies within the window above the floor.
pub fn issues_are_bounded()
    ensures count { (s : ObserverState) (ts : List (Turn Msg)) → s.issued ≤ s.snapshot.count
        → (after observer_rules s ts).state.issued ≤ s.snapshot.count }
    ensures begun { (s : ObserverState) (action : ℕ) (next : After ObserverState Msg)
        → observer_act s action ≡ Some next
        → All (λ (p : ℕ × Msg). p.1 ≡ Begin next.state.issued) next.puts }
    ensures window { (s : ObserverState) (action : ℕ) (next : After ObserverState Msg)
        → observer_act s action ≡ Some next
        → (next.state.issued ≤ s.issued)
        ⊎ (next.state.issued ≤ register_floor s + s.snapshot.window) }
{}
