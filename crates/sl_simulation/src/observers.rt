// The observer's machine stands for the histories of a world. The functions do nothing: their
// contracts are the laws, and the proofs are in proofs/.
ghost use Rattle.std.specs.Prelude.{◌≡◌, ◌≢◌, ◌≤◌, ◌<◌, ◌+◌, ◌^◌, ℕ, [], List, length, map, Some};
ghost use Rattle.std.specs.Prelude.{None};
ghost use Rattle.std.specs.List.{range_with_len};
ghost use Rattle.sl_layout.specs.declared.actor.UnitId.{UnitId};
ghost use Rattle.sl_layout.specs.declared.actor.ActorId.TheVariants.{Unit as OfUnit};
ghost use Rattle.sl_net.specs.declared.input.Snapshot.{Snapshot};
ghost use Rattle.sl_layout.specs.Net.{actor_of, action_choice, units, unit_place, data_channels};
ghost use Rattle.sl_net.specs.Wired.{IsNet};
ghost use Rattle.sl_wire.specs.declared.message.Done.{Done};
ghost use Rattle.sl_wire.specs.declared.message.Msg.{Msg};
ghost use Rattle.sl_wire.specs.Sizes.{Sizes};
ghost use Rattle.sl_observe.specs.Observer.{ObserverState, first_state, observer_take, observer_act};
ghost use Rattle.sl_observe.specs.Observer.{unit_at, seen_of, saved_of, register_floor};
ghost use Rattle.sl_model.specs.declared.message.Message.{Message};
ghost use Rattle.sl_model.specs.declared.message.Message.TheVariants.{Done as DoneMsg};
ghost use Rattle.sl_model.specs.declared.message.Step.{Step};
ghost use Rattle.sl_model.specs.History.{Losses, history, first};
ghost use Rattle.sl_model.specs.Setup.{Setup};
ghost use Rattle.sl_model.specs.Knowledge.{observer, collected, issued, resent, upto_of, floor};
ghost use Rattle.sl_model.specs.End.{IsFinished};
ghost use Rattle.sl_model.specs.Findings.{finding, findings};
ghost use Rattle.sl_model.specs.World.{Entry, next_step, turn, world};
ghost use Rattle.sl_model.specs.Rows.{row};
ghost use Rattle.sl_model.specs.Short.{SendsShort};
ghost use Rattle.sl_model.specs.Accounts.{accounts, finding_by};
ghost use Rattle.sl_simulation.specs.Messages.{IsDoneOf, IsMessage};
ghost use Rattle.sl_simulation.specs.Taking.{TakesMessage};
ghost use Rattle.sl_simulation.specs.ObserverImage.{IsObserverOf, IsTableOf, IsNextReport};
ghost use Rattle.sl_simulation.specs.ObserverImage.{known_at, account_of, seen_by};
ghost use Rattle.sl_simulation.specs.ObserverImage.{ObserverSimulates, ObserverActSimulates};

use sl_model::{
    accounts_give_findings, dones_bring_rows, known_steps_are_made, rows_are_final, rows_are_held,
    worlds_take_turns,
};
use sl_net::{nets_are_wired, nets_have_ways};
use sl_observe::begins_take_all_links;

/// The machine's first state stands for the world in which nothing has happened.
pub fn observers_start()
    ensures { (s : Setup) (lost : Losses) (table : Snapshot)
        → IsObserverOf s.net table (world s lost []) (first_state s.net table) }
{
    worlds_take_turns()
}

/// A turn of another actor changes nothing of what the machine stands for.
pub fn observers_stay()
    ensures { (s : Setup) (lost : Losses) (table : Snapshot) (es : List Entry)
        (e : Entry) (o : ObserverState) → IsNet s.net → e.0 ≢ 0
        → IsObserverOf s.net table (world s lost es) o
        → IsObserverOf s.net table (turn s lost (world s lost es) e) o }
{
    nets_are_wired();
    worlds_take_turns();
    known_steps_are_made()
}

/// A message that the observer takes next, which stands for that of its step by what was told
/// before, leaves a state that stands for the world after the step, and the observer puts nothing.
pub fn observers_take()
    ensures { (s : Setup) (lost : Losses) (table : Snapshot) (es : List Entry)
        (c : ℕ) (sizes : Sizes) (a : ℕ) (told : ℕ → ℕ)
        (step : Step) (m : Message) (x : Msg) (o : ObserverState)
        → TakesMessage s lost es (0, c) step m → IsTableOf s table
        → sizes.credits ≡ table.credits → IsObserverOf s.net table (world s lost es) o
        → IsMessage s.net sizes (λ u. history (world s lost es) u) a
        (known_at (world s lost es)) m x
        → ObserverSimulates s.net table sizes (turn s lost (world s lost es) (0, c)) told step.puts
        (observer_take o c x) }
{
    nets_are_wired();
    worlds_take_turns();
    known_steps_are_made();
    dones_bring_rows()
}

/// A Done of a unit that the observer takes next has the rows of the unit's next numbers, at most as
/// many as a ring holds, and they reach the number that it tells. The machine doesn't ask for the
/// last of these: no world brings another.
pub fn dones_reach_what_they_tell()
    ensures { (s : Setup) (lost : Losses) (table : Snapshot) (es : List Entry)
        (c u n : ℕ) (i : UnitId) (step : Step) (d : Done) (o : ObserverState)
        → TakesMessage s lost es (0, c) step (DoneMsg (unit_place s.net u) n) → IsTableOf s table
        → IsObserverOf s.net table (world s lost es) o → actor_of s.net u ≡ OfUnit i
        → IsDoneOf table.credits s.net u (collected s.net (world s lost es) u)
        (first n (history (world s lost es) u)) d
        → IsNextReport table.ring (unit_at o.units (unit_place s.net u)) d }
{
    nets_are_wired();
    nets_have_ways();
    worlds_take_turns();
    known_steps_are_made();
    dones_bring_rows()
}

/// The observer's machine issues and resends where the world's observer does, leaves a state that
/// stands for the world after the step, and puts the step's Begins.
pub fn observers_act()
    ensures did { (s : Setup) (lost : Losses) (table : Snapshot) (es : List Entry)
        (c : ℕ) (sizes : Sizes) (told : ℕ → ℕ) (step : Step) (o : ObserverState)
        → IsNet s.net → IsTableOf s table → IsObserverOf s.net table (world s lost es) o
        → next_step s lost (world s lost es) (0, c) ≡ Some step → step.taken ≡ None
        → ObserverActSimulates s.net table sizes (turn s lost (world s lost es) (0, c))
        told step.puts (observer_act o c) }
    ensures idle { (s : Setup) (lost : Losses) (table : Snapshot)
        (es : List Entry) (c : ℕ) (o : ObserverState)
        → IsNet s.net → IsTableOf s table → IsObserverOf s.net table (world s lost es) o
        → next_step s lost (world s lost es) (0, c) ≡ None → action_choice s.net 0 ≤ c
        → c < action_choice s.net 0 + 2
        → observer_act o c ≡ None }
{
    nets_are_wired();
    begins_take_all_links();
    worlds_take_turns()
}

/// What the machine tells of its floor, of how many snapshots it issued and how often it resent, and
/// of each unit, is what the world says: the row of a number that is collected is that of the
/// unit's whole history.
pub fn observers_tell()
    ensures floor { (s : Setup) (lost : Losses) (table : Snapshot)
        (es : List Entry) (o : ObserverState) → IsObserverOf s.net table (world s lost es) o
        → register_floor o ≡ floor s.net (world s lost es) }
    ensures issued { (s : Setup) (lost : Losses) (table : Snapshot)
        (es : List Entry) (o : ObserverState) → IsObserverOf s.net table (world s lost es) o
        → o.issued ≡ issued s.net (observer (world s lost es)) }
    ensures resent { (s : Setup) (lost : Losses) (table : Snapshot)
        (es : List Entry) (o : ObserverState) → IsObserverOf s.net table (world s lost es) o
        → o.resent ≡ resent s.net (observer (world s lost es)) }
    ensures units { (s : Setup) (lost : Losses) (table : Snapshot)
        (es : List Entry) (o : ObserverState) → IsObserverOf s.net table (world s lost es) o
        → length o.units ≡ length (units s.net) }
    ensures seen { (s : Setup) (lost : Losses) (table : Snapshot)
        (es : List Entry) (o : ObserverState) (u : ℕ) (i : UnitId)
        → IsObserverOf s.net table (world s lost es) o → actor_of s.net u ≡ OfUnit i
        → seen_of (unit_at o.units (unit_place s.net u)) ≡ seen_by s.net (world s lost es) u }
    ensures saved { (s : Setup) (lost : Losses) (table : Snapshot)
        (es : List Entry) (o : ObserverState) (u k : ℕ) (i : UnitId)
        → IsNet s.net → IsTableOf s table → SendsShort s → length es < 2 ^ 40
        → IsObserverOf s.net table (world s lost es) o
        → actor_of s.net u ≡ OfUnit i → 1 ≤ k
        → k ≤ upto_of s.net u (collected s.net (world s lost es) u)
        → saved_of (unit_at o.units (unit_place s.net u)) k
        ≡ Some (row s.credits (data_channels s.net u) k (history (world s lost es) u)) }
    ensures unsaved { (s : Setup) (lost : Losses) (table : Snapshot)
        (es : List Entry) (o : ObserverState) (u k : ℕ) (i : UnitId)
        → IsObserverOf s.net table (world s lost es) o → actor_of s.net u ≡ OfUnit i
        → upto_of s.net u (collected s.net (world s lost es) u) < k
        → saved_of (unit_at o.units (unit_place s.net u)) k ≡ None }
{
    nets_are_wired();
    nets_have_ways();
    rows_are_held();
    rows_are_final()
}

/// The machine's units are the accounts of the units of the world, and give its findings: up to the
/// floor at any time, and in a finished world all.
pub fn observers_give_findings()
    ensures accounts { (s : Setup) (lost : Losses) (table : Snapshot)
        (es : List Entry) (o : ObserverState)
        → IsNet s.net → IsTableOf s table → SendsShort s → length es < 2 ^ 40
        → IsObserverOf s.net table (world s lost es) o
        → map account_of o.units ≡ accounts s.credits s.net (world s lost es) }
    ensures collected { (s : Setup) (lost : Losses) (table : Snapshot)
        (es : List Entry) (o : ObserverState) (k : ℕ)
        → IsNet s.net → IsTableOf s table → SendsShort s → length es < 2 ^ 40
        → IsObserverOf s.net table (world s lost es) o
        → 1 ≤ k → k ≤ floor s.net (world s lost es)
        → finding_by o.issued (map account_of o.units) k
        ≡ finding s.credits s.net lost (world s lost es) k }
    ensures list { (s : Setup) (lost : Losses) (table : Snapshot)
        (es : List Entry) (o : ObserverState)
        → IsNet s.net → IsTableOf s table → SendsShort s → length es < 2 ^ 40
        → IsObserverOf s.net table (world s lost es) o → IsFinished s lost (world s lost es)
        → map (finding_by o.issued (map account_of o.units)) (range_with_len 1 s.count)
        ≡ (findings s lost es).list }
{
    nets_are_wired();
    rows_are_held();
    accounts_give_findings()
}
