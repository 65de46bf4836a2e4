// Laws of the machines of units: each stands for its unit's history, whatever the schedule. The
// functions do nothing: their contracts are the laws, and the proofs are in proofs/.
ghost use Rattle.std.specs.Prelude.{◌≡◌, ℕ, ◌^◌, ◌<◌, ◌≤◌, List, [], ◌∷◌, length, slice_get};
ghost use Rattle.std.specs.Prelude.{Some, None, IsSome};
ghost use Rattle.sl_ids.specs.Ids.{modulus};
ghost use Rattle.sl_layout.specs.declared.actor.ActorId.TheVariants.{Unit as OfUnit};
ghost use Rattle.sl_layout.specs.declared.actor.Side.TheVariants.{Ingress, Egress};
ghost use Rattle.sl_layout.specs.declared.actor.UnitId.{UnitId};
ghost use Rattle.sl_net.specs.declared.input.Snapshot.{Snapshot};
ghost use Rattle.sl_layout.specs.Net.{Net, actor_of, links_into};
ghost use Rattle.sl_net.specs.Wired.{IsNet};
ghost use Rattle.sl_wire.specs.declared.message.Msg.{Msg};
ghost use Rattle.sl_wire.specs.Sizes.{sizes_of};
ghost use Rattle.sl_unit.specs.Made.{IsRanged, ingress_state, egress_state};
ghost use Rattle.sl_unit.specs.Step.{UnitState, unit_rules};
ghost use Rattle.sl_unit.specs.Units.{shown_counts};
ghost use Rattle.sl_model.specs.declared.message.Message.{Message};
ghost use Rattle.sl_model.specs.declared.message.Step.{Step};
ghost use Rattle.sl_model.specs.History.{History, Losses, history, id, last, stamp_taken};
ghost use Rattle.sl_model.specs.Counting.{packets, bytes, bad, expired, noroute};
ghost use Rattle.sl_model.specs.Setup.{Setup};
ghost use Rattle.sl_model.specs.World.{Entry, next_step, turn, world};
ghost use Rattle.sl_simulation.specs.Messages.{CarryIds, IsMessage};
ghost use Rattle.sl_simulation.specs.Taking.{TakesMessage};
ghost use Rattle.sl_model.specs.Short.{SendsShort};
ghost use Rattle.sl_simulation.specs.UnitImage.{IsDistance, IsUnitOf, UnitSimulates, CanTake};
ghost use Rattle.sl_simulation.specs.UnitImage.{step_on, dropped};

use sl_ids::distances_are_differences;
use sl_model::{
    counts_fit, last_seen_numbers_are_below, packets_are_short, stamps_are_in_window,
    worlds_take_turns,
};
use sl_net::nets_are_wired;
use sl_saves::calls_are_shown;
use sl_unit::ways_are_links;
use sl_wire::one_frame;

/// The state of a new unit stands for the empty history.
pub fn new_units_stand()
    ensures ingress { (net : Net) (table : Snapshot) (u : ℕ) (i : UnitId)
        → IsRanged table → i.side ≡ Ingress
        → IsUnitOf net table u i [] (ingress_state net u table) }
    ensures egress { (net : Net) (table : Snapshot) (u : ℕ) (i : UnitId)
        → IsRanged table → i.side ≡ Egress
        → IsUnitOf net table u i [] (egress_state net u table) }
{
    calls_are_shown()
}

/// Of the stamp that a unit's next step takes, and of the unit's id, the wrapped ids tell how far the
/// numbers lie above the last-seen number of the link, since neither lies the modulus above it.
pub fn stamps_are_read()
    ensures stamp { (s : Setup) (bits : ℕ) (lost : Losses) (es : List Entry)
        (e : Entry) (i : UnitId) (step : Step) (j : ℕ) → IsNet s.net
        → s.window < modulus bits → actor_of s.net e.0 ≡ OfUnit i
        → next_step s lost (world s lost es) e ≡ Some step → stamp_taken step ≡ Some j
        → IsDistance bits (last step.choice (history (world s lost es) e.0)) j }
    ensures id { (s : Setup) (bits : ℕ) (lost : Losses) (es : List Entry)
        (e : Entry) (i : UnitId) (step : Step) (j : ℕ) → IsNet s.net
        → s.window < modulus bits → actor_of s.net e.0 ≡ OfUnit i
        → next_step s lost (world s lost es) e ≡ Some step → stamp_taken step ≡ Some j
        → IsDistance bits (last step.choice (history (world s lost es) e.0))
        (id (history (world s lost es) e.0)) }
{
    stamps_are_in_window();
    distances_are_differences()
}

/// Where the state of a unit stands for its history, and a message stands for the one that its next
/// step takes, the state after the machine takes it stands for the history after the step, and
/// what the machine puts stands for the step's puts. Each step of a unit takes a message, from
/// the link of its entry's choice, and its machine has no actions.
pub fn units_take_messages()
    ensures follows { (s : Setup) (table : Snapshot) (lost : Losses)
        (es : List Entry) (u c a : ℕ) (i : UnitId) (step : Step) (m : Message)
        (x : Msg) (state : UnitState) (us : ℕ → History) (was told : ℕ → ℕ)
        → TakesMessage s lost es (u, c) step m → s.window ≡ table.window
        → table.window < modulus table.width → table.window ≤ table.ring → CarryIds s.net table
        → SendsShort s → length es < 2 ^ 40 → actor_of s.net u ≡ OfUnit i
        → IsMessage s.net (sizes_of table) us a was m x
        → IsUnitOf s.net table u i (history (world s lost es) u) state
        → UnitSimulates s.net table u i (λ b. history (turn s lost (world s lost es) (u, c)) b)
        told step.puts (unit_rules.take state c x) }
    ensures choice { (s : Setup) (lost : Losses) (es : List Entry) (u c : ℕ) (step : Step)
        → next_step s lost (world s lost es) (u, c) ≡ Some step → step.choice ≡ c }
    ensures takes { (s : Setup) (lost : Losses) (es : List Entry)
        (u c : ℕ) (i : UnitId) (step : Step) → actor_of s.net u ≡ OfUnit i
        → next_step s lost (world s lost es) (u, c) ≡ Some step → IsSome step.taken }
    ensures link { (s : Setup) (lost : Losses) (es : List Entry) (u c : ℕ)
        (i : UnitId) (step : Step) → actor_of s.net u ≡ OfUnit i
        → next_step s lost (world s lost es) (u, c) ≡ Some step
        → IsSome (slice_get (links_into s.net u) c) }
    ensures acts { (state : UnitState) (action : ℕ) → unit_rules.act state action ≡ None }
{
    nets_are_wired();
    worlds_take_turns();
    stamps_are_in_window();
    packets_are_short();
    last_seen_numbers_are_below();
    counts_fit();
    distances_are_differences();
    one_frame();
    ways_are_links()
}

/// The same of any state that stands for a history of the unit, whether a schedule leads there or not:
/// where a stamp that comes is read from the last-seen number of its link on, at most the window above
/// it, and the unit's id lies at most the window above it, the turn is the step of the history. vs
/// gives the histories after it.
pub fn units_step_from_any_state()
    ensures { (net : Net) (table : Snapshot) (u c l a : ℕ) (i : UnitId)
        (h : History) (m : Message) (x : Msg) (state : UnitState)
        (us vs : ℕ → History) (was told : ℕ → ℕ) → IsNet net → table.window < modulus table.width
        → table.window ≤ table.ring
        → CarryIds net table → actor_of net u ≡ OfUnit i → CanTake net table u c l h m
        → IsMessage net (sizes_of table) us a was m x → IsUnitOf net table u i h state
        → vs u ≡ step_on net u i h c l m ∷ h
        → UnitSimulates net table u i vs told (step_on net u i h c l m).puts
        (unit_rules.take state c x) }
{
    nets_are_wired();
    last_seen_numbers_are_below();
    counts_fit();
    distances_are_differences();
    one_frame();
    ways_are_links()
}

/// In the turn of another actor the state of a unit stands for its history as before.
pub fn units_stay()
    ensures { (s : Setup) (table : Snapshot) (lost : Losses) (es : List Entry)
        (u : ℕ) (i : UnitId) (e : Entry) (state : UnitState)
        → (u ≡ e.0 → ⊥) → IsUnitOf s.net table u i (history (world s lost es) u) state
        → IsUnitOf s.net table u i (history (turn s lost (world s lost es) e) u) state }
{
    worlds_take_turns()
}

/// What a unit shows that it counted is what its history says.
pub fn unit_counts_are_told()
    ensures { (net : Net) (table : Snapshot) (u : ℕ) (i : UnitId) (h : History) (state : UnitState)
        → IsUnitOf net table u i h state
        → shown_counts state.registers ≡ record {
          packets = packets h;
          bytes = bytes h;
          bad = dropped i.side (bad h);
          expired = dropped i.side (expired h);
          noroute = dropped i.side (noroute net.parts i.device h);
        } }
{}
