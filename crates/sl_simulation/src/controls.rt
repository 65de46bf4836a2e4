// The machine of a control plane stands for its history, over all schedules and losses. The
// functions do nothing: their contracts are the laws, and the proofs are in proofs/.
ghost use Rattle.std.specs.Prelude.{◌≡◌, ◌≢◌, ℕ, ◌<◌, ◌≤◌, ◌^◌, List, length, flat_map, true};
ghost use Rattle.std.specs.Prelude.{false, Some, None, slice_get};
ghost use Rattle.sl_parts.specs.Lists.{Each};
ghost use Rattle.sl_layout.specs.Serving.{served};
ghost use Rattle.sl_wire.specs.declared.message.Dump.{Dump};
ghost use Rattle.sl_model.specs.declared.message.Message.TheVariants.{Dump as DumpMsg};
ghost use Rattle.sl_layout.specs.declared.actor.ActorId.TheVariants.{Control};
ghost use Rattle.sl_layout.specs.Net.{Net, actor_of, link_of, link_at, links_into, action_choice};
ghost use Rattle.sl_net.specs.Wired.{IsNet};
ghost use Rattle.sl_wire.specs.declared.message.Msg.{Msg};
ghost use Rattle.sl_wire.specs.Sizes.{Sizes};
ghost use Rattle.sl_control.specs.Control.{ControlState, numbers_told, control_take, control_act};
ghost use Rattle.sl_control.specs.Wires.{control_of, first_control};
ghost use Rattle.sl_model.specs.declared.message.Message.{Message};
ghost use Rattle.sl_model.specs.declared.message.Step.{Step};
ghost use Rattle.sl_model.specs.History.{History, Losses, history, first};
ghost use Rattle.sl_model.specs.Fit.{fits_link};
ghost use Rattle.sl_model.specs.Knowledge.{is_swept};
ghost use Rattle.sl_model.specs.Polls.{IsAsked};
ghost use Rattle.sl_model.specs.Puts.{control_puts, poll_puts};
ghost use Rattle.sl_model.specs.Setup.{Setup};
ghost use Rattle.sl_model.specs.World.{Entry, start, taking, acting, next_step, turn, world};
ghost use Rattle.sl_simulation.specs.Messages.{HoldWindow, IsMessage, IsDumpOf, numbers_after};
ghost use Rattle.sl_simulation.specs.Taking.{TakesMessage};
ghost use Rattle.sl_simulation.specs.ControlImage.{known_of, IsControlOf, ControlSimulates};
ghost use Rattle.sl_simulation.specs.ControlImage.{ControlActSimulates, GrowsBy, Awaits};

use sl_ids::numbers_near_are_unwrapped;
use sl_model::{
    brought_rows_are_read, dumps_answer_polls, dumps_bring_rows, known_steps_are_made,
    last_seen_numbers_are_below, worlds_are_in_window, worlds_take_turns,
};
use sl_net::nets_are_wired;

/// At the start the machine of a control plane stands for the world at the start. The machine of a
/// device is that of the actor which is its control plane.
pub fn controls_start()
    ensures place { (net : Net) (a d : ℕ) → IsNet net → actor_of net a ≡ Control d
        → control_of net d ≡ a }
    ensures stands { (net : Net) (a : ℕ) (sizes : Sizes)
        → IsControlOf net sizes (history (start net)) a (first_control net a sizes) }
{
    nets_are_wired();
    worlds_take_turns()
}

/// The wrapped ids of the next dump that a control plane takes from a unit stand, relative to the
/// numbers that it knows, for the numbers that the unit had when it put the dump. Ids hold a window.
pub fn dumps_are_unwrapped()
    ensures { (s : Setup) (lost : Losses) (es : List Entry) (e : Entry)
        (n : ℕ) (sizes : Sizes) (step : Step) (d : Dump)
        → TakesMessage s lost es e step (DumpMsg n) → HoldWindow s.window sizes
        → Each (λ v. step.choice ≡ v.dump
        → IsDumpOf s.net sizes v.unit (first n (history (world s lost es) v.unit)) d
        → numbers_told sizes.bits d (known_of s.net (history (world s lost es)) e.0 v)
        ≡ numbers_after s.net v.unit (first n (history (world s lost es) v.unit)))
        (served s.net e.0) }
{
    dumps_bring_rows();
    numbers_near_are_unwrapped()
}

/// A machine that stands for a control plane's history, and takes what stands for the message of
/// its next step, stands for the history with this step, and its puts are those of the step. Ids and
/// rings hold a window.
pub fn controls_take()
    ensures { (s : Setup) (lost : Losses) (es : List Entry) (e : Entry)
        (d : ℕ) (sizes : Sizes) (step : Step) (m : Message)
        (told : ℕ → ℕ) (x : Msg) (t : ControlState) → TakesMessage s lost es e step m
        → actor_of s.net e.0 ≡ Control d → HoldWindow s.window sizes
        → 1 ≤ sizes.credits → length es < 2 ^ 40
        → IsMessage s.net sizes (history (world s lost es))
        (link_of s.net (link_at s.net e.0 e.1)).from told m x
        → IsControlOf s.net sizes (history (world s lost es)) e.0 t
        → ControlSimulates s.net sizes (history (world s lost es))
        (history (turn s lost (world s lost es) e)) e.0 step.puts (control_take t e.1 x) }
{
    nets_are_wired();
    brought_rows_are_read();
    worlds_take_turns();
    worlds_are_in_window();
    dumps_answer_polls();
    dumps_bring_rows();
    last_seen_numbers_are_below();
    numbers_near_are_unwrapped()
}

/// Such a machine acts where the control plane's next step is its sweep, and then stands for the
/// history with this step, and its puts are those of the step; where there is no next step, it is
/// idle.
pub fn controls_act()
    ensures acts { (s : Setup) (lost : Losses) (es : List Entry) (e : Entry)
        (d : ℕ) (sizes : Sizes) (step : Step) (t : ControlState) → IsNet s.net
        → actor_of s.net e.0 ≡ Control d → next_step s lost (world s lost es) e ≡ Some step
        → step.taken ≡ None
        → IsControlOf s.net sizes (history (world s lost es)) e.0 t
        → ControlActSimulates s.net sizes (history (world s lost es))
        (history (turn s lost (world s lost es) e)) e.0 step.puts (control_act t e.1) }
    ensures idle { (s : Setup) (lost : Losses) (es : List Entry) (e : Entry)
        (d : ℕ) (sizes : Sizes) (t : ControlState)
        → actor_of s.net e.0 ≡ Control d → next_step s lost (world s lost es) e ≡ None
        → IsControlOf s.net sizes (history (world s lost es)) e.0 t → control_act t e.1 ≡ None }
{
    nets_are_wired();
    worlds_take_turns();
    dumps_answer_polls()
}

/// The same of any state that stands for histories, whether a schedule leads there or not: where no
/// more dumps came from a unit than polls went to it, and at most one poll more went, and a dump that
/// comes answers a poll and tells numbers within the window above those that are known, the turn is
/// the step of the history. ws gives the histories after it.
pub fn controls_step_from_any_state()
    ensures takes { (net : Net) (sizes : Sizes) (window a c d l : ℕ)
        (us ws : ℕ → History) (m : Message) (told : ℕ → ℕ) (x : Msg) (t : ControlState)
        → IsNet net → actor_of net a ≡ Control d → HoldWindow window sizes → 1 ≤ sizes.credits
        → slice_get (links_into net a) c ≡ Some l → fits_link net l m ≡ true
        → Each (λ v. IsAsked v (us a)) (served net a) → Awaits net sizes window us a c m
        → GrowsBy us ws a (taking c m (control_puts net a (us a) c m))
        → IsMessage net sizes us (link_of net l).from told m x → IsControlOf net sizes us a t
        → ControlSimulates net sizes us ws a (control_puts net a (us a) c m) (control_take t c x) }
    ensures sweeps { (net : Net) (sizes : Sizes) (a d : ℕ) (us ws : ℕ → History) (t : ControlState)
        → IsNet net → actor_of net a ≡ Control d → Each (λ v. IsAsked v (us a)) (served net a)
        → is_swept net a (us a) ≡ false
        → GrowsBy us ws a
        (acting (action_choice net a) (flat_map (λ v. poll_puts v (us a)) (served net a)))
        → IsControlOf net sizes us a t
        → ControlActSimulates net sizes us ws a (flat_map (λ v. poll_puts v (us a)) (served net a))
        (control_act t (action_choice net a)) }
{
    nets_are_wired();
    brought_rows_are_read();
    last_seen_numbers_are_below();
    numbers_near_are_unwrapped()
}

/// It stands for the world after a turn of any other actor.
pub fn controls_stay()
    ensures { (s : Setup) (lost : Losses) (es : List Entry) (e : Entry)
        (a : ℕ) (sizes : Sizes) (t : ControlState) → IsNet s.net → a ≢ e.0
        → IsControlOf s.net sizes (history (world s lost es)) a t
        → IsControlOf s.net sizes (history (turn s lost (world s lost es) e)) a t }
{
    nets_are_wired();
    worlds_take_turns();
    known_steps_are_made()
}
