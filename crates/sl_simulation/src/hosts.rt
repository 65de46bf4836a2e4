// A host's machine stands for the host's history. The functions do nothing: their contracts are the
// laws, and the proofs are in proofs/.
ghost use Rattle.std.specs.Prelude.{◌≡◌, ◌≢◌, ◌<◌, ◌^◌, ℕ, [], List, length, Some, None, slice_get};
ghost use Rattle.sl_layout.specs.declared.actor.ActorId.TheVariants.{Host as OfHost};
ghost use Rattle.sl_net.specs.Input.{Input};
ghost use Rattle.sl_layout.specs.Net.{Net, action_choice, links_into, links_from};
ghost use Rattle.sl_net.specs.Wired.{IsNet};
ghost use Rattle.sl_wire.specs.declared.message.Msg.{Msg};
ghost use Rattle.sl_wire.specs.Sizes.{Sizes};
ghost use Rattle.sl_host.specs.Host.{HostState, messages_of, host_take, host_act};
ghost use Rattle.sl_model.specs.declared.message.Message.{Message};
ghost use Rattle.sl_model.specs.declared.message.Step.{Step};
ghost use Rattle.sl_model.specs.History.{Losses, history};
ghost use Rattle.sl_model.specs.Setup.{Setup, setup_of};
ghost use Rattle.sl_model.specs.World.{Entry, next_step, turn, world};
ghost use Rattle.sl_simulation.specs.HostImage.{IsHostOf, HostSimulates, HostActSimulates};
ghost use Rattle.sl_simulation.specs.Messages.{IsMessage};
ghost use Rattle.sl_simulation.specs.Taking.{TakesMessage};

use sl_model::worlds_take_turns;
use sl_net::nets_are_wired;

/// A host has one link to it and one from it.
pub fn hosts_have_two_links()
    ensures ins { (net : Net) (a i : ℕ) → IsNet net → slice_get net.actors a ≡ Some (OfHost i)
        → length (links_into net a) ≡ 1 }
    ensures outs { (net : Net) (a i : ℕ) → IsNet net → slice_get net.actors a ≡ Some (OfHost i)
        → length (links_from net a) ≡ 1 }
{
    nets_are_wired()
}

/// The first state of a host's machine stands for the empty history.
pub fn hosts_start()
    ensures { (i : Input) (lost : Losses) (a h : ℕ)
        → IsHostOf (setup_of i) a h (world (setup_of i) lost [])
        (record { messages = messages_of i h; sent = 0; delivered = 0 }) }
{
    worlds_take_turns()
}

/// A turn of another actor changes nothing of what the machine stands for.
pub fn hosts_stay()
    ensures { (s : Setup) (lost : Losses) (es : List Entry) (a i : ℕ) (e : Entry) (o : HostState)
        → e.0 ≢ a
        → IsHostOf s a i (world s lost es) o → IsHostOf s a i (turn s lost (world s lost es) e) o }
{
    worlds_take_turns()
}

/// A message that a host takes next, which stands for that of its step, leaves a state that stands
/// for the world after the step, and the host puts nothing.
pub fn hosts_take()
    ensures { (s : Setup) (lost : Losses) (es : List Entry) (a c i : ℕ)
        (sizes : Sizes) (b : ℕ) (told before : ℕ → ℕ)
        (step : Step) (m : Message) (x : Msg) (o : HostState)
        → TakesMessage s lost es (a, c) step m → slice_get s.net.actors a ≡ Some (OfHost i)
        → length es < 2 ^ 40 → IsHostOf s a i (world s lost es) o
        → IsMessage s.net sizes (λ u. history (world s lost es) u) b before m x
        → HostSimulates s sizes a i (turn s lost (world s lost es) (a, c)) told step.puts
        (host_take o c x) }
{
    nets_are_wired();
    worlds_take_turns()
}

/// A host's machine injects where the world's host does, leaves a state that stands for the world
/// after the step, and puts the step's frame.
pub fn hosts_act()
    ensures did { (s : Setup) (lost : Losses) (es : List Entry) (a c i : ℕ)
        (sizes : Sizes) (told : ℕ → ℕ) (step : Step) (o : HostState)
        → IsNet s.net → slice_get s.net.actors a ≡ Some (OfHost i)
        → IsHostOf s a i (world s lost es) o
        → next_step s lost (world s lost es) (a, c) ≡ Some step → step.taken ≡ None
        → HostActSimulates s sizes a i (turn s lost (world s lost es) (a, c)) told step.puts
        (host_act o c) }
    ensures idle { (s : Setup) (lost : Losses) (es : List Entry) (a i : ℕ) (o : HostState)
        → slice_get s.net.actors a ≡ Some (OfHost i)
        → IsHostOf s a i (world s lost es) o
        → next_step s lost (world s lost es) (a, action_choice s.net a) ≡ None
        → host_act o (action_choice s.net a) ≡ None }
{
    nets_are_wired();
    worlds_take_turns()
}
