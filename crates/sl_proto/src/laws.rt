// Laws of worlds of machines. The functions do nothing: their contracts are the laws, and the
// proofs are in proofs/.
ghost use Rattle.std.specs.Prelude.{◌≡◌, ℕ, ◌≤◌, List, [], ◌++◌, length, Some};
ghost use Rattle.sl_machine.specs.declared.wiring.Entry.{Entry as BookEntry};
ghost use Rattle.sl_layout.specs.declared.actor.UnitId.{UnitId};
ghost use Rattle.sl_layout.specs.declared.actor.ActorId.TheVariants.{Unit as OfUnit};
ghost use Rattle.sl_layout.specs.Net.{Net, actor_of, choice_of, unit_place};
ghost use Rattle.sl_net.specs.Wired.{IsNet, Reports};
ghost use Rattle.sl_wire.specs.declared.message.Msg.{Msg};
ghost use Rattle.sl_wire.specs.Sizes.{Sizes};
ghost use Rattle.sl_model.specs.declared.message.Message.TheVariants.{Done as DoneMsg};
ghost use Rattle.sl_model.specs.declared.message.Put.{Put};
ghost use Rattle.sl_model.specs.declared.message.Step.{Step};
ghost use Rattle.sl_parts.specs.Lists.{Each};
ghost use Rattle.sl_model.specs.History.{History, Losses, history, on_link};
ghost use Rattle.sl_model.specs.Setup.{Setup};
ghost use Rattle.sl_model.specs.Knowledge.{observer, dumped, known};
ghost use Rattle.sl_model.specs.World.{Entry, next_step, world};
ghost use Rattle.sl_model.specs.Books.{schedule_of};
ghost use Rattle.sl_simulation.specs.Messages.{AreSent};
ghost use Rattle.sl_proto.specs.Image.{told_on, told_by, ArePut};
ghost use Rattle.sl_proto.specs.Spread.{ArePutFrom};
ghost use Rattle.sl_proto.specs.Runs.{grown, IsBookOfTurns};

use sl_model::{dones_tell_dumps, known_steps_are_made, links_pass_messages, worlds_take_turns};
use sl_net::nets_are_wired;

/// A step puts its messages on links from its actor, and at most one on each.
pub fn steps_spread_their_puts()
    ensures from { (s : Setup) (lost : Losses) (es : List Entry) (e : Entry) (step : Step)
        → IsNet s.net
        → next_step s lost (world s lost es) e ≡ Some step → ArePutFrom s.net e.0 step.puts }
    ensures one { (s : Setup) (lost : Losses) (es : List Entry) (e : Entry) (step : Step) (l : ℕ)
        → IsNet s.net
        → next_step s lost (world s lost es) e ≡ Some step → length (on_link l step.puts) ≤ 1 }
{
    nets_are_wired();
    worlds_take_turns()
}

/// Puts stand for those of a step by what was told on each link before, where they do so by one
/// account of what was told that agrees with it for each Done, or by any account at all.
pub fn sent_messages_are_put()
    ensures told { (net : Net) (sizes : Sizes) (us : ℕ → History)
        (a : ℕ) (told : ℕ → ℕ) (h : History) (ps : List Put)
        (xs : List (ℕ × Msg))
        → Each (λ p. (place n : ℕ) → p.message ≡ DoneMsg place n
        → told place ≡ told_on p.link h place) ps
        → AreSent net sizes us a told ps xs → ArePut net sizes us a h ps xs }
    ensures any { (net : Net) (sizes : Sizes) (us : ℕ → History) (a : ℕ)
        (h : History) (ps : List Put) (xs : List (ℕ × Msg))
        → ((told : ℕ → ℕ) → AreSent net sizes us a told ps xs) → ArePut net sizes us a h ps xs }
{}

/// What a control plane told of a unit is what the last dump told that it took of it, and what the
/// observer was told of it is what it knows.
pub fn dones_told_what_is_known()
    ensures put { (s : Setup) (lost : Losses) (es : List Entry) (u : ℕ)
        (i : UnitId) (r : Reports s.net u)
        → actor_of s.net u ≡ OfUnit i → told_on r.done (history (world s lost es) r.control)
        (unit_place s.net u)
        ≡ dumped (choice_of s.net r.dump) (history (world s lost es) r.control) }
    ensures taken { (s : Setup) (lost : Losses) (es : List Entry)
        (u : ℕ) (i : UnitId) (r : Reports s.net u) → IsNet s.net → actor_of s.net u ≡ OfUnit i
        → told_by (choice_of s.net r.done) (observer (world s lost es)) (unit_place s.net u)
        ≡ known (unit_place s.net u) (observer (world s lost es)) }
{
    nets_are_wired();
    worlds_take_turns();
    links_pass_messages();
    known_steps_are_made();
    dones_tell_dumps()
}

/// A book that grows by turns, and then by more, grows by these one after the other. Its schedule
/// grows by the same turns. What grows from an empty book is numbered from 1.
pub fn books_grow_by_turns()
    ensures append { (book : List BookEntry) (es fs : List Entry)
        → grown (grown book es) fs ≡ grown book (es ++ fs) }
    ensures schedule { (book : List BookEntry) (es : List Entry)
        → schedule_of (grown book es) ≡ schedule_of book ++ es }
    ensures numbers { (es : List Entry) → IsBookOfTurns (record { entries = grown [] es }) es }
{}
