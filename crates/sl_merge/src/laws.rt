// The law of the merge, for any machines.
ghost use Rattle.std.specs.Prelude.{◌≡◌, ◌≤◌, ◌*◌, ℕ, List, length, map, Option};
ghost use Rattle.std.specs.List.{All};
ghost use Rattle.std.specs.List.Sorted.{IsNonDecreasingBy};
ghost use Rattle.sl_machine.specs.Plan.{Plan};
ghost use Rattle.sl_machine.specs.Fit.{Fits};
ghost use Rattle.sl_machine.specs.declared.wiring.Entry.{Entry};
ghost use Rattle.sl_loss.specs.Loss.{Loss, IsFresh};
ghost use Rattle.sl_actor.specs.Follows.{ActorView};
ghost use Rattle.sl_actor.specs.Made.{HasEnds, AreTied};
ghost use Rattle.sl_merge.specs.Merging.{IsMerge, AreLogs};
ghost use Rattle.sl_merge.specs.RunOfActors.{EndedActors, HaveMet, IsMergeOf, IsRunOf, LeftOnLinks};
ghost use Rattle.sl_merge.specs.RunOfActors.{AreLeftOnLinks, StandsAsRun, resumed, log_entries};
ghost use Rattle.sl_merge.specs.Merged.{AreWired, AreKept, losses_before};
ghost use Rattle.sl_merge.specs.Outcome.{Outcome, AreFollowed, IsRun, all_entries};

use sl_machine::Machine;
use sl_world::every_schedule;

/// Whatever actors did at once, the merge of their logs by number is what they could have done one
/// after another: a legal schedule of the world, which leads to the same machines and leaves the
/// same messages on the links. Entries of one number may stand in any order.
pub fn merges_are_runs<A: Machine>()
    ensures { (o : Outcome A.State A.Msg) (book : List Entry) → AreFollowed A.rules o
        → IsMerge (all_entries o) book → IsRun A.rules o book }
{}

/// The same in the words of what actors hold: where each follows the machine of its place and the
/// two ends of each link have met, the merge of the actors' logs leads to their own machines, and
/// leaves on each link what the link held and then its outbox. The logs, joined actor by actor, are
/// what `sort_book` asks for.
pub fn actors_are_runs<A: Machine>()
    ensures run { (e : EndedActors A.State A.Msg) (book : List Entry) → HaveMet A.rules e
        → IsMergeOf e book → IsRunOf A.rules e book }
    ensures logs { (e : EndedActors A.State A.Msg) → HaveMet A.rules e
        → AreLogs (log_entries e.actors) }
    ensures in_order { (e : EndedActors A.State A.Msg) → HaveMet A.rules e
        → IsNonDecreasingBy (λ x. x.actor) (log_entries e.actors) }
{}

/// What `World::resume` makes of such actors, with the merge of their logs as its book, is the world
/// to which that book's schedule leads, but for the numbers of the book.
pub fn merges_are_resumed<A: Machine>()
    ensures { (e : EndedActors A.State A.Msg) (r : LeftOnLinks A.Msg) (book : List Entry)
        → HaveMet A.rules e → AreLeftOnLinks e r → IsMergeOf e book
        → StandsAsRun A.rules e.plan e.firsts e.losses (resumed e r book) }
{
    every_schedule::<A>()
}

/// Actors are wired as they are made, and the losses of their links before they answered are those
/// with which they were made. Turns and runs keep both. So `merge` can take them, where their logs
/// are short.
pub fn made_actors_are_wired<A: Machine>()
    ensures wired { (plan : Plan) (machines : List A) (losses : List (Option Loss))
        (capacity : ℕ) (actors : List (ActorView A.State A.Msg))
        → Fits A.counts plan machines losses → map (λ a. a.counts) actors ≡ map A.counts machines
        → All HasEnds actors
        → AreTied plan.links losses capacity actors → AreWired plan actors }
    ensures losses { (plan : Plan) (losses : List (Option Loss)) (capacity : ℕ)
        (actors : List (ActorView A.State A.Msg)) → AreWired plan actors
        → AreTied plan.links losses capacity actors → length losses ≡ length plan.links
        → All IsFresh losses
        → losses_before plan.links actors ≡ losses }
    ensures kept { (plan : Plan) (old new : List (ActorView A.State A.Msg))
        → AreKept old new → AreWired plan old → AreWired plan new }
    ensures same_losses { (plan : Plan) (old new : List (ActorView A.State A.Msg))
        → AreKept old new → AreWired plan old
        → losses_before plan.links new ≡ losses_before plan.links old }
    ensures few { (bound : ℕ) (actors : List (ActorView A.State A.Msg))
        → All (λ a. length a.log ≤ bound) actors
        → length (log_entries actors) ≤ length actors * bound }
{}
