// Laws of scenes of machines that follow the steps of histories, for any machines. The functions
// do nothing: their contracts are the laws, and the proofs are in proofs/.
ghost use Rattle.std.specs.Prelude.{◌≡◌, ℕ, ◌+◌, ◌^◌, ◌<◌, List, ◌++◌, length, Option, Some};
ghost use Rattle.sl_loss.specs.Loss.{Loss};
ghost use Rattle.sl_layout.specs.Wiring.{plan_of};
ghost use Rattle.sl_wire.specs.declared.message.Msg.{Msg};
ghost use Rattle.sl_wire.specs.Sizes.{Sizes};
ghost use Rattle.sl_model.specs.History.{World, Losses};
ghost use Rattle.sl_model.specs.Setup.{Setup};
ghost use Rattle.sl_model.specs.World.{Entry, start, next_step, turn, run, world, IsLegalFrom};
ghost use Rattle.sl_model.specs.World.{IsLegal, kept};
ghost use Rattle.sl_world.specs.Scene.{Scene, first_scene, turn_of, after_all, run_of, last_number};
ghost use Rattle.sl_world.specs.Scene.{kept as scene_kept};
ghost use Rattle.sl_world.specs.Legal.{numbered_from};
ghost use Rattle.sl_proto.specs.Runs.{IsBookOfTurns};
ghost use Rattle.sl_proto.specs.Image.{IsImage, IsTurned, IsFirst};
ghost use Rattle.sl_proto.specs.Machines.{Shown, world_shown, kept_shown, Begun, scene_begun};

use sl_model::{known_steps_are_made, links_pass_messages, worlds_take_turns};
use sl_net::nets_are_wired;

/// What the states of machines stand for.
pub trait Meaning {
    ghost State: { Type 0 };

    /// What this hangs on, as the setup of a run.
    ghost Index: { Type 0 };

    /// In this world of histories, this is the state of this actor.
    ghost stands: { Index → World → ℕ → State → Type 0 };
}

/// The first scene stands for the world where nothing has happened.
pub fn first_scenes_stand<I: Meaning>()
    ensures { (i : I.Index) (s : Setup) (lost : Losses) (sizes : Sizes)
        (states : List I.State) (losses : List (Option Loss))
        → IsFirst s lost (I.stands i) states losses
        → IsImage s lost sizes (I.stands i) (start s.net)
        (first_scene (plan_of s.net) states losses) }
{
    worlds_take_turns()
}

/// A turn of a scene that stands for a world is idle where the actor makes no step, and else leads
/// to a scene that stands for the world after this step.
pub fn turns_follow_steps<I: Meaning>()
    ensures { (i : I.Index) (t : Shown (I.stands i)) (a c : ℕ) → length t.turns < 2 ^ 40
        → IsTurned t.setup t.lost t.sizes (I.stands i)
        (turn t.setup t.lost (world_shown t) (a, c))
        (next_step t.setup t.lost (world_shown t) (a, c)) (turn_of t.rules t.scene a c) }
{
    nets_are_wired();
    worlds_take_turns();
    links_pass_messages();
    known_steps_are_made()
}

/// A schedule leads from a scene that stands for a world to one that stands for the world after
/// this schedule. The same entries are idle in both, so it is legal in both or in neither, and the
/// book gains the others, each with a number one above the last.
pub fn schedules_follow_histories<I: Meaning>()
    ensures image { (i : I.Index) (t : Shown (I.stands i)) (fs : List Entry)
        → length t.turns + length fs < 2 ^ 40
        → IsImage t.setup t.lost t.sizes (I.stands i) (run t.setup t.lost (world_shown t) fs)
        (after_all t.rules t.scene fs) }
    ensures kept { (i : I.Index) (t : Shown (I.stands i)) (fs : List Entry)
        → length t.turns + length fs < 2 ^ 40
        → scene_kept t.rules t.scene fs ≡ kept_shown t fs }
    ensures book { (i : I.Index) (t : Shown (I.stands i)) (fs : List Entry)
        → length t.turns + length fs < 2 ^ 40
        → (after_all t.rules t.scene fs).book ≡ t.scene.book
        ++ numbered_from (last_number t.scene.book) (kept_shown t fs) }
    ensures legal { (i : I.Index) (t : Shown (I.stands i)) (fs : List Entry)
        → length t.turns + length fs < 2 ^ 40
        → IsLegalFrom t.setup t.lost (world_shown t) fs
        → run_of t.rules t.scene fs ≡ Some (after_all t.rules t.scene fs) }
    ensures only { (i : I.Index) (t : Shown (I.stands i)) (fs : List Entry) (u : Scene I.State Msg)
        → length t.turns + length fs < 2 ^ 40
        → run_of t.rules t.scene fs ≡ Some u → IsLegalFrom t.setup t.lost (world_shown t) fs }
{
    nets_are_wired();
    worlds_take_turns();
    links_pass_messages();
    known_steps_are_made()
}

/// A scene that begins with nothing done stands, after any schedule, for the world of whole
/// histories of this schedule. It is legal in both or in neither; the entries that are kept are
/// the same, and the book has these, numbered from 1.
pub fn machines_stand_for_histories<I: Meaning>()
    ensures image { (i : I.Index) (b : Begun (I.stands i)) (es : List Entry) → length es < 2 ^ 40
        → IsImage b.setup b.lost b.sizes (I.stands i) (world b.setup b.lost es)
        (after_all b.rules (scene_begun b) es) }
    ensures kept { (i : I.Index) (b : Begun (I.stands i)) (es : List Entry) → length es < 2 ^ 40
        → scene_kept b.rules (scene_begun b) es ≡ kept b.setup b.lost es }
    ensures book { (i : I.Index) (b : Begun (I.stands i)) (es : List Entry) → length es < 2 ^ 40
        → IsBookOfTurns (record { entries = (after_all b.rules (scene_begun b) es).book })
        (kept b.setup b.lost es) }
    ensures legal { (i : I.Index) (b : Begun (I.stands i)) (es : List Entry) → length es < 2 ^ 40
        → IsLegal b.setup b.lost es → run_of b.rules (scene_begun b) es
        ≡ Some (after_all b.rules (scene_begun b) es) }
    ensures only { (i : I.Index) (b : Begun (I.stands i)) (es : List Entry) (v : Scene I.State Msg)
        → length es < 2 ^ 40
        → run_of b.rules (scene_begun b) es ≡ Some v → IsLegal b.setup b.lost es }
{
    nets_are_wired();
    worlds_take_turns();
    links_pass_messages();
    known_steps_are_made()
}
