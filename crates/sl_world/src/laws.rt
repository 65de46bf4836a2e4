// Laws of worlds, for any machines.
ghost use Rattle.std.specs.Prelude.{◌≡◌, ◌++◌, ℕ, List, Some};
ghost use Rattle.sl_world.specs.Scene.{Scene, last_number, after_all, run_of, kept};
ghost use Rattle.sl_world.specs.Legal.{numbered_from};
ghost use Rattle.sl_world.specs.Keeping.{SameShape};

use sl_machine::Machine;

/// The entries of a schedule that did something are a legal schedule, which leads to the same
/// world; so does a schedule that is legal itself. The book gains just these, in order, each with a number one above the last. The wiring
/// stays, and so do the numbers of machines and links.
pub fn every_schedule<A: Machine>()
    ensures legal { (w : Scene A.State A.Msg) (es : List (ℕ × ℕ))
        → run_of A.rules w (kept A.rules w es) ≡ Some (after_all A.rules w es) }
    ensures book { (w : Scene A.State A.Msg) (es : List (ℕ × ℕ))
        → (after_all A.rules w es).book ≡ w.book ++ numbered_from (last_number w.book)
        (kept A.rules w es) }
    ensures only { (w v : Scene A.State A.Msg) (es : List (ℕ × ℕ))
        → run_of A.rules w es ≡ Some v → after_all A.rules w es ≡ v }
    ensures shape { (w : Scene A.State A.Msg) (es : List (ℕ × ℕ))
        → SameShape w (after_all A.rules w es) }
{}
