// The laws of views.
ghost use Rattle.std.specs.Prelude.{◌≡◌, ℕ, List, [], ◌∷◌, ◌+◌, ◌<◌, ◌≤◌, length, replicate};
ghost use Rattle.sl_saves.specs.declared.entry.View.{View};
ghost use Rattle.sl_saves.specs.Calls.{Call, Adopt, Credited, Credit, number, saves, saved};
ghost use Rattle.sl_saves.specs.Views.{IsShown, IsFitting, IsLive, free_slot, held_saved, read};
ghost use Rattle.sl_saves.specs.Keeping.{EntryList, IsListed, view_adopted, view_credited};
ghost use Rattle.sl_saves.specs.Keeping.{list_adopted, list_credited, list_view};

/// Each slot that a walk over a view reads is live, where the view shows some calls.
pub fn shown_is_live()
    ensures { (n : ℕ) (view : View) (calls : List Call) (k : ℕ) → IsShown n view calls
        → 1 ≤ k → k ≤ number calls
        → number calls < k + length view.slots → IsLive view (number calls) k }
{}

/// A view that shows some calls is read as what they saved.
pub fn shown_is_read()
    ensures held { (n : ℕ) (view : View) (calls : List Call) (k : ℕ)
        → IsShown n view calls → 1 ≤ k → k ≤ number calls
        → number calls < k + length view.slots → read view (number calls) k
        ≡ held_saved (saved k (saves n calls)) }
    ensures fitting { (n : ℕ) (view : View) (calls : List Call) (k : ℕ)
        → IsShown n view calls → 1 ≤ k → k ≤ number calls
        → number calls < k + length view.slots → IsFitting (saved k (saves n calls))
        → read view (number calls) k ≡ saved k (saves n calls) }
{}

/// A ring whose view shows some calls shows them with one call more after that call.
pub fn calls_are_shown()
    ensures first { (n size : ℕ) → 1 ≤ size
        → IsShown n (record { at = 0; slots = replicate size free_slot }) [] }
    ensures adopted { (n by packets bytes : ℕ) (view : View) (calls : List Call)
        → 1 ≤ by → by ≤ length view.slots
        → IsShown n view calls → IsShown n (view_adopted by packets bytes view)
        (Adopt by packets bytes ∷ calls) }
    ensures credited { (n : ℕ) (c : Credit) (view : View) (calls : List Call)
        → c.channel < 8 → c.age ≤ length view.slots
        → IsShown n view calls → IsShown n (view_credited n c view) (Credited c ∷ calls) }
{}

/// A list of what some calls saved is one of what they and one call more saved after that call,
/// and its view shows them.
pub fn calls_are_listed()
    ensures first { (n size : ℕ) → 1 ≤ size
        → IsListed n (record { size = size; last = 0; entries = [] }) [] }
    ensures adopted { (n by packets bytes : ℕ) (list : EntryList) (calls : List Call) → 1 ≤ by
        → IsListed n list calls → IsListed n (list_adopted by packets bytes list)
        (Adopt by packets bytes ∷ calls) }
    ensures credited { (n : ℕ) (c : Credit) (list : EntryList) (calls : List Call) → c.channel < 8
        → IsListed n list calls → IsListed n (list_credited n c list) (Credited c ∷ calls) }
    ensures shown { (n : ℕ) (list : EntryList) (calls : List Call) → IsListed n list calls
        → IsShown n (list_view list) calls }
{}
