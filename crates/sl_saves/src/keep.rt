// What keeps saved entries.
ghost use Rattle.std.specs.Prelude.{◌≡◌, ℕ, List, ◌∷◌, ◌<◌, ◌≤◌, length, IfOk, OnOk};
ghost use Rattle.sl_saves.specs.Calls.{Call, Adopt, Credited, Credit};
ghost use Rattle.sl_saves.specs.declared.entry.View.{View};
ghost use Rattle.sl_saves.specs.Views.{IsShown};

use crate::entry::View;
use sl_machine::Memory;

/// What keeps the saved entries of a unit, for the last numbers up to its own. It stands for a
/// list of calls, newest first, and each call of `adopt` and `credit` adds itself to that list.
pub trait Saves: Drop {
    /// What is kept, as data.
    ghost Kept: { Type 0 };

    ghost kept: { Self → Kept };

    /// What an adoption by so many numbers makes of it, with the packets and bytes that it saves.
    ghost adopted: { ℕ → ℕ → ℕ → Kept → Kept };

    /// What a credit to so many entries at most makes of it.
    ghost credited: { ℕ → Credit → Kept → Kept };

    /// The view that it gives.
    ghost image: { Kept → View };

    /// Whether it stands for these calls, with credits to so many entries at most.
    ghost shows: { ℕ → Kept → List Call → Type 0 };

    /// The largest step of an adoption, and the greatest age of a credit.
    ghost window: { Self → ℕ };

    /// How many slots its view has.
    ghost size: { Self → ℕ };

    /// To how many entries a credit goes at most.
    ghost credits: { Self → ℕ };

    /// Whether the room that the next adoption needs is there.
    ghost has_room: { Self → Type 0 };

    /// Takes the room that the next adoption needs. What is kept stays as it was.
    fn ready(&mut self) -> Result<(), Memory>
        ensures room { OnOk result (has_room self.new) }
        ensures kept { kept self.new ≡ kept self.old }
        ensures window { window self.new ≡ window self.old }
        ensures size { size self.new ≡ size self.old }
        ensures credits { credits self.new ≡ credits self.old };

    /// Moves on by so many numbers, and saves the counters for the number reached.
    fn adopt(&mut self, by: u16, packets: u64, bytes: u64)
        requires room { has_room self.old }
        requires least { 1 ≤ by }
        requires most { by ≤ window self.old }
        ensures kept { kept self.new ≡ adopted by packets bytes (kept self.old) }
        ensures shows { (calls : List Call) → shows (credits self.old) (kept self.old) calls
            → shows (credits self.old) (kept self.new) (Adopt by packets bytes ∷ calls) }
        ensures window { window self.new ≡ window self.old }
        ensures size { size self.new ≡ size self.old }
        ensures credits { credits self.new ≡ credits self.old };

    /// Credits a data packet of a channel, whose stamp lies `age` below the number, to the last
    /// entries above its stamp.
    fn credit(&mut self, channel: u32, age: u16, bytes: u64)
        requires channel { channel < 8 }
        requires least { 1 ≤ age }
        requires most { age ≤ window self.old }
        ensures kept { kept self.new ≡ credited (credits self.old)
            (record { channel = channel; age = age; bytes = bytes }) (kept self.old) }
        ensures shows { (calls : List Call) → shows (credits self.old) (kept self.old) calls
            → shows (credits self.old) (kept self.new)
            (Credited (record { channel = channel; age = age; bytes = bytes }) ∷ calls) }
        ensures room { has_room self.old → has_room self.new }
        ensures window { window self.new ≡ window self.old }
        ensures size { size self.new ≡ size self.old }
        ensures credits { credits self.new ≡ credits self.old };

    /// A view that shows what is kept.
    fn view(&self) -> Result<View, Memory>
        ensures value { IfOk result (λ view. view ≡ image (kept self.now)) }
        ensures slots { length (image (kept self.now)).slots ≡ size self.now }
        ensures at { (image (kept self.now)).at < size self.now }
        ensures shows { (calls : List Call) → shows (credits self.now) (kept self.now) calls
            → IsShown (credits self.now) (image (kept self.now)) calls };

    /// Makes a view with as many slots what `view` gives.
    fn fill(&self, view: &mut View)
        requires { length view.old.slots ≡ size self.now }
        ensures value { view.new ≡ image (kept self.now) }
        ensures slots { length (image (kept self.now)).slots ≡ size self.now }
        ensures at { (image (kept self.now)).at < size self.now }
        ensures shows { (calls : List Call) → shows (credits self.now) (kept self.now) calls
            → IsShown (credits self.now) (image (kept self.now)) calls };
}
