// Laws of one unit's history and of what it saves. The functions do nothing: their contracts are
// the laws, and the proofs are in proofs/. cs are the unit's data channels, as choices.
ghost use Rattle.std.specs.Prelude.{◌≡◌, ℕ, ◌+◌, ◌-◌, ◌*◌, ◌^◌, ◌<◌, ◌≤◌, List, [], ◌∷◌, length};
ghost use Rattle.std.specs.Prelude.{Some, None, false};
ghost use Rattle.sl_net.specs.declared.input.Packet.{Packet};
ghost use Rattle.sl_layout.specs.Net.{place_in};
ghost use Rattle.sl_saves.specs.declared.entry.View.{View};
ghost use Rattle.sl_saves.specs.Calls.{Adopt, Credited, IsRising, number, saves, saved, total_on};
ghost use Rattle.sl_saves.specs.Views.{IsShown, IsFitting, held_saved, read};
ghost use Rattle.sl_model.specs.declared.message.Message.{Message};
ghost use Rattle.sl_model.specs.declared.message.Message.TheVariants.{Data};
ghost use Rattle.sl_model.specs.declared.message.Step.{Step};
ghost use Rattle.sl_parts.specs.Lists.{Each};
ghost use Rattle.sl_model.specs.History.{History, id};
ghost use Rattle.sl_model.specs.Counting.{packets, bytes};
ghost use Rattle.sl_model.specs.Fit.{stamp};
ghost use Rattle.sl_model.specs.Verdict.{is_old_data, skipped_to, nth_adopted, miscredits};
ghost use Rattle.sl_model.specs.Calls.{calls, credit};
ghost use Rattle.sl_model.specs.Rows.{row, entries, credits_at};
ghost use Rattle.sl_model.specs.Short.{TakesShort};
ghost use Rattle.sl_model.specs.LateTotal.{late_total};

use sl_saves::shown_is_read;

/// What a step that takes a message adds to the calls: an adoption where its stamp lies above the
/// id, a credit where it is a data packet with a stamp below the id, and else nothing.
pub fn calls_follow_steps()
    ensures adopts { (cs : List ℕ) (s : Step) (h : History) (m : Message)
        → s.taken ≡ Some m → id h < stamp m
        → calls cs (s ∷ h) ≡ Adopt (stamp m - id h) (packets h) (bytes h) ∷ calls cs h }
    ensures credits { (cs : List ℕ) (s : Step) (h : History) (t : ℕ) (p : Packet)
        → s.taken ≡ Some (Data t p) → t < id h
        → calls cs (s ∷ h) ≡ Credited (credit cs (id h) s.choice t p) ∷ calls cs h }
    ensures stays { (cs : List ℕ) (s : Step) (h : History) → id (s ∷ h) ≤ id h
        → is_old_data (id h) s.taken ≡ false
        → calls cs (s ∷ h) ≡ calls cs h }
{}

/// The calls of a history lead to its id, and each adoption is by one at least.
pub fn calls_lead_to_id()
    ensures number { (cs : List ℕ) (h : History) → number (calls cs h) ≡ id h }
    ensures rising { (cs : List ℕ) (h : History) → IsRising (calls cs h) }
{}

/// What the calls of a history save is an entry for each number that it adopted: how far it lies
/// above the number before, what was counted before, and what was credited to it.
pub fn entries_are_values()
    ensures { (n : ℕ) (cs : List ℕ) (h : History) → saves n (calls cs h) ≡ entries n cs h }
{}

/// What the calls of a history saved for a number up to its id is the row of this number.
pub fn saved_is_row()
    ensures { (n : ℕ) (cs : List ℕ) (h : History) (k : ℕ) → 1 ≤ n
        → 1 ≤ k → k ≤ id h → saved k (saves n (calls cs h)) ≡ row n cs k h }
{}

/// The row of a number up to the id stays what it is where no data packet with a stamp below it is
/// taken.
pub fn row_stays()
    ensures { (n : ℕ) (cs : List ℕ) (k : ℕ) (s : Step) (h : History)
        → k ≤ id h → is_old_data k s.taken ≡ false
        → row n cs k (s ∷ h) ≡ row n cs k h }
{}

/// The last number that a unit adopted is its id. So where a data packet is credited to one number
/// alone, the number that miscredits is the unit's id.
pub fn one_credit_is_the_id()
    ensures { (h : History) → nth_adopted 1 h ≡ id h }
{}

/// Where a number was neither skipped nor miscredited, what was credited to it on a data channel is
/// what came there outside its cut with stamps below it.
pub fn late_is_credited()
    ensures { (n : ℕ) (cs : List ℕ) (k : ℕ) (h : History) → 1 ≤ n
        → skipped_to k h ≡ None → miscredits n k h ≡ []
        → Each (λ c. total_on (place_in 0 c cs) (credits_at n cs k h) ≡ late_total k c h) cs }
{}

/// A view that shows the calls of a history is read as its rows, for each number up to its id that
/// lies less than the view's size below it.
pub fn read_is_row()
    ensures held { (n : ℕ) (cs : List ℕ) (h : History) (view : View) (k : ℕ)
        → 1 ≤ n → IsShown n view (calls cs h) → 1 ≤ k → k ≤ id h
        → id h < k + length view.slots → read view (id h) k ≡ held_saved (row n cs k h) }
    ensures fitting { (n : ℕ) (cs : List ℕ) (h : History) (view : View) (k : ℕ)
        → 1 ≤ n → IsShown n view (calls cs h) → 1 ≤ k → k ≤ id h
        → id h < k + length view.slots → IsFitting (row n cs k h)
        → read view (id h) k ≡ row n cs k h }
{
    shown_is_read()
}

/// A history of fewer than 2 ^ 40 steps with packets shorter than 2 ^ 16 bytes counts at most its
/// steps, and so many bytes, and the totals of its rows fit their type.
pub fn counts_fit()
    ensures packets { (h : History) → packets h ≤ length h }
    ensures bytes { (h : History) → TakesShort h → bytes h ≤ 65535 * length h }
    ensures rows { (n : ℕ) (cs : List ℕ) (k : ℕ) (h : History) → TakesShort h
        → length h < 2 ^ 40 → IsFitting (row n cs k h) }
{}
