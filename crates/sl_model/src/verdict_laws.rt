// Laws of verdicts: what last-seen numbers tell of a snapshot. The functions do nothing: their
// contracts are the laws, and the proofs are in proofs/. Most call the law that nets are wired.
ghost use Rattle.std.specs.Prelude.{◌≡◌, ◌↔◌, ℕ, ◌≤◌, List, [], None};
ghost use Rattle.sl_layout.specs.declared.actor.UnitId.{UnitId};
ghost use Rattle.sl_layout.specs.declared.actor.ActorId.TheVariants.{Unit as OfUnit};
ghost use Rattle.sl_layout.specs.Net.{actor_of, data_channels, units};
ghost use Rattle.sl_net.specs.Wired.{IsNet};
ghost use Rattle.sl_parts.specs.Lists.{Each};
ghost use Rattle.sl_model.specs.declared.verdict.Verdict.TheVariants.{Consistent};
ghost use Rattle.sl_model.specs.History.{History, Losses, history, id, last};
ghost use Rattle.sl_model.specs.Setup.{Setup};
ghost use Rattle.sl_model.specs.Knowledge.{observer, issued};
ghost use Rattle.sl_model.specs.World.{Entry, world};
ghost use Rattle.sl_model.specs.Verdict.{lag, verdict};
ghost use Rattle.sl_model.specs.LastSeen.{cpu_last, last_seen, IsClean};

use sl_net::nets_are_wired;

/// A last-seen number is at most the unit's id. So where the id is below k, so is each of them.
pub fn last_seen_numbers_are_below()
    ensures { (c : ℕ) (h : History) → last c h ≤ id h }
{}

/// A unit without a data channel has the last-seen number of its initiations as its id. A unit
/// lags behind k exactly where one of its last-seen numbers does: those of its data channels, or
/// that of its initiations where it has none.
pub fn last_seen_numbers_tell_lags()
    ensures own { (s : Setup) (lost : Losses) (es : List Entry) (u : ℕ) (i : UnitId)
        → IsNet s.net → actor_of s.net u ≡ OfUnit i
        → data_channels s.net u ≡ [] → cpu_last s.net u (history (world s lost es) u)
        ≡ id (history (world s lost es) u) }
    ensures lags { (s : Setup) (lost : Losses) (es : List Entry) (u k : ℕ) (i : UnitId)
        → IsNet s.net → actor_of s.net u ≡ OfUnit i
        → lag s.net k u (history (world s lost es) u) ≡ None
        ↔ Each (λ m. k ≤ m) (last_seen s.net u (history (world s lost es) u)) }
{
    nets_are_wired()
}

/// A snapshot that was issued is consistent exactly where no unit skipped or miscredited it and no
/// last-seen number lags behind it.
pub fn consistent_snapshots_are_whole()
    ensures { (s : Setup) (lost : Losses) (es : List Entry) (k : ℕ)
        → IsNet s.net → k ≤ issued s.net (observer (world s lost es))
        → verdict s.credits s.net (world s lost es) k ≡ Consistent
        ↔ Each (λ u. IsClean s.credits s.net u k (history (world s lost es) u)) (units s.net) }
{
    nets_are_wired()
}
