// Laws of the table. The functions do nothing, or call other laws: their contracts are the laws, and
// the proofs are in proofs/.
ghost use Rattle.std.specs.Prelude.{◌≡◌, ℕ, suc, ◌<◌, ◌^◌, List, length, Some, IsTrue, ◌↔◌};
ghost use Rattle.std.specs.List.{All};
ghost use Rattle.sl_parts.specs.declared.parts.PortRef.{PortRef};
ghost use Rattle.sl_parts.specs.Parts.{Parts};
ghost use Rattle.sl_parts.specs.Valid.{IsValid};
ghost use Rattle.sl_net.specs.Wired.{IsNet};
ghost use Rattle.sl_route.specs.Route.{host_port, hops};
ghost use Rattle.sl_model.specs.History.{Losses};
ghost use Rattle.sl_model.specs.Setup.{Setup};
ghost use Rattle.sl_model.specs.World.{Entry, world};
ghost use Rattle.sl_model.specs.Findings.{findings};
ghost use Rattle.sl_balance.specs.Spread.{spread, spread_from_sums};
ghost use Rattle.sl_balance.specs.Balance.{balance, AreFew};
ghost use Rattle.sl_balance.specs.OneCut.{IsOfOneCut};
ghost use Rattle.sl_balance.specs.Equal.{begins_by, BeginsLeastWalk};

use sl_model::{counts_fit, cuts_are_consistent, worlds_take_turns};
use sl_route::hops_are_least;

/// So many times the sum of the squares of some numbers, less the square of their sum, is the sum
/// over all pairs of the square of their difference.
pub fn spread_is_of_pairs()
    ensures { (xs : List ℕ) → spread_from_sums xs ≡ spread xs }
{}

/// Each line of the table of a run's findings speaks of one consistent cut: that of a snapshot with
/// the verdict consistent, before which the device's units counted what the line tells.
pub fn lines_are_of_one_cut()
    ensures { (s : Setup) (lost : Losses) (es : List Entry) → IsNet s.net
        → All (IsOfOneCut s.credits s.net lost (world s lost es))
        (balance s.net (findings s lost es).list) }
{
    cuts_are_consistent()
}

/// The rows in the findings of a run of fewer than 2^40 entries have counts of packets below that.
pub fn counts_are_few()
    ensures { (s : Setup) (lost : Losses) (es : List Entry) → length es < 2 ^ 40
        → All (λ f. AreFew f.rows) (findings s lost es).list }
{
    counts_fit();
    worlds_take_turns()
}

/// The ports that are counted as equal are those by which a walk of the least length begins.
pub fn equal_ports_begin_least_walks()
    ensures { (parts : Parts) (d h n port : ℕ) (at : PortRef) → IsValid parts
        → host_port parts h ≡ Some at → hops parts d h ≡ Some (suc n)
        → IsTrue (begins_by parts d h n port) ↔ BeginsLeastWalk parts d at.device port }
{
    hops_are_least()
}
