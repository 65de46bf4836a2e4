// Laws of the links of a unit.
ghost use Rattle.std.specs.Prelude.{◌≡◌, ◌<◌, ℕ, Some, filter, length, map, slice_index_or};
ghost use Rattle.sl_layout.specs.declared.actor.Sort.{Sort};
ghost use Rattle.sl_layout.specs.declared.actor.Sort.TheVariants.{Crossbar};
ghost use Rattle.sl_layout.specs.Net.{Net, actor_of, egress, link_of, links_into, links_out};
ghost use Rattle.sl_layout.specs.Net.{same_actor, units};
ghost use Rattle.sl_layout.specs.Wires.{out_of};
ghost use Rattle.sl_unit.specs.declared.wires.Entrance.TheVariants.{Other};
ghost use Rattle.sl_unit.specs.declared.wires.Way.TheVariants.{All, Toward};
ghost use Rattle.sl_unit.specs.Wires.{outs};
ghost use Rattle.sl_unit.specs.Made.{entrance_by, entrances_of, exits_of, side_of, unit_at};

use sl_net::{Net, Side};

/// The links on which a unit puts are those of its net, by their places among its links. `a` is
/// the unit's actor.
pub fn ways_are_links()
    ensures sorts { (net : Net) (a : ℕ) (s : Sort)
        → outs (All s) (exits_of net a) ≡ map (out_of net) (links_out net a s) }
    ensures toward { (net : Net) (a device port : ℕ) → outs (Toward device port) (exits_of net a)
        ≡ map (out_of net)
        (filter (λ l. same_actor (actor_of net (link_of net l).to) (egress device port))
        (links_out net a Crossbar)) }
    ensures entrances { (net : Net) (a c : ℕ) → c < length (links_into net a)
        → slice_index_or (entrances_of net a) c Other ≡ entrance_by net a c }
{}

/// The side of the unit at a place among the units.
pub fn unit_side(net: &Net, unit: u32) -> Side
    requires { unit < length (units net.now) }
    ensures { side_of (unit_at net.now unit) ≡ Some result }
{
    net.units()[unit as usize].side
}
