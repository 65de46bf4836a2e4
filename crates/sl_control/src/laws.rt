// What dumps do to what a control plane knows, as functions that do nothing and whose contracts say
// it.
ghost use Rattle.std.specs.Prelude.{◌≡◌, ℕ, length};
ghost use Rattle.sl_wire.specs.declared.message.Dump.{Dump};
ghost use Rattle.sl_wire.specs.Sizes.{Lengths};
ghost use Rattle.sl_control.specs.declared.known.Known.{Known};
ghost use Rattle.sl_control.specs.Control.{dump_by};
ghost use Rattle.sl_control.specs.Known.{IsNoLess};

/// No dump lowers a number that a control plane knows of a unit, or the number up to which its rows
/// are collected.
pub fn dumps_lower_nothing()
    ensures { (sizes : Lengths) (c : ℕ) (d : Dump) (r : Known) → length d.last ≡ 8
        → IsNoLess r (dump_by sizes c d r) }
{}
