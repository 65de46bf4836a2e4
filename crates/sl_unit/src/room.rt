// The room that a unit takes before a turn.
ghost use Rattle.std.specs.Prelude.{◌≡◌, ◌<◌, IfOk, OnOk, length};
ghost use Rattle.sl_unit.specs.Wires.{outs};
ghost use Rattle.sl_unit.specs.Registers.{dump_of};
ghost use Rattle.sl_unit.specs.Room.{registers_of, HasDumps};

use crate::registers::Registers;
use crate::wires::{Way, Wires};
use sl_machine::Memory;
use sl_net::Sort;
use sl_wire::{Boxed, Dump};
use std::alloc::Global;

/// How many outgoing links a way has.
#[tactic(auto, using(crate::proofs::Outs::many_more))]
fn count_outs(wires: &Wires, way: Way) -> usize
    ensures { result ≡ length (outs way wires.now.exits) }
{
    let span = wires.span(way);
    let mut count = 0;
    for i in span.from..span.end {
        count += usize::from(wires.goes(way, span, i));
    }
    count
}

/// A dump of the registers: one that is there filled anew, or a new one.
fn make_dump(
    alloc: Global,
    registers: &mut Registers,
    spare: &mut Option<Boxed<Dump>>,
) -> Result<Boxed<Dump>, Memory>
    ensures same { registers.new ≡ registers.old }
    ensures dump { IfOk result (λ dump. dump ≡ dump_of (registers_of registers.old)) }
{
    let mut dump = match spare.take() {
        Some(dump) => dump,
        None => Boxed::new(alloc, registers.blank(alloc))?,
    };
    registers.refill(&mut dump)?;
    Ok(dump)
}

/// Makes dumps of the registers, as many as there are links of dumps.
#[inline(never)]
pub fn make_dumps(
    wires: &Wires,
    registers: &mut Registers,
    dumps: &mut Vec<Boxed<Dump>>,
    spare: &mut Option<Boxed<Dump>>,
) -> Result<(), Memory>
    ensures same { registers.new ≡ registers.old }
    ensures dumps { OnOk result
        (HasDumps wires.now (registers_of registers.old) dumps.new.items) }
{
    let count = count_outs(wires, Way::All(Sort::Dump));
    dumps.clear();
    let alloc = *dumps.allocator();
    for _i in 0..count {
        let dump = make_dump(alloc, registers, spare)?;
        dumps.push(dump)?;
    }
    Ok(())
}
