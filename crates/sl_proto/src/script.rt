// Scripts, over whoever takes turns.
ghost use Rattle.std.specs.Prelude.{◌≡◌, false, All};
ghost use Rattle.sl_layout.specs.Wiring.{plan_of};
ghost use Rattle.sl_model.specs.Schedule.{passes_of, expand_one, expand};
ghost use Rattle.sl_proto.specs.Calls.{HasDriven};
ghost use Rattle.sl_proto.specs.Script.{IsScriptEntry};
ghost use Rattle.sl_proto.specs.Passes.{IsPass};

use crate::passes::Pass;
use crate::taker::{Taker, drive};
use sl_machine::Memory;
use sl_net::{Net, Script1};
use std::alloc::Global;

/// Takes a pass so many times. One in which nothing happened changes nothing, so neither do those
/// after it, which are not taken.
fn drive_passes<T: Taker>(net: &Net, taker: &mut T, once: &Pass, count: u32) -> Result<(), Memory>
    requires plan { (T.scene taker.old).plan ≡ plan_of net.now }
    requires pass { IsPass net.now false once.now }
    ensures { HasDriven T.scene T.fixed net.now taker.old
        (passes_of once.now.entries.items count) result taker.new }
{
    for _done in 0..count {
        let before = taker.entries();
        drive(net, taker, once.entries.as_slice(), Some(&once.links))?;
        if taker.entries() == before {
            return Ok(());
        }
    }
    Ok(())
}

/// Takes the turns of an entry of a script.
fn drive_entry<T: Taker>(
    net: &Net,
    taker: &mut T,
    once: &Pass,
    entry: Script1,
) -> Result<(), Memory>
    requires plan { (T.scene taker.old).plan ≡ plan_of net.now }
    requires pass { IsPass net.now false once.now }
    requires entry { IsScriptEntry net.now entry }
    ensures { HasDriven T.scene T.fixed net.now taker.old
        (expand_one net.now entry) result taker.new }
{
    match entry {
        Script1::Pass(count) => drive_passes(net, taker, once, count),
        Script1::Choice { actor, choice } => drive(net, taker, &[(actor, choice)], None),
    }
}

/// Takes the turns of a script entry by entry, a pass at a time; after want of memory, those of a
/// front of its schedule. Where the nodes stand for the world of their book they do so afterwards,
/// also after want of memory. A book of 2^40 entries would fill any memory, so it is answered as
/// want of memory.
pub fn drive_script<T: Taker>(
    alloc: Global,
    net: &Net,
    taker: &mut T,
    script: &[Script1],
) -> Result<(), Memory>
    requires plan { (T.scene taker.old).plan ≡ plan_of net.now }
    requires entries { All (IsScriptEntry net.now) script.now }
    ensures { HasDriven T.scene T.fixed net.now taker.old
        (expand net.now script.now) result taker.new }
{
    let once = Pass::look_up(alloc, net, taker, false)?;
    for entry in script {
        drive_entry(net, taker, &once, *entry)?;
    }
    Ok(())
}
