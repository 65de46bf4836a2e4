// The control plane of a device with two ports.
ghost use Rattle.std.specs.Prelude.{◌≡◌, ◌<◌, IfOk, length};
ghost use Rattle.sl_layout.specs.Net.{links_into, links_from};

use super::messages::Event::{Act, Begin, Dump, Notice};
use super::nets::{let_go, net, sent};
use super::rig::{IDLE, Rig, Turn, first_wrong};
use sl_control::Control;
use sl_machine::Memory;
use sl_net::{Net, Snapshot};
use std::alloc::Global;
use std::test::Fail;

static TURNS: [Turn; 21] = [
    (0, Begin(1), 10101_40101),
    (0, Begin(6), 10102_40102),
    (3, Begin(1), 0),
    (4, Dump(1, 1, 1), 0),
    (1, Notice, 20001),
    (2, Notice, 0),
    (1, Notice, 0),
    (2, Dump(1, 0, 3), 01100_20001),
    (9, Act, 30001_50001_60001),
    (9, Act, 0),
    (9, Act, IDLE),
    (4, Dump(2, 0, 1), 02111_30001),
    (4, Dump(2, 0, 2), 02122),
    (4, Dump(3, 0, 3), 0),
    (6, Dump(0, 0, 100), 0),
    (6, Dump(100, 0, 0), 0),
    (6, Dump(0, 100, 0), 0),
    (9, Act, 30001),
    (4, Dump(4, 0, 4), 02244),
    (9, Act, 30001),
    (4, Dump(6, 0, 3), 02267),
];

fn turns() -> &'static [Turn] {
    &TURNS
}

/// The control plane of the first device, which is the actor 1.
#[tactic(auto, using(crate::proofs::Links::control_links))]
fn made(alloc: Global, net: &Net) -> Result<Control, Memory>
    requires { 0 < length net.now.parts.devices }
    ensures { IfOk result
        (λ c. c.counts
        ≡ record {
          ins = length (links_into net.now 1);
          outs = length (links_from net.now 1);
          actions = 1;
        }) }
{
    let _parts = net.parts();
    let snapshot = Snapshot {
        width: 2,
        window: 3,
        ring: 3,
        count: 9,
        retries: 0,
        credits: 1,
        version: 1,
    };
    Control::new(alloc, net, 0, &snapshot)
}

fn control_of(alloc: Global, net: &Net) -> Result<Rig<Control>, Fail> {
    if net.parts().devices.is_empty() || net.actors().len() < 2 {
        return Err("no control plane".into());
    }
    let ins = net.links_into(1).len() as u32;
    let outs = net.links_from(1).len() as u32;
    Ok(Rig {
        machine: sent(made(alloc, net)?),
        ins,
        outs,
        actions: 1,
    })
}

fn control(alloc: Global) -> Result<Rig<Control>, Fail> {
    let net = net(alloc, 2)?;
    let control = control_of(alloc, &net);
    let_go(net);
    control
}

/// The place of the first turn that goes wrong.
fn wrong_turn(alloc: Global) -> Result<Option<usize>, Fail> {
    let mut control = control(alloc)?;
    first_wrong(alloc, &mut control, turns())
}

#[test]
fn turns_of_a_control_plane(rt: HostRuntime) -> Result<(), Fail> {
    assert_eq!(rt; wrong_turn(rt.alloc())?, None);
    Ok(())
}
