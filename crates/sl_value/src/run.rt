// The run of an input on nodes that keep values.
ghost use Rattle.std.specs.Prelude.{◌≡◌, ◌<◌, ◌^◌, ◌++◌, ◌∷◌, [], IfOk, OnOk, length, map};
ghost use Rattle.std.specs.List.{All};
ghost use Rattle.sl_model.specs.Losses.{losses};
ghost use Rattle.sl_model.specs.Setup.{setup_of};
ghost use Rattle.sl_model.specs.Books.{schedule_of};
ghost use Rattle.sl_model.specs.Findings.{findings};
ghost use Rattle.sl_proto.specs.Standing.{case_of, StandsFor, HasObserver};
ghost use Rattle.sl_proto.specs.RunBook.{CanRun, IsRunBook};
ghost use Rattle.sl_value.specs.Nodes.{controls_in, plain_scene, value_node_state};
ghost use Rattle.sl_value.specs.Verdicts.{value_list};
ghost use Rattle.sl_value.specs.Controls.{AreControls, IsAnswered};

use crate::control::{ValueControl, ValueNode};
use crate::meaning::values_stand_for_histories;
use crate::tell::list;
use crate::verdict::ValueList;
use crate::world::ValueWorld;
use sl_machine::{Book, Memory};
use sl_model::{Counts, finished_verdicts_are_known, worlds_are_in_window};
use sl_net::{Input, nets_are_wired};
use sl_proto::{Node, Taker, count_traffic, nodes_tell_findings, run_script};
use std::alloc::Global;

/// What a run leaves: its book, how many of its entries come before finishing, a finding for each
/// snapshot, the messages sent and delivered at each host, and the control planes, one per device
/// in order.
#[derive(Drop)]
pub struct ValueRun {
    pub book: Book,
    pub front: u64,
    pub list: ValueList,
    pub sent: Counts,
    pub delivered: Counts,
    pub controls: Vec<ValueControl>,
}

/// The world to which the script of an input and then finishing lead, with how many of its turns
/// come before finishing.
fn finished_world(alloc: Global, input: &Input) -> Result<(ValueWorld<'_>, u64), Memory>
    requires { CanRun input.now }
    ensures book { IfOk result (λ r. IsRunBook input.now (losses input.now) r.0.scene.book r.1) }
    ensures stands { IfOk result
        (λ r. StandsFor input.now.net (case_of input.now (losses input.now))
        (plain_scene r.0.scene)) }
    ensures observer { IfOk result (λ r. HasObserver (plain_scene r.0.scene)) }
    ensures few { IfOk result (λ r. length r.0.scene.book < 2 ^ 40) }
    ensures input { IfOk result (λ r. r.0.input ≡ input.now) }
{
    let mut world = ValueWorld::new(alloc, input)?;
    match run_script(alloc, input, &mut world) {
        Ok(front) => Ok((world, front)),
        Err(fault) => {
            drop(world);
            Err(fault)
        }
    }
}

/// Adds a node that is a control plane.
fn add_control(controls: &mut Vec<ValueControl>, node: ValueNode) -> Result<(), Memory>
    ensures { OnOk result
        (map (λ c. c.state) controls.new.items ≡ map (λ c. c.state) controls.old.items
        ++ controls_in (value_node_state node ∷ [])) }
{
    match node {
        Node::Control(control) => Ok(controls.push(control)?),
        other => {
            drop(other);
            Ok(())
        }
    }
}

/// The control planes among the nodes, in order.
fn controls(alloc: Global, mut nodes: Vec<ValueNode>) -> Result<Vec<ValueControl>, Memory>
    ensures { IfOk result
        (λ controls. map (λ c. c.state) controls.items
        ≡ controls_in (map value_node_state nodes.items)) }
{
    nodes.reverse();
    let mut made = Vec::new(alloc);
    while let Some(node) = nodes.pop() {
        match add_control(&mut made, node) {
            Ok(()) => {}
            Err(fault) => {
                drop(made);
                drop(nodes);
                return Err(fault);
            }
        }
    }
    drop(nodes);
    Ok(made)
}

/// Runs an input on the nodes of its net, whose control planes keep values: takes the turns of its
/// script, and finishes. The book is that of the run on nodes that keep none. No snapshot is called
/// inconsistent: one that is issued, and behind which no unit lags, has a value of each unit, and
/// these are the units' counts at a consistent cut.
pub fn run_values(alloc: Global, input: &Input) -> Result<ValueRun, Memory>
    requires { CanRun input.now }
    ensures book { IfOk result
        (λ r. IsRunBook input.now (losses input.now) r.book.entries r.front) }
    ensures list { IfOk result
        (λ r. r.list ≡ value_list input.now (losses input.now) r.book.entries) }
    ensures sent { IfOk result
        (λ r. r.sent
        ≡ (findings (setup_of input.now) (losses input.now)
        (schedule_of r.book.entries)).sent) }
    ensures delivered { IfOk result
        (λ r. r.delivered
        ≡ (findings (setup_of input.now) (losses input.now)
        (schedule_of r.book.entries)).delivered) }
    ensures answered { IfOk result
        (λ r. All (IsAnswered input.now.net (map (λ c. c.state) r.controls.items)) r.list) }
    ensures controls { IfOk result
        (λ r. AreControls input.now r.book.entries (map (λ c. c.state) r.controls.items)) }
{
    nets_are_wired();
    nodes_tell_findings();
    values_stand_for_histories();
    finished_verdicts_are_known();
    worlds_are_in_window();
    let (world, front) = finished_world(alloc, input)?;
    world.is_run();
    let list = match list(alloc, &world, world.observer(), input.snapshot.count) {
        Ok(list) => list,
        Err(fault) => {
            drop(world);
            return Err(fault);
        }
    };
    let actors = input.net.actors().len() as u32;
    let (sent, delivered) = match count_traffic(alloc, &world, actors) {
        Ok(counts) => counts,
        Err(fault) => {
            drop(world);
            return Err(fault);
        }
    };
    let (nodes, book) = world.into_parts();
    let controls = controls(alloc, nodes)?;
    Ok(ValueRun {
        book,
        front,
        list,
        sent,
        delivered,
        controls,
    })
}
