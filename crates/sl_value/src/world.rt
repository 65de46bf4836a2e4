// The world of nodes that keep values, as one that takes turns of nodes.
ghost use Rattle.std.specs.Prelude.{◌≡◌, ◌<◌, IfOk, length, map};
ghost use Rattle.sl_proto.specs.Built.{IsBuildable};
ghost use Rattle.sl_value.specs.Nodes.{value_node_state};

use crate::control::ValueNode;
use crate::tell::control_for;
use crate::whole::Whole;
use sl_machine::{Book, Memory};
use sl_net::{Input, Net};
use sl_observe::Observer;
use sl_proto::{Node, Taker, Traffic, build_nodes, make_losses};
use sl_world::{Looked, Turn, World, every_schedule};
use std::alloc::Global;
use std::marker::Model;

/// The world of an input's nodes, whose control planes keep values. It takes turns as the world of
/// the nodes without the values.
#[derive(Drop)]
pub struct ValueWorld<'a> {
    world: World<ValueNode>,
    input: &'a Input,
}

impl<'a> Model for ValueWorld<'a> {
    ghost use Rattle.sl_world.specs.World.{scene};
    ghost use Rattle.sl_value.specs.Run.{ValueRunning, IsValueRun};

    ghost Value = { ValueRunning };

    ghost view = { λ a. record { scene = scene a.world; input = a.input.now } };

    ghost invariant = { λ a. IsValueRun a.input.now (scene a.world) };
}

impl<'a> ValueWorld<'a> {
    ghost use Rattle.sl_proto.specs.RunBook.{IsFirstScene};
    ghost use Rattle.sl_value.specs.Nodes.{plain_scene};
    ghost use Rattle.sl_layout.specs.Net.{units};
    ghost use Rattle.sl_value.specs.Run.{IsValueRun};
    ghost use Rattle.sl_value.specs.Outcome.{value_told};

    /// The world where nothing has happened yet.
    pub fn new(alloc: Global, input: &'a Input) -> Result<ValueWorld<'a>, Memory>
        requires { IsBuildable input.now }
        ensures input { IfOk result (λ w. w.input ≡ input.now) }
        ensures first { IfOk result (λ w. IsFirstScene input.now (plain_scene w.scene)) }
    {
        let losses = make_losses(alloc, input)?;
        let nodes = build_nodes(alloc, input)?;
        let world = World::new(alloc, nodes, input.net.wiring(), losses)?;
        Ok(ValueWorld { world, input })
    }

    /// It is what the turns of its book make of the world where nothing has happened.
    pub fn is_run(&self)
        ensures { IsValueRun self.now.input self.now.scene }
    {
        let _ = &self.world;
    }

    /// The net whose nodes they are.
    pub fn net(&self) -> &Net
        ensures { result.now ≡ self.now.input.net }
    {
        let input: &Input = self.input;
        &input.net
    }

    /// The value of a unit for a number, where its control plane keeps one.
    pub fn value(&self, unit: u32, k: u64) -> Option<Whole>
        requires unit { unit < length (units self.now.input.net) }
        requires each { length self.now.scene.states ≡ length self.now.input.net.actors }
        ensures { result ≡ value_told self.now unit k }
    {
        let input: &Input = self.input;
        match self.world.machine(control_for(&input.net, unit)) {
            Node::Control(control) => {
                let place = input.net.unit_place(input.net.unit_actor(unit));
                control.value(place, k)
            }
            _ => None,
        }
    }

    /// Its nodes and its book.
    pub fn into_parts(self) -> (Vec<ValueNode>, Book)
        ensures nodes { map value_node_state result.0.items ≡ self.entry.scene.states }
        ensures book { result.1.entries ≡ self.entry.scene.book }
    {
        self.world.into_book()
    }
}

impl<'a> Taker for ValueWorld<'a> {
    ghost use Rattle.sl_net.specs.Input.{Input};
    ghost use Rattle.sl_value.specs.Nodes.{plain_scene};

    ghost scene = { λ w. plain_scene w.scene };

    ghost Fixed = { Input };

    ghost fixed = { λ w. w.input };

    fn turn(&mut self, actor: u32, choice: u32) -> Result<Turn, Memory> {
        every_schedule::<ValueNode>();
        self.world.turn(actor, choice)
    }

    fn look_up(&self, alloc: Global, schedule: &[(u32, u32)]) -> Result<Looked, Memory> {
        self.world.look_up(alloc, schedule)
    }

    fn run(&mut self, schedule: &[(u32, u32)], links: Option<&Looked>) -> Result<(), Memory> {
        every_schedule::<ValueNode>();
        self.world.run(schedule, links)
    }

    fn observer(&self) -> &Observer {
        match self.world.machine(0) {
            Node::Observer(observer) => observer,
            _ => unreachable!(),
        }
    }

    fn traffic(&self, actor: u32) -> Option<Traffic> {
        self.world.machine(actor).traffic()
    }

    fn entries(&self) -> u64 {
        self.world.book().entries.len() as u64
    }
}
