// Two packets in flight, by one call of the world of nodes.
ghost use Rattle.std.specs.Prelude.{◌≡◌, IfOk};
ghost use Rattle.std.specs.List.{All};
ghost use Rattle.sl_machine.specs.Plan.{HasChoice};
ghost use Rattle.sl_layout.specs.Wiring.{plan_of};
ghost use Rattle.sl_world.specs.World.{scene};
ghost use Rattle.sl_proto.specs.RunBook.{CanRun};

use crate::actors::{THREE_PACKETS, counted, is_at};
use crate::calls::{let_go, runnable};
use sl_machine::Memory;
use sl_net::{Input, Net, find_choice};
use sl_proto::{Node, first_world, passes_are_choices};
use sl_world::World;
use std::alloc::Global;
use std::test::Fail;

/// The script of `examples/two_in_flight.toml`: two packets are on their way across the crossbar when
/// the snapshot is issued, and the egress unit hears of it from the other port first.
const ENTRIES: &str = "host h0 inject
host h0 inject
in a.0 host
in a.0 host
observer issue
control a begin
in a.1 init
out a.1 x1
out a.1 x0
out a.1 x0";

/// Of the actors in order: what the observer issued and collected; of each unit the packets and bytes
/// in flight on its first channel, as its newest saved entry has them; and what each host sent and
/// took.
static TOLD: [(u64, u64); 7] = [(1, 0), (0, 0), (0, 0), (0, 0), (2, 200), (2, 0), (0, 0)];

fn expected() -> &'static [(u64, u64)] {
    &TOLD
}

/// The choice that a line spells.
fn choice_of(net: &Net, line: &str) -> Result<(u32, u32), Fail>
    ensures { IfOk result (λ e. HasChoice (plan_of net.now) e.0 e.1) }
{
    passes_are_choices();
    match find_choice(net, line) {
        Some(entry) => Ok(entry),
        None => Err("no choice".into()),
    }
}

fn schedule(alloc: Global, net: &Net) -> Result<Vec<(u32, u32)>, Fail>
    ensures { IfOk result (λ v. All (λ e. HasChoice (plan_of net.now) e.0 e.1) v.items) }
{
    let mut entries = Vec::new(alloc);
    for line in ENTRIES.lines() {
        let entry = choice_of(net, line)?;
        entries.push(entry)?;
    }
    Ok(entries)
}

fn told(node: &Node) -> Result<Option<(u64, u64)>, Memory> {
    match node {
        Node::Unit(unit) => {
            let dump = unit.dump()?;
            let at = dump.view.at as usize;
            let told = if at < dump.view.slots.len() {
                let total = dump.view.slots.get(at).inflight[0];
                Some((total.packets, total.bytes))
            } else {
                None
            };
            drop(dump);
            Ok(told)
        }
        node => Ok(counted(node)),
    }
}

/// Whether nodes have come to what is expected.
fn are_told(nodes: &[Node]) -> Result<bool, Memory> {
    let mut place: usize = 0;
    for node in nodes {
        if let Some(counts) = told(node)? {
            if !is_at(expected(), place, counts) {
                return Ok(false);
            }
            place = place.saturating_add(1);
        }
    }
    Ok(place == expected().len())
}

/// `World::run` on the schedule, where the links of its entries are looked up before and where they
/// are not.
fn run_all(alloc: Global, net: &Net, world: &mut World<Node>, looks_up: bool) -> Result<(), Fail>
    requires { (scene world.old).plan ≡ plan_of net.now }
{
    let schedule = schedule(alloc, net)?;
    if schedule.len() > 100 || world.book().entries.len() > 100 {
        return Err("too many turns".into());
    }
    if looks_up {
        let links = world.look_up(alloc, schedule.as_slice())?;
        world.run(schedule.as_slice(), Some(&links))?;
    } else {
        world.run(schedule.as_slice(), None)?;
    }
    Ok(())
}

/// Whether those of a world have, by ten turns.
fn ends_right(world: World<Node>) -> Result<bool, Fail> {
    let (nodes, book) = world.into_book();
    let turns = book.entries.len();
    let told = are_told(nodes.as_slice());
    drop(nodes);
    drop(book);
    Ok(told? && turns == 10)
}

fn comes_to(alloc: Global, input: &Input, looks_up: bool) -> Result<bool, Fail>
    requires { CanRun input.now }
{
    let mut world = first_world(alloc, input)?;
    match run_all(alloc, &input.net, &mut world, looks_up) {
        Ok(()) => ends_right(world),
        Err(fault) => {
            let_go(world);
            Err(fault)
        }
    }
}

/// Whether it does where links are looked up before, and where they are not.
fn both_come_to(alloc: Global, input: &Input) -> Result<bool, Fail>
    requires { CanRun input.now }
{
    let by_links = comes_to(alloc, input, true)?;
    let by_choices = comes_to(alloc, input, false)?;
    Ok(by_links && by_choices)
}

/// Two packets are credited to the snapshot that the egress unit adopted before it took them.
#[test]
fn two_packets_are_in_flight(rt: HostRuntime) -> Result<(), Fail> {
    let input = runnable(rt.alloc(), THREE_PACKETS)?;
    let right = both_come_to(rt.alloc(), &input);
    drop(input);
    assert!(rt; right?);
    Ok(())
}
