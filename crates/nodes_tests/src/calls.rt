// Calls below the top call, each by itself: the schedule of a script, settling, and a trace.
ghost use Rattle.std.specs.Prelude.{◌≡◌, IfOk};
ghost use Rattle.sl_layout.specs.Wiring.{plan_of};
ghost use Rattle.sl_world.specs.World.{scene};
ghost use Rattle.sl_proto.specs.RunBook.{CanRun};
ghost use Rattle.sl_proto.specs.Standing.{HasObserver};

use sl_check::accepted_inputs_can_run;
use sl_machine::{Book, Entry, Memory};
use sl_net::{Input, Net, Script1, find_choice};
use sl_proto::{Node, Taker, expand, first_world, settle};
use sl_read::read_input;
use sl_report::trace_bytes;
use sl_world::World;
use std::alloc::Global;
use std::test::Fail;

/// A device with two hosts, one packet and one snapshot.
const ONE_PACKET: &str = r#"device = [{name = "a", ports = 2}]
host = [{name = "h0", at = "a.0"}, {name = "h1", at = "a.1"}]
flow = [{from = "h0", to = "h1", count = 1, bytes = 100, hops = 8}]
snapshot = {bits = 2, window = 3, ring = 3, count = 1, retries = 0}
"#;

/// Each actor with how many choices a pass takes of it: the observer's report link; the control
/// plane's link for Begins and two from each unit; of each unit three links, the ingress units' from
/// a host and two from the control plane, the egress units' two crossbars and one from the control
/// plane; of each host its link, and its injecting.
static PASS: [(u32, u32); 8] = [
    (0, 1),
    (1, 9),
    (2, 3),
    (3, 3),
    (4, 3),
    (5, 3),
    (6, 2),
    (7, 2),
];

fn pass() -> &'static [(u32, u32)] {
    &PASS
}

/// Whether entries are an issue and two passes, written out.
fn is_written_out(entries: &[(u32, u32)]) -> bool {
    let mut place: usize = 1;
    for _time in 0..2 {
        for (actor, count) in pass() {
            for choice in 0..*count {
                if entries.get(place) != Some(&(*actor, choice)) {
                    return false;
                }
                place = place.saturating_add(1);
            }
        }
    }
    entries.first() == Some(&(0, 1)) && entries.len() == place
}

/// Whether a script of an issue and two passes is these choices, in order.
fn is_expanded(alloc: Global, net: &Net) -> Result<bool, Memory> {
    let issue = Script1::Choice {
        actor: 0,
        choice: 1,
    };
    let entries = expand(alloc, net, &[issue, Script1::Pass(2)])?;
    let right = is_written_out(entries.as_slice());
    drop(entries);
    Ok(right)
}

/// An input that was read can run.
pub fn runnable(alloc: Global, text: &str) -> Result<Input, Fail>
    ensures { IfOk result CanRun }
{
    accepted_inputs_can_run();
    match read_input(alloc, text.as_bytes()) {
        Ok(input) => Ok(input),
        Err(_) => Err("refused".into()),
    }
}

/// How many turns settling takes, and then the observer's numbers.
fn settled_in(alloc: Global, net: &Net, world: &mut World<Node>) -> Result<(u64, u64, u64), Memory>
    requires plan { (scene world.old).plan ≡ plan_of net.now }
    requires observer { HasObserver (scene world.old) }
{
    settle(alloc, net, world)?;
    let observer = world.observer();
    Ok((world.entries(), observer.issued(), observer.floor()))
}

/// Lets a world go by its nodes and its book.
pub fn let_go(world: World<Node>) {
    let (nodes, book) = world.into_book();
    drop(nodes);
    drop(book);
}

/// How many turns settling takes from the start, and then the greatest number issued and that up
/// to which all units are collected.
fn settled(alloc: Global, input: &Input) -> Result<(u64, u64, u64), Memory>
    requires { CanRun input.now }
{
    let mut world = first_world(alloc, input)?;
    let settled = settled_in(alloc, &input.net, &mut world);
    let_go(world);
    settled
}

/// Whether the trace of a book with one choice is the number of its entries and their spellings.
fn is_spelled(alloc: Global, net: &Net) -> Result<bool, Memory> {
    match find_choice(net, "out a.1 x0") {
        Some((actor, choice)) => {
            let entry = Entry {
                number: 1,
                actor,
                choice,
            };
            let book = Book {
                entries: vec![in alloc; entry]?,
            };
            let trace = trace_bytes(alloc, net, &book)?;
            Ok(trace.as_slice() == "trace 1\nout a.1 x0\n".as_bytes())
        }
        None => Ok(false),
    }
}

/// Whether the three answer what they should on one input.
fn answer_on(alloc: Global, input: &Input) -> Result<bool, Fail>
    requires { CanRun input.now }
{
    let expanded = is_expanded(alloc, &input.net)?;
    let settled = settled(alloc, input)?;
    let spelled = is_spelled(alloc, &input.net)?;
    Ok(expanded && settled == (36, 1, 1) && spelled)
}

/// Settling takes 36 turns: an issue, a Begin, an injecting and three that take the packet, two
/// initiations, four probes, six notices, and six polls, dumps and reports each. A unit has one
/// notice for each channel on which the new number comes, and the second one of an egress unit comes
/// while a poll is outstanding, so there is another.
#[test]
fn calls_answer(rt: HostRuntime) -> Result<(), Fail> {
    let input = runnable(rt.alloc(), ONE_PACKET)?;
    let right = answer_on(rt.alloc(), &input);
    drop(input);
    assert!(rt; right?);
    Ok(())
}
