// The trail of a schedule, and what reading the units one after the other shows of it.
ghost use Rattle.std.specs.Prelude.{◌<◌, IsTrue};
ghost use Rattle.std.specs.List.{All};
ghost use Rattle.sl_flow.specs.Flow.{HasAddresses};

use crate::inputs::input_of;
use crate::rows::ONE_PACKET;
use sl_cut::{Ending, ending_of};
use sl_machine::Listed;
use sl_net::{Input, Net};
use sl_poll::{Counted, Pair, Polled, Read1, Trail, reading_of, trail_of};
use std::alloc::{AllocError, Global};
use std::test::Fail;

/// The packet's way: its host sends it, the ingress unit takes it from there, the egress unit of the
/// other port from the crossbar, and the other host takes it.
static WAY: [(u32, u32); 4] = [(6, 1), (2, 0), (5, 0), (7, 0)];

/// The second entry puts the packet on the crossbar, and the third one takes it. Before this link
/// come one of the observer, nine of the control plane and three each of the first three units.
static PAIRS: [Pair; 1] = [Pair {
    link: 19,
    put: 2,
    take: 3,
}];

/// The first ingress unit and the second egress unit count it.
static COUNTED: [Counted; 2] = [
    Counted {
        unit: 0,
        entry: 2,
        bytes: 100,
    },
    Counted {
        unit: 3,
        entry: 3,
        bytes: 100,
    },
];

fn way() -> &'static [(u32, u32)] {
    &WAY
}

fn pairs() -> &'static [Pair] {
    &PAIRS
}

fn counted() -> &'static [Counted] {
    &COUNTED
}

/// The trail of a schedule that is legal and leaves its world unfinished.
fn trail_along(alloc: Global, input: &Input, schedule: &[(u32, u32)]) -> Result<Trail, Fail>
    requires { All HasAddresses input.now.flows }
{
    match ending_of(alloc, input, schedule)? {
        Ending::Unfinished => Ok(trail_of(alloc, input, schedule)?),
        _ => Err("another end".into()),
    }
}

/// Whether a packet crosses once, and two units count it.
fn is_told(alloc: Global, input: &Input) -> Result<bool, Fail>
    requires { All HasAddresses input.now.flows }
{
    let trail = trail_along(alloc, input, way())?;
    let told = trail.pairs.as_slice() == pairs() && trail.counted.as_slice() == counted();
    drop(trail);
    Ok(told)
}

/// That trail, written out.
fn written_out(alloc: Global) -> Result<Trail, AllocError> {
    let pairs = Listed {
        items: Vec::from_slice(alloc, pairs())?,
    };
    let counted = Listed {
        items: Vec::from_slice(alloc, counted())?,
    };
    Ok(Trail { pairs, counted })
}

fn are_links(pairs: &[Pair], count: usize) -> bool
    ensures { IsTrue result → All (λ p. p.link < count) pairs.now }
{
    pairs.iter().all(|pair| (pair.link as usize) < count)
}

/// What is read of the units along it, in a run of its four entries.
fn reading_along(alloc: Global, net: &Net, start: u64, gap: u64) -> Result<Polled, Fail> {
    let trail = written_out(alloc)?;
    if !are_links(trail.pairs.as_slice(), net.links().len()) {
        return Err("no such link".into());
    }
    Ok(reading_of(alloc, net, &trail, 4, start, gap)?)
}

/// What is read of a unit after how many entries, where it counted so many packets of 100 bytes.
fn read(unit: u32, at: u64, packets: u64) -> Read1 {
    Read1 {
        unit,
        at,
        packets,
        bytes: packets.saturating_mul(100),
    }
}

/// Whether a reading is this one, broken by this packet.
fn is_read(polled: &Polled, reads: &[Read1], broken: Option<Pair>) -> bool {
    polled.reads.as_slice() == reads && polled.broken == broken
}

/// Whether that is what is read along the trail.
fn reads(
    alloc: Global,
    net: &Net,
    (start, gap): (u64, u64),
    expected: &[Read1],
    broken: Option<Pair>,
) -> Result<bool, Fail> {
    let polled = reading_along(alloc, net, start, gap)?;
    let read = is_read(&polled, expected, broken);
    drop(polled);
    Ok(read)
}

/// Where each unit is read one entry after the one before, the last one after the packet came and
/// the first one before it was put, the packet breaks the reading. Where all are read after three
/// entries, none does.
fn are_read(alloc: Global, net: &Net) -> Result<bool, Fail> {
    let one_by_one = [read(0, 1, 0), read(1, 2, 0), read(2, 3, 0), read(3, 4, 1)];
    let at_once = [read(0, 3, 1), read(1, 3, 0), read(2, 3, 0), read(3, 3, 1)];
    let first = pairs().first().copied();
    let is_broken = reads(alloc, net, (1, 1), one_by_one.as_slice(), first)?;
    let is_whole = reads(alloc, net, (3, 0), at_once.as_slice(), None)?;
    Ok(is_broken && is_whole)
}

fn polled_of(alloc: Global, input: &Input) -> Result<(bool, bool), Fail>
    requires { All HasAddresses input.now.flows }
{
    let told = is_told(alloc, input)?;
    let read = are_read(alloc, &input.net)?;
    Ok((told, read))
}

fn polled(alloc: Global) -> Result<(bool, bool), Fail> {
    let input = input_of(alloc, ONE_PACKET)?;
    let polled = polled_of(alloc, &input);
    drop(input);
    polled
}

/// A trail is told, and it is read.
#[test]
fn trails(rt: HostRuntime) -> Result<(), Fail> {
    assert_eq!(rt; polled(rt.alloc())?, (true, true));
    Ok(())
}
