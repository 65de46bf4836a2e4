// The values of a snapshot: what units counted before their cuts, and what was in flight.
ghost use Rattle.std.specs.Prelude.{◌≡◌, ◌≤◌, ◌<◌, ◌^◌, length, map, reverse, take, drop, IfOk};
ghost use Rattle.std.specs.Prelude.{slice_index_or};
ghost use Rattle.std.specs.List.{All};
ghost use Rattle.sl_model.specs.Words.{weigh};
ghost use Rattle.sl_model.specs.Cut.{before, data_count, data_bytes, channel_value};
ghost use Rattle.sl_model.specs.Findings.{eight_totals, row};
ghost use Rattle.sl_saves.specs.Keeping.{no_total};
ghost use Rattle.sl_model.specs.Losses.{losses};
ghost use Rattle.sl_model.specs.History.{steps_in};

use crate::counting::{bytes, packets};
use crate::history::World;
use crate::losses::carried;
use crate::tell::{stamp_taken, taken};
use crate::wires::data_channels;
use sl_machine::Memory;
use sl_model::{Message, Row, Step};
use sl_net::Input;
use sl_saves::Total;
use std::alloc::Global;

/// The steps after which the id of a unit is below a snapshot.
fn before(snapshot: u64, steps: &[Step]) -> &[Step]
    ensures value { reverse result.now ≡ before snapshot (reverse steps.now) }
    ensures bound { length result.now ≤ length steps.now }
{
    let mut id = 0;
    let mut count = 0;
    for (place, step) in steps.iter().enumerate() {
        id = stamp_taken(step).unwrap_or(0).max(id);
        if id < snapshot {
            count = place + 1;
        }
    }
    &steps[..count]
}

/// The messages from a place on, up to another.
fn part_of(messages: &[Message], from: usize, upto: usize) -> &[Message]
    ensures value { result.now ≡ drop from (take upto messages.now) }
    ensures bound { length result.now ≤ upto }
{
    let first = &messages[..upto.min(messages.len())];
    &first[from.min(first.len())..]
}

fn count_data(message: &Message) -> u64
    ensures value { result ≡ data_count message.now }
    ensures bound { result ≤ 1 }
{
    match message {
        Message::Data(_, _) => 1,
        _ => 0,
    }
}

fn data_bytes(message: &Message) -> u64
    ensures value { result ≡ data_bytes message.now }
    ensures bound { result ≤ 65535 }
{
    match message {
        Message::Data(_, packet) => packet.len as u64,
        _ => 0,
    }
}

/// The data packets among some messages.
fn total_of(messages: &[Message]) -> Total
    requires { length messages.now < 2 ^ 40 }
    ensures packets { result.packets ≡ weigh data_count messages.now }
    ensures bytes { result.bytes ≡ weigh data_bytes messages.now }
{
    let mut total = Total {
        packets: 0,
        bytes: 0,
    };
    for message in messages {
        total.packets += count_data(message);
        total.bytes += data_bytes(message);
    }
    total
}

/// The value of a channel: the data packets that were put before the sender's cut and taken
/// after the receiver's.
fn channel_value(
    alloc: Global,
    input: &Input,
    world: &World,
    snapshot: u64,
    link: u32,
) -> Result<Total, Memory>
    requires small { steps_in world.now < 2 ^ 40 }
    requires link { link < length input.now.net.links }
    ensures { IfOk result
        (λ total. total ≡ channel_value input.now.net (losses input.now) world.now snapshot link) }
{
    let ends = input.net.link(link);
    let choice = input.net.wire(link).choice as usize;
    let sender = before(snapshot, world.steps(ends.from));
    let messages = carried(alloc, input, link, sender)?;
    let receiver = world.steps(ends.to);
    let upto = taken(choice, receiver);
    let from = taken(choice, before(snapshot, receiver));
    Ok(total_of(part_of(&messages, from, upto)))
}

/// The values of some channels among the links into a unit.
fn channel_values(
    alloc: Global,
    input: &Input,
    world: &World,
    snapshot: u64,
    into: &[u32],
    channels: &[u32],
) -> Result<Vec<Total>, Memory>
    requires small { steps_in world.now < 2 ^ 40 }
    requires links { All (λ l. l < length input.now.net.links) into.now }
    requires each { All (λ c. c < length into.now) channels.now }
    ensures { IfOk result
        (λ totals. totals.items
        ≡ map (channel_value input.now.net (losses input.now) world.now snapshot)
        (map (λ c. slice_index_or into.now c 0) channels.now)) }
{
    let mut totals = Vec::new(alloc);
    for channel in channels {
        let link = into[*channel as usize];
        totals.push(channel_value(alloc, input, world, snapshot, link)?)?;
    }
    Ok(totals)
}

fn total_at(totals: &[Total], place: usize) -> Total
    ensures { result ≡ slice_index_or totals.now place no_total }
{
    match totals.get(place) {
        Some(total) => *total,
        None => Total {
            packets: 0,
            bytes: 0,
        },
    }
}

#[tactic(auto, using(crate::proofs::Judging::eight_places))]
fn eight_totals(totals: &[Total]) -> [Total; 8]
    ensures { result ≡ eight_totals totals.now }
{
    [
        total_at(totals, 0),
        total_at(totals, 1),
        total_at(totals, 2),
        total_at(totals, 3),
        total_at(totals, 4),
        total_at(totals, 5),
        total_at(totals, 6),
        total_at(totals, 7),
    ]
}

/// What a unit saved for a snapshot.
pub fn row(
    alloc: Global,
    input: &Input,
    world: &World,
    snapshot: u64,
    unit: u32,
) -> Result<Row, Memory>
    requires small { steps_in world.now < 2 ^ 40 }
    requires unit { unit < length input.now.net.actors }
    ensures { IfOk result
        (λ one. one ≡ row input.now.net (losses input.now) world.now snapshot unit) }
{
    let steps = before(snapshot, world.steps(unit));
    let channels = data_channels(alloc, &input.net, unit)?;
    let into = input.net.links_into(unit);
    let totals = channel_values(alloc, input, world, snapshot, into, &channels)?;
    Ok(Row {
        packets: packets(steps),
        bytes: bytes(steps),
        inflight: eight_totals(&totals),
    })
}
