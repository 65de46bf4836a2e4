// Trusted types: Contents, Traffic.
// The whole input.
ghost use Rattle.std.specs.Prelude.{◌≡◌, ◌≢◌, ◌≤◌, Ok, Err, IfOk, IfErr, option_map, map};
ghost use Rattle.std.specs.List.{sum};
ghost use Rattle.toml.specs.View.{table_view};
ghost use Rattle.sl_form.specs.Refusals.{◌>>=◌ as ◌then◌, Answers};
ghost use Rattle.sl_parts.specs.Valid.{AreVersioned};
ghost use Rattle.sl_read.specs.Accepted.{HasVersions, IsAccepted};
ghost use Rattle.sl_read.specs.Limits.{limits_kept};
ghost use Rattle.sl_read.specs.Inputs.{built, packets, few_packets, losses, net_in, traffic_in};
ghost use Rattle.sl_read.specs.Inputs.{contents_in, settled, tables_of, text_of, reading_of};
ghost use Rattle.sl_read.specs.Inputs.{input_of};

use crate::choices::{place_drops, read_entries};
use crate::document::{Document, read_document};
use crate::fault::{InputFault, fault_of};
use crate::flow::FlowRow;
use crate::limits::limits_kept;
use crate::loss::LossRow;
use crate::places::{place_each, place_parts};
use crate::raw::RawRow;
use sl_form::{ReadError, Refusal};
use sl_machine::Listed;
use sl_net::{
    Drop1, Flow, HostPart, Input, LossSpec, Net, NetFault, Parts, RawPart, Script1, Snapshot,
    one_spelling,
};
use std::alloc::Global;
use toml::Table;

/// The longest input, in bytes.
const LONGEST: usize = 1_048_576;

#[tactic(auto, unfolding(crate::specs::Inputs::built))]
fn build(alloc: Global, parts: Parts) -> Result<Net, ReadError>
    requires { AreVersioned parts.cables }
    ensures { Answers result (built parts) }
{
    match Net::build(alloc, parts) {
        Ok(net) => Ok(net),
        Err(NetFault::Memory) => Err(ReadError::Memory),
        Err(fault) => Err(ReadError::Refused(Refusal::Net(fault))),
    }
}

/// How many packets the flows have. A sum that needs more than 64 bits is that of more flows than
/// memory has room for.
fn flow_packets(flows: &[Flow]) -> Result<u64, ReadError>
    ensures { Answers result (Ok (sum (map (λ f. f.count) flows.now))) }
{
    let mut total: u64 = 0;
    for flow in flows {
        total = match total.checked_add(flow.count as u64) {
            Some(total) => total,
            None => return Err(ReadError::Memory),
        };
    }
    Ok(total)
}

fn packets(flows: &[Flow], raws: &[RawPart]) -> Result<u64, ReadError>
    ensures { Answers result (Ok (packets flows.now raws.now)) }
{
    let total = flow_packets(flows)?;
    match total.checked_add(raws.len() as u64) {
        Some(total) => Ok(total),
        None => Err(ReadError::Memory),
    }
}

#[tactic(auto, unfolding(crate::specs::Inputs::few_packets))]
fn few_packets(flows: &[Flow], raws: &[RawPart]) -> Result<(), ReadError>
    ensures { Answers result (few_packets flows.now raws.now) }
{
    let total = packets(flows, raws)?;
    if total > 200_000 {
        return Err(ReadError::Refused(Refusal::TooMany(total)));
    }
    Ok(())
}

/// The net of a document.
#[tactic(auto, unfolding(crate::specs::Inputs::net_in))]
fn net_in(alloc: Global, document: &Document) -> Result<Net, ReadError>
    requires { HasVersions document.now }
    ensures { Answers result (net_in document.now) }
{
    let parts = place_parts(
        alloc,
        document.devices.as_slice(),
        document.snapshot.version,
        document.cables.as_slice(),
        document.hosts.as_slice(),
    )?;
    build(alloc, parts)
}

/// The losses, with the listed ones by the numbers of their links.
fn losses(loss: &LossRow, drops: Listed<Drop1>) -> LossSpec
    ensures { result ≡ losses loss.now drops }
{
    LossSpec {
        seed: loss.seed,
        cable: loss.cable,
        crossbar: loss.crossbar,
        init: loss.init,
        notice: loss.notice,
        drops: drops.items,
    }
}

fn hosts_of(net: &Net) -> &[HostPart]
    ensures { result.now ≡ net.now.parts.hosts }
{
    net.parts().hosts.as_slice()
}

/// What stands in a net.
#[derive(Drop)]
struct Contents {
    loss: LossSpec,
    flows: Listed<Flow>,
    raws: Listed<RawPart>,
    script: Listed<Script1>,
}

/// The flows and the raw frames of a document.
#[derive(Drop)]
struct Traffic {
    flows: Listed<Flow>,
    raws: Listed<RawPart>,
}

#[tactic(auto, unfolding(crate::specs::Inputs::traffic_in))]
fn traffic_in(alloc: Global, hosts: &[HostPart], document: &Document) -> Result<Traffic, ReadError>
    ensures { Answers result (traffic_in hosts.now document.now) }
{
    let flows = place_each::<FlowRow>(alloc, hosts, document.flows.as_slice())?;
    let raws = place_each::<RawRow>(alloc, hosts, document.raws.as_slice())?;
    Ok(Traffic { flows, raws })
}

/// What stands in the net.
#[tactic(auto, unfolding(crate::specs::Inputs::contents_in))]
fn contents_in(alloc: Global, net: &Net, document: &Document) -> Result<Contents, ReadError>
    ensures { Answers result (contents_in net.now document.now) }
{
    let traffic = traffic_in(alloc, hosts_of(net), document)?;
    one_spelling(net);
    let drops = place_drops(alloc, net, document.loss.drops.as_slice())?;
    let script = read_entries(alloc, net, document.script.as_slice())?;
    few_packets(traffic.flows.as_slice(), traffic.raws.as_slice())?;
    Ok(Contents {
        loss: losses(&document.loss, drops),
        flows: traffic.flows,
        raws: traffic.raws,
        script,
    })
}

/// What stands in the net, where the limits are kept.
fn kept_in(alloc: Global, net: &Net, document: &Document) -> Result<Contents, ReadError>
    requires { document.now.snapshot.count ≤ 100000 }
    ensures { Answers result
        (contents_in net.now document.now then (λ contents.
        limits_kept net.now document.now.snapshot then (λ _. Ok contents))) }
{
    let contents = contents_in(alloc, net, document)?;
    match limits_kept(net, &document.snapshot) {
        Ok(()) => Ok(contents),
        Err(error) => {
            drop(contents);
            Err(error)
        }
    }
}

/// The input of a net, with what stands in it.
fn input_in(net: Net, snapshot: Snapshot, contents: Contents) -> Input
    ensures { result ≡ record {
      net = net;
      snapshot = snapshot;
      loss = contents.loss;
      flows = contents.flows;
      raws = contents.raws;
      script = contents.script;
    } }
{
    Input {
        net,
        snapshot,
        loss: contents.loss,
        flows: contents.flows.items,
        raws: contents.raws.items,
        script: contents.script.items,
    }
}

#[tactic(auto, unfolding(crate::specs::Inputs::settled))]
fn settle(alloc: Global, document: &Document) -> Result<Input, ReadError>
    requires versions { HasVersions document.now }
    requires count { document.now.snapshot.count ≤ 100000 }
    ensures { Answers result (settled document.now) }
{
    let net = net_in(alloc, document)?;
    match kept_in(alloc, &net, document) {
        Ok(contents) => Ok(input_in(net, document.snapshot, contents)),
        Err(error) => {
            drop(net);
            Err(error)
        }
    }
}

#[tactic(auto, unfolding(crate::specs::Inputs::tables_of))]
fn read_table(alloc: Global, table: &Table) -> Result<Input, ReadError>
    ensures { Answers result (tables_of (table_view table.now)) }
{
    let document = read_document(alloc, table)?;
    let input = settle(alloc, &document);
    drop(document);
    input
}

#[tactic(auto, using(sl_form::proofs::FormLemmas::texts))]
fn text_of(bytes: &[u8]) -> Option<&str>
    ensures { option_map (λ s. s.now) result ≡ text_of bytes.now }
{
    match std::str::from_utf8(bytes) {
        Ok(text) => Some(text),
        Err(_) => None,
    }
}

#[tactic(auto, unfolding(crate::specs::Inputs::reading_of))]
fn reading_of(alloc: Global, bytes: &[u8]) -> Result<Input, ReadError>
    ensures { Answers result (reading_of bytes.now) }
{
    if bytes.len() > LONGEST {
        return Err(ReadError::Refused(Refusal::TooLong));
    }
    let text = match text_of(bytes) {
        Some(text) => text,
        None => return Err(ReadError::Refused(Refusal::NotToml)),
    };
    match toml::table_from_str(alloc, text) {
        Ok(table) => read_table(alloc, &table),
        Err(error) if error.is_memory() => Err(ReadError::Memory),
        Err(_) => Err(ReadError::Refused(Refusal::NotToml)),
    }
}

/// Reads an input: the input that the bytes are, or the first reason why they are none.
pub fn read_input(alloc: Global, bytes: &[u8]) -> Result<Input, InputFault>
    ensures input { IfOk result (λ input. input_of bytes.now ≡ Ok input) }
    ensures accepted { IfOk result IsAccepted }
    ensures fault { IfErr result (λ e. e ≢ InputFault.Memory → input_of bytes.now ≡ Err e) }
{
    match reading_of(alloc, bytes) {
        Ok(input) => Ok(input),
        Err(ReadError::Memory) => Err(InputFault::Memory),
        Err(ReadError::Refused(refusal)) => Err(fault_of(alloc, refusal)),
    }
}
