// The sample inputs as data.
ghost use Rattle.std.specs.Prelude.{◌≡◌, ◌<◌, ◌≤◌, ◌*◌, ◌↔◌, IfOk, OnOk, IfErr, IsTrue, map};
ghost use Rattle.sl_parts.specs.Parts.{below};
ghost use Rattle.sl_flow.specs.Sample.{IsSampleNumber, IsSample, leaf_count, leaf_spine};
ghost use Rattle.sl_flow.specs.Sample.{host_count, flow, by_parity, snapshot, loss, sample_parts};

use crate::fault::SampleFault;
use crate::leaf_spine::{built, leaf_spine};
use sl_net::{Flow, Input, LossSpec, Parts, Snapshot};
use std::alloc::{AllocError, Global};

/// Whether there is a sample input of a number.
pub fn is_sample_number(n: u64) -> bool
    ensures { IsTrue result ↔ IsSampleNumber n }
{
    1 <= n && n <= 64
}

fn leaf_count(n: u64) -> u32
    ensures count { result ≡ leaf_count n }
    ensures some { 2 ≤ result }
    ensures few { result ≤ 8 }
{
    2 + (n % 7) as u32
}

/// The parts of the net of a sample.
pub fn parts(alloc: Global, n: u64) -> Result<Parts, AllocError>
    ensures { IfOk result (λ parts. parts ≡ leaf_spine (leaf_count n)) }
{
    leaf_spine(alloc, leaf_count(n))
}

fn host_count(n: u64) -> u32
    ensures count { result ≡ host_count n }
    ensures some { 4 ≤ result }
    ensures few { result ≤ 16 }
{
    2 * leaf_count(n)
}

fn flow(n: u64, h: u32) -> Flow
    requires number { n ≤ 64 }
    requires host { h < 16 }
    ensures { result ≡ flow n h }
{
    Flow {
        from: h,
        to: (h + 1) % host_count(n),
        count: 5 * n as u32,
        bytes: 100,
        hops: 4,
    }
}

/// A flow from each host to the next.
#[tactic(auto, using(crate::proofs::Counted::map_below_more))]
pub fn flows(alloc: Global, n: u64) -> Result<Vec<Flow>, AllocError>
    requires { n ≤ 64 }
    ensures { IfOk result (λ flows. flows.items ≡ map (flow n) (below (host_count n))) }
{
    let mut flows = Vec::new(alloc);
    for h in 0..host_count(n) {
        flows.push(flow(n, h))?;
    }
    Ok(flows)
}

fn by_parity(n: u64, even: u16, odd: u16) -> u16
    ensures { result ≡ by_parity n even odd }
{
    if n % 2 == 0 { even } else { odd }
}

/// The snapshot table of a sample.
pub fn snapshot(n: u64) -> Snapshot
    ensures { result ≡ snapshot n }
{
    Snapshot {
        width: 2,
        window: by_parity(n, 1, 3),
        ring: by_parity(n, 1, 3),
        count: 5,
        retries: 3,
        credits: 1,
        version: 1,
    }
}

/// The losses of a sample.
pub fn loss(alloc: Global, n: u64) -> LossSpec
    ensures { result ≡ loss n }
{
    LossSpec {
        seed: n,
        cable: by_parity(n, 0, 5),
        crossbar: by_parity(n, 0, 1),
        init: by_parity(n, 0, 20),
        notice: by_parity(n, 0, 20),
        drops: Vec::new(alloc),
    }
}

#[tactic(auto, using(crate::proofs::SampleLemmas::no_fault, crate::proofs::SampleLemmas::versioned))]
fn input(alloc: Global, n: u64) -> Result<Input, AllocError>
    requires { n ≤ 64 }
    ensures { IfOk result (λ input. input ≡ sample_parts n) }
{
    Ok(Input {
        net: built(alloc, parts(alloc, n)?)?,
        snapshot: snapshot(n),
        loss: loss(alloc, n),
        flows: flows(alloc, n)?,
        raws: Vec::new(alloc),
        script: Vec::new(alloc),
    })
}

/// The sample input of a number from 1 to 64: a leaf-spine net of 2 to 8 leaves with two hosts at
/// each, a flow of `5 n` packets from each host to the next, and five snapshots. For even numbers
/// the window is 1 and nothing is lost; for odd ones the window is 3 and messages are lost.
#[tactic(auto, using(crate::proofs::SampleLemmas::is_sample))]
pub fn sample_parts(alloc: Global, n: u64) -> Result<Input, SampleFault>
    ensures input { IfOk result (λ input. input ≡ sample_parts n) }
    ensures holds { IfOk result IsSample }
    ensures in_range { OnOk result (IsSampleNumber n) }
    ensures out_of_range { IfErr result (λ e. e ≡ SampleFault.OutOfRange ↔ (IsSampleNumber n → ⊥)) }
{
    if !is_sample_number(n) {
        return Err(SampleFault::OutOfRange);
    }
    match input(alloc, n) {
        Ok(input) => Ok(input),
        Err(_) => Err(SampleFault::Memory),
    }
}
