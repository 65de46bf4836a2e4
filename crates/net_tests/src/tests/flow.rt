// Worked workloads and samples.
use sl_flow::{SampleFault, packets_of, sample_input, sample_parts};
use sl_net::{Flow, Input, Packet};
use std::alloc::Global;
use std::test::Fail;

fn packet(src: u16, dst: u16, seq: u32, len: u16) -> Packet {
    Packet {
        src,
        dst,
        seq,
        len,
        hops: 8,
    }
}

/// The packets that a host sends, where two hosts send to each other and to themselves.
fn sent(alloc: Global, host: u32) -> Result<Vec<Packet>, Fail> {
    let flows = [(0, 1, 3, 100), (1, 0, 2, 60), (0, 0, 1, 40), (1, 1, 0, 20)].map(|(
        from,
        to,
        count,
        bytes,
    )| Flow {
        from,
        to,
        count,
        bytes,
        hops: 8,
    });
    Ok(packets_of(alloc, host, &flows)?)
}

/// Whether it sends these.
fn sends(alloc: Global, host: u32, packets: &[Packet]) -> Result<bool, Fail> {
    let sent = sent(alloc, host)?;
    Ok(sent.as_slice() == packets)
}

/// Two hosts send, and a third sends nothing.
#[test]
fn two_flows(rt: HostRuntime) -> Result<(), Fail> {
    let first = [
        packet(0, 1, 0, 100),
        packet(0, 1, 1, 100),
        packet(0, 1, 2, 100),
        packet(0, 0, 0, 40),
    ];
    let second = [packet(1, 0, 0, 60), packet(1, 0, 1, 60)];
    assert!(rt; sends(rt.alloc(), 0, first.as_slice())?);
    assert!(rt; sends(rt.alloc(), 1, second.as_slice())?);
    assert!(rt; sends(rt.alloc(), 2, &[])?);
    Ok(())
}

static SAMPLE: &str = "\
device = [{name = \"s0\", ports = 2}, {name = \"s1\", ports = 2}, \
{name = \"l0\", ports = 4}, {name = \"l1\", ports = 4}]
cable = [{a = \"l0.2\", b = \"s0.0\"}, {a = \"l0.3\", b = \"s1.0\"}, \
{a = \"l1.2\", b = \"s0.1\"}, {a = \"l1.3\", b = \"s1.1\"}]
host = [{name = \"h0\", at = \"l0.0\"}, {name = \"h1\", at = \"l0.1\"}, \
{name = \"h2\", at = \"l1.0\"}, {name = \"h3\", at = \"l1.1\"}]
flow = [{from = \"h0\", to = \"h1\", count = 35, bytes = 100, hops = 4}, \
{from = \"h1\", to = \"h2\", count = 35, bytes = 100, hops = 4}, \
{from = \"h2\", to = \"h3\", count = 35, bytes = 100, hops = 4}, \
{from = \"h3\", to = \"h0\", count = 35, bytes = 100, hops = 4}]
snapshot = {bits = 2, window = 3, ring = 3, count = 5, retries = 3}
loss = {seed = 7, cable = 5, crossbar = 1, init = 20, notice = 20}
";

fn sample_text() -> &'static str {
    SAMPLE
}

#[test]
fn sample_as_text(rt: HostRuntime) -> Result<(), Fail> {
    let text = sample_input(rt.alloc(), 7)?;
    assert!(rt; text.as_slice() == sample_text().as_bytes());
    Ok(())
}

/// How many devices, cables, hosts, units and flows an input has.
fn sizes(input: &Input) -> [usize; 5] {
    let parts = input.net.parts();
    [
        parts.devices.len(),
        parts.cables.len(),
        parts.hosts.len(),
        input.net.units().len(),
        input.flows.len(),
    ]
}

/// The sizes of the net of a sample, its last flow, its window, its seed and its loss of cables.
fn sample_data(
    alloc: Global,
    n: u64,
) -> Result<([usize; 5], Option<Flow>, (u16, u64, u16)), SampleFault> {
    let input = sample_parts(alloc, n)?;
    let last = input.flows.last().copied();
    let numbers = (input.snapshot.window, input.loss.seed, input.loss.cable);
    Ok((sizes(&input), last, numbers))
}

#[test]
fn sample_as_data(rt: HostRuntime) -> Result<(), Fail> {
    let last = Flow {
        from: 5,
        to: 0,
        count: 40,
        bytes: 100,
        hops: 4,
    };
    let data = sample_data(rt.alloc(), 8)?;
    assert!(rt; data == ([5, 6, 6, 36, 6], Some(last), (1, 8, 0)));
    Ok(())
}

/// Why there is no sample of a number, as data and as text.
fn faults(alloc: Global, n: u64) -> (Option<SampleFault>, Option<SampleFault>) {
    (sample_parts(alloc, n).err(), sample_input(alloc, n).err())
}

#[test]
fn no_sample(rt: HostRuntime) {
    let out = Some(SampleFault::OutOfRange);
    assert!(rt; faults(rt.alloc(), 0) == (out, out));
    assert!(rt; faults(rt.alloc(), 65) == (out, out));
}
