// The command run, where two actors meet.
use crate::app::{is_text, is_told};
use crate::meeting::Meeting;
use crate::streams::{Streams, call_on, streams_of};
use std::alloc::Global;
use std::sync::Wait;
use std::test::Fail;
use std::thread::Threads;

/// A device with two hosts that send nothing, and three snapshots.
const NO_PACKET: &str = r#"device = [{name = "a", ports = 2}]
host = [{name = "h0", at = "a.0"}, {name = "h1", at = "a.1"}]
snapshot = {bits = 1, window = 1, ring = 1, count = 3, retries = 0}
"#;

/// What each run of them reports.
const REPORT: &str = r#"speedlight 1
network devices 1 units 4 hosts 2
observer count 3 issued 3 collected 3 resent 0
snapshot 1 consistent
in a.0 0 0
out a.0 0 0 x0 0 0 x1 0 0
in a.1 0 0
out a.1 0 0 x0 0 0 x1 0 0
snapshot 2 consistent
in a.0 0 0
out a.0 0 0 x0 0 0 x1 0 0
in a.1 0 0
out a.1 0 0 x0 0 0 x1 0 0
snapshot 3 consistent
in a.0 0 0
out a.0 0 0 x0 0 0 x1 0 0
in a.1 0 0
out a.1 0 0 x0 0 0 x1 0 0
host h0 sent 0 delivered 0
host h1 sent 0 delivered 0
drops bad 0 expired 0 noroute 0
lost cable 0 crossbar 0 init 0 notice 0
end
"#;

/// Whether a run on such streams, whose actors pass this gate, has the report that it should, and
/// two actors see each other there.
fn runs_on<R: Threads + Wait + Sync>(
    rt: &R,
    alloc: Global,
    gate: &Meeting,
    streams: &mut Streams,
) -> Result<bool, Fail> {
    let left = call_on(rt, alloc, "run", streams, gate)?;
    let is_told = is_told(streams, left, (0, true), "");
    let is_report = is_text(streams.out.bytes(), REPORT);
    Ok(is_told && is_report && gate.met() == 2)
}

/// The same on new streams.
fn meet<R: Threads + Wait + Sync>(
    rt: &R,
    alloc: Global,
    one: u32,
    other: u32,
) -> Result<bool, Fail> {
    let mut streams = streams_of(alloc, NO_PACKET, (0, 0, 0))?;
    let gate = Meeting::new(one, other);
    let right = runs_on(rt, alloc, &gate, &mut streams);
    drop(gate);
    drop(streams);
    right
}

/// Two actors are in their first round at the same moment, so they run in two threads.
#[test]
fn actors_meet(rt: HostRuntime) -> Result<(), Fail> {
    assert!(rt; meet(&rt, rt.alloc(), 2, 4)?);
    assert!(rt; meet(&rt, rt.alloc(), 0, 7)?);
    Ok(())
}
