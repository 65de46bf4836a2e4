// How schedules end.
ghost use Rattle.std.specs.List.{All};
ghost use Rattle.sl_flow.specs.Flow.{HasAddresses};

use crate::inputs::input_of;
use sl_check::read_claim;
use sl_cut::{Ending, ending_of};
use sl_net::Input;
use std::alloc::{AllocError, Global};
use std::test::Fail;

/// A device with one host, no packets and one snapshot.
const ONE_PORT: &str = r#"device = [{name = "a", ports = 1}]
host = [{name = "h0", at = "a.0"}]
snapshot = {bits = 2, window = 3, ring = 3, count = 1, retries = 0}
"#;

/// What is printed of a run between its first turn and the last ones of the observer.
const BETWEEN: &str = "control a begin\nin a.0 init\nout a.0 x0\n\
control a notice:in.0\ncontrol a notice:out.0\nin a.0 poll\nout a.0 poll\n\
control a dump:in.0\ncontrol a dump:out.0\n";

/// How a schedule ends, and the lines of its trace before and after those. The first row is what is
/// printed of a run, and each other was changed at one place. Where the trace has another number of
/// turns there is no schedule.
static ROWS: [(&str, &str, &str); 4] = [
    (
        "finished",
        "trace 12\nobserver issue\n",
        "observer done:a\nobserver done:a\n",
    ),
    (
        "unfinished",
        "trace 11\nobserver issue\n",
        "observer done:a\n",
    ),
    ("none", "trace 12\nobserver issue\n", "observer done:a\n"),
    (
        "idle at 1",
        "trace 12\nobserver resend\n",
        "observer done:a\nobserver done:a\n",
    ),
];

fn rows() -> &'static [(&'static str, &'static str, &'static str)] {
    &ROWS
}

fn is_called(ending: Option<Ending>, name: &str) -> bool {
    match ending {
        None => name == "none",
        Some(Ending::Finished) => name == "finished",
        Some(Ending::Unfinished) => name == "unfinished",
        Some(Ending::Idle(number)) => number == 1 && name == "idle at 1",
    }
}

/// The end of a report with a trace of these lines.
fn claim_of(alloc: Global, first: &str, last: &str) -> Result<String, AllocError> {
    format!(in alloc; "end\n{first}{BETWEEN}{last}")
}

/// How the schedule of a claim ends.
fn ending(alloc: Global, input: &Input, claim: &str) -> Result<Option<Ending>, Fail>
    requires { All HasAddresses input.now.flows }
{
    match read_claim(alloc, &input.net, claim.as_bytes())? {
        Some(claim) => {
            let ending = ending_of(alloc, input, claim.schedule.as_slice());
            drop(claim);
            Ok(Some(ending?))
        }
        None => Ok(None),
    }
}

/// The name of the first row whose schedule ends otherwise.
fn wrong_row(alloc: Global, input: &Input) -> Result<Option<&'static str>, Fail>
    requires { All HasAddresses input.now.flows }
{
    for (name, first, last) in rows() {
        let claim = claim_of(alloc, first, last)?;
        if !is_called(ending(alloc, input, claim.as_str())?, name) {
            return Ok(Some(name));
        }
    }
    Ok(None)
}

fn wrong_ending(alloc: Global) -> Result<Option<&'static str>, Fail> {
    let input = input_of(alloc, ONE_PORT)?;
    let wrong = wrong_row(alloc, &input);
    drop(input);
    wrong
}

/// Whole histories end as the nodes do.
#[test]
fn schedules_end(rt: HostRuntime) -> Result<(), Fail> {
    assert_eq!(rt; wrong_ending(rt.alloc())?, None);
    Ok(())
}
