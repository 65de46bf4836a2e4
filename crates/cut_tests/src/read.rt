// What is read of inputs. Those that are refused are rows of the program.
use sl_net::{CablePart, Flow, Input, Script1, Snapshot};
use sl_read::read_input;
use std::alloc::{AllocError, Global};
use std::test::Fail;

/// Inputs up to a line `--`, and what is read of them: the number of links, the seed and the snapshots,
/// then the flows and the script, then each cable with its ends and its version. Inputs stand apart by
/// `==`.
///
/// The second has other credits. A cable without a version has that of the snapshots, by the third and
/// the fourth. The last has each table, and what version 1.1 of TOML has more than 1.0: a line end, a
/// comment and a last comma in an inline table, and two escapes.
fn table() -> &'static str {
    r#"device = [{name = "a", ports = 2}]
host = [{name = "h0", at = "a.0"}, {name = "h1", at = "a.1"}]
flow = [{from = "h0", to = "h1", count = 3, bytes = 100, hops = 8}]
snapshot = {bits = 2, window = 3, ring = 3, count = 1, retries = 0}
--
24 0 Snapshot { width: 2, window: 3, ring: 3, count: 1, retries: 0, credits: 1, version: 1 }
[Flow { from: 0, to: 1, count: 3, bytes: 100, hops: 8 }] []
==
device = [{name = "a", ports = 2}]
host = [{name = "h0", at = "a.0"}, {name = "h1", at = "a.1"}]
snapshot = {bits = 2, window = 3, ring = 3, count = 1, credits = 2}
--
24 0 Snapshot { width: 2, window: 3, ring: 3, count: 1, retries: 0, credits: 2, version: 1 }
[] []
==
device = [{name = "a", ports = 6}]
cable = [
    {a = "a.0", b = "a.1", version = 1},
    {a = "a.2", b = "a.3"},
    {a = "a.4", b = "a.5", version = 2},
]
snapshot = {bits = 2, window = 3, ring = 3, count = 1, retries = 0}
--
86 0 Snapshot { width: 2, window: 3, ring: 3, count: 1, retries: 0, credits: 1, version: 1 }
[] []
cable 0.0 0.1 1
cable 0.2 0.3 1
cable 0.4 0.5 2
==
device = [{name = "a", ports = 6}]
cable = [
    {a = "a.0", b = "a.1", version = 1},
    {a = "a.2", b = "a.3"},
    {a = "a.4", b = "a.5", version = 2},
]
snapshot = {bits = 2, window = 3, ring = 3, count = 1, credits = 4, version = 2}
--
86 0 Snapshot { width: 2, window: 3, ring: 3, count: 1, retries: 0, credits: 4, version: 2 }
[] []
cable 0.0 0.1 1
cable 0.2 0.3 2
cable 0.4 0.5 2
==
[[device]]
name = "a"
ports = 2
[[device]]
name = "b_\x31"
ports = 8
[[cable]]
a = "a.1"
b = "b_1.7"
version = 2
[[host]]
name = "h0"
at = "a.0"
[snapshot]
bits = 16
window = 1000
ring = 1024
count = 100000
retries = 100
credits = 4
version = 2
[loss]
seed = 9223372036854775807
cable = 1000
drop = [{link = "out a.1 x0", n = 1}, {
  link = "in b_1.7 cable", # the cable
  n = 1000000000,
}]
[[flow]]
from = "h0"
to = "h0"
count = 20000
bytes = 65535
hops = 255
[[raw]]
from = "h0"
hex = "00ff"
[script]
entries = ["pass 10000", "control b_1 sweep", "observer issue"]
--
34 9223372036854775807 Snapshot { width: 16, window: 1000, ring: 1024, count: 100000, retries: 100, credits: 4, version: 2 }
[Flow { from: 0, to: 0, count: 20000, bytes: 65535, hops: 255 }] [Pass(10000), Choice { actor: 6, choice: 5 }, Choice { actor: 0, choice: 2 }]
cable 0.1 1.7 2
"#
}

fn told_counts(
    alloc: Global,
    links: usize,
    seed: u64,
    snapshot: Snapshot,
) -> Result<String, AllocError> {
    format!(in alloc; "{links} {seed} {snapshot:?}\n")
}

fn told_lists(alloc: Global, flows: &[Flow], script: &[Script1]) -> Result<String, AllocError> {
    format!(in alloc; "{flows:?} {script:?}\n")
}

fn told_cable(alloc: Global, cable: CablePart) -> Result<String, AllocError> {
    let CablePart { a, b, version } = cable;
    format!(in alloc;
        "cable {}.{} {}.{} {version}\n",
        a.device, a.port, b.device, b.port
    )
}

/// What is read of an input, as the table has it.
fn told(alloc: Global, input: &Input) -> Result<String, AllocError> {
    let links = input.net.links().len();
    let mut text = told_counts(alloc, links, input.loss.seed, input.snapshot)?;
    let lists = told_lists(alloc, input.flows.as_slice(), input.script.as_slice())?;
    text.push_str(lists.as_str())?;
    for cable in input.net.parts().cables.as_slice() {
        text.push_str(told_cable(alloc, *cable)?.as_str())?;
    }
    Ok(text)
}

/// Whether this is what an input has.
fn is_told(alloc: Global, input: &Input, wanted: &str) -> Result<bool, AllocError> {
    Ok(told(alloc, input)?.as_str() == wanted)
}

/// Whether this is read of the text of an input.
fn is_read(alloc: Global, text: &str, wanted: &str) -> Result<bool, AllocError> {
    match read_input(alloc, text.as_bytes()) {
        Ok(input) => is_told(alloc, &input, wanted),
        Err(_) => Ok(false),
    }
}

/// The first input of the table of which something else is read.
fn wrong_row<'a>(alloc: Global, table: &'a str) -> Result<Option<&'a str>, Fail> {
    for row in table.split("==\n") {
        let (text, wanted) = row.split_once("--\n").ok_or("no mark")?;
        if !is_read(alloc, text, wanted)? {
            return Ok(Some(text));
        }
    }
    Ok(None)
}

#[test]
fn inputs_are_read(rt: HostRuntime) -> Result<(), Fail> {
    assert_eq!(rt; wrong_row(rt.alloc(), table())?, None);
    Ok(())
}
