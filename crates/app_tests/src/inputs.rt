// Inputs, as texts.

const THREE_PACKETS: &str = r#"device = [{name = "a", ports = 2}]
host = [{name = "h0", at = "a.0"}, {name = "h1", at = "a.1"}]
flow = [{from = "h0", to = "h1", count = 3, bytes = 100, hops = 8}]
snapshot = {bits = 2, window = 3, ring = 3, count = 1, retries = 0}
"#;

/// An input, and after a line `---` what a run of it with its trace prints.
const CLAIM: &str = r#"device = [{name = "a", ports = 1}]
host = [{name = "h0", at = "a.0"}]
snapshot = {bits = 2, window = 3, ring = 3, count = 1, retries = 0}
---
speedlight 1
network devices 1 units 2 hosts 1
observer count 1 issued 1 collected 1 resent 0
snapshot 1 consistent
in a.0 0 0
out a.0 0 0 x0 0 0
host h0 sent 0 delivered 0
drops bad 0 expired 0 noroute 0
lost cable 0 crossbar 0 init 0 notice 0
end
trace 12
observer issue
control a begin
in a.0 init
out a.0 x0
control a notice:in.0
control a notice:out.0
in a.0 poll
out a.0 poll
control a dump:in.0
control a dump:out.0
observer done:a
observer done:a
"#;

/// The same input, and after the line what no run prints.
const OTHER_CLAIM: &str = r#"device = [{name = "a", ports = 1}]
host = [{name = "h0", at = "a.0"}]
snapshot = {bits = 2, window = 3, ring = 3, count = 1, retries = 0}
---
end
"#;

/// The input of this name.
pub fn input_of(name: &str) -> &'static str {
    match name {
        "claim" => CLAIM,
        "other_claim" => OTHER_CLAIM,
        "cut" => "device = [",
        _ => THREE_PACKETS,
    }
}
