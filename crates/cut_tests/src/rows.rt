// Schedules that are written down, with the report of their findings.

/// A device with two hosts, one packet and two snapshots.
pub const ONE_PACKET: &str = r#"device = [{name = "a", ports = 2}]
host = [{name = "h0", at = "a.0"}, {name = "h1", at = "a.1"}]
flow = [{from = "h0", to = "h1", count = 1, bytes = 100, hops = 8}]
snapshot = {bits = 2, window = 2, ring = 2, count = 2, retries = 0}
"#;

/// A schedule of an input, and the report of its findings.
pub struct Row {
    pub name: &'static str,
    pub input: &'static str,
    /// The spellings of its choices, with `;` between them.
    pub schedule: &'static str,
    pub report: &'static str,
}

static ROWS: [Row; 5] = [
    Row {
        name: "dead_cable",
        input: r#"device = [{name = "a", ports = 2}, {name = "b", ports = 2}]
cable = [{a = "a.1", b = "b.0"}]
host = [{name = "h0", at = "a.0"}, {name = "h1", at = "b.1"}]
snapshot = {bits = 2, window = 1, ring = 1, count = 2, retries = 0}
loss = {cable = 1000}
"#,
        schedule: "
observer issue; control a begin; in a.0 init; out a.0 x0; in a.1 init; out a.1 x0; out a.1 x1;
control b begin; in b.0 init; out b.0 x0; in b.1 init; out b.1 x0; out b.1 x1;
control a notice:in.0; control a notice:out.0; control a notice:in.1; control a notice:out.1;
in a.0 poll; out a.0 x1; out a.0 poll; in a.1 poll; out a.1 poll; control b notice:in.0;
control b notice:out.0; control b notice:in.1; control b notice:out.1; in b.0 poll; out b.0 x1;
out b.0 poll; in b.1 poll; out b.1 poll; control a dump:in.0; control a notice:out.0;
control a dump:out.0; control a dump:in.1; control a notice:out.1; control a dump:out.1;
out a.0 poll; out a.1 poll; control b dump:in.0; control b notice:out.0; control b dump:out.0;
control b dump:in.1; control b notice:out.1; control b dump:out.1; out b.0 poll; out b.1 poll;
observer done:a; observer done:b; control a dump:out.0; control a dump:out.1;
control b dump:out.0; control b dump:out.1; observer done:a; observer done:b; observer done:a;
observer done:b; observer done:a; observer done:b; observer done:a; observer done:b;
observer done:a; observer done:b; control a sweep; control b sweep; in a.0 poll; out a.0 poll;
in a.1 poll; out a.1 poll; in b.0 poll; out b.0 poll; in b.1 poll; out b.1 poll;
control a dump:in.0; control a dump:out.0; control a dump:in.1; control a dump:out.1;
control b dump:in.0; control b dump:out.0; control b dump:in.1; control b dump:out.1;
observer done:a; observer done:b; observer done:a; observer done:b; observer done:a;
observer done:b; observer done:a; observer done:b",
        report: "speedlight 1
network devices 2 units 8 hosts 2
observer count 2 issued 1 collected 0 resent 0
snapshot 1 pending in a.1 cable 0
snapshot 2 not issued in a.1 0
host h0 sent 0 delivered 0
host h1 sent 0 delivered 0
drops bad 0 expired 0 noroute 0
lost cable 2 crossbar 0 init 0 notice 0
end
",
    },
    Row {
        name: "lost_initiation",
        input: r#"device = [{name = "a", ports = 1}]
host = [{name = "h0", at = "a.0"}]
snapshot = {bits = 2, window = 2, ring = 2, count = 2, retries = 0}
loss = {drop = [{link = "in a.0 init", n = 1}]}
"#,
        schedule: "
observer issue; control a begin; observer issue; control a begin; in a.0 init; out a.0 x0;
control a notice:in.0; control a notice:out.0; in a.0 poll; out a.0 poll; control a dump:in.0;
control a dump:out.0; observer done:a; observer done:a",
        report: "speedlight 1
network devices 1 units 2 hosts 1
observer count 2 issued 2 collected 2 resent 0
snapshot 1 inconsistent in a.0 skipped to 2
snapshot 2 consistent
in a.0 0 0
out a.0 0 0 x0 0 0
host h0 sent 0 delivered 0
drops bad 0 expired 0 noroute 0
lost cable 0 crossbar 0 init 1 notice 0
end
",
    },
    Row {
        name: "reused_slot",
        input: r#"device = [{name = "a", ports = 1}]
host = [{name = "h0", at = "a.0"}]
snapshot = {bits = 2, window = 3, ring = 3, count = 6, retries = 0}
loss = {drop = [{link = "in a.0 init", n = 5}]}
"#,
        schedule: "
observer issue; control a begin; in a.0 init; out a.0 x0; observer issue; control a begin;
control a notice:in.0; control a notice:out.0; in a.0 init; in a.0 poll; out a.0 x0; out a.0 poll;
observer issue; control a begin; control a notice:in.0; control a dump:in.0;
control a notice:out.0; control a dump:out.0; in a.0 init; in a.0 poll; out a.0 x0; out a.0 poll;
observer done:a; control a notice:in.0; control a dump:in.0; control a notice:out.0;
control a dump:out.0; in a.0 poll; out a.0 poll; observer done:a; observer issue; control a begin;
control a dump:in.0; control a dump:out.0; in a.0 init; out a.0 x0; observer done:a;
observer issue; control a begin; control a notice:in.0; control a notice:out.0; in a.0 poll;
out a.0 poll; observer done:a; observer issue; control a begin; control a dump:in.0;
control a dump:out.0; in a.0 init; out a.0 x0; observer done:a; control a notice:in.0;
control a notice:out.0; in a.0 poll; out a.0 poll; observer done:a; control a dump:in.0;
control a dump:out.0; observer done:a; observer done:a; observer done:a; observer done:a",
        report: "speedlight 1
network devices 1 units 2 hosts 1
observer count 6 issued 6 collected 6 resent 0
snapshot 1 consistent
in a.0 0 0
out a.0 0 0 x0 0 0
snapshot 2 consistent
in a.0 0 0
out a.0 0 0 x0 0 0
snapshot 3 consistent
in a.0 0 0
out a.0 0 0 x0 0 0
snapshot 4 consistent
in a.0 0 0
out a.0 0 0 x0 0 0
snapshot 5 inconsistent in a.0 skipped to 6
snapshot 6 consistent
in a.0 0 0
out a.0 0 0 x0 0 0
host h0 sent 0 delivered 0
drops bad 0 expired 0 noroute 0
lost cable 0 crossbar 0 init 1 notice 0
end
",
    },
    Row {
        name: "too_late_packet",
        input: ONE_PACKET,
        schedule: "
host h0 inject; in a.0 host; observer issue; observer issue; control a begin; control a begin;
in a.1 init; in a.1 init; out a.1 x1; out a.1 x1; out a.1 x0; control a notice:in.1;
control a notice:out.1; in a.0 init; out a.0 x0; out a.0 x1; in a.1 poll; out a.1 x0;
out a.1 poll; host h1 net; control a notice:in.0; control a notice:out.0; control a notice:in.1;
control a dump:in.1; control a notice:out.1; control a dump:out.1; in a.0 init; in a.0 poll;
out a.0 x0; out a.0 x1; out a.0 poll; in a.1 poll; out a.1 x0; out a.1 poll; observer done:a;
control a notice:in.0; control a dump:in.0; control a notice:out.0; control a dump:out.0;
control a dump:in.1; control a notice:out.1; control a dump:out.1; in a.0 poll; out a.0 poll;
out a.1 poll; observer done:a; control a dump:in.0; control a notice:out.0; control a dump:out.0;
control a notice:out.1; control a dump:out.1; out a.0 poll; out a.1 poll; observer done:a;
control a notice:out.0; control a dump:out.0; control a dump:out.1; out a.0 poll; observer done:a;
control a dump:out.0; observer done:a; observer done:a; observer done:a; observer done:a;
observer done:a; observer done:a; observer done:a; observer done:a",
        report: "speedlight 1
network devices 1 units 4 hosts 2
observer count 2 issued 2 collected 2 resent 0
snapshot 1 inconsistent out a.1 miscredited by 2
snapshot 2 consistent
in a.0 1 100
out a.0 0 0 x0 0 0 x1 0 0
in a.1 0 0
out a.1 0 0 x0 1 100 x1 0 0
host h0 sent 1 delivered 0
host h1 sent 0 delivered 1
drops bad 0 expired 0 noroute 0
lost cable 0 crossbar 0 init 0 notice 0
end
",
    },
    Row {
        name: "two_in_flight",
        input: r#"device = [{name = "a", ports = 2}]
host = [{name = "h0", at = "a.0"}, {name = "h1", at = "a.1"}]
flow = [{from = "h0", to = "h1", count = 3, bytes = 100, hops = 8}]
snapshot = {bits = 2, window = 3, ring = 3, count = 1, retries = 0}
"#,
        schedule: "
host h0 inject; host h0 inject; in a.0 host; in a.0 host; observer issue; control a begin;
in a.1 init; out a.1 x1; out a.1 x0; out a.1 x0; control a notice:in.1; control a notice:out.1;
in a.0 init; out a.0 x0; out a.0 x1; in a.1 poll; out a.1 x0; out a.1 poll; host h0 inject;
host h1 net; control a notice:in.0; control a notice:out.0; control a dump:in.1;
control a notice:out.1; control a dump:out.1; in a.0 host; in a.0 poll; out a.0 poll; out a.1 x0;
out a.1 poll; host h1 net; observer done:a; control a dump:in.0; control a notice:out.0;
control a dump:out.0; control a dump:out.1; out a.0 poll; host h1 net; observer done:a;
control a dump:out.0; observer done:a; observer done:a; observer done:a; observer done:a",
        report: "speedlight 1
network devices 1 units 4 hosts 2
observer count 1 issued 1 collected 1 resent 0
snapshot 1 consistent
in a.0 2 200
out a.0 0 0 x0 0 0 x1 0 0
in a.1 0 0
out a.1 0 0 x0 2 200 x1 0 0
host h0 sent 3 delivered 0
host h1 sent 0 delivered 3
drops bad 0 expired 0 noroute 0
lost cable 0 crossbar 0 init 0 notice 0
end
",
    },
];

pub fn rows() -> &'static [Row] {
    &ROWS
}
