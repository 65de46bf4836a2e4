// The single lines of a report.
ghost use Rattle.std.specs.Prelude.{◌≡◌, ◌++◌, OnOk, length, map, string_bytes};
ghost use Rattle.sl_layout.specs.Net.{units};
ghost use Rattle.sl_report.specs.Report.{network_line, observer_line, host_line, hosts_text};
ghost use Rattle.sl_report.specs.Report.{drops_line, lost_line};

use sl_model::{Drops, Findings, Lost};
use sl_net::{HostPart, Name, Net, Parts};
use std::alloc::AllocError;

/// Writes the sizes of a net with so many units.
#[tactic(auto, unfolding(crate::specs::Report::network_line))]
pub fn push_network(out: &mut String, net: &Net, count: usize) -> Result<(), AllocError>
    requires { count ≡ length (units net.now) }
    ensures { OnOk result (string_bytes out.new ≡ string_bytes out.old ++ network_line net.now) }
{
    let devices = net.device_count();
    let hosts = net.host_count();
    write!(
        out,
        "network devices {devices} units {count} hosts {hosts}\n"
    )
}

/// Adds the observer's line.
#[tactic(auto, unfolding(crate::specs::Report::observer_line))]
pub fn push_observer(out: &mut String, count: u64, findings: &Findings) -> Result<(), AllocError>
    ensures { OnOk result
        (string_bytes out.new ≡ string_bytes out.old ++ observer_line count findings.now) }
{
    let issued = findings.issued;
    let floor = findings.floor;
    let resent = findings.resent;
    write!(
        out,
        "observer count {count} issued {issued} collected {floor} resent {resent}\n"
    )
}

/// Adds the line of a host.
#[tactic(auto, unfolding(crate::specs::Report::host_line))]
pub fn push_host(out: &mut String, name: &Name, sent: u64, delivered: u64) -> Result<(), AllocError>
    ensures { OnOk result
        (string_bytes out.new ≡ string_bytes out.old ++ host_line name.now sent delivered) }
{
    write!(out, "host {name} sent {sent} delivered {delivered}\n")
}

/// Adds the line of drops.
#[tactic(auto, unfolding(crate::specs::Report::drops_line))]
pub fn push_drops(out: &mut String, drops: &Drops) -> Result<(), AllocError>
    ensures { OnOk result (string_bytes out.new ≡ string_bytes out.old ++ drops_line drops.now) }
{
    let bad = drops.bad;
    let expired = drops.expired;
    let noroute = drops.noroute;
    write!(out, "drops bad {bad} expired {expired} noroute {noroute}\n")
}

/// Adds the line of lost messages.
#[tactic(auto, unfolding(crate::specs::Report::lost_line))]
pub fn push_lost(out: &mut String, lost: &Lost) -> Result<(), AllocError>
    ensures { OnOk result (string_bytes out.new ≡ string_bytes out.old ++ lost_line lost.now) }
{
    let Lost {
        cable,
        crossbar,
        init,
        notice,
    } = *lost;
    write!(
        out,
        "lost cable {cable} crossbar {crossbar} init {init} notice {notice}\n"
    )
}

/// Writes a line for each host.
#[tactic(auto, using(crate::proofs::TextLemmas::hosts_more))]
pub fn push_hosts(
    out: &mut String,
    parts: &Parts,
    sent: &[u64],
    delivered: &[u64],
) -> Result<(), AllocError>
    ensures { OnOk result
        (string_bytes out.new ≡ string_bytes out.old ++ hosts_text
        (map (λ host. host.name) parts.now.hosts) sent.now delivered.now) }
{
    push_host_lines(out, parts.hosts.as_slice(), sent, delivered)
}

#[tactic(auto, using(crate::proofs::TextLemmas::hosts_more))]
fn push_host_lines(
    out: &mut String,
    hosts: &[HostPart],
    sent: &[u64],
    delivered: &[u64],
) -> Result<(), AllocError>
    ensures { OnOk result
        (string_bytes out.new ≡ string_bytes out.old ++ hosts_text
        (map (λ host. host.name) hosts.now) sent.now delivered.now) }
{
    let count = hosts.len().min(sent.len()).min(delivered.len());
    for i in 0..count {
        push_host(out, &hosts[i].name, sent[i], delivered[i])?;
    }
    Ok(())
}
