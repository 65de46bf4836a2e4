// The whole report.
ghost use Rattle.std.specs.Prelude.{◌≡◌, ◌++◌, IfOk, OnOk, string_bytes};
ghost use Rattle.sl_report.specs.Report.{report_front, report_back, report_text};

use crate::findings::push_findings;
use crate::lines::{push_drops, push_hosts, push_lost, push_network, push_observer};
use sl_machine::Memory;
use sl_model::Findings;
use sl_net::{Input, Net};
use std::alloc::Global;

/// The text of a report up to that of its snapshots. The list of findings isn't looked at.
pub fn report_front(alloc: Global, input: &Input, findings: &Findings) -> Result<String, Memory>
    ensures { IfOk result
        (λ out. string_bytes out ≡ report_front input.now.net input.now.snapshot.count
        findings.now) }
{
    let net = &input.net;
    let mut out = String::new(alloc);
    write!(out, "speedlight 1\n")?;
    push_network(&mut out, net, net.unit_actors().len())?;
    push_observer(&mut out, input.snapshot.count, findings)?;
    Ok(out)
}

/// Writes what comes after the snapshots of a report. The list of findings isn't looked at.
pub fn push_back(out: &mut String, net: &Net, findings: &Findings) -> Result<(), Memory>
    ensures { OnOk result
        (string_bytes out.new ≡ string_bytes out.old ++ report_back net.now findings.now) }
{
    push_hosts(
        out,
        net.parts(),
        findings.sent.items.as_slice(),
        findings.delivered.items.as_slice(),
    )?;
    push_drops(out, &findings.drops)?;
    push_lost(out, &findings.lost)?;
    write!(out, "end\n")?;
    Ok(())
}

/// The text of the report of a run's findings.
pub fn report_bytes(alloc: Global, input: &Input, findings: &Findings) -> Result<Vec<u8>, Memory>
    ensures { IfOk result
        (λ bytes. bytes.items ≡ report_text input.now.net input.now.snapshot.count findings.now) }
{
    let mut out = report_front(alloc, input, findings)?;
    push_findings(&mut out, &input.net, findings.list.items.as_slice())?;
    push_back(&mut out, &input.net, findings)?;
    Ok(out.into_bytes())
}
