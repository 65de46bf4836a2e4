// The text of a run's values.
ghost use Rattle.std.specs.Prelude.{◌≡◌, ◌++◌, IfOk, OnOk, flat_map, string_bytes};
ghost use Rattle.sl_value.specs.ValuesText.{value_verdict_line, value_line, value_lines};
ghost use Rattle.sl_value.specs.ValuesText.{value_finding_text, values_text};

use crate::run::ValueRun;
use crate::verdict::{ValueFinding, ValueVerdict};
use crate::whole::Whole;
use sl_machine::Memory;
use sl_model::Verdict;
use sl_net::{Input, Net};
use sl_report::{push_hosts, push_unit, push_verdict_line};
use std::alloc::{AllocError, Global};

/// Writes the verdict on a snapshot.
#[tactic(auto, unfolding(crate::specs::ValuesText::whole_line))]
fn push_verdict(
    out: &mut String,
    net: &Net,
    k: u64,
    verdict: ValueVerdict,
) -> Result<(), AllocError>
    ensures { OnOk result
        (string_bytes out.new ≡ string_bytes out.old ++ value_verdict_line net.now k verdict) }
{
    match verdict {
        ValueVerdict::Whole => write!(out, "snapshot {k} whole\n"),
        ValueVerdict::Pending { unit, lag } => {
            push_verdict_line(out, net, k, Verdict::Pending { unit, lag })
        }
        ValueVerdict::NotIssued { unit, floor } => {
            push_verdict_line(out, net, k, Verdict::NotIssued { unit, floor })
        }
    }
}

/// Writes the value of the unit with this actor's number.
#[tactic(auto, unfolding(crate::specs::ValuesText::value_line))]
fn push_value(out: &mut String, net: &Net, unit: u32, value: Whole) -> Result<(), AllocError>
    ensures { OnOk result
        (string_bytes out.new ≡ string_bytes out.old ++ value_line net.now unit value) }
{
    let packets = value.packets;
    let bytes = value.bytes;
    push_unit(out, net, unit)?;
    write!(out, " {packets} {bytes}\n")
}

/// Writes a line for each of some units that has a value.
#[tactic(auto, using(crate::proofs::Texts::lines_more))]
fn push_values(
    out: &mut String,
    net: &Net,
    units: &[u32],
    values: &[Whole],
) -> Result<(), AllocError>
    ensures { OnOk result
        (string_bytes out.new ≡ string_bytes out.old ++ value_lines net.now units.now values.now) }
{
    for i in 0..units.len().min(values.len()) {
        push_value(out, net, units[i], values[i])?;
    }
    Ok(())
}

fn push_finding(out: &mut String, net: &Net, finding: &ValueFinding) -> Result<(), AllocError>
    ensures { OnOk result
        (string_bytes out.new ≡ string_bytes out.old ++ value_finding_text net.now finding.now) }
{
    push_verdict(out, net, finding.k, finding.verdict)?;
    push_values(out, net, net.unit_actors(), finding.values.items.as_slice())
}

/// Writes what was found of each snapshot.
#[tactic(auto, using(crate::proofs::Texts::findings_more))]
fn push_findings(out: &mut String, net: &Net, findings: &[ValueFinding]) -> Result<(), AllocError>
    ensures { OnOk result
        (string_bytes out.new ≡ string_bytes out.old ++ flat_map
        (value_finding_text net.now) findings.now) }
{
    for finding in findings {
        push_finding(out, net, finding)?;
    }
    Ok(())
}

/// The text of the values of a run.
pub fn values_bytes(alloc: Global, input: &Input, run: &ValueRun) -> Result<Vec<u8>, Memory>
    ensures { IfOk result
        (λ bytes. bytes.items ≡ values_text input.now.net run.now.list
        run.now.sent run.now.delivered) }
{
    let net = &input.net;
    let mut out = String::new(alloc);
    write!(out, "values 1\n")?;
    push_findings(&mut out, net, run.list.items.as_slice())?;
    push_hosts(
        &mut out,
        net.parts(),
        run.sent.items.as_slice(),
        run.delivered.items.as_slice(),
    )?;
    write!(out, "end\n")?;
    Ok(out.into_bytes())
}
