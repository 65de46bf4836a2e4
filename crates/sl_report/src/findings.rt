// The findings of each snapshot as text.
ghost use Rattle.std.specs.Prelude.{◌≡◌, ◌++◌, OnOk, string_bytes, flat_map, codes, decimal};
ghost use Rattle.std.specs.Prelude.{length, map, ◌<◌};
ghost use Rattle.sl_layout.specs.Net.{units};
ghost use Rattle.sl_model.specs.Findings.{channel_links};
ghost use Rattle.sl_report.specs.Report.{unit_text, unit_at, channel_text, channel_at, cause_text};
ghost use Rattle.sl_report.specs.Report.{lag_text, verdict_text, verdict_line, totals_text};
ghost use Rattle.sl_report.specs.Report.{row_line, rows_text, finding_text};

use crate::channels::{channel_links, list_channels};
use crate::numbers::push_spaced;
use crate::units::{push_channel, push_unit};
use sl_model::{Cause, Finding, Lag, Row, Verdict};
use sl_net::Net;
use sl_parts::Numbers;
use sl_saves::Total;
use std::alloc::AllocError;

fn push_cause(out: &mut String, cause: Cause) -> Result<(), AllocError>
    ensures { OnOk result (string_bytes out.new ≡ string_bytes out.old ++ cause_text cause) }
{
    match cause {
        Cause::Skipped { to } => write!(out, "skipped to {to}"),
        Cause::Miscredited { by } => write!(out, "miscredited by {by}"),
    }
}

/// Writes the data channel of a unit at a place among its data channels.
fn push_channel_at(out: &mut String, net: &Net, unit: u32, place: u32) -> Result<(), AllocError>
    requires { unit < length net.now.actors }
    ensures { OnOk result
        (string_bytes out.new ≡ string_bytes out.old ++ channel_at net.now unit place) }
{
    let links = channel_links(*out.allocator(), net, unit)?;
    let link = links.get(place as usize).copied().unwrap_or(0);
    push_channel(out, net, link)
}

fn push_lag(out: &mut String, net: &Net, unit: u32, lag: Lag) -> Result<(), AllocError>
    requires { unit < length net.now.actors }
    ensures { OnOk result
        (string_bytes out.new ≡ string_bytes out.old ++ lag_text net.now unit lag) }
{
    match lag {
        Lag::Id(number) => write!(out, "id {number}"),
        Lag::Channel { channel, seen } => {
            push_channel_at(out, net, unit, channel)?;
            write!(out, " {seen}")
        }
    }
}

fn push_inconsistent(out: &mut String, net: &Net, unit: u32, cause: Cause) -> Result<(), AllocError>
    ensures { OnOk result (string_bytes out.new ≡ string_bytes out.old
        ++ (codes "inconsistent " ++ (unit_text net.now unit ++ (codes " " ++ cause_text cause)))) }
{
    write!(out, "inconsistent ")?;
    push_unit(out, net, unit)?;
    write!(out, " ")?;
    push_cause(out, cause)
}

fn push_pending(out: &mut String, net: &Net, unit: u32, lag: Lag) -> Result<(), AllocError>
    requires { unit < length net.now.actors }
    ensures { OnOk result (string_bytes out.new ≡ string_bytes out.old
        ++ (codes "pending "
        ++ (unit_text net.now unit ++ (codes " " ++ lag_text net.now unit lag)))) }
{
    write!(out, "pending ")?;
    push_unit(out, net, unit)?;
    write!(out, " ")?;
    push_lag(out, net, unit, lag)
}

fn push_not_issued(out: &mut String, net: &Net, unit: u32, floor: u64) -> Result<(), AllocError>
    ensures { OnOk result
        (string_bytes out.new ≡ string_bytes out.old
        ++ (codes "not issued " ++ (unit_text net.now unit ++ (codes " " ++ decimal floor)))) }
{
    write!(out, "not issued ")?;
    push_unit(out, net, unit)?;
    write!(out, " {floor}")
}

/// The actor's number of the unit at a place among the units, 0 where there is none.
#[tactic(auto, using(crate::proofs::TextLemmas::some_actors))]
pub fn unit_at(net: &Net, place: u32) -> u32
    ensures unit { result ≡ unit_at net.now place }
    ensures within { result < length net.now.actors }
{
    let _parts = net.parts();
    match net.unit_actors().get(place as usize) {
        Some(actor) => *actor,
        None => 0,
    }
}

fn push_verdict(out: &mut String, net: &Net, verdict: Verdict) -> Result<(), AllocError>
    ensures { OnOk result
        (string_bytes out.new ≡ string_bytes out.old ++ verdict_text net.now verdict) }
{
    match verdict {
        Verdict::Consistent => write!(out, "consistent"),
        Verdict::Inconsistent { unit, cause } => push_inconsistent(
            out,
            net,
            unit_at(net, unit),
            cause,
        ),
        Verdict::Pending { unit, lag } => push_pending(out, net, unit_at(net, unit), lag),
        Verdict::NotIssued { unit, floor } => push_not_issued(out, net, unit_at(net, unit), floor),
    }
}

/// Writes the verdict on snapshot `k`.
#[tactic(auto, unfolding(crate::specs::Report::verdict_line))]
pub fn push_verdict_line(
    out: &mut String,
    net: &Net,
    k: u64,
    verdict: Verdict,
) -> Result<(), AllocError>
    ensures { OnOk result
        (string_bytes out.new ≡ string_bytes out.old ++ verdict_line net.now k verdict) }
{
    write!(out, "snapshot {k} ")?;
    push_verdict(out, net, verdict)?;
    write!(out, "\n")
}

fn push_total(out: &mut String, net: &Net, link: u32, total: Total) -> Result<(), AllocError>
    ensures { OnOk result (string_bytes out.new ≡ string_bytes out.old
        ++ (codes " "
        ++ (channel_text net.now link
        ++ (codes " "
        ++ (decimal total.packets ++ (codes " " ++ decimal total.bytes)))))) }
{
    out.push(' ')?;
    push_channel(out, net, link)?;
    push_spaced(out, total.packets)?;
    push_spaced(out, total.bytes)
}

/// Writes the totals of a unit's data channels.
#[tactic(auto, using(crate::proofs::TextLemmas::totals_more))]
fn push_totals(
    out: &mut String,
    net: &Net,
    links: &[u32],
    totals: &[Total],
) -> Result<(), AllocError>
    ensures { OnOk result
        (string_bytes out.new ≡ string_bytes out.old ++ totals_text net.now links.now totals.now) }
{
    for i in 0..links.len().min(totals.len()) {
        push_total(out, net, links[i], totals[i])?;
    }
    Ok(())
}

#[tactic(auto, unfolding(crate::specs::Report::row_line))]
fn push_row(
    out: &mut String,
    net: &Net,
    unit: u32,
    links: &[u32],
    row: &Row,
) -> Result<(), AllocError>
    requires { links.now ≡ channel_links net.now unit }
    ensures { OnOk result
        (string_bytes out.new ≡ string_bytes out.old ++ row_line net.now unit row.now) }
{
    push_unit(out, net, unit)?;
    push_spaced(out, row.packets)?;
    push_spaced(out, row.bytes)?;
    push_totals(out, net, links, &row.inflight)?;
    out.push('\n')
}

/// Writes the rows of units, of which these are the data channels.
#[tactic(auto, using(crate::proofs::TextLemmas::rows_more))]
fn push_rows(
    out: &mut String,
    net: &Net,
    actors: &[u32],
    channels: &[Numbers],
    rows: &[Row],
) -> Result<(), AllocError>
    requires { channels.now ≡ map (channel_links net.now) actors.now }
    ensures { OnOk result
        (string_bytes out.new ≡ string_bytes out.old ++ rows_text net.now actors.now rows.now) }
{
    for i in 0..actors.len().min(rows.len()) {
        let links = &channels[i];
        push_row(out, net, actors[i], links.items.as_slice(), &rows[i])?;
    }
    Ok(())
}

/// Writes what was found of a snapshot, by the data channels of each unit.
pub fn push_finding(
    out: &mut String,
    net: &Net,
    channels: &[Numbers],
    finding: &Finding,
) -> Result<(), AllocError>
    requires { channels.now ≡ map (channel_links net.now) (units net.now) }
    ensures { OnOk result
        (string_bytes out.new ≡ string_bytes out.old ++ finding_text net.now finding.now) }
{
    push_verdict_line(out, net, finding.k, finding.verdict)?;
    push_rows(
        out,
        net,
        net.unit_actors(),
        channels,
        finding.rows.items.as_slice(),
    )
}

/// Writes what was found of each snapshot.
#[tactic(auto, using(crate::proofs::TextLemmas::findings_more))]
pub fn push_findings(out: &mut String, net: &Net, findings: &[Finding]) -> Result<(), AllocError>
    ensures { OnOk result
        (string_bytes out.new ≡ string_bytes out.old ++ flat_map
        (finding_text net.now) findings.now) }
{
    let channels = list_channels(*out.allocator(), net)?;
    for finding in findings {
        push_finding(out, net, channels.as_slice(), finding)?;
    }
    Ok(())
}
