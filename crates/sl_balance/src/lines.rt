// The lines of the table.
ghost use Rattle.std.specs.Prelude.{◌≡◌, ◌++◌, ◌<◌, ◌≤◌, ◌^◌, IfOk, OnOk, length, map, flat_map};
ghost use Rattle.std.specs.List.{All};
ghost use Rattle.sl_parts.specs.Parts.{below};
ghost use Rattle.sl_balance.specs.Cabled.{cabled};
ghost use Rattle.sl_balance.specs.Balance.{packets_at, line_of, device_line, finding_lines};
ghost use Rattle.sl_balance.specs.Balance.{balance, AreFew};

use crate::cabled::list_cabled;
use crate::line::Line1;
use crate::spread::{ends_of, spread_of};
use sl_machine::Memory;
use sl_model::{Finding, Findings, Row, Verdict};
use sl_net::{Input, Net};
use sl_parts::{Numbers, row};
use std::alloc::{AllocError, Global};

/// The packets in the row of the unit at a place.
fn packets_at(rows: &[Row], place: u32) -> u64
    requires { AreFew rows.now }
    ensures packets { result ≡ packets_at rows.now place }
    ensures few { result < 2 ^ 40 }
{
    match rows.get(place as usize) {
        Some(row) => row.packets,
        None => 0,
    }
}

/// What the units at some places counted.
fn counts_at(alloc: Global, rows: &[Row], places: &[u32]) -> Result<Vec<u64>, AllocError>
    requires { AreFew rows.now }
    ensures counts { IfOk result (λ counts. counts.items ≡ map (packets_at rows.now) places.now) }
    ensures few { IfOk result (λ counts. All (λ n. n < 2 ^ 40) counts.items) }
{
    let mut counts = Vec::new(alloc);
    for place in places {
        counts.push(packets_at(rows, *place))?;
    }
    Ok(counts)
}

/// Adds the line of a device, where it has a cable.
fn push_line(lines: &mut Vec<Line1>, k: u64, device: u32, counts: &[u64]) -> Result<(), AllocError>
    requires few { length counts.now ≤ 2 ^ 12 }
    requires small { All (λ n. n < 2 ^ 40) counts.now }
    ensures { OnOk result (lines.new.items ≡ lines.old.items ++ line_of k device counts.now) }
{
    if let [first, others @ ..] = counts {
        let (least, greatest) = ends_of(*first, others);
        lines.push(Line1 {
            k,
            device,
            cables: counts.len() as u32,
            least,
            greatest,
            spread: spread_of(counts),
        })?;
    }
    Ok(())
}

/// Adds the lines of a consistent snapshot, by the units with a cable of each device.
fn push_lines(
    alloc: Global,
    lines: &mut Vec<Line1>,
    net: &Net,
    k: u64,
    rows: &[Row],
    table: &[Numbers],
) -> Result<(), AllocError>
    requires table { table.now ≡ map (cabled net.now) (below (length net.now.parts.devices)) }
    requires small { AreFew rows.now }
    ensures { OnOk result
        (lines.new.items ≡ lines.old.items ++ flat_map (device_line net.now k rows.now)
        (below (length net.now.parts.devices))) }
{
    let _units = net.unit_count();
    for device in 0..net.device_count() {
        let counts = counts_at(alloc, rows, row(table, device as usize))?;
        push_line(lines, k, device, counts.as_slice())?;
    }
    Ok(())
}

/// Adds the lines of what was found of a snapshot.
fn push_finding(
    alloc: Global,
    lines: &mut Vec<Line1>,
    net: &Net,
    finding: &Finding,
    table: &[Numbers],
) -> Result<(), AllocError>
    requires table { table.now ≡ map (cabled net.now) (below (length net.now.parts.devices)) }
    requires small { AreFew finding.now.rows }
    ensures { OnOk result (lines.new.items ≡ lines.old.items ++ finding_lines net.now finding.now) }
{
    match finding.verdict {
        Verdict::Consistent => push_lines(
            alloc,
            lines,
            net,
            finding.k,
            finding.rows.items.as_slice(),
            table,
        ),
        _ => Ok(()),
    }
}

/// The table of balance of the findings of a run: a line for each consistent snapshot ascending and
/// in it for each device in order that has a cable.
pub fn balance_of(alloc: Global, input: &Input, findings: &Findings) -> Result<Vec<Line1>, Memory>
    requires { All (λ f. AreFew f.rows) findings.now.list }
    ensures { IfOk result (λ lines. lines.items ≡ balance input.now.net findings.now.list) }
{
    let net = &input.net;
    let table = list_cabled(alloc, net)?;
    let mut lines = Vec::new(alloc);
    for finding in &findings.list.items {
        push_finding(alloc, &mut lines, net, finding, table.as_slice())?;
    }
    Ok(lines)
}
