// The findings of schedules that are written down.
ghost use Rattle.std.specs.List.{All};
ghost use Rattle.sl_flow.specs.Flow.{HasAddresses};

use crate::inputs::input_of;
use crate::rows::{Row, rows};
use sl_cut::findings_of;
use sl_net::{Input, Net, find_choice};
use sl_report::report_bytes;
use std::alloc::Global;
use std::test::Fail;

/// The choices that a text spells, with `;` between them.
fn schedule_of(alloc: Global, net: &Net, text: &str) -> Result<Vec<(u32, u32)>, Fail> {
    let mut schedule = Vec::new(alloc);
    for line in text.split(";") {
        schedule.push(find_choice(net, line.trim()).ok_or("no choice")?)?;
    }
    Ok(schedule)
}

/// The report of the findings of a schedule.
fn report_of(alloc: Global, input: &Input, schedule: &[(u32, u32)]) -> Result<Vec<u8>, Fail>
    requires { All HasAddresses input.now.flows }
{
    let findings = findings_of(alloc, input, schedule)?;
    let report = report_bytes(alloc, input, &findings);
    drop(findings);
    Ok(report?)
}

/// Whether the findings of a row's schedule are what it says.
fn is_reported(alloc: Global, input: &Input, row: &Row) -> Result<bool, Fail>
    requires { All HasAddresses input.now.flows }
{
    let schedule = schedule_of(alloc, &input.net, row.schedule)?;
    let report = report_of(alloc, input, schedule.as_slice())?;
    Ok(report.as_slice() == row.report.as_bytes())
}

fn is_right(alloc: Global, row: &Row) -> Result<bool, Fail> {
    let input = input_of(alloc, row.input)?;
    let right = is_reported(alloc, &input, row);
    drop(input);
    right
}

/// The name of the first row whose schedule has other findings.
fn wrong_row(alloc: Global) -> Result<Option<&'static str>, Fail> {
    for row in rows() {
        if !is_right(alloc, row)? {
            return Ok(Some(row.name));
        }
    }
    Ok(None)
}

/// The findings of schedules that are written down.
#[test]
fn written_schedules(rt: HostRuntime) -> Result<(), Fail> {
    assert_eq!(rt; wrong_row(rt.alloc())?, None);
    Ok(())
}
