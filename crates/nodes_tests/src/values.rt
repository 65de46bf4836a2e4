// The values of a run, and what its control planes answer.
ghost use Rattle.sl_proto.specs.RunBook.{CanRun};

use crate::calls::runnable;
use sl_machine::Memory;
use sl_net::Input;
use sl_value::{ValueControl, ValueFinding, ValueRun, ValueVerdict, Whole, run_values};
use std::alloc::Global;
use std::test::Fail;

/// Two devices of four units each, with a cable, and two packets that go over it.
const TWO_SWITCHES: &str = r#"device = [{name = "a", ports = 2}, {name = "b", ports = 2}]
cable = [{a = "a.1", b = "b.0"}]
host = [{name = "h0", at = "a.0"}, {name = "h1", at = "b.1"}]
flow = [{from = "h0", to = "h1", count = 2, bytes = 100, hops = 8}]
snapshot = {bits = 2, window = 2, ring = 2, count = 2, retries = 0}
"#;

/// What the control plane of a device answers for a unit and a number.
fn answer(controls: &[ValueControl], device: usize, unit: u32, k: u64) -> Option<Whole> {
    match controls.get(device) {
        Some(control) => control.value(unit, k),
        None => None,
    }
}

/// Whether the control plane of a unit's device answers this for a number, and no other answers any.
fn is_answered(controls: &[ValueControl], unit: u32, k: u64, value: Option<Whole>) -> bool {
    let (own, other) = if unit < 4 { (0, 1) } else { (1, 0) };
    answer(controls, own, unit, k) == value && answer(controls, other, unit, k).is_none()
}

/// Whether a snapshot is whole, with a value for each of the eight units that is answered.
fn is_told(controls: &[ValueControl], finding: &ValueFinding) -> bool {
    let values = finding.values.items.as_slice();
    if finding.verdict != ValueVerdict::Whole || values.len() != 8 {
        return false;
    }
    for unit in 0..8 {
        let value = values.get(unit as usize).copied();
        if !is_answered(controls, unit, finding.k, value) {
            return false;
        }
    }
    true
}

/// Whether no control plane has a value for a number.
fn has_none(controls: &[ValueControl], k: u64) -> bool {
    for unit in 0..8 {
        if !is_answered(controls, unit, k, None) {
            return false;
        }
    }
    true
}

/// How many control planes there are, how many snapshots, and how many of these are whole and
/// answered.
fn told_of(run: &ValueRun) -> (usize, usize, usize) {
    let controls = run.controls.as_slice();
    let mut told: usize = 0;
    for finding in &run.list.items {
        if is_told(controls, finding) {
            told = told.saturating_add(1);
        }
    }
    (controls.len(), run.list.items.len(), told)
}

/// Whether both snapshots of a run are whole and answered by its two control planes, and none of
/// these has a value for 0 or for a number above those collected.
fn are_found_in(run: &ValueRun) -> bool {
    let controls = run.controls.as_slice();
    told_of(run) == (2, 2, 2) && has_none(controls, 0) && has_none(controls, 3)
}

/// Whether a control plane that was just made answers nothing for its first unit.
fn answers_nothing(alloc: Global, input: &Input) -> Result<bool, Memory>
    requires { CanRun input.now }
{
    if input.net.parts().devices.len() != 2 {
        return Ok(false);
    }
    let control = ValueControl::new(alloc, &input.net, 1, &input.snapshot)?;
    let nothing = control.value(4, 1).is_none();
    drop(control);
    Ok(nothing)
}

/// The same of a run of an input, and whether a new control plane has no value.
fn are_found(alloc: Global, input: &Input) -> Result<bool, Fail>
    requires { CanRun input.now }
{
    let is_new = answers_nothing(alloc, input)?;
    let run = run_values(alloc, input)?;
    let found = are_found_in(&run);
    drop(run);
    Ok(found && is_new)
}

/// Each value is what the control plane of its unit's device answers, and no other does; none has
/// a value for 0, or for a number above those collected, nor a new one for any.
#[test]
fn controls_answer_values(rt: HostRuntime) -> Result<(), Fail> {
    let input = runnable(rt.alloc(), TWO_SWITCHES)?;
    let right = are_found(rt.alloc(), &input);
    drop(input);
    assert!(rt; right?);
    Ok(())
}
