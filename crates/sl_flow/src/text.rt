// The sample inputs as TOML.
ghost use Rattle.std.specs.Prelude.{◌≡◌, ◌≤◌, ◌++◌, ◌==◌, List, ℕ, [], ◌↔◌, cond, IfOk, OnOk};
ghost use Rattle.std.specs.Prelude.{IfErr, codes, string_bytes};
ghost use Rattle.sl_parts.specs.Parts.{Parts};
ghost use Rattle.sl_net.specs.Spelling.{host_name};
ghost use Rattle.sl_flow.specs.Sample.{IsSampleNumber};
ghost use Rattle.sl_flow.specs.InputText.{port_text, device_row, cable_row, host_row, flow_row};
ghost use Rattle.sl_flow.specs.InputText.{rows_text, list_line, snapshot_line, loss_line};
ghost use Rattle.sl_flow.specs.InputText.{document, sample_text};

use crate::fault::SampleFault;
use crate::sample::{flows, is_sample_number, loss, parts, snapshot};
use sl_net::{CablePart, DevicePart, Flow, HostPart, LossSpec, Parts, PortRef, Snapshot};
use std::alloc::{AllocError, Global};

/// A row of a list, which may name devices and hosts of a net.
trait Row {
    /// The row as a TOML table.
    ghost text: { Parts → Self → List ℕ };

    /// Writes the row.
    fn push(&self, out: &mut String, parts: &Parts) -> Result<(), AllocError>
        ensures { OnOk result
            (string_bytes out.new ≡ string_bytes out.old ++ text parts.now self.now) };
}

/// Writes a port by its device's name and its number.
#[tactic(auto, unfolding(crate::specs::InputText::port_text))]
fn push_port(out: &mut String, parts: &Parts, port: PortRef) -> Result<(), AllocError>
    ensures { OnOk result
        (string_bytes out.new ≡ string_bytes out.old ++ port_text parts.now port) }
{
    let number = port.port;
    match parts.devices.get(port.device as usize) {
        Some(part) => {
            let name = &part.name;
            write!(out, "{name}.{number}")
        }
        None => write!(out, ".{number}"),
    }
}

fn push_host_name(out: &mut String, parts: &Parts, host: u32) -> Result<(), AllocError>
    ensures { OnOk result
        (string_bytes out.new ≡ string_bytes out.old ++ host_name parts.now host) }
{
    match parts.hosts.get(host as usize) {
        Some(part) => {
            let name = &part.name;
            write!(out, "{name}")
        }
        None => Ok(()),
    }
}

#[tactic(auto, unfolding(crate::specs::InputText::device_row))]
impl Row for DevicePart {
    ghost text = { device_row };

    fn push(&self, out: &mut String, _parts: &Parts) -> Result<(), AllocError> {
        let name = &self.name;
        let ports = self.ports;
        write!(out, "{{name = \"{name}\", ports = {ports}}}")
    }
}

#[tactic(auto, unfolding(crate::specs::InputText::cable_row))]
impl Row for CablePart {
    ghost text = { cable_row };

    fn push(&self, out: &mut String, parts: &Parts) -> Result<(), AllocError> {
        write!(out, "{{a = \"")?;
        push_port(out, parts, self.a)?;
        write!(out, "\", b = \"")?;
        push_port(out, parts, self.b)?;
        write!(out, "\"}}")
    }
}

#[tactic(auto, unfolding(crate::specs::InputText::host_row))]
impl Row for HostPart {
    ghost text = { host_row };

    fn push(&self, out: &mut String, parts: &Parts) -> Result<(), AllocError> {
        let name = &self.name;
        write!(out, "{{name = \"{name}\", at = \"")?;
        push_port(out, parts, self.at)?;
        write!(out, "\"}}")
    }
}

#[tactic(auto, unfolding(crate::specs::InputText::flow_row))]
impl Row for Flow {
    ghost text = { flow_row };

    fn push(&self, out: &mut String, parts: &Parts) -> Result<(), AllocError> {
        let count = self.count;
        let bytes = self.bytes;
        let hops = self.hops;
        write!(out, "{{from = \"")?;
        push_host_name(out, parts, self.from)?;
        write!(out, "\", to = \"")?;
        push_host_name(out, parts, self.to)?;
        write!(out, "\", count = {count}, bytes = {bytes}, hops = {hops}}}")
    }
}

/// Writes what parts the row of a place from the row before.
fn push_separator(out: &mut String, place: usize) -> Result<(), AllocError>
    ensures { OnOk result
        (string_bytes out.new ≡ string_bytes out.old ++ cond (place == 0) [] (codes ", ")) }
{
    if place == 0 {
        Ok(())
    } else {
        write!(out, ", ")
    }
}

fn push_rows<R: Row>(out: &mut String, parts: &Parts, rows: &[R]) -> Result<(), AllocError>
    ensures { OnOk result
        (string_bytes out.new ≡ string_bytes out.old ++ rows_text (R.text parts.now) rows.now) }
{
    for i in 0..rows.len() {
        push_separator(out, i)?;
        rows[i].push(out, parts)?;
    }
    Ok(())
}

/// Writes the line of a list.
#[tactic(auto, unfolding(crate::specs::InputText::list_line))]
fn push_list<R: Row>(
    out: &mut String,
    parts: &Parts,
    key: &str,
    rows: &[R],
) -> Result<(), AllocError>
    ensures { OnOk result
        (string_bytes out.new ≡ string_bytes out.old ++ list_line key.now
        (R.text parts.now) rows.now) }
{
    write!(out, "{key} = [")?;
    push_rows(out, parts, rows)?;
    write!(out, "]\n")
}

#[tactic(auto, unfolding(crate::specs::InputText::snapshot_line))]
fn push_snapshot(out: &mut String, table: Snapshot) -> Result<(), AllocError>
    ensures { OnOk result (string_bytes out.new ≡ string_bytes out.old ++ snapshot_line table) }
{
    let Snapshot {
        width: bits,
        window,
        ring,
        count,
        retries,
        ..
    } = table;
    write!(
        out,
        "snapshot = {{bits = {bits}, window = {window}, ring = {ring}, \
         count = {count}, retries = {retries}}}\n"
    )
}

#[tactic(auto, unfolding(crate::specs::InputText::loss_line))]
fn push_loss(out: &mut String, loss: &LossSpec) -> Result<(), AllocError>
    ensures { OnOk result (string_bytes out.new ≡ string_bytes out.old ++ loss_line loss.now) }
{
    let seed = loss.seed;
    let cable = loss.cable;
    let crossbar = loss.crossbar;
    let init = loss.init;
    let notice = loss.notice;
    write!(
        out,
        "loss = {{seed = {seed}, cable = {cable}, crossbar = {crossbar}, \
         init = {init}, notice = {notice}}}\n"
    )
}

fn document(
    alloc: Global,
    parts: &Parts,
    flows: &[Flow],
    table: Snapshot,
    loss: &LossSpec,
) -> Result<Vec<u8>, AllocError>
    ensures { IfOk result (λ text. text.items ≡ document parts.now flows.now table loss.now) }
{
    let mut out = String::new(alloc);
    push_list(&mut out, parts, "device", parts.devices.as_slice())?;
    push_list(&mut out, parts, "cable", parts.cables.as_slice())?;
    push_list(&mut out, parts, "host", parts.hosts.as_slice())?;
    push_list(&mut out, parts, "flow", flows)?;
    push_snapshot(&mut out, table)?;
    push_loss(&mut out, loss)?;
    Ok(out.into_bytes())
}

fn text(alloc: Global, n: u64) -> Result<Vec<u8>, AllocError>
    requires { n ≤ 64 }
    ensures { IfOk result (λ text. text.items ≡ sample_text n) }
{
    let parts = parts(alloc, n)?;
    let flows = flows(alloc, n)?;
    let loss = loss(alloc, n);
    document(alloc, &parts, flows.as_slice(), snapshot(n), &loss)
}

/// The sample input of a number from 1 to 64 as text: a TOML document of six lines.
pub fn sample_input(alloc: Global, n: u64) -> Result<Vec<u8>, SampleFault>
    ensures text { IfOk result (λ text. text.items ≡ sample_text n) }
    ensures in_range { OnOk result (IsSampleNumber n) }
    ensures out_of_range { IfErr result (λ e. e ≡ SampleFault.OutOfRange ↔ (IsSampleNumber n → ⊥)) }
{
    if !is_sample_number(n) {
        return Err(SampleFault::OutOfRange);
    }
    match text(alloc, n) {
        Ok(text) => Ok(text),
        Err(_) => Err(SampleFault::Memory),
    }
}
