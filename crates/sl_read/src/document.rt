// Trusted types: Document.
// The tables of the input, one after the other.
ghost use Rattle.std.specs.Prelude.{Ok};
ghost use Rattle.toml.specs.View.{table_view};
ghost use Rattle.sl_form.specs.Refusals.{◌>>=◌ as ◌then◌, Answers};
ghost use Rattle.sl_form.specs.declared.path.TableName.TheVariants.{Top};
ghost use Rattle.sl_form.specs.declared.path.Key.TheVariants.{Device, Cable, Host, Flow, Raw};
ghost use Rattle.sl_read.specs.Rows.{rows};
ghost use Rattle.sl_read.specs.Tables.{device_of, cable_of, host_of, snapshot_of, any_loss_of};
ghost use Rattle.sl_read.specs.Tables.{flow_of, raw_of, any_script_of};
ghost use Rattle.sl_read.specs.Sections.{sections_view};
ghost use Rattle.sl_read.specs.Documents.{walk_of, document_of};

use crate::cable::CableRow;
use crate::flow::FlowRow;
use crate::host::HostRow;
use crate::loss::{LossRow, read_loss};
use crate::raw::RawRow;
use crate::rows::rows;
use crate::script::read_script;
use crate::snapshot::read_snapshot;
use crate::top::{Sections, read_top};
use sl_form::{Key, ReadError, TableName, Text};
use sl_machine::Listed;
use sl_net::{DevicePart, Snapshot};
use std::alloc::Global;
use toml::Table;

/// What the tables say, with names that are still to be looked up.
#[derive(Drop)]
pub struct Document {
    pub devices: Listed<DevicePart>,
    pub cables: Listed<CableRow>,
    pub hosts: Listed<HostRow>,
    pub snapshot: Snapshot,
    pub loss: LossRow,
    pub flows: Listed<FlowRow>,
    pub raws: Listed<RawRow>,
    pub script: Listed<Text>,
}

/// The lists of which the net is made.
#[derive(Drop)]
struct NetRows {
    devices: Listed<DevicePart>,
    cables: Listed<CableRow>,
    hosts: Listed<HostRow>,
}

/// What is read after these lists.
#[derive(Drop)]
struct RunRows {
    snapshot: Snapshot,
    loss: LossRow,
    flows: Listed<FlowRow>,
    raws: Listed<RawRow>,
    script: Listed<Text>,
}

fn net_rows(alloc: Global, sections: &Sections<'_>) -> Result<NetRows, ReadError>
    ensures { let s = sections_view sections.now in Answers result
        (rows Top Device device_of 0 s.devices then (λ devices.
        rows Top Cable cable_of 0 s.cables then (λ cables.
        rows Top Host host_of 0 s.hosts then (λ hosts.
        Ok (record { devices = devices; cables = cables; hosts = hosts }))))) }
{
    let at = TableName::Top;
    Ok(NetRows {
        devices: rows::<DevicePart>(alloc, at, Key::Device, sections.devices)?,
        cables: rows::<CableRow>(alloc, at, Key::Cable, sections.cables)?,
        hosts: rows::<HostRow>(alloc, at, Key::Host, sections.hosts)?,
    })
}

fn run_rows(alloc: Global, sections: &Sections<'_>) -> Result<RunRows, ReadError>
    ensures { let s = sections_view sections.now in Answers result
        (snapshot_of s.snapshot then (λ snapshot.
        any_loss_of s.loss then (λ loss.
        rows Top Flow flow_of 0 s.flows then (λ flows.
        rows Top Raw raw_of 0 s.raws then (λ raws.
        any_script_of s.script then (λ script.
        Ok (record {
          snapshot = snapshot;
          loss = loss;
          flows = flows;
          raws = raws;
          script = script;
        }))))))) }
{
    let at = TableName::Top;
    Ok(RunRows {
        snapshot: read_snapshot(sections.snapshot)?,
        loss: read_loss(alloc, sections.loss)?,
        flows: rows::<FlowRow>(alloc, at, Key::Flow, sections.flows)?,
        raws: rows::<RawRow>(alloc, at, Key::Raw, sections.raws)?,
        script: read_script(alloc, sections.script)?,
    })
}

fn walk(alloc: Global, sections: &Sections<'_>) -> Result<Document, ReadError>
    ensures { Answers result (walk_of (sections_view sections.now)) }
{
    let net = net_rows(alloc, sections)?;
    let run = match run_rows(alloc, sections) {
        Ok(run) => run,
        Err(error) => {
            drop(net);
            return Err(error);
        }
    };
    Ok(Document {
        devices: net.devices,
        cables: net.cables,
        hosts: net.hosts,
        snapshot: run.snapshot,
        loss: run.loss,
        flows: run.flows,
        raws: run.raws,
        script: run.script,
    })
}

/// Reads the tables.
#[tactic(auto, unfolding(crate::specs::Documents::document_of))]
pub fn read_document(alloc: Global, table: &Table) -> Result<Document, ReadError>
    ensures { Answers result (document_of (table_view table.now)) }
{
    let sections = read_top(table)?;
    walk(alloc, &sections)
}
