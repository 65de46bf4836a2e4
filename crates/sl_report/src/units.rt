// Units and channels as text.
ghost use Rattle.std.specs.Prelude.{◌≡◌, ◌++◌, OnOk, string_bytes};
ghost use Rattle.sl_layout.specs.Net.{actor_of, link_of};
ghost use Rattle.sl_net.specs.Spelling.{side_text, port_of};
ghost use Rattle.sl_report.specs.Report.{port_text, unit_text, channel_text};

use crate::numbers::push_number;
use sl_net::{ActorId, LinkPart, Net, Parts, Side, Sort, UnitId};
use std::alloc::AllocError;

fn side_text(side: Side) -> &'static str
    ensures { result.now ≡ side_text side }
{
    match side {
        Side::Ingress => "in",
        Side::Egress => "out",
    }
}

#[tactic(auto, unfolding(crate::specs::Report::port_text))]
fn push_port(out: &mut String, parts: &Parts, unit: UnitId) -> Result<(), AllocError>
    ensures { OnOk result
        (string_bytes out.new ≡ string_bytes out.old ++ port_text parts.now unit) }
{
    let side = side_text(unit.side);
    let port = unit.port;
    match parts.devices.get(unit.device as usize) {
        Some(part) => {
            out.push_str(side)?;
            out.push(' ')?;
            out.push_str(part.name.as_str())?;
            out.push('.')?;
            push_number(out, u64::from(port))
        }
        None => write!(out, "{side} .{port}"),
    }
}

/// Writes the unit with this actor's number.
pub fn push_unit(out: &mut String, net: &Net, actor: u32) -> Result<(), AllocError>
    ensures { OnOk result (string_bytes out.new ≡ string_bytes out.old ++ unit_text net.now actor) }
{
    match net.actors().get(actor as usize) {
        Some(ActorId::Unit(unit)) => push_port(out, net.parts(), *unit),
        _ => Ok(()),
    }
}

/// The port of a unit with this actor's number, 0 for any other actor.
fn port_of(net: &Net, actor: u32) -> u32
    ensures { result ≡ port_of (actor_of net.now actor) }
{
    match net.actors().get(actor as usize) {
        Some(ActorId::Unit(unit)) => unit.port,
        _ => 0,
    }
}

/// The link of a number, or one from the first actor where there is none.
fn link_of(net: &Net, link: u32) -> LinkPart
    ensures { result ≡ link_of net.now link }
{
    match net.links().get(link as usize) {
        Some(link) => *link,
        None => LinkPart {
            from: 0,
            to: 0,
            sort: Sort::ToHost,
        },
    }
}

/// Writes the name of a data channel, by its link's number.
pub fn push_channel(out: &mut String, net: &Net, link: u32) -> Result<(), AllocError>
    ensures { OnOk result
        (string_bytes out.new ≡ string_bytes out.old ++ channel_text net.now link) }
{
    let link = link_of(net, link);
    let port = port_of(net, link.from);
    match link.sort {
        Sort::Cable => write!(out, "cable"),
        _ => {
            out.push('x')?;
            push_number(out, u64::from(port))
        }
    }
}
