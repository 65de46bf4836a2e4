// The text of the table.
ghost use Rattle.std.specs.Prelude.{◌≡◌, ◌++◌, IfOk, OnOk, flat_map, string_bytes};
ghost use Rattle.sl_net.specs.Spelling.{device_name};
ghost use Rattle.sl_route.specs.Routes.{IsRoutesOf};
ghost use Rattle.sl_balance.specs.BalanceText.{table_line, line_text, paths_line, balance_text};

use crate::equal::equal_ports;
use crate::line::Line1;
use sl_machine::Memory;
use sl_net::{Input, Name, Net, Parts};
use sl_route::{Pair, PairText, Routes, push_pairs};
use std::alloc::{AllocError, Global};

/// Writes the name of a device, or nothing where there is none.
fn push_device(out: &mut String, parts: &Parts, device: u32) -> Result<(), AllocError>
    ensures { OnOk result
        (string_bytes out.new ≡ string_bytes out.old ++ device_name parts.now device) }
{
    match parts.devices.get(device as usize) {
        Some(part) => {
            let name = &part.name;
            write!(out, "{name}")
        }
        None => Ok(()),
    }
}

/// Writes a line of the table.
#[tactic(auto, unfolding(crate::specs::BalanceText::table_line))]
fn push_line(out: &mut String, parts: &Parts, line: &Line1) -> Result<(), AllocError>
    ensures { OnOk result
        (string_bytes out.new ≡ string_bytes out.old ++ line_text parts.now line.now) }
{
    let Line1 {
        k,
        device,
        cables,
        least,
        greatest,
        spread,
    } = *line;
    write!(out, "table {k} ")?;
    push_device(out, parts, device)?;
    write!(out, " {cables} {least} {greatest} {spread}\n")
}

/// Writes the lines of the table.
#[tactic(auto, using(crate::proofs::Loops::lines_more))]
fn push_lines(out: &mut String, parts: &Parts, lines: &[Line1]) -> Result<(), AllocError>
    ensures { OnOk result
        (string_bytes out.new ≡ string_bytes out.old ++ flat_map (line_text parts.now) lines.now) }
{
    for line in lines {
        push_line(out, parts, line)?;
    }
    Ok(())
}

#[tactic(auto, unfolding(crate::specs::BalanceText::paths_line))]
fn push_ways(out: &mut String, device: &Name, host: &Name, count: u32) -> Result<(), AllocError>
    ensures { OnOk result
        (string_bytes out.new ≡ string_bytes out.old ++ paths_line device.now host.now count) }
{
    write!(out, "paths {device} {host} {count}\n")
}

/// By how many ports the shortest ways from a device to a host begin.
struct Paths;

impl PairText for Paths {
    ghost use Rattle.sl_balance.specs.BalanceText.{paths_text};

    ghost text = { paths_text };

    fn push(out: &mut String, net: &Net, routes: &Routes, pair: Pair) -> Result<(), AllocError> {
        let Pair { device, host } = pair;
        let count = equal_ports(net, routes, device, host);
        let parts = net.parts();
        push_ways(
            out,
            &parts.devices[device as usize].name,
            &parts.hosts[host as usize].name,
            count,
        )
    }
}

/// The text of the table of balance: its lines, and for each device and each host by how many ports
/// the shortest ways begin.
pub fn balance_bytes(
    alloc: Global,
    input: &Input,
    routes: &Routes,
    lines: &[Line1],
) -> Result<Vec<u8>, Memory>
    requires { IsRoutesOf input.now.net routes.now }
    ensures { IfOk result (λ bytes. bytes.items ≡ balance_text input.now.net lines.now) }
{
    let net = &input.net;
    let mut out = String::new(alloc);
    write!(out, "balance 1\n")?;
    push_lines(&mut out, net.parts(), lines)?;
    push_pairs::<Paths>(&mut out, net, routes)?;
    write!(out, "end\n")?;
    Ok(out.into_bytes())
}
