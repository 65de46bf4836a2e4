// The text of a refused input.
ghost use Rattle.std.specs.Prelude.{◌≡◌, ◌++◌, IfOk, codes, string_bytes};
ghost use Rattle.std.specs.Fmt.{signed_decimal};
ghost use Rattle.sl_form.specs.Paths.{table_text};
ghost use Rattle.sl_report.specs.FaultText.{place_text, net_words, fault_words, fault_text};

use sl_form::TableName;
use sl_machine::Memory;
use sl_net::{Line, NetFault, Place};
use sl_read::InputFault;
use std::alloc::{AllocError, Global};

/// The table of a part of a net in the input.
fn table_of(place: Place) -> TableName
    ensures { table_text result ≡ place_text place }
{
    match place {
        Place::Device(i) => TableName::Device(i),
        Place::Cable(i) => TableName::Cable(i),
        Place::Host(i) => TableName::Host(i),
    }
}

fn net_words(alloc: Global, fault: NetFault) -> Result<String, AllocError>
    ensures { IfOk result (λ text. string_bytes text ≡ net_words fault) }
{
    match fault {
        NetFault::N1 => format!(in alloc; "N1"),
        NetFault::N2(n) => format!(in alloc; "N2 {n}"),
        NetFault::N3(i) => format!(in alloc; "N3 device.{i}"),
        NetFault::N4(place) => {
            let table = table_of(place);
            format!(in alloc; "N4 {table}")
        }
        NetFault::N5(i) => format!(in alloc; "N5 cable.{i}"),
        NetFault::N6(n) => format!(in alloc; "N6 {n}"),
        NetFault::N7(i) => format!(in alloc; "N7 host.{i}"),
        NetFault::N8(place) => {
            let table = table_of(place);
            format!(in alloc; "N8 {table}")
        }
        NetFault::Memory => Ok(String::new(alloc)),
    }
}

/// A number, a space and a path.
fn with_path(alloc: Global, number: &str, path: &Line) -> Result<Vec<u8>, AllocError>
    ensures { IfOk result (λ bytes. bytes.items ≡ (number.now ++ codes " ") ++ path.now) }
{
    let text = format!(in alloc; "{number} ")?;
    let mut bytes = text.into_bytes();
    bytes.extend_from_slice(path.items.as_slice())?;
    Ok(bytes)
}

/// A path and the value that it has.
fn with_value(alloc: Global, path: &Line, value: i64) -> Result<Vec<u8>, AllocError>
    ensures { IfOk result
        (λ bytes. bytes.items ≡ codes "I6 " ++ (path.now ++ (codes " " ++ signed_decimal value))) }
{
    let mut bytes = with_path(alloc, "I6", path)?;
    let text = format!(in alloc; " {value}")?;
    bytes.extend_from_slice(text.as_bytes())?;
    Ok(bytes)
}

fn with_net(alloc: Global, fault: NetFault) -> Result<Vec<u8>, AllocError>
    ensures { IfOk result (λ bytes. bytes.items ≡ codes "I9 " ++ net_words fault) }
{
    let words = net_words(alloc, fault)?;
    let text = format!(in alloc; "I9 {words}")?;
    Ok(text.into_bytes())
}

/// The number of a fault and what it keeps.
fn words_of(alloc: Global, fault: &InputFault) -> Result<Vec<u8>, AllocError>
    ensures { IfOk result (λ bytes. bytes.items ≡ fault_words fault.now) }
{
    match fault {
        InputFault::I1 => Ok(format!(in alloc; "I1")?.into_bytes()),
        InputFault::I2 => Ok(format!(in alloc; "I2")?.into_bytes()),
        InputFault::I3(path) => with_path(alloc, "I3", path),
        InputFault::I4(path) => with_path(alloc, "I4", path),
        InputFault::I5(path) => with_path(alloc, "I5", path),
        InputFault::I6(path, value) => with_value(alloc, path, *value),
        InputFault::I7(path) => with_path(alloc, "I7", path),
        InputFault::I8(entry) => Ok(format!(in alloc; "I8 script.{entry}")?.into_bytes()),
        InputFault::I9(fault) => with_net(alloc, *fault),
        InputFault::I10(count) => Ok(format!(in alloc; "I10 {count}")?.into_bytes()),
        InputFault::I11(path) => with_path(alloc, "I11", path),
        InputFault::I12(count) => Ok(format!(in alloc; "I12 {count}")?.into_bytes()),
        InputFault::Memory => Ok(Vec::new(alloc)),
    }
}

/// The text of a refused input, one line.
#[tactic(auto, unfolding(crate::specs::FaultText::fault_text))]
pub fn fault_bytes(alloc: Global, fault: &InputFault) -> Result<Vec<u8>, Memory>
    ensures { IfOk result (λ bytes. bytes.items ≡ fault_text fault.now) }
{
    let words = words_of(alloc, fault)?;
    let mut bytes = format!(in alloc; "speedlight: ")?.into_bytes();
    bytes.extend_from_slice(words.as_slice())?;
    bytes.extend_from_slice(b"\n")?;
    Ok(bytes)
}
