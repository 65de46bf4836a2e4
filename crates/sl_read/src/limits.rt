// Limits of an input that its numbers keep together.
ghost use Rattle.std.specs.Prelude.{◌≡◌, ◌≤◌, ◌==◌};
ghost use Rattle.std.specs.List.{position};
ghost use Rattle.sl_form.specs.Refusals.{Answers};
ghost use Rattle.sl_read.specs.Limits.{ids_carried, few_values, limits_kept};

use sl_form::{Key, Path, ReadError, Refusal, TableName};
use sl_net::{CablePart, Net, Snapshot};

/// The most values of units that a report may have, one for each unit and snapshot.
const MOST_VALUES: u64 = 1_024_000;

/// The first cable with frames of version 1.
fn narrow_cable(cables: &[CablePart]) -> Option<usize>
    ensures { result ≡ position (λ c. c.version == 1) cables.now }
{
    cables.iter().position(|cable| cable.version == 1)
}

/// Whether the frames of each version that is used carry the ids.
#[tactic(auto, unfolding(crate::specs::Limits::ids_carried))]
fn ids_carried(snapshot: &Snapshot, cables: &[CablePart]) -> Result<(), Refusal>
    ensures { result ≡ ids_carried snapshot.now cables.now }
{
    if snapshot.width <= 8 {
        return Ok(());
    }
    if snapshot.version == 1 {
        let path = Path::at(TableName::Snapshot, Key::Version);
        return Err(Refusal::TooWide(path));
    }
    match narrow_cable(cables) {
        Some(index) => {
            let at = TableName::Cable(index as u64);
            Err(Refusal::TooWide(Path::at(at, Key::Version)))
        }
        None => Ok(()),
    }
}

#[tactic(auto, unfolding(crate::specs::Limits::few_values))]
fn few_values(net: &Net, snapshot: &Snapshot) -> Result<(), Refusal>
    requires { snapshot.now.count ≤ 100000 }
    ensures { result ≡ few_values net.now snapshot.now }
{
    let values = snapshot.count * u64::from(net.unit_count());
    if values > MOST_VALUES {
        return Err(Refusal::TooManyValues(values));
    }
    Ok(())
}

/// Whether the ids are carried, and the report is short enough.
pub fn limits_kept(net: &Net, snapshot: &Snapshot) -> Result<(), ReadError>
    requires { snapshot.now.count ≤ 100000 }
    ensures { Answers result (limits_kept net.now snapshot.now) }
{
    ids_carried(snapshot, net.parts().cables.as_slice())?;
    few_values(net, snapshot)?;
    Ok(())
}
