// The neighbours of actors: who is at the other end of each of their links. No clause speaks of it.
use sl_machine::{Memory, Wiring};
use std::alloc::Global;

/// The bit of a choice among the news of an actor. Choices 64 apart share one.
pub(crate) fn bit_of(choice: u32) -> u64 {
    1u64 << (choice % 64)
}

/// The other end of a link.
#[derive(Clone, Copy)]
pub(crate) struct Neighbour {
    pub(crate) actor: u32,
    /// The link's bit at its receiver.
    pub(crate) bit: u64,
    pub(crate) link: usize,
}

/// The neighbours of the actors of a wiring.
#[derive(Drop)]
pub struct Neighbours {
    // by actor, the sender of each of its incoming links
    senders: Vec<Vec<Neighbour>>,
    // by actor, the receiver of each of its outgoing links
    receivers: Vec<Vec<Neighbour>>,
}

impl Neighbours {
    /// The neighbours of the actors of a wiring.
    pub fn in_wiring(alloc: Global, wiring: &Wiring) -> Result<Neighbours, Memory> {
        let mut senders = rows(alloc, wiring.in_counts.as_slice())?;
        let mut receivers = rows(alloc, wiring.out_counts.as_slice())?;
        for (number, link) in wiring.links.iter().enumerate() {
            let bit = bit_of(link.choice);
            let (from, to) = (link.from, link.to);
            write(
                &mut senders,
                to,
                link.choice,
                Neighbour {
                    actor: from,
                    bit,
                    link: number,
                },
            );
            write(
                &mut receivers,
                from,
                link.out,
                Neighbour {
                    actor: to,
                    bit,
                    link: number,
                },
            );
        }
        Ok(Neighbours { senders, receivers })
    }

    /// The sender of each incoming link of an actor.
    pub(crate) fn senders_of(&self, alloc: Global, actor: u32) -> Result<Vec<Neighbour>, Memory> {
        row_at(alloc, &self.senders, actor as usize)
    }

    /// The receiver of each outgoing link of an actor.
    pub(crate) fn receivers_of(&self, alloc: Global, actor: u32) -> Result<Vec<Neighbour>, Memory> {
        row_at(alloc, &self.receivers, actor as usize)
    }
}

/// Rows of these lengths.
fn rows(alloc: Global, counts: &[u32]) -> Result<Vec<Vec<Neighbour>>, Memory> {
    let none = Neighbour {
        actor: 0,
        bit: 0,
        link: 0,
    };
    let mut rows = Vec::new(alloc);
    for count in counts {
        rows.push(vec![in alloc; none; *count as usize]?)?;
    }
    Ok(rows)
}

/// Writes at a place of a row.
fn write(rows: &mut Vec<Vec<Neighbour>>, row: u32, place: u32, neighbour: Neighbour) {
    if let Some(row) = rows.get_mut(row as usize)
        && let Some(at) = row.get_mut(place as usize)
    {
        *at = neighbour;
    }
}

/// The row at a place, or none.
fn row_at(
    alloc: Global,
    rows: &Vec<Vec<Neighbour>>,
    place: usize,
) -> Result<Vec<Neighbour>, Memory> {
    match rows.get(place) {
        Some(row) => Ok(row.clone()?),
        None => Ok(Vec::new(alloc)),
    }
}
