// The reading of a run, from what is told of it.
ghost use Rattle.std.specs.Prelude.{◌≡◌, ◌<◌, ◌∷◌, [], List, IfOk, OnOk, IfSome, find, length, map};
ghost use Rattle.std.specs.List.{All};
ghost use Rattle.std.specs.Option.{option_or};
ghost use Rattle.sl_parts.specs.Parts.{below};
ghost use Rattle.sl_layout.specs.Net.{units};
ghost use Rattle.sl_model.specs.History.{Losses};
ghost use Rattle.sl_model.specs.Setup.{Setup};
ghost use Rattle.sl_model.specs.World.{Entry};
ghost use Rattle.sl_poll.specs.declared.poll.Polling.{Polling};
ghost use Rattle.sl_poll.specs.declared.trail.Counted.{Counted as CountedStep};
ghost use Rattle.sl_poll.specs.declared.trail.Pair.{Pair as PairOf};
ghost use Rattle.sl_poll.specs.Hearing.{Hears};
ghost use Rattle.sl_poll.specs.HasRead.{HasRead};
ghost use Rattle.sl_poll.specs.Sums.{read_by};
ghost use Rattle.sl_poll.specs.Trail.{pairs, all_counted};
ghost use Rattle.sl_poll.specs.Reading.{breaks, read_after, reads, broken_by};

use crate::listener::Listener;
use crate::reading::Polled;
use crate::sums::{Pace, Sum, add_one, list_reads, no_sums, read_after};
use crate::trail::{Counted, Pair, Trail};
use sl_machine::{Listed, Memory};
use sl_model::worlds_take_turns;
use sl_net::{Net, nets_have_ways};
use std::alloc::Global;

/// The reading of a run, as far as it was told.
#[derive(Drop)]
pub struct Polling {
    pace: Pace,
    sums: Vec<Sum>,
    broken: Option<Pair>,
}

/// Whether a packet was taken before its receiver was read, and put after its sender was.
fn breaks(net: &Net, pace: Pace, pair: Pair) -> bool
    requires { pair.link < length net.now.links }
    ensures { result ≡ breaks net.now pace.count pace.start pace.gap pair }
{
    let ends = net.link(pair.link);
    let receiver = read_after(pace, net.unit_place(ends.to));
    let sender = read_after(pace, net.unit_place(ends.from));
    pair.take <= receiver && sender < pair.put
}

/// The packet that broke the reading before, or else this one where it breaks it.
fn first_broken(broken: Option<Pair>, net: &Net, pace: Pace, pair: Pair) -> Option<Pair>
    requires { pair.link < length net.now.links }
    ensures { result ≡ option_or broken
        (find (breaks net.now pace.count pace.start pace.gap) (pair ∷ [])) }
{
    if broken.is_none() && breaks(net, pace, pair) {
        return Some(pair);
    }
    broken
}

impl Polling {
    /// Of a run of which nothing was told.
    pub fn new(alloc: Global, net: &Net, pace: Pace) -> Result<Polling, Memory>
        ensures pace { IfOk result (λ p. p.pace ≡ pace) }
        ensures first { IfOk result (λ p. HasRead net.now p p [] []) }
    {
        let sums = no_sums(alloc, net.unit_count())?;
        Ok(Polling {
            pace,
            sums,
            broken: None,
        })
    }

    /// What was read of all units.
    pub fn finish(self, alloc: Global, net: &Net) -> Result<Polled, Memory>
        ensures reads { (first : Polling) (ps : List PairOf) (cs : List CountedStep)
            → HasRead net.now first self ps cs
            → let at = read_after first.pace.count first.pace.start first.pace.gap in
            IfOk result (λ polled. polled.reads ≡ map (read_by at cs)
            (below (length (units net.now)))) }
        ensures broken { IfOk result (λ polled. polled.broken ≡ self.broken) }
    {
        let count = net.unit_count();
        let items = list_reads(alloc, self.pace, self.sums.as_slice(), count)?;
        Ok(Polled {
            reads: Listed { items },
            broken: self.broken,
        })
    }
}

/// The first packet that breaks the reading is kept, and each count that comes before its unit is
/// read is added.
impl Listener for Polling {
    ghost use Rattle.sl_poll.specs.HasRead.{HasRead};

    ghost heard = { HasRead };

    fn hear_pair(&mut self, net: &Net, pair: Pair) -> Result<(), Memory> {
        self.broken = first_broken(self.broken, net, self.pace, pair);
        Ok(())
    }

    fn hear_count(&mut self, counted: Counted) -> Result<(), Memory> {
        add_one(&mut self.sums, self.pace, counted)?;
        Ok(())
    }
}

/// Tells a listener of pairs in order.
fn tell_pairs<L: Listener>(listener: &mut L, net: &Net, pairs: &[Pair]) -> Result<(), Memory>
    requires { All (λ p. p.link < length net.now.links) pairs.now }
    ensures { OnOk result (Hears L.heard net.now listener.old listener.new pairs.now []) }
{
    for pair in pairs {
        listener.hear_pair(net, *pair)?;
    }
    Ok(())
}

/// Tells a listener of steps that count, in order.
fn tell_counts<L: Listener>(listener: &mut L, net: &Net, counted: &[Counted]) -> Result<(), Memory>
    ensures { OnOk result (Hears L.heard net.now listener.old listener.new [] counted.now) }
{
    let _parts = net.parts();
    for one in counted {
        listener.hear_count(*one)?;
    }
    Ok(())
}

/// The reading of a run of so many entries with this trail: the first unit is read after `start`
/// entries, and each further one after `gap` more. It looks at each packet of the trail once.
pub fn reading_of(
    alloc: Global,
    net: &Net,
    trail: &Trail,
    count: u64,
    start: u64,
    gap: u64,
) -> Result<Polled, Memory>
    requires { All (λ p. p.link < length net.now.links) trail.now.pairs }
    ensures reads { IfOk result (λ polled. (s : Setup) (lost : Losses) (es : List Entry)
        → s.net ≡ net.now → length es ≡ count
        → trail.now.counted ≡ all_counted s lost es → polled.reads ≡ reads s lost es start gap) }
    ensures broken { IfOk result (λ polled. (s : Setup) (lost : Losses) (es : List Entry)
        → s.net ≡ net.now → length es ≡ count
        → trail.now.pairs ≡ pairs s lost es → polled.broken ≡ broken_by s lost es start gap) }
    ensures link { IfOk result
        (λ polled. IfSome polled.broken (λ p. p.link < length net.now.links)) }
{
    worlds_take_turns();
    nets_have_ways();
    let pace = Pace { count, start, gap };
    let mut polling = Polling::new(alloc, net, pace)?;
    tell_pairs(&mut polling, net, trail.pairs.as_slice())?;
    tell_counts(&mut polling, net, trail.counted.as_slice())?;
    let polled = polling.finish(alloc, net)?;
    Ok(polled)
}
