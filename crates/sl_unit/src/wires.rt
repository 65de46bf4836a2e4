// Trusted types: for nodes Entrance, Exit, Way, Wires.
// What a unit knows of its links.
ghost use Rattle.std.specs.Prelude.{◌≡◌, ◌+◌, ◌<◌, ◌≤◌, ◌^◌, ℕ, Bool, true, [], length};
ghost use Rattle.std.specs.Prelude.{slice_index_or};
ghost use Rattle.sl_layout.specs.Net.{same_actor, egress};
ghost use Rattle.sl_unit.specs.Wires.{IsSmall, entrance_at, leads, is_out, outs, port_to};
ghost use Rattle.sl_unit.specs.Spans.{IsSpan, IsSpanOf};
ghost use Rattle.sl_unit.specs.declared.wires.Way.{Way};
ghost use Rattle.sl_unit.specs.declared.wires.Entrance.TheVariants.{Other};

use sl_ids::Width;
use sl_net::{ActorId, Side, Sort};
use std::marker::Model;

/// What comes by a choice. A data channel has its place among the unit's data channels.
#[derive(Clone, Copy)]
pub enum Entrance {
    /// Frames of the host.
    Host,
    /// Data packets and probes of the cable.
    Cable(u8),
    /// Data packets and probes of an ingress unit of the device, maybe of the unit's own port.
    Crossbar { channel: u8, own: bool },
    /// Initiations.
    Init,
    /// Polls.
    Poll,
    /// Nothing that a unit takes.
    Other,
}

/// An outgoing link.
#[derive(Clone, Copy)]
pub struct Exit {
    /// Its sort.
    pub sort: Sort,
    /// The actor to which it leads.
    pub to: ActorId,
}

/// The outgoing links on which a message goes.
#[derive(Clone, Copy)]
pub enum Way {
    /// All of a sort.
    All(Sort),
    /// The crossbar link to the egress unit of a port.
    Toward { device: u32, port: u32 },
}

impl Exit {
    /// Whether the actor is the egress unit of the port.
    fn reaches(self, device: u32, port: u32) -> bool
        ensures { result ≡ same_actor self.to (egress device port) }
    {
        match self.to {
            ActorId::Unit(unit) => match unit.side {
                Side::Ingress => false,
                Side::Egress => unit.device == device && unit.port == port,
            },
            _ => false,
        }
    }

    /// Whether a message goes on this link.
    pub fn leads(self, way: Way) -> bool
        ensures { result ≡ leads way self }
    {
        match way {
            Way::All(sort) => self.sort.is(sort),
            Way::Toward { device, port } => {
                self.sort.is(Sort::Crossbar) && self.reaches(device, port)
            }
        }
    }
}

/// Outgoing links: those from one number on, below another. Where there are some, the first and the
/// last go the way whose span it is.
#[derive(Clone, Copy)]
pub struct Span {
    /// The number of the first.
    pub from: u32,
    /// The number after that of the last.
    pub end: u32,
}

impl Span {
    /// The span with one link more, which lies after it and goes the way.
    pub fn with(self, link: u32) -> Span
        requires { link + 1 < 2 ^ 32 }
        ensures { (passes : ℕ → Bool) → passes link ≡ true → IsSpan passes link self
            → IsSpan passes (link + 1) result }
    {
        let from = if self.from < self.end {
            self.from
        } else {
            link
        };
        Span {
            from,
            end: link + 1,
        }
    }
}

/// Where the outgoing links of some ways lie, each way's among those of its span.
#[derive(Clone, Copy)]
pub struct Spans {
    /// The crossbar links to the egress units of the device's first ports, by port.
    pub ports: [Span; 8],
    /// The links to egress units of the device.
    pub crossbar: Span,
    /// The links of notices.
    pub notice: Span,
    /// The links of the cable.
    pub cable: Span,
    /// The links to the host.
    pub to_host: Span,
    /// The links of dumps.
    pub dump: Span,
}

/// Where the outgoing links of a way lie: from the first of them to the last.
#[inline(never)]
pub fn span_of(exits: &[Exit], way: Way) -> Span
    requires { length exits.now < 2 ^ 32 }
    ensures { IsSpanOf way exits.now result }
{
    let mut span = Span { from: 0, end: 0 };
    for i in 0..exits.len() {
        if exits[i].leads(way) {
            span = span.with(i as u32);
        }
    }
    span
}

/// What comes by a choice of these, and `Other` past the last.
pub fn entrance_in(entrances: &[Entrance], choice: usize) -> Entrance
    ensures { result ≡ slice_index_or entrances.now choice Other }
{
    match entrances.get(choice) {
        Some(entrance) => *entrance,
        None => Entrance::Other,
    }
}

/// What a unit knows of its links and of the routes from its device.
#[derive(Drop)]
pub struct Wires {
    /// What comes by each choice.
    pub entrances: Vec<Entrance>,
    /// The outgoing links by their numbers.
    pub exits: Vec<Exit>,
    /// The next port to each host, where there is a way.
    pub ports: Vec<Option<u8>>,
    /// How many own actions it has, which is none.
    pub actions: u32,
    /// The number of its device.
    pub device: u32,
    /// Where the outgoing links of some ways lie.
    pub spans: Spans,
    /// The version of the frames that it sends to other units.
    pub version: u8,
    /// Its port.
    pub port: u8,
    /// The width of wrapped ids.
    pub width: Width,
    /// What comes by the first choices, in place, so that no memory elsewhere is looked at.
    pub early: [Entrance; 10],
}

impl Model for Wires {
    ghost use Rattle.sl_unit.specs.Wires.{Wires, IsUsable, AreEarly};
    ghost use Rattle.sl_unit.specs.Spans.{AreSpans};

    ghost Value = { Wires };

    ghost view = { λ w.
        record {
          device = w.device;
          port = w.port;
          entrances = w.entrances.items;
          exits = w.exits.items;
          ports = w.ports.items;
          bits = w.width.bits;
          version = w.version;
          actions = w.actions;
        } };

    ghost invariant = { λ w.
        IsUsable (record {
          device = w.device;
          port = w.port;
          entrances = w.entrances.items;
          exits = w.exits.items;
          ports = w.ports.items;
          bits = w.width.bits;
          version = w.version;
          actions = w.actions;
        })
        × AreSpans w.device w.exits.items w.spans × AreEarly w.entrances.items w.early };
}

impl Wires {
    /// What comes by a choice, and `Other` where it is no link.
    pub fn entrance(&self, choice: u32) -> Entrance
        ensures entrance { result ≡ entrance_at self.now choice }
        ensures small { IsSmall result }
    {
        if choice < 10 {
            return self.early[choice as usize];
        }
        entrance_in(self.entrances.as_slice(), choice as usize)
    }

    /// Whether a message that goes a way goes on a link of the way's span. On its first and its last
    /// it does, so that for a span of one link nothing is looked at.
    #[inline(always)]
    pub fn goes(&self, way: Way, span: Span, link: u32) -> bool
        requires span { IsSpanOf way self.now.exits span }
        requires from { span.from ≤ link }
        requires end { link < span.end }
        ensures { result ≡ is_out way self.now.exits link }
    {
        link == span.from || link + 1 == span.end || self.is_out(way, link)
    }

    /// Whether a message that goes a way goes on an outgoing link.
    #[inline(always)]
    pub fn is_out(&self, way: Way, link: u32) -> bool
        requires { link < length self.now.exits }
        ensures { result ≡ is_out way self.now.exits link }
    {
        self.exits[link as usize].leads(way)
    }

    /// Where the crossbar links to the egress unit of a port lie.
    #[inline(always)]
    fn span_toward(&self, device: u32, port: u32) -> Span
        ensures { IsSpanOf (Way.Toward device port) self.now.exits result }
    {
        if device == self.device && port < 8 {
            self.spans.ports[port as usize]
        } else {
            span_of(self.exits.as_slice(), Way::Toward { device, port })
        }
    }

    /// Where the outgoing links of a way lie. None of them lies elsewhere.
    #[inline(always)]
    pub fn span(&self, way: Way) -> Span
        ensures { IsSpanOf way self.now.exits result }
    {
        match way {
            Way::All(sort) => match sort {
                Sort::Cable => self.spans.cable,
                Sort::ToHost => self.spans.to_host,
                Sort::Crossbar => self.spans.crossbar,
                Sort::Notice => self.spans.notice,
                Sort::Dump => self.spans.dump,
                _ => span_of(self.exits.as_slice(), way),
            },
            Way::Toward { device, port } => self.span_toward(device, port),
        }
    }

    /// Whether a way has no links, as far as its span tells.
    #[inline(always)]
    pub fn has_none(&self, way: Way) -> bool
        ensures { result ≡ true → outs way self.now.exits ≡ [] }
    {
        let span = self.span(way);
        span.from >= span.end
    }

    /// The device's number.
    pub fn device(&self) -> u32
        ensures { result ≡ self.now.device }
    {
        self.device
    }

    /// Its port.
    pub fn port(&self) -> u8
        ensures { result ≡ self.now.port }
    {
        self.port
    }

    /// The width of wrapped ids.
    pub fn width(&self) -> Width
        ensures { result.bits ≡ self.now.bits }
    {
        self.width
    }

    /// The version of the frames that it sends to other units.
    pub fn version(&self) -> u8
        ensures { result ≡ self.now.version }
    {
        self.version
    }

    /// The next port to a host.
    pub fn port_to(&self, host: u16) -> Option<u8>
        ensures { result ≡ port_to self.now host }
    {
        *self.ports.get(host as usize)?
    }
}
