// Trusted types: Snapshot, Drop1, LossSpec, Flow, RawPart, Packet, Script1.
// The plain types of an accepted input.
use crate::net::Net;
use sl_layout::LinkKind;
use sl_parts::Bytes;
use std::marker::Model;

/// The snapshot table: `width` is the bits of a wrapped id, `window` and `ring` the sizes of the
/// observer's window and of a unit's ring, `count` how many snapshots are to be taken, `retries`
/// how often an initiation may be repeated in all, `credits` to how many saved numbers a data
/// packet in flight is credited at most, and `version` the version, 1 or 2, of the frames that are
/// sent on crossbars and as initiations.
#[derive(Clone, Copy, Debug, PartialEq, Eq)]
pub struct Snapshot {
    pub width: u8,
    pub window: u16,
    pub ring: u16,
    pub count: u64,
    pub retries: u64,
    pub credits: u8,
    pub version: u8,
}

/// One loss by name: the `n`-th put on a link, from 1.
#[derive(Clone, Copy, Debug, PartialEq, Eq)]
pub struct Drop1 {
    pub link: u32,
    pub n: u64,
}

/// The losses: a seed, the rates in thousandths for each kind of link, and single losses.
#[derive(Debug, Drop)]
pub struct LossSpec {
    pub seed: u64,
    pub cable: u16,
    pub crossbar: u16,
    pub init: u16,
    pub notice: u16,
    pub drops: Vec<Drop1>,
}

impl Model for LossSpec {
    ghost use Rattle.sl_net.specs.Input.{LossSpec};

    ghost Value = { LossSpec };

    ghost view = { λ l.
        record {
          seed = l.seed;
          cable = l.cable;
          crossbar = l.crossbar;
          init = l.init;
          notice = l.notice;
          drops = l.drops.items;
        } };
}

impl LossSpec {
    ghost use Rattle.std.specs.Prelude.{◌≡◌};
    ghost use Rattle.sl_net.specs.Input.{rate_of};

    /// How many of a thousand puts on links of a kind are lost.
    pub fn rate_of(&self, kind: LinkKind) -> u16
        ensures { result ≡ rate_of self.now kind }
    {
        match kind {
            LinkKind::Cable => self.cable,
            LinkKind::Crossbar => self.crossbar,
            LinkKind::Init => self.init,
            LinkKind::Notice => self.notice,
            LinkKind::Reliable => 0,
        }
    }
}

/// A flow: `count` packets of `bytes` bytes from a host to a host, with the hop limit `hops`.
/// Hosts are named by their places, from 0.
#[derive(Clone, Copy, Debug, PartialEq, Eq)]
pub struct Flow {
    pub from: u32,
    pub to: u32,
    pub count: u32,
    pub bytes: u16,
    pub hops: u8,
}

/// A frame that a host sends as it stands.
#[derive(Debug, Drop)]
pub struct RawPart {
    pub from: u32,
    pub bytes: Bytes,
}

/// A packet: source and destination by the hosts' places, its number in its flow, its length in
/// bytes and its hop limit.
#[derive(Clone, Copy, Debug, PartialEq, Eq)]
pub struct Packet {
    pub src: u16,
    pub dst: u16,
    pub seq: u32,
    pub len: u16,
    pub hops: u8,
}

/// An entry of a script: so many passes, or one choice of one actor.
#[derive(Clone, Copy, Debug, PartialEq, Eq)]
pub enum Script1 {
    Pass(u32),
    Choice { actor: u32, choice: u32 },
}

/// An accepted input.
#[derive(Drop)]
pub struct Input {
    pub net: Net,
    pub snapshot: Snapshot,
    pub loss: LossSpec,
    pub flows: Vec<Flow>,
    pub raws: Vec<RawPart>,
    pub script: Vec<Script1>,
}

impl Model for Input {
    ghost use Rattle.sl_net.specs.Input.{Input};

    ghost Value = { Input };

    ghost view = { λ i.
        record {
          net = i.net;
          snapshot = i.snapshot;
          loss = i.loss;
          flows = i.flows.items;
          raws = i.raws.items;
          script = i.script.items;
        } };
}
