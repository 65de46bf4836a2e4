// Trusted types: for nodes Registers.
// The registers of a unit.
ghost use Rattle.std.specs.Prelude.{◌≡◌, ◌<◌, ◌≤◌, ◌-◌, ◌^◌, length, IfOk, OnOk};
ghost use Rattle.sl_ids.specs.Ids.{distance};
ghost use Rattle.sl_saves.specs.Rings.{ring_window};
ghost use Rattle.sl_unit.specs.Registers.{IsChannel, first_registers, last_on, read_on, rise};
ghost use Rattle.sl_unit.specs.Registers.{age, is_near, adopted, credited, seen, counted};
ghost use Rattle.sl_unit.specs.Registers.{after_stamp, after_bytes, more, dump_of};

use sl_ids::{Wid, Width, wrap};
use sl_machine::Memory;
use sl_saves::{RingSaves, Saves, Slots, View};
use sl_wire::{Boxed, Dump};
use std::alloc::Global;

/// The channel by which a stamped message comes.
#[derive(Clone, Copy)]
pub enum Channel {
    /// That of the control plane.
    Cpu,
    /// A data channel, by its place among the unit's data channels.
    Upstream(u32),
}

/// A stamp, read relative to the last-seen id of the channel by which it came.
#[derive(Clone, Copy)]
pub struct RelativeStamp {
    /// The stamp.
    pub stamp: Wid,
    /// How far it lies above the last-seen id.
    pub ahead: u16,
    /// How far the unit's id lies above the last-seen id.
    pub lead: u16,
}

impl RelativeStamp {
    /// By how much the stamp is newer than the id.
    fn rise(self) -> u16
        ensures { result ≡ rise self }
    {
        self.ahead.saturating_sub(self.lead)
    }

    /// By how much the stamp is older than the id.
    fn age(self) -> u16
        ensures { result ≡ age self }
    {
        self.lead.saturating_sub(self.ahead)
    }

    /// Whether the stamp lies within the window.
    pub fn is_near(self, window: u16) -> bool
        ensures { result ≡ is_near window self }
    {
        self.ahead <= window && self.rise() <= window && self.age() <= window
    }
}

/// How far one goes up from one wrapped id to another.
fn distance_between(width: Width, from: Wid, to: Wid) -> u16
    ensures { result ≡ distance width.bits from.raw to.raw }
{
    let above = u64::from(to.raw) + u64::from(width.modulus());
    wrap(width, above.saturating_sub(u64::from(from.raw))).raw
}

/// The registers of a unit. The counters stay at the greatest number of 64 bits once there.
#[derive(Drop)]
pub struct Registers {
    /// The window within which stamps are read.
    pub window: u16,
    /// The unit's id.
    pub id: Wid,
    /// The last-seen id of its control plane, 0 of an egress unit.
    pub cpu: Wid,
    /// The last-seen ids of its data channels in order, 0 past them.
    pub last: [Wid; 8],
    /// The data packets counted.
    pub packets: u64,
    /// The bytes of these.
    pub bytes: u64,
    /// What was saved.
    pub saves: RingSaves,
    /// The frames dropped that were no plain frames.
    pub bad: u64,
    /// The packets dropped that had no hop left.
    pub expired: u64,
    /// The packets dropped that had no route.
    pub noroute: u64,
    pub ghost window_is: { ring_window saves ≡ window },
    pub ghost window_fits: { window < 2 ^ 16 },
}

impl Registers {
    ghost use Rattle.sl_unit.specs.Room.{registers_of, credits_of};

    /// The registers of a new unit.
    pub fn new(alloc: Global, window: u16, ring: u16, credits: u8) -> Result<Registers, Memory>
        requires least { 1 ≤ window }
        requires most { window ≤ ring }
        requires some_credits { 1 ≤ credits }
        requires few_credits { credits ≤ 4 }
        ensures first { IfOk result (λ r. registers_of r ≡ first_registers ring) }
        ensures window { IfOk result (λ r. r.window ≡ window) }
        ensures credits { IfOk result (λ r. credits_of r ≡ credits) }
    {
        let saves = RingSaves::new(alloc, window, ring, credits)?;
        Ok(Registers {
            window,
            id: Wid { raw: 0 },
            cpu: Wid { raw: 0 },
            last: [Wid { raw: 0 }; 8],
            packets: 0,
            bytes: 0,
            saves,
            bad: 0,
            expired: 0,
            noroute: 0,
        })
    }

    /// Takes the room that the saving of a turn needs.
    pub fn ready(&mut self) -> Result<(), Memory>
        ensures registers { registers_of self.new ≡ registers_of self.old }
        ensures window { self.new.window ≡ self.old.window }
        ensures credits { credits_of self.new ≡ credits_of self.old }
    {
        self.saves.ready()
    }

    /// The id last seen on a channel.
    fn last_on(&self, channel: Channel) -> Wid
        requires { IsChannel channel }
        ensures { result ≡ last_on channel (registers_of self.now) }
    {
        match channel {
            Channel::Cpu => self.cpu,
            Channel::Upstream(place) => self.last[place as usize],
        }
    }

    /// Reads a stamp that came on a channel.
    pub fn read(&self, width: Width, channel: Channel, stamp: Wid) -> RelativeStamp
        requires { IsChannel channel }
        ensures { result ≡ read_on width.bits channel stamp (registers_of self.now) }
    {
        let last = self.last_on(channel);
        RelativeStamp {
            stamp,
            ahead: distance_between(width, last, stamp),
            lead: distance_between(width, last, self.id),
        }
    }

    /// Adopts a newer stamp, and saves the counters for it.
    fn adopt(&mut self, reading: RelativeStamp)
        requires near { rise reading ≤ self.old.window }
        ensures registers { registers_of self.new ≡ adopted reading (registers_of self.old) }
        ensures window { self.new.window ≡ self.old.window }
        ensures credits { credits_of self.new ≡ credits_of self.old }
    {
        let rise = reading.rise();
        if rise > 0 {
            self.saves.adopt(rise, self.packets, self.bytes);
            self.id = reading.stamp;
        }
    }

    /// Credits a data packet whose stamp is older than the id.
    fn credit(&mut self, channel: u32, reading: RelativeStamp, bytes: u16)
        requires channel { channel < 8 }
        requires near { age reading ≤ self.old.window }
        ensures registers { registers_of self.new
            ≡ credited (credits_of self.old) channel reading bytes (registers_of self.old) }
        ensures window { self.new.window ≡ self.old.window }
        ensures credits { credits_of self.new ≡ credits_of self.old }
    {
        let age = reading.age();
        if age > 0 {
            self.saves.credit(channel, age, u64::from(bytes));
        }
    }

    /// Sets the id last seen on a channel.
    fn see(&mut self, channel: Channel, stamp: Wid)
        requires { IsChannel channel }
        ensures registers { registers_of self.new ≡ seen channel stamp (registers_of self.old) }
        ensures window { self.new.window ≡ self.old.window }
        ensures credits { credits_of self.new ≡ credits_of self.old }
    {
        match channel {
            Channel::Cpu => self.cpu = stamp,
            Channel::Upstream(place) => self.last[place as usize] = stamp,
        }
    }

    /// Counts a data packet.
    pub fn count(&mut self, bytes: u16)
        ensures registers { registers_of self.new ≡ counted bytes (registers_of self.old) }
        ensures window { self.new.window ≡ self.old.window }
        ensures credits { credits_of self.new ≡ credits_of self.old }
    {
        self.packets = self.packets.saturating_add(1);
        self.bytes = self.bytes.saturating_add(u64::from(bytes));
    }

    /// Takes the stamp of a probe or an initiation.
    pub fn take_stamp(&mut self, channel: Channel, reading: RelativeStamp)
        requires channel { IsChannel channel }
        requires near { rise reading ≤ self.old.window }
        ensures registers { registers_of self.new ≡ after_stamp channel reading
            (registers_of self.old) }
        ensures window { self.new.window ≡ self.old.window }
        ensures credits { credits_of self.new ≡ credits_of self.old }
    {
        self.adopt(reading);
        self.see(channel, reading.stamp);
    }

    /// Takes the stamp of a data packet of so many bytes, and counts the packet.
    #[inline(always)]
    pub fn take_data(&mut self, channel: u32, reading: RelativeStamp, bytes: u16)
        requires channel { channel < 8 }
        requires above { rise reading ≤ self.old.window }
        requires below { age reading ≤ self.old.window }
        ensures registers { registers_of self.new ≡ after_bytes
            (credits_of self.old) channel reading bytes (registers_of self.old) }
        ensures window { self.new.window ≡ self.old.window }
        ensures credits { credits_of self.new ≡ credits_of self.old }
    {
        self.adopt(reading);
        self.credit(channel, reading, bytes);
        self.see(Channel::Upstream(channel), reading.stamp);
        self.count(bytes);
    }

    /// Counts a frame that is no plain frame.
    pub fn count_bad(&mut self)
        ensures registers { registers_of self.new
            ≡ record (registers_of self.old) { bad = more self.old.bad 1 } }
        ensures window { self.new.window ≡ self.old.window }
        ensures credits { credits_of self.new ≡ credits_of self.old }
    {
        self.bad = self.bad.saturating_add(1);
    }

    /// Counts a packet with no hop left.
    pub fn count_expired(&mut self)
        ensures registers { registers_of self.new
            ≡ record (registers_of self.old) { expired = more self.old.expired 1 } }
        ensures window { self.new.window ≡ self.old.window }
        ensures credits { credits_of self.new ≡ credits_of self.old }
    {
        self.expired = self.expired.saturating_add(1);
    }

    /// Counts a packet for which there is no route.
    pub fn count_noroute(&mut self)
        ensures registers { registers_of self.new
            ≡ record (registers_of self.old) { noroute = more self.old.noroute 1 } }
        ensures window { self.new.window ≡ self.old.window }
        ensures credits { credits_of self.new ≡ credits_of self.old }
    {
        self.noroute = self.noroute.saturating_add(1);
    }

    /// Makes a dump that of the registers. Memory that it has is used again.
    pub fn refill(&mut self, dump: &mut Boxed<Dump>) -> Result<(), Memory>
        ensures same { self.new ≡ self.old }
        ensures dump { OnOk result (dump.new ≡ dump_of (registers_of self.old)) }
    {
        dump.refill(self.id, self.cpu, self.last, &mut self.saves)
    }

    /// A dump in which nothing is saved.
    pub fn blank(&self, alloc: Global) -> Dump {
        Dump {
            id: self.id,
            cpu: self.cpu,
            last: self.last,
            view: View {
                at: 0,
                slots: Slots::new(Vec::new(alloc)),
            },
        }
    }

    /// The registers as a dump.
    pub fn dump(&self) -> Result<Dump, Memory>
        ensures { IfOk result (λ dump. dump ≡ dump_of (registers_of self.now)) }
    {
        let view = self.saves.view()?;
        Ok(Dump {
            id: self.id,
            cpu: self.cpu,
            last: self.last,
            view,
        })
    }
}
