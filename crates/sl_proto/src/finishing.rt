// Settling and finishing, over whoever takes turns.
ghost use Rattle.std.specs.Prelude.{◌≡◌, ◌<◌, ◌^◌, [], ◌∷◌, true, All, OnOk, IfOk, length};
ghost use Rattle.sl_machine.specs.Plan.{HasChoice};
ghost use Rattle.sl_layout.specs.Net.{Net};
ghost use Rattle.sl_layout.specs.Wiring.{plan_of};
ghost use Rattle.sl_model.specs.History.{World};
ghost use Rattle.sl_model.specs.Schedule.{sweeps, resend_entry};
ghost use Rattle.sl_model.specs.End.{rose};
ghost use Rattle.sl_proto.specs.Standing.{Case, world_of, StandsFor, HasObserver};
ghost use Rattle.sl_proto.specs.Reached.{HasReached, TellsCollected};
ghost use Rattle.sl_proto.specs.Passes.{IsPass};
ghost use Rattle.sl_proto.specs.Calls.{Keeps, Settles, SettlesFront, Finishes, FinishesFront};
ghost use Rattle.sl_proto.specs.Calls.{SettlingLeads, IsSettledAfter, ResendingLeads, CanFinish};
ghost use Rattle.sl_proto.specs.Calls.{SweepingLeads, FinishingLeads};

use crate::passes::Pass;
use crate::schedule::{all_sweeps, passes_are_choices};
use crate::taker::{Taker, drive};
use sl_machine::Memory;
use sl_model::{finishing_ends, finishing_finishes, idle_passes_settle, issues_are_counted};
use sl_net::{Net, nets_are_wired};
use sl_simulation::observers_tell;
use std::alloc::Global;

/// What the observer tells: up to which number all units are collected, and how many snapshots it
/// issued.
#[derive(Clone, Copy, Debug, PartialEq, Eq)]
pub struct Reached {
    pub floor: u64,
    pub issued: u64,
}

impl Reached {
    /// Whether all snapshots are issued and collected, where the world is settled: then there is
    /// nothing to issue, so where F is K, K is the count.
    fn is_collected(self) -> bool
        ensures { TellsCollected self result }
    {
        issues_are_counted();
        self.floor == self.issued
    }

    /// Whether the floor or the number of snapshots issued is above what it was.
    fn rose_since(self, before: Reached) -> bool
        ensures { (x : Case) (w v : World) → HasReached x w before
            → HasReached x v self → result ≡ rose x.setup.net w v }
    {
        before.floor < self.floor || before.issued < self.issued
    }
}

fn tell<T: Taker>(taker: &T) -> Reached
    requires { HasObserver (T.scene taker.now) }
    ensures { (net : Net) (x : Case) → StandsFor net x (T.scene taker.now)
        → HasReached x (world_of x (T.scene taker.now)) result }
{
    nets_are_wired();
    observers_tell();
    let observer = taker.observer();
    Reached {
        floor: observer.floor(),
        issued: observer.issued(),
    }
}

/// What finishing takes are choices of the net's actors.
fn takes_choices(net: &Net)
    ensures sweeps { All (λ e. HasChoice (plan_of net.now) e.0 e.1) (sweeps net.now) }
    ensures resend { All (λ e. HasChoice (plan_of net.now) e.0 e.1) (resend_entry net.now ∷ []) }
{
    let _ = net.parts();
    passes_are_choices()
}

/// The entry of the observer's resending.
fn resend_entry(net: &Net) -> (u32, u32)
    ensures { result ≡ resend_entry net.now }
{
    let _ = net.parts();
    (0, net.links_into(0).len() as u32 + 1)
}

/// Settles by this pass. More passes than a u64 counts, each of which did something, would fill any
/// memory, and are answered so.
fn settle_by<T: Taker>(net: &Net, taker: &mut T, pass: &Pass) -> Result<(), Memory>
    requires plan { (T.scene taker.old).plan ≡ plan_of net.now }
    requires pass { IsPass net.now true pass.now }
    ensures keeps { Keeps T.scene T.fixed net.now taker.old taker.new }
    ensures leads { SettlingLeads net.now (T.scene taker.old) result (T.scene taker.new) }
    ensures settled { OnOk result
        (IsSettledAfter net.now (T.scene taker.old) (T.scene taker.new)) }
{
    idle_passes_settle();
    for _pass in 0..u64::MAX {
        let before = taker.entries();
        drive(net, taker, pass.entries.as_slice(), Some(&pass.links))?;
        if taker.entries() == before {
            return Ok(());
        }
    }
    Err(Memory)
}

/// Has the observer resend, and answers whether that did something.
fn take_resend<T: Taker>(net: &Net, taker: &mut T) -> Result<bool, Memory>
    requires plan { (T.scene taker.old).plan ≡ plan_of net.now }
    ensures keeps { Keeps T.scene T.fixed net.now taker.old taker.new }
    ensures leads { ResendingLeads net.now (T.scene taker.old) result (T.scene taker.new) }
{
    takes_choices(net);
    let before = taker.entries();
    drive(net, taker, &[resend_entry(net)], None)?;
    Ok(taker.entries() != before)
}

/// A round of finishing from a settled world. The answer is whether a further one follows.
fn take_round<T: Taker>(
    net: &Net,
    taker: &mut T,
    pass: &Pass,
    sweep: &[(u32, u32)],
) -> Result<bool, Memory>
    requires { CanFinish net.now (T.scene taker.old) pass.now sweep.now }
    ensures keeps { Keeps T.scene T.fixed net.now taker.old taker.new }
    ensures leads { SweepingLeads net.now (T.scene taker.old) result (T.scene taker.new) }
{
    takes_choices(net);
    let before = tell(taker);
    if before.is_collected() {
        return Ok(false);
    }
    drive(net, taker, sweep, None)?;
    settle_by(net, taker, pass)?;
    if tell(taker).rose_since(before) {
        return Ok(true);
    }
    take_resend(net, taker)
}

/// Finishes by this pass and these sweeps. More rounds than a u64 counts, each of which did
/// something, would fill any memory, and are answered so.
fn finish_by<T: Taker>(
    net: &Net,
    taker: &mut T,
    pass: &Pass,
    sweep: &[(u32, u32)],
) -> Result<(), Memory>
    requires { CanFinish net.now (T.scene taker.old) pass.now sweep.now }
    ensures keeps { Keeps T.scene T.fixed net.now taker.old taker.new }
    ensures leads { FinishingLeads net.now (T.scene taker.old) result (T.scene taker.new) }
{
    for _round in 0..u64::MAX {
        settle_by(net, taker, pass)?;
        if !take_round(net, taker, pass, sweep)? {
            return Ok(());
        }
    }
    Err(Memory)
}

/// Settles: takes settling passes until one in which nothing happens. Then each link is empty, each
/// host has put all its messages, and there is nothing to issue. After want of memory the turns
/// that were taken are the first of those that settling takes.
pub fn settle<T: Taker>(alloc: Global, net: &Net, taker: &mut T) -> Result<(), Memory>
    requires plan { (T.scene taker.old).plan ≡ plan_of net.now }
    ensures keeps { Keeps T.scene T.fixed net.now taker.old taker.new }
    ensures settles { OnOk result (Settles net.now (T.scene taker.old) (T.scene taker.new)) }
    ensures front { SettlesFront net.now (T.scene taker.old) (T.scene taker.new) }
{
    finishing_ends();
    let pass = Pass::look_up(alloc, net, taker, true)?;
    settle_by(net, taker, &pass)
}

/// Finishes: settles, sweeps and resends until all snapshots are issued and collected, or no retry
/// is left. After want of memory the turns that were taken are the first of those that finishing
/// takes.
pub fn finish<T: Taker>(alloc: Global, net: &Net, taker: &mut T) -> Result<(), Memory>
    requires plan { (T.scene taker.old).plan ≡ plan_of net.now }
    requires observer { HasObserver (T.scene taker.old) }
    ensures keeps { Keeps T.scene T.fixed net.now taker.old taker.new }
    ensures finishes { OnOk result (Finishes net.now (T.scene taker.old) (T.scene taker.new)) }
    ensures front { FinishesFront net.now (T.scene taker.old) (T.scene taker.new) }
{
    finishing_finishes();
    finishing_ends();
    let pass = Pass::look_up(alloc, net, taker, true)?;
    let sweeps = all_sweeps(alloc, net)?;
    finish_by(net, taker, &pass, &sweeps)
}

/// Ends a run: finishes, and answers how many turns its book had before. A book of 2^40 entries
/// would fill any memory, so it is answered as want of memory.
pub fn end_run<T: Taker>(alloc: Global, net: &Net, taker: &mut T) -> Result<u64, Memory>
    requires plan { (T.scene taker.old).plan ≡ plan_of net.now }
    requires observer { HasObserver (T.scene taker.old) }
    ensures front { IfOk result (λ front. front ≡ length (T.scene taker.old).book) }
    ensures few { OnOk result (length (T.scene taker.new).book < 2 ^ 40) }
    ensures keeps { Keeps T.scene T.fixed net.now taker.old taker.new }
    ensures finishes { OnOk result (Finishes net.now (T.scene taker.old) (T.scene taker.new)) }
    ensures towards { FinishesFront net.now (T.scene taker.old) (T.scene taker.new) }
{
    let front = taker.entries();
    finish(alloc, net, taker)?;
    if taker.entries() >= 1 << 40 {
        return Err(Memory);
    }
    Ok(front)
}
