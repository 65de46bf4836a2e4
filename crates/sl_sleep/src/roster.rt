// The roster of the actors of a wiring: who is awake, and who was told of what. No clause speaks of it.
//
// All acts on the roster and on links are sequentially consistent, so there is one order of them all.
// Two machines of their own have them, whose acts are named here beside each atomic. For any order of them
// the law `no_wake_up_is_lost` (`specs/Wakes.antt`) says what the argument below says of messages and room,
// and the law `no_run_sleeps_for_good` (`specs/Awake.antt`, the count) what it says of the end:
//   1. A sender puts a message on a link (`Put`). After that
//   2. it sets the link's bit among its receiver's news (no act of the machine: a bit that is lost costs
//      time alone), and
//   3. it wakes the receiver (`Ask`, `Wake`), before it sleeps or its run ends.
//   4. An actor tells that it is about to sleep (`LieDown`). After that
//   5. it marks each link on which something waits for room (`Mark`). After that it makes one more round by
//      all choices of its plan, each of its links among them: it offers on each link on which something
//      waits, and takes from each incoming link. It sleeps only where each of the former was full
//      (`MeetFull`) and each of the latter empty (`FindEmpty`). Then
//   6. it takes itself off the count of those awake, and
//   7. it sleeps while its word says so (`Sleep`), and gets up (`GetUp`).
//   8. A receiver finds a link empty. After that it looks whether the link is marked (`SeeNoMark`, `TakeMark`),
//      and wakes the sender (`AskSender`, `WakeSender`).
//   9. Who wakes an actor counts it first, then changes its word, and takes it off the count again where
//      another had changed it.
//
// No wake-up is lost:
// - A message. Its put (1) comes before the receiver's look in the round after 4, or after it. Before it:
//   the look finds the message, and the receiver does not sleep. After it: 4 came before the look, the look
//   before 1, and 1 before 3, so 3 finds the word of 4 and wakes, or another has woken the receiver since,
//   and before it sleeps again it goes through 4 and looks once more.
// - News. The receiver clears its news and then looks. So a bit set (2) before it clears them stands for a
//   message that the look finds, and one set after it is there in the next round.
// - Room. A sender that sleeps met each link on which something waits full after it had marked it (5). So its
//   receiver finds that link empty (8) only after that, and finds the mark. A mark that an earlier find took
//   away, after 5, was taken by one who then wakes the sender, whose word says since 4 that it sleeps.
//
// No actor sleeps for good while something is left to do:
// - The count (6, 9) is of those awake, of those being woken, and of those whose run has not begun. Who has
//   something to tell tells it (3, 8) before it takes itself off, and by then has counted whom it woke. So
//   the count comes to 0 only where nothing is on its way to an actor that runs.
// - Who brings it to 0 sees that, and wakes all for good (`TellAll`, `Rouse`).
use crossbeam_utils::CachePadded;
use sl_machine::{Memory, Wiring};
use std::alloc::Global;
use std::sync::atomic::Ordering::SeqCst;
use std::sync::atomic::{AtomicBool, AtomicU64};
use std::sync::{Arc, Wait};
use std::time::Duration;

/// The word of an actor that is awake.
const AWAKE: u64 = 0;
/// The word of one that sleeps or is about to.
const ASLEEP: u64 = 1;

/// How many milliseconds an actor sleeps at most while some have begun no run. Where runs come one after
/// another in one thread, those behind it begin only once it rests.
const PATIENCE: u64 = 500;

/// How many milliseconds it sleeps at most once all have. Only a gate that waits for a later round of an
/// actor which sleeps can make it so long.
const LONGEST: u64 = 2000;

/// What the actors share of one of them.
#[derive(Drop)]
struct Bed {
    // whether it sleeps
    state: AtomicU64,
    // the bits of its incoming links on which something was put since it last asked
    news: AtomicU64,
}

/// What the actors of a wiring share beside their links: which of them sleep, and what is new to them.
#[derive(Drop)]
pub struct Roster {
    beds: Vec<CachePadded<Bed>>,
    // by link, whether its sender waits until the link is empty
    awaited: Vec<AtomicBool>,
    // how many actors have begun a run
    begun: CachePadded<AtomicU64>,
    // how many actors are awake, with those that are just being woken and those that have begun no run yet
    awake: CachePadded<AtomicU64>,
    // whether nothing moves any more; nobody sleeps from then on
    is_over: CachePadded<AtomicBool>,
}

impl Roster {
    /// The roster of the actors of a wiring.
    pub fn shared(alloc: Global, wiring: &Wiring) -> Result<Arc<Roster, Global>, Memory> {
        let mut beds = Vec::new(alloc);
        for _ in 0..wiring.in_counts.len() {
            beds.push(CachePadded::new(Bed {
                state: AtomicU64::new(AWAKE),
                news: AtomicU64::new(0),
            }))?;
        }
        let roster = Roster {
            awake: CachePadded::new(AtomicU64::new(beds.len() as u64)),
            beds,
            awaited: none_awaited(alloc, wiring.links.len())?,
            begun: CachePadded::new(AtomicU64::new(0)),
            is_over: CachePadded::new(AtomicBool::new(false)),
        };
        Ok(Arc::new(alloc, roster)?)
    }

    /// A run of an actor begins, its first or a later one (`Begin`).
    pub(crate) fn count_in(&self, is_first: bool) {
        if is_first {
            // until now it was counted as one whose run has not begun, so this is no act of the count
            self.begun.fetch_add(1, SeqCst);
        } else {
            // `Begin`
            self.awake.fetch_add(1, SeqCst);
        }
    }

    /// Whether nothing moves any more.
    pub(crate) fn is_over(&self) -> bool {
        self.is_over.load(SeqCst)
    }

    /// Tells an actor that something was put on the link with this bit (2).
    pub(crate) fn tell(&self, actor: u32, bit: u64) {
        if let Some(bed) = self.beds.get(actor as usize)
            && bed.news.load(SeqCst) & bit == 0
        {
            bed.news.fetch_or(bit, SeqCst);
        }
    }

    /// What an actor was told since it last asked. It looks at its links after that.
    pub(crate) fn take_news(&self, actor: u32) -> u64 {
        match self.beds.get(actor as usize) {
            Some(bed) if bed.news.load(SeqCst) != 0 => bed.news.swap(0, SeqCst),
            _ => 0,
        }
    }

    /// An actor is about to sleep (4, `LieDown`).
    pub(crate) fn lie_down(&self, actor: u32) {
        if let Some(bed) = self.beds.get(actor as usize) {
            bed.state.store(ASLEEP, SeqCst);
        }
    }

    /// The sender of a link waits for room on it (5, `Mark`).
    pub(crate) fn await_room(&self, link: usize) {
        if let Some(is_awaited) = self.awaited.get(link) {
            is_awaited.store(true, SeqCst);
        }
    }

    /// An actor that was about to sleep stays awake (`GetUp`; on the count `GetUpCalled` where it was woken).
    pub(crate) fn get_up(&self, actor: u32) {
        if let Some(bed) = self.beds.get(actor as usize)
            && bed.state.swap(AWAKE, SeqCst) == AWAKE
        {
            // a neighbour has counted this one once more (`GiveBack`)
            self.leave();
        }
    }

    /// A link was found empty: its sender is woken, where it waits for that (8).
    pub(crate) fn found_empty(&self, link: usize, sender: u32) {
        if let Some(is_awaited) = self.awaited.get(link)
            // `SeeNoMark`, where it is false
            && is_awaited.load(SeqCst)
        {
            // `TakeMark`, and then `AskSender` or `WakeSender`
            is_awaited.store(false, SeqCst);
            self.wake(sender);
        }
    }

    /// Wakes an actor, where it sleeps (3 and 9; also for a link that is full, `Rouse`).
    pub(crate) fn wake(&self, actor: u32) {
        if let Some(bed) = self.beds.get(actor as usize)
            // `Ask` or `AskSender`, where it is awake
            && bed.state.load(SeqCst) != AWAKE
        {
            // `CountIn`
            self.awake.fetch_add(1, SeqCst);
            // `Wake` or `WakeSender`; on the count `WakeLying` or `WakeSleeping`, where it said that it sleeps
            if bed.state.swap(AWAKE, SeqCst) == AWAKE {
                // another has woken it, and has counted it (`GiveBack`)
                self.leave();
            } else {
                bed.state.wake_one();
            }
        }
    }

    /// One less is awake (6; `Leave`, `LeaveCalled` where it was woken, `End` or `GiveBack`). Where it was the
    /// last, nothing moves any more.
    pub(crate) fn leave(&self) {
        if self.awake.fetch_sub(1, SeqCst) == 1 {
            self.wake_all();
        }
    }

    /// Wakes all, for good.
    fn wake_all(&self) {
        // `TellAll`, and then `Rouse` for each
        self.is_over.store(true, SeqCst);
        for bed in &self.beds {
            bed.state.store(AWAKE, SeqCst);
            bed.state.wake_one();
        }
    }

    /// An actor sleeps until it is woken, or some time has passed (6 and 7, `Sleep`; then `GetUp`, on the
    /// count `Rise`). Where in this time no run began although some are to begin, these come behind this
    /// one, or never, and nobody sleeps any more.
    pub(crate) fn sleep<R: Wait>(&self, rt: &R, actor: u32) {
        let begun = self.begun.load(SeqCst);
        let have_all = begun >= self.beds.len() as u64;
        let most = if have_all { LONGEST } else { PATIENCE };
        self.leave();
        if let Some(bed) = self.beds.get(actor as usize) {
            bed.state
                .park_timeout(rt, ASLEEP as u32, Duration::from_millis(most));
            let is_woken = bed.state.load(SeqCst) == AWAKE;
            if !is_woken && !have_all && self.begun.load(SeqCst) == begun {
                self.wake_all();
            }
        }
        self.wake(actor);
    }
}

fn none_awaited(alloc: Global, count: usize) -> Result<Vec<AtomicBool>, Memory> {
    let mut awaited = Vec::new(alloc);
    for _ in 0..count {
        awaited.push(AtomicBool::new(false))?;
    }
    Ok(awaited)
}
