// An actor's own part of the roster: which of its links have news, whom it has to wake, and when it
// sleeps. One at which nothing moves sleeps until a neighbour has put something on one of its links, or
// has emptied one on which it waits. No clause speaks of it; `roster.rt` says why no wake-up is lost.
use crate::neighbours::{Neighbour, Neighbours, bit_of};
use crate::roster::Roster;
use crossbeam_utils::Backoff;
use sl_machine::Memory;
use std::alloc::Global;
use std::collections::VecDeque;
use std::marker::Model;
use std::sync::{Arc, Wait};

/// After how many rounds in a row without any move an actor makes ready to sleep.
const IDLE_ROUNDS: u64 = 4;

/// An actor's own part of a roster.
#[derive(Drop)]
pub struct Sleeper {
    roster: Arc<Roster, Global>,
    place: u32,
    senders: Vec<Neighbour>,
    receivers: Vec<Neighbour>,
    // the outgoing links on which something may have been put since their receivers were last woken
    offered: VecDeque<u32>,
    is_offered: Vec<bool>,
    // the choices of which a step may come in this round
    open: u64,
    // those of which one came in it
    found: u64,
    // whether it was counted in a run
    has_begun: bool,
    // whether it is about to sleep
    is_ready: bool,
}

// Contracts see nothing of it.
impl Model for Sleeper {
    ghost Value = { Unit {0} };

    ghost view = { λ _. tt };
}

impl Sleeper {
    /// The part of the actor of this place.
    pub fn of(
        alloc: Global,
        roster: &Arc<Roster, Global>,
        neighbours: &Neighbours,
        place: u32,
    ) -> Result<Sleeper, Memory> {
        let senders = neighbours.senders_of(alloc, place)?;
        let receivers = neighbours.receivers_of(alloc, place)?;
        let offered = VecDeque::with_capacity(alloc, receivers.len())?;
        let is_offered = vec![in alloc; false; receivers.len()]?;
        Ok(Sleeper {
            roster: Arc::try_clone(roster)?,
            place,
            senders,
            receivers,
            offered,
            is_offered,
            open: 0,
            found: 0,
            has_begun: false,
            is_ready: false,
        })
    }

    /// A run begins. Each choice may find something.
    pub fn begin(&mut self) {
        self.found = u64::MAX;
        self.roster.count_in(!self.has_begun);
        self.has_begun = true;
    }

    /// The run ends (`End`).
    pub fn end(&mut self) {
        self.wake_receivers();
        self.stay_awake();
        self.roster.leave();
    }

    /// A round begins. Whether something is new on an incoming link, or a step came in the round before.
    pub fn has_news(&mut self) -> bool {
        self.open = self.found | self.roster.take_news(self.place);
        self.found = 0;
        self.open != 0
    }

    /// Whether a round after so many idle ones is to try each choice. The round before a sleep is; so is
    /// one where messages wait, since each turn offers them.
    pub fn asks_all(&self, idle: u64, waiting: &VecDeque<u32>) -> bool {
        self.is_ready || (idle > 0 && !waiting.is_empty())
    }

    /// Whether a step may come of a choice: of a link on which something is new or was found last, and
    /// of an action.
    pub fn may_find(&self, choice: u32) -> bool {
        self.open & bit_of(choice) != 0 || (choice as usize) >= self.senders.len()
    }

    /// A turn by a choice has ended. Where a step came of it, the next round tries it again.
    pub fn turned(&mut self, choice: u32, did: bool) {
        if did {
            self.found |= bit_of(choice);
        }
    }

    /// Something was put on this link (1, `Put`): its receiver is told, and is woken later.
    pub fn put_on(&mut self, out: u32) {
        if let Some(receiver) = self.receivers.get(out as usize) {
            self.roster.tell(receiver.actor, receiver.bit);
        }
        if let Some(is_offered) = self.is_offered.get_mut(out as usize)
            && !*is_offered
            && self.offered.len() < self.offered.capacity()
        {
            *is_offered = true;
            self.offered.push_back_reserved(out);
        }
    }

    /// Where something moved, wakes the receivers of the links that are full.
    pub fn wake_full(&self, has_moved: bool, waiting: &VecDeque<u32>) {
        if !has_moved {
            return;
        }
        for i in 0..waiting.len() {
            if let Some(receiver) = self.receivers.get(waiting[i] as usize) {
                self.roster.wake(receiver.actor);
            }
        }
    }

    /// Wakes the receivers of what was offered (3).
    fn wake_receivers(&mut self) {
        for _ in 0..self.offered.len() {
            if let Some(out) = self.offered.pop_front() {
                if let Some(is_offered) = self.is_offered.get_mut(out as usize) {
                    *is_offered = false;
                }
                if let Some(receiver) = self.receivers.get(out as usize) {
                    self.roster.wake(receiver.actor);
                }
            }
        }
    }

    /// An incoming link was found empty. Its sender may wait for that.
    pub fn found_empty(&self, choice: u32) {
        if let Some(sender) = self.senders.get(choice as usize) {
            self.roster.found_empty(sender.link, sender.actor);
        }
    }

    /// Between two rounds, where nothing moved in so many.
    pub fn pause<R: Wait>(
        &mut self,
        rt: &R,
        backoff: &Backoff,
        idle: u64,
        waiting: &VecDeque<u32>,
    ) {
        if idle == 0 {
            self.stay_awake();
            return;
        }
        self.wake_receivers();
        if self.roster.is_over() {
            self.stay_awake();
            backoff.reset();
            backoff.snooze();
        } else if idle < IDLE_ROUNDS {
            self.stay_awake();
            backoff.snooze();
        } else if self.is_ready {
            self.is_ready = false;
            self.roster.sleep(rt, self.place);
        } else {
            self.make_ready(waiting);
        }
    }

    /// Something moved.
    fn stay_awake(&mut self) {
        if self.is_ready {
            self.is_ready = false;
            self.roster.get_up(self.place);
        }
    }

    /// Tells that the actor is about to sleep (4 and 5). It has to see a whole round without any
    /// move after it.
    fn make_ready(&mut self, waiting: &VecDeque<u32>) {
        self.is_ready = true;
        self.roster.lie_down(self.place);
        for i in 0..waiting.len() {
            if let Some(receiver) = self.receivers.get(waiting[i] as usize) {
                self.roster.await_room(receiver.link);
            }
        }
    }
}
