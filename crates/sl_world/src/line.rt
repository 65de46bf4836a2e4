// One link: the messages on it and its losses.
ghost use Rattle.std.specs.Prelude.{◌≡◌, ◌<◌, ◌≤◌, ◌↔◌, ◌≢◌, ◌∷◌, ◌++◌, [], IsTrue, OnOk, IfNone};
ghost use Rattle.std.specs.Prelude.{IfSome, option_to_list};
ghost use Rattle.std.specs.VecDeque.{deque_len, deque_capacity};
ghost use Rattle.sl_world.specs.Scene.{line_put, without_first, new_line};

use sl_loss::Loss;
use sl_machine::Memory;
use std::alloc::Global;
use std::collections::VecDeque;
use std::marker::Model;
use std::mem;

/// From so many messages on a queue is large: it grows by less, and gives back memory that it no
/// longer needs.
const LARGE: usize = 128;

/// A link: the messages on it, its loss where it has one, and how many puts it lost. Most links have
/// one message at most, so the first stands in the link itself, and those behind it in a queue. Of a
/// long list of links, in memory 16 bytes after a multiple of 64, `first` and what is read of an empty
/// queue lie in one line of the caches.
#[derive(Drop)]
pub struct Line<M> {
    loss: Option<Loss>,
    lost: u64,
    first: Option<M>,
    rest: VecDeque<M>,
}

impl<M> Model for Line<M> {
    ghost use Rattle.std.specs.Prelude.{◌≡◌, ◌-◌, ◌++◌, [], None, option_to_list};
    ghost use Rattle.std.specs.VecDeque.{deque_capacity, deque_len};
    ghost use Rattle.sl_world.specs.LineView.{LineView, room_behind};

    ghost Value = { LineView M };

    ghost view = { λ a.
        record {
          line = record {
            queue = option_to_list a.first ++ a.rest.items;
            loss = a.loss;
            lost = a.lost;
          };
          room = room_behind a.first (deque_capacity a.rest - deque_len a.rest);
        } };

    ghost invariant = { λ a. a.first ≡ None → a.rest.items ≡ [] };
}

impl<M: Drop> Line<M> {
    /// A link on which nothing was put.
    pub fn new(alloc: Global, loss: Option<Loss>) -> Line<M>
        ensures { result.line ≡ new_line loss }
    {
        Line {
            first: None,
            rest: VecDeque::new(alloc),
            loss,
            lost: 0,
        }
    }

    /// A link with messages on it that has lost this many puts.
    pub fn with(loss: Option<Loss>, lost: u64, messages: Vec<M>) -> Line<M>
        ensures { result.line ≡ record { queue = messages.items; loss = loss; lost = lost } }
    {
        let mut rest = VecDeque::from(messages);
        Line {
            first: rest.pop_front(),
            rest,
            loss,
            lost,
        }
    }

    /// How many puts the link has lost.
    pub fn lost(&self) -> u64
        ensures { result ≡ self.now.line.lost }
    {
        self.lost
    }

    /// Whether nothing is on the link.
    pub fn is_empty(&self) -> bool
        ensures { IsTrue result ↔ (self.now.line.queue ≡ []) }
    {
        self.first.is_none()
    }

    /// Makes room for one more message. A full queue grows by a quarter, a large one by an eighth,
    /// since it is not known whether more comes.
    pub fn make_room(&mut self) -> Result<(), Memory>
        ensures line { self.new.line ≡ self.old.line }
        ensures room { OnOk result (0 < self.new.room) }
        ensures keeps { self.old.room ≤ self.new.room }
    {
        let len = self.rest.len();
        if self.first.is_none() || len < self.rest.capacity() {
            return Ok(());
        }
        let part = if len < LARGE { 4 } else { 8 };
        Ok(self.rest.reserve_exact(1 + len / part)?)
    }

    /// Puts a message at the end, unless the loss takes it. Then it makes room for one more where
    /// memory allows it, and answers whether there is.
    #[inline(always)]
    pub fn put(&mut self, m: M) -> bool
        requires { 0 < self.old.room }
        ensures line { self.new.line ≡ line_put self.old.line m }
        ensures room { IsTrue result → 0 < self.new.room }
    {
        let is_lost = match &mut self.loss {
            None => false,
            Some(loss) => loss.next(),
        };
        if is_lost {
            self.lost = self.lost.saturating_add(1);
            drop(m);
        } else if self.first.is_none() {
            self.first = Some(m);
        } else {
            self.rest.push_back_reserved(m);
        }
        self.make_room().is_ok()
    }

    /// Takes the first message.
    #[inline(always)]
    pub fn take(&mut self) -> M
        requires { self.old.line.queue ≢ [] }
        ensures queue { self.old.line.queue ≡ result ∷ self.new.line.queue }
        ensures line { self.new.line ≡ without_first self.old.line self.new.line.queue }
        ensures room { 0 < self.old.room → 0 < self.new.room }
    {
        let first = if self.rest.is_empty() {
            self.first.take()
        } else {
            mem::replace(&mut self.first, take_next(&mut self.rest))
        };
        match first {
            Some(m) => m,
            None => unreachable!(),
        }
    }
}

/// Takes the first message of a queue. Where only a quarter of the memory of a large one is used, half
/// of it is given back.
#[inline(always)]
fn take_next<M: Drop>(queue: &mut VecDeque<M>) -> Option<M>
    ensures items { queue.old.items ≡ option_to_list result ++ queue.new.items }
    ensures none { IfNone result (queue.new.items ≡ []) }
    ensures room { IfSome result (λ _. deque_len queue.new < deque_capacity queue.new) }
{
    let capacity = queue.capacity();
    if capacity >= LARGE && queue.len() < capacity / 4 {
        shrink(queue, capacity / 2);
    }
    queue.pop_front()
}

/// Gives back the memory of a queue but for so many messages. It is rarely called, and stands apart so
/// that taking stays short.
#[cold]
#[inline(never)]
fn shrink<M: Drop>(queue: &mut VecDeque<M>, most: usize)
    requires less { deque_len queue.old < most }
    requires most { most ≤ deque_capacity queue.old }
    ensures items { queue.new.items ≡ queue.old.items }
    ensures room { deque_len queue.new < deque_capacity queue.new }
{
    queue.shrink_to(most);
}
