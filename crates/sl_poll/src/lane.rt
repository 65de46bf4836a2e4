// What is on its way on a link, of data packets alone.
ghost use Rattle.std.specs.Prelude.{◌≡◌, ◌<◌, ◌^◌, ◌∷◌, ◌++◌, [], OnOk, if◌then◌else◌, slice_get};
ghost use Rattle.sl_poll.specs.Lanes.{new_lane, with_mark, without_first};

use sl_input::loses_next;
use sl_loss::Loss;
use sl_machine::Memory;
use sl_net::Packet;
use std::alloc::Global;
use std::collections::VecDeque;
use std::marker::Model;

/// A message on a link: the entry that put it, from 1, and the data packet that it is, or none.
#[derive(Clone, Copy)]
pub struct Mark {
    pub put: u64,
    pub packet: Option<Packet>,
}

/// A link: the messages on it, its loss where it has one, and how many puts there were.
#[derive(Drop)]
pub struct Lane {
    queue: VecDeque<Mark>,
    loss: Option<Loss>,
    puts: u64,
}

impl Model for Lane {
    ghost use Rattle.sl_poll.specs.Lanes.{Lane};

    ghost Value = { Lane };

    ghost view = { λ a. record { queue = a.queue.items; loss = a.loss; puts = a.puts } };
}

fn push_unless(queue: &mut VecDeque<Mark>, lost: bool, mark: Mark) -> Result<(), Memory>
    ensures { OnOk result
        (queue.new.items ≡ (if lost then queue.old.items else queue.old.items ++ mark ∷ [])) }
{
    if !lost {
        queue.push_back(mark)?;
    }
    Ok(())
}

impl Lane {
    /// A link on which nothing was put.
    pub fn new(alloc: Global, loss: Option<Loss>) -> Lane
        ensures { result ≡ new_lane loss }
    {
        Lane {
            queue: VecDeque::new(alloc),
            loss,
            puts: 0,
        }
    }

    /// Puts a message at the end, unless it is lost. Puts past the last of a u64 are answered as
    /// want of memory.
    pub fn put(&mut self, mark: Mark) -> Result<(), Memory>
        ensures lane { OnOk result (self.new ≡ with_mark mark self.old) }
        ensures few { OnOk result (self.new.puts < 2 ^ 64) }
    {
        let puts = self.puts.checked_add(1).ok_or(Memory)?;
        let lost = loses_next(&mut self.loss);
        push_unless(&mut self.queue, lost, mark)?;
        self.puts = puts;
        Ok(())
    }

    /// Takes the first message, where there is one.
    pub fn take(&mut self) -> Option<Mark>
        ensures first { result ≡ slice_get self.old.queue 0 }
        ensures rest { self.new ≡ without_first self.old }
    {
        self.queue.pop_front()
    }
}
