// What is left on links.
ghost use Rattle.std.specs.Prelude.{◌≡◌, ◌++◌, ◌∷◌, [], length, map, IfOk, OnOk};
ghost use Rattle.sl_merge.specs.Parted.{AreApart, AreThere, AreLeftOnLinksOf, IsAdded};

use crate::rows::{Row, take_at};
use sl_actor::OutPart;
use sl_link::{Met, Stamped, TakeEnd, meet};
use sl_loss::Loss;
use sl_machine::{Link, Memory};
use std::alloc::Global;
use std::collections::VecDeque;
use std::marker::Model;
use std::sync::Wait;

/// For each link its loss, how many puts it lost, and the messages on it.
#[derive(Drop)]
pub struct LeftOnLinks<M> {
    losses: Vec<Option<Loss>>,
    lost: Vec<u64>,
    messages: Vec<Vec<M>>,
}

impl<M> Model for LeftOnLinks<M> {
    ghost use Rattle.std.specs.Prelude.{map};
    ghost use Rattle.sl_merge.specs.RunOfActors.{LeftOnLinks as LeftOnLinksView};

    ghost Value = { LeftOnLinksView M };

    ghost view = { λ r.
        record {
          losses = r.losses.items;
          lost = r.lost.items;
          messages = map (λ v. v.items) r.messages.items;
        } };
}

impl<M: Drop> LeftOnLinks<M> {
    /// Of no links.
    pub fn new(alloc: Global) -> LeftOnLinks<M>
        ensures { result ≡ record { losses = []; lost = []; messages = [] } }
    {
        LeftOnLinks {
            losses: Vec::new(alloc),
            lost: Vec::new(alloc),
            messages: Vec::new(alloc),
        }
    }

    /// Adds those of one more link.
    fn add(&mut self, loss: Option<Loss>, lost: u64, messages: Vec<M>) -> Result<(), Memory>
        ensures losses { OnOk result (self.new.losses ≡ self.old.losses ++ loss ∷ []) }
        ensures lost { OnOk result (self.new.lost ≡ self.old.lost ++ lost ∷ []) }
        ensures messages { OnOk result
            (self.new.messages ≡ self.old.messages ++ messages.items ∷ []) }
    {
        self.losses.push(loss)?;
        self.lost.push(lost)?;
        self.messages.push(messages)?;
        Ok(())
    }

    /// The losses, the numbers of lost puts and the messages.
    pub fn into_lists(self) -> (Vec<Option<Loss>>, Vec<u64>, Vec<Vec<M>>)
        ensures losses { result.0.items ≡ self.losses }
        ensures lost { result.1.items ≡ self.lost }
        ensures messages { map (λ v. v.items) result.2.items ≡ self.messages }
    {
        (self.losses, self.lost, self.messages)
    }
}

/// Lets the two ends of each link meet. What the link still holds and then its outbox is its rest.
pub fn meet_all<R: Wait, M: Drop>(
    rt: &R,
    alloc: Global,
    links: &[Link],
    takes: &mut Vec<Row<TakeEnd<M>>>,
    outs: &mut Vec<Row<OutPart<M>>>,
) -> Result<LeftOnLinks<M>, Memory>
    requires apart { AreApart links.now }
    requires there { AreThere links.now takes.old.items outs.old.items }
    ensures { IfOk result
        (λ r. AreLeftOnLinksOf links.now (length links.now) takes.old.items outs.old.items r) }
{
    let mut rests = LeftOnLinks::new(alloc);
    for link in links {
        let end = take_at(takes, link.to, link.choice);
        let part = take_at(outs, link.from, link.out);
        add_rest(rt, alloc, end, part, &mut rests)?;
    }
    Ok(rests)
}

/// Lets the two ends of a link meet, and adds its rest.
fn add_rest<R: Wait, M: Drop>(
    rt: &R,
    alloc: Global,
    end: TakeEnd<M>,
    part: OutPart<M>,
    rests: &mut LeftOnLinks<M>,
) -> Result<(), Memory>
    requires { end.channel ≡ part.put.channel }
    ensures { OnOk result (IsAdded end part rests.old rests.new) }
{
    let OutPart {
        put,
        outbox,
        loss,
        lost,
    } = part;
    let mut messages = messages_left(rt, alloc, meet(put, end))?;
    add_messages(&mut messages, outbox)?;
    rests.add(loss, lost, messages)
}

/// The messages that a link still holds.
fn messages_left<R: Wait, M: Drop>(rt: &R, alloc: Global, met: Met<M>) -> Result<Vec<M>, Memory>
    ensures { IfOk result (λ v. v.items ≡ map (λ s. s.m) met.left) }
{
    let mut met = met;
    let mut messages = Vec::new(alloc);
    while let Some(s) = met.next(rt) {
        messages.push(s.m)?;
    }
    Ok(messages)
}

/// Adds the messages of an outbox.
fn add_messages<M: Drop>(messages: &mut Vec<M>, outbox: VecDeque<Stamped<M>>) -> Result<(), Memory>
    ensures { OnOk result (messages.new.items ≡ messages.old.items ++ map (λ s. s.m) outbox.items) }
{
    let mut outbox = outbox;
    while let Some(s) = outbox.pop_front() {
        messages.push(s.m)?;
    }
    Ok(())
}
