// What actors hold, taken apart.
ghost use Rattle.std.specs.Prelude.{◌≡◌, Some, map, option_map, IfOk};
ghost use Rattle.sl_actor.specs.Held.{held};
ghost use Rattle.sl_actor.specs.Outs.{out_view};

use crate::rows::Row;
use sl_actor::{Actor, ActorParts, OutPart};
use sl_link::TakeEnd;
use sl_machine::{Machine, Memory};
use std::alloc::Global;
use std::collections::VecDeque;

/// What actors hold: for each its machine, its log and the ends of its links.
#[derive(Drop)]
pub struct Parts<A: Machine> {
    pub machines: Vec<A>,
    pub logs: Vec<Vec<(u64, u32)>>,
    pub takes: Vec<Row<TakeEnd<A::Msg>>>,
    pub outs: Vec<Row<OutPart<A::Msg>>>,
}

/// Takes actors apart.
pub fn take_apart<A: Machine>(alloc: Global, actors: Vec<Actor<A>>) -> Result<Parts<A>, Memory>
    ensures states { IfOk result
        (λ p. map A.state p.machines.items ≡ map (λ a. a.state) (map held actors.items)) }
    ensures counts { IfOk result
        (λ p. map A.counts p.machines.items ≡ map (λ a. a.counts) (map held actors.items)) }
    ensures logs { IfOk result
        (λ p. map (λ log. log.items) p.logs.items ≡ map (λ a. a.log) (map held actors.items)) }
    ensures takes { IfOk result
        (λ p. p.takes.items ≡ map (λ a. map Some a.takes) (map held actors.items)) }
    ensures outs { IfOk result
        (λ p. map (λ row. map (option_map out_view) row) p.outs.items
        ≡ map (λ a. map Some a.outs) (map held actors.items)) }
{
    let mut actors = VecDeque::from(actors);
    let mut machines = Vec::new(alloc);
    let mut logs = Vec::new(alloc);
    let mut takes = Vec::new(alloc);
    let mut outs = Vec::new(alloc);
    while let Some(actor) = actors.pop_front() {
        let parts = actor.into_parts();
        machines.push(parts.machine)?;
        logs.push(parts.log)?;
        takes.push(Row::new(alloc, parts.takes)?)?;
        outs.push(Row::new(alloc, parts.outs)?)?;
    }
    Ok(Parts {
        machines,
        logs,
        takes,
        outs,
    })
}
