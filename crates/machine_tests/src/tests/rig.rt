// A machine that is taken through turns one by one.
ghost use Rattle.std.specs.Prelude.{◌≡◌, OnOk, OnErr};

use super::messages::{Event, all_coded, message};
use sl_machine::{Machine, Outputs};
use sl_wire::Msg;
use std::alloc::Global;
use std::test::Fail;

/// A machine with the numbers of its links and actions.
#[derive(Drop)]
pub struct Rig<M: Machine> {
    pub machine: M,
    pub ins: u32,
    pub outs: u32,
    pub actions: u32,
    pub ghost counts: { M.counts machine ≡ record { ins = ins; outs = outs; actions = actions } },
}

/// A turn: its choice, what happens, and the puts as a number.
pub type Turn = (u32, Event, u64);

/// Stands for the puts of an action that is idle.
pub const IDLE: u64 = 99_999;

impl<M: Machine> Rig<M> {
    /// Takes a message from a link, and answers what the machine puts.
    pub fn take(&mut self, alloc: Global, link: u32, m: M::Msg) -> Result<Outputs<M::Msg>, Fail>
        ensures ok { OnOk result
            (M.state self.new.machine ≡ (M.rules.take (M.state self.old.machine) link m).state) }
        ensures err { OnErr result (M.state self.new.machine ≡ M.state self.old.machine) }
    {
        if link >= self.ins {
            return Err("no such link".into());
        }
        let mut out = Outputs::with_room(alloc, self.outs)?;
        self.machine.ready(link)?;
        self.machine.take(link, m, &mut out);
        Ok(out)
    }

    /// Does an action, and answers what the machine puts, where it is not idle.
    pub fn act(&mut self, alloc: Global, choice: u32) -> Result<Option<Outputs<M::Msg>>, Fail> {
        if choice < self.ins || choice - self.ins >= self.actions {
            return Err("no such action".into());
        }
        let mut out = Outputs::with_room(alloc, self.outs)?;
        self.machine.ready(choice)?;
        if self.machine.act(choice, &mut out) {
            Ok(Some(out))
        } else {
            Ok(None)
        }
    }
}

/// Takes a turn, and answers its puts as a number.
pub fn turn<M: Machine<Msg = Msg>>(
    alloc: Global,
    rig: &mut Rig<M>,
    choice: u32,
    event: Event,
) -> Result<u64, Fail> {
    match message(alloc, event)? {
        Some(m) => Ok(all_coded(&rig.take(alloc, choice, m)?)),
        None => match rig.act(alloc, choice)? {
            Some(out) => Ok(all_coded(&out)),
            None => Ok(IDLE),
        },
    }
}

/// The place of the first turn whose puts are not those of the table.
pub fn first_wrong<M: Machine<Msg = Msg>>(
    alloc: Global,
    rig: &mut Rig<M>,
    turns: &[Turn],
) -> Result<Option<usize>, Fail> {
    for place in 0..turns.len() {
        let (choice, event, puts) = turns[place];
        if turn(alloc, rig, choice, event)? != puts {
            return Ok(Some(place));
        }
    }
    Ok(None)
}
