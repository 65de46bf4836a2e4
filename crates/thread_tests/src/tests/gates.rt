// The rounds of machines that run in threads, as their gate sees them.
use super::machines::run_ring;
use super::ring::ring_wiring;
use sl_actor::Gate;
use std::alloc::{AllocError, Global};
use std::sync::Wait;
use std::sync::atomic::{AtomicU64, Ordering};
use std::test::Fail;
use std::thread::Threads;

/// How many rounds one actor began, and how many of them had another number.
#[derive(Drop)]
struct Told {
    rounds: AtomicU64,
    wrong: AtomicU64,
}

/// A gate that counts the rounds of each actor.
#[derive(Drop)]
struct Counters {
    told: Vec<Told>,
}

impl Counters {
    fn new(alloc: Global, actors: u32) -> Result<Counters, AllocError> {
        let mut told = Vec::new(alloc);
        for _ in 0..actors {
            told.push(Told {
                rounds: AtomicU64::new(0),
                wrong: AtomicU64::new(0),
            })?;
        }
        Ok(Counters { told })
    }

    /// How many actors began so many rounds at least and at most, each with its number from 0 on.
    fn between(&self, least: u64, most: u64) -> usize {
        let mut count = 0usize;
        for told in &self.told {
            let rounds = told.rounds.load(Ordering::SeqCst);
            let right = told.wrong.load(Ordering::SeqCst) == 0;
            if right && least <= rounds && rounds <= most {
                count = count.saturating_add(1);
            }
        }
        count
    }
}

impl Gate for Counters {
    ghost use Rattle.std.specs.Prelude.{⊤};

    ghost passed = { λ gate actor round. ⊤ };

    fn pass(&self, actor: u32, round: u64) {
        if let Some(told) = self.told.get(actor as usize)
            && told.rounds.fetch_add(1, Ordering::SeqCst) != round
        {
            told.wrong.fetch_add(1, Ordering::SeqCst);
        }
    }
}

/// How many machines of a ring began so many rounds, where the first sends so many tokens.
fn rounds_between<R: Threads + Wait + Sync>(
    rt: &R,
    alloc: Global,
    count: u32,
    tokens: u32,
    least: u64,
    most: u64,
) -> Result<usize, Fail> {
    if count > 100 {
        return Err("too many machines".into());
    }
    let wiring = ring_wiring(alloc, count)?;
    let gate = Counters::new(alloc, count)?;
    run_ring(rt, alloc, &wiring, count, tokens, &[], &gate)?;
    Ok(gate.between(least, most))
}

/// Machines that have nothing to do rest after 200 rounds, and each passes the gate before each.
#[test]
fn quiet_machines(rt: HostRuntime) -> Result<(), Fail> {
    assert_eq!(rt; rounds_between(&rt, rt.alloc(), 3, 0, 200, 200)?, 3);
    Ok(())
}

/// A machine that sends seven tokens to itself takes eight rounds for that, and then 200 quiet ones.
#[test]
fn busy_machine(rt: HostRuntime) -> Result<(), Fail> {
    assert_eq!(rt; rounds_between(&rt, rt.alloc(), 1, 7, 208, 208)?, 1);
    Ok(())
}
