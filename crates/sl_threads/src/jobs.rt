// Runs of actors in threads of their own.
ghost use Rattle.std.specs.Prelude.{◌≡◌, ◌+◌, ◌<◌, ℕ, length, map, IfOk, IsOk, slice_index_or};
ghost use Rattle.std.specs.List.{All};
ghost use Rattle.sl_machine.specs.Machine.{IsChoice};
ghost use Rattle.sl_actor.specs.Held.{held};
ghost use Rattle.sl_threads.specs.Threads.{HasRun, PassedAtRest, ArePlans};

use sl_actor::{Actor, Gate, Rest};
use sl_machine::{Machine, Memory};
use std::alloc::Global;
use std::collections::VecDeque;
use std::sync::Wait;
use std::thread;
use std::thread::Threads;

/// How many steps an actor makes at most.
pub const STEPS: u64 = 1 << 27;

/// After how many rounds without any move it rests.
pub const QUIET: u64 = 200;

/// An actor that is to run, and the choices that it tries in each round.
#[derive(Drop)]
pub struct Job<A: Machine> {
    pub actor: Actor<A>,
    pub plan: Vec<u32>,
    ghost in_range: { (i : ℕ) → i < length plan.items
        → slice_index_or plan.items i 0 < (A.counts actor.machine).ins +
        (A.counts actor.machine).actions },
}

/// Runs an actor, and gives it back with the answer of its run.
fn run_job<R: Wait, A: Machine, G: Gate>(
    rt: &R,
    job: Job<A>,
    gate: &G,
) -> (Actor<A>, Result<Rest, Memory>)
    ensures run { HasRun A.rules job.plan.items STEPS (held job.actor) (held result.0) result.1 }
    ensures passed { PassedAtRest G.passed gate.now (held job.actor).place QUIET result.1 }
{
    let Job { mut actor, plan } = job;
    let answer = actor.run(rt, plan.as_slice(), STEPS, QUIET, gate);
    (actor, answer)
}

/// Runs each actor in a thread of its own, or one after another where no thread can be made.
pub fn run_each<R: Threads + Wait + Sync, A: Machine + Send, G: Gate + Sync>(
    rt: &R,
    jobs: Vec<Job<A>>,
    gate: &G,
) -> Result<Vec<(Actor<A>, Result<Rest, Memory>)>, Memory>
where
    A::Msg: Send,
    ensures len { IfOk result (λ v. length v.items ≡ length jobs.items) }
    ensures each { IfOk result (λ v. (i : ℕ) (d : _) (e : _) → i < length jobs.items
        → HasRun A.rules (slice_index_or jobs.items i d).plan.items STEPS
        (held (slice_index_or jobs.items i d).actor) (held (slice_index_or v.items i e).0)
        (slice_index_or v.items i e).1) }
    ensures passed { IfOk result (λ v. (i : ℕ) (d : _) (e : _) → i < length jobs.items
        → PassedAtRest G.passed gate.now (held (slice_index_or jobs.items i d).actor).place QUIET
        (slice_index_or v.items i e).1) }
{
    let ran = thread::map_vec(
        rt,
        jobs,
        &|job: Job<A>| -> (Actor<A>, Result<Rest, Memory>)
            ensures { HasRun A.rules job.plan.items STEPS (held job.actor) (held result.0) result.1
                × PassedAtRest G.passed gate.entry.now (held job.actor).place QUIET result.1 }
        { run_job(rt, job, gate) },
    )?;
    Ok(ran)
}

/// Pairs an actor with its plan.
fn make_job<A: Machine>(actor: Actor<A>, plan: Vec<u32>) -> Job<A>
    requires { All (λ choice. IsChoice (held actor).counts choice) plan.items }
    ensures actor { held result.actor ≡ held actor }
    ensures plan { result.plan.items ≡ plan.items }
{
    Job { actor, plan }
}

/// Pairs each actor with its plan.
pub fn jobs_of<A: Machine>(
    alloc: Global,
    actors: Vec<Actor<A>>,
    plans: Vec<Vec<u32>>,
) -> Result<Vec<Job<A>>, Memory>
    requires { ArePlans (map (λ a. a.counts) (map held actors.items))
        (map (λ p. p.items) plans.items) }
    ensures actors { IfOk result (λ v. map (λ j. held j.actor) v.items ≡ map held actors.items) }
    ensures plans { IfOk result
        (λ v. map (λ j. j.plan.items) v.items ≡ map (λ p. p.items) plans.items) }
{
    let mut rest = VecDeque::from(actors);
    let mut plans_left = VecDeque::from(plans);
    let mut jobs = Vec::new(alloc);
    while let Some(actor) = rest.pop_front() {
        let plan = match plans_left.pop_front() {
            Some(plan) => plan,
            None => unreachable!(),
        };
        let job = make_job(actor, plan);
        jobs.push(job)?;
    }
    Ok(jobs)
}

/// The actors that ran, where no run was refused memory.
pub fn actors_of<A: Machine>(
    alloc: Global,
    ran: Vec<(Actor<A>, Result<Rest, Memory>)>,
) -> Result<Vec<Actor<A>>, Memory>
    ensures actors { IfOk result (λ v. map held v.items ≡ map (λ r. held r.0) ran.items) }
    ensures answers { IfOk result (λ _. All (λ r. IsOk r.1) ran.items) }
{
    let mut rest = VecDeque::from(ran);
    let mut actors = Vec::new(alloc);
    while let Some(one) = rest.pop_front() {
        let (actor, answer) = one;
        answer?;
        actors.push(actor)?;
    }
    Ok(actors)
}
