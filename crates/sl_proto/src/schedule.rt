// The schedules of scripts and passes.
ghost use Rattle.std.specs.Prelude.{◌≡◌, ℕ, ◌<◌, [], ◌∷◌, ◌++◌, Bool, length, All, OnOk, IfOk};
ghost use Rattle.std.specs.Prelude.{if◌then◌else◌};
ghost use Rattle.sl_machine.specs.Plan.{HasChoice};
ghost use Rattle.sl_layout.specs.Net.{Net, actor_of};
ghost use Rattle.sl_net.specs.Spelling as spelling;
ghost use Rattle.sl_net.specs.Wired.{IsNet};
ghost use Rattle.sl_layout.specs.Wiring.{plan_of};
ghost use Rattle.sl_model.specs.Schedule.{link_entries, first_action, pass_actions, sweep_of};
ghost use Rattle.sl_model.specs.Schedule.{pass, pass_of, passes_of, sweeps, resend_entry};
ghost use Rattle.sl_model.specs.Schedule.{expand_one, expand};

use sl_machine::Memory;
use sl_net::{ActorId, Net, Script1, nets_are_wired};
use std::alloc::Global;

/// Adds an entry for each link of an actor.
fn add_links(net: &Net, entries: &mut Vec<(u32, u32)>, actor: u32) -> Result<(), Memory>
    requires { actor < length net.now.actors }
    ensures { OnOk result (entries.new.items ≡ entries.old.items ++ link_entries net.now actor) }
{
    for choice in 0..net.links_into(actor).len() as u32 {
        entries.push((actor, choice))?;
    }
    Ok(())
}

/// Adds the first own action of an actor where it passes.
fn add_action(
    net: &Net,
    entries: &mut Vec<(u32, u32)>,
    actor: u32,
    passes: bool,
) -> Result<(), Memory>
    requires { actor < length net.now.actors }
    ensures { OnOk result
        (entries.new.items ≡ entries.old.items
        ++ (if passes then first_action net.now actor else [])) }
{
    if passes {
        entries.push((actor, net.links_into(actor).len() as u32))?;
    }
    Ok(())
}

/// Whether an actor acts in a pass: the hosts do, and in a settling pass the observer.
fn acts_in_pass(net: &Net, settling: bool, actor: u32) -> bool
    requires { actor < length net.now.actors }
    ensures { pass_actions net.now settling actor (actor_of net.now actor)
        ≡ (if result then first_action net.now actor else []) }
{
    match net.actor(actor) {
        ActorId::Observer => settling,
        ActorId::Control(_) => false,
        ActorId::Unit(_) => false,
        ActorId::Host(_) => true,
    }
}

/// Whether an actor is a control plane.
fn sweeps(net: &Net, actor: u32) -> bool
    requires { actor < length net.now.actors }
    ensures { sweep_of net.now actor (actor_of net.now actor)
        ≡ (if result then first_action net.now actor else []) }
{
    match net.actor(actor) {
        ActorId::Control(_) => true,
        _ => false,
    }
}

/// A pass: each link of each actor in order, and for a host then its injecting. In a settling pass
/// the observer issues besides, after its links.
pub fn pass_of(alloc: Global, net: &Net, settling: bool) -> Result<Vec<(u32, u32)>, Memory>
    ensures { IfOk result (λ entries. entries.items ≡ pass_of net.now settling) }
{
    let mut entries = Vec::new(alloc);
    for actor in 0..net.actors().len() as u32 {
        add_links(net, &mut entries, actor)?;
        let acts = acts_in_pass(net, settling, actor);
        add_action(net, &mut entries, actor, acts)?;
    }
    Ok(entries)
}

/// A sweep at each control plane.
pub fn all_sweeps(alloc: Global, net: &Net) -> Result<Vec<(u32, u32)>, Memory>
    ensures { IfOk result (λ entries. entries.items ≡ sweeps net.now) }
{
    let mut entries = Vec::new(alloc);
    for actor in 0..net.actors().len() as u32 {
        add_action(net, &mut entries, actor, sweeps(net, actor))?;
    }
    Ok(entries)
}

/// Adds a pass so many times.
fn add_passes(entries: &mut Vec<(u32, u32)>, once: &[(u32, u32)], count: u32) -> Result<(), Memory>
    ensures { OnOk result (entries.new.items ≡ entries.old.items ++ passes_of once.now count) }
{
    for _done in 0..count {
        entries.extend_from_slice(once)?;
    }
    Ok(())
}

fn add_script(
    net: &Net,
    entries: &mut Vec<(u32, u32)>,
    once: &[(u32, u32)],
    line: Script1,
) -> Result<(), Memory>
    requires { once.now ≡ pass net.now }
    ensures { OnOk result (entries.new.items ≡ entries.old.items ++ expand_one net.now line) }
{
    match line {
        Script1::Pass(count) => add_passes(entries, once, count),
        Script1::Choice { actor, choice } => Ok(entries.push((actor, choice))?),
    }
}

/// The entries of a pass, of the sweeps and of resending are choices of the net's actors, and so is
/// each choice that has a spelling.
pub fn passes_are_choices()
    ensures passes { (net : Net) (settling : Bool) → IsNet net
        → All (λ e. HasChoice (plan_of net) e.0 e.1) (pass_of net settling) }
    ensures sweeps { (net : Net) → IsNet net
        → All (λ e. HasChoice (plan_of net) e.0 e.1) (sweeps net) }
    ensures resend { (net : Net) → IsNet net
        → All (λ e. HasChoice (plan_of net) e.0 e.1) (resend_entry net ∷ []) }
    ensures spelled { (net : Net) (a c : ℕ) → spelling.HasChoice net a c
        → HasChoice (plan_of net) a c }
{
    nets_are_wired()
}

/// The schedule of a script: so many passes, or one choice, in order.
pub fn expand(alloc: Global, net: &Net, script: &[Script1]) -> Result<Vec<(u32, u32)>, Memory>
    ensures { IfOk result (λ entries. entries.items ≡ expand net.now script.now) }
{
    let once = pass_of(alloc, net, false)?;
    let mut entries = Vec::new(alloc);
    for line in script {
        add_script(net, &mut entries, once.as_slice(), *line)?;
    }
    Ok(entries)
}
