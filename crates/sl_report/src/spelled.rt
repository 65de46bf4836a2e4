// The choices of a net with their spellings.
ghost use Rattle.std.specs.Prelude.{◌≡◌, ◌<◌, ◌++◌, OnOk, IfOk, IfSome, length, map};
ghost use Rattle.std.specs.List.{All};
ghost use Rattle.sl_parts.specs.Parts.{below};
ghost use Rattle.sl_layout.specs.Net.{Net};
ghost use Rattle.sl_net.specs.Spelling.{choice_text, choice_count};
ghost use Rattle.sl_read.specs.Choices.{choices};
ghost use Rattle.sl_report.specs.Spelled.{IsSpelled, choices_in};

use sl_machine::Memory;
use sl_net::{Line, Net, choice_text};
use std::alloc::{AllocError, Global};

/// A choice with its spelling.
#[derive(Drop)]
pub struct Spelled {
    pub text: Line,
    pub actor: u32,
    pub choice: u32,
}

fn add_choices(
    alloc: Global,
    net: &Net,
    spelled: &mut Vec<Spelled>,
    actor: u32,
) -> Result<(), Memory>
    requires { actor < length net.now.actors }
    ensures each { OnOk result (All (IsSpelled net.now) spelled.old.items
        → All (IsSpelled net.now) spelled.new.items) }
    ensures choices { OnOk result (choices_in spelled.new.items ≡ choices_in spelled.old.items
        ++ map (λ c. (actor, c)) (below (choice_count net.now actor))) }
{
    for choice in 0..net.choice_count(actor) {
        let text = choice_text(alloc, net, actor, choice)?;
        spelled.push(Spelled {
            text,
            actor,
            choice,
        })?;
    }
    Ok(())
}

/// The choices of a net with their spellings, actor by actor.
pub fn all_spelled(alloc: Global, net: &Net) -> Result<Vec<Spelled>, Memory>
    ensures each { IfOk result (λ spelled. All (IsSpelled net.now) spelled.items) }
    ensures choices { IfOk result (λ spelled. choices_in spelled.items ≡ choices net.now) }
{
    let mut spelled = Vec::new(alloc);
    for actor in 0..net.actors().len() as u32 {
        add_choices(alloc, net, &mut spelled, actor)?;
    }
    Ok(spelled)
}

/// The place of the first choice of each actor.
pub fn first_places(alloc: Global, spelled: &[Spelled]) -> Result<Vec<usize>, AllocError> {
    let mut firsts = Vec::new(alloc);
    for (place, one) in spelled.iter().enumerate() {
        if one.choice == 0 {
            firsts.push(place)?;
        }
    }
    Ok(firsts)
}

/// The spelling of a choice, where the list has it at its place.
pub fn spelling_at<'a>(
    spelled: &'a [Spelled],
    firsts: &[usize],
    actor: u32,
    choice: u32,
) -> Option<&'a Line>
    ensures { IfSome result (λ line. (net : Net) → All (IsSpelled net) spelled.now
        → line.now ≡ choice_text net actor choice) }
{
    let first = *firsts.get(actor as usize)?;
    let one = spelled.get(first.wrapping_add(choice as usize))?;
    if one.actor == actor && one.choice == choice {
        Some(&one.text)
    } else {
        None
    }
}
