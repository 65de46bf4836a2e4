// Choices by their spelling.
ghost use Rattle.std.specs.Prelude.{◌≡◌, ◌<◌, ◌≤◌, ℕ, Some, length, IfSome, IfNone, MatchOption};
ghost use Rattle.sl_net.specs.Spelling.{skip, choice_word, choice_text, choice_count, HasChoice};

use crate::matching::{skip, skip_action, skip_actor, skip_link};
use crate::net::Net;
use sl_layout::ActorId;

/// Where the text goes on past a choice, named among those of its actor.
fn skip_word(text: &[u8], net: &Net, actor: u32, choice: u32, at: usize) -> Option<usize>
    requires actor { actor < length net.now.actors }
    requires at { at ≤ length text.now }
    ensures { result ≡ skip text.now (choice_word net.now actor choice) at }
{
    let links = net.links_into(actor);
    if (choice as usize) < links.len() {
        let part = net.link(links[choice as usize]);
        skip_link(text, net.parts(), net.actor(part.from), part.sort, at)
    } else {
        skip_action(text, net.actor(actor), choice - links.len() as u32, at)
    }
}

/// The choice of an actor that the text names from this place to its end.
fn find_word(text: &[u8], net: &Net, actor: u32, at: usize) -> Option<u32>
    requires actor { actor < length net.now.actors }
    requires at { at ≤ length text.now }
    ensures { MatchOption result
        ((c : ℕ) → c < choice_count net.now actor
        → ¬ (skip text.now (choice_word net.now actor c) at ≡ Some (length text.now)))
        (λ c. (c < choice_count net.now actor)
        × (skip text.now (choice_word net.now actor c) at ≡ Some (length text.now))) }
{
    for choice in 0..net.choice_count(actor) {
        if skip_word(text, net, actor, choice, at) == Some(text.len()) {
            return Some(choice);
        }
    }
    None
}

/// The choice of an actor whose spelling the text is.
#[tactic(auto, using(crate::proofs::Skips::skip_append))]
fn find_at(text: &[u8], net: &Net, actor: u32) -> Option<u32>
    requires { actor < length net.now.actors }
    ensures { MatchOption result
        ((c : ℕ) → c < choice_count net.now actor
        → ¬ (skip text.now (choice_text net.now actor c) 0 ≡ Some (length text.now)))
        (λ c. (c < choice_count net.now actor)
        × (skip text.now (choice_text net.now actor c) 0 ≡ Some (length text.now))) }
{
    let at = skip_actor(text, net.parts(), net.actor(actor), 0)?;
    let at = skip(text, b" ", at)?;
    find_word(text, net, actor, at)
}

/// The actor and the choice whose spelling a text is.
pub fn find_choice(net: &Net, text: &str) -> Option<(u32, u32)>
    ensures found { IfSome result (λ p. HasChoice net.now p.0 p.1) }
    ensures spelled { IfSome result (λ p. choice_text net.now p.0 p.1 ≡ text.now) }
    ensures none { IfNone result ((a c : ℕ) → HasChoice net.now a c
        → ¬ (choice_text net.now a c ≡ text.now)) }
{
    for actor in 0..net.actors().len() as u32 {
        if let Some(choice) = find_at(text.as_bytes(), net, actor) {
            return Some((actor, choice));
        }
    }
    None
}
