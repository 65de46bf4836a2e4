// The choices of a net by their spellings.
ghost use Rattle.std.specs.Prelude.{◌≡◌, ℕ, ◌<◌, OnOk, IfOk, IfSome, IfNone, length};
ghost use Rattle.std.specs.List.{All};
ghost use Rattle.sl_layout.specs.Net.{Net};
ghost use Rattle.sl_net.specs.Spelling.{choice_text, HasChoice};
ghost use Rattle.sl_report.specs.Spelled.{IsSpelled};
ghost use Rattle.sl_check.specs.Spellings.{FindsTurn};

use sl_machine::Memory;
use sl_net::{Net, choice_text};
use sl_report::Spelled;
use std::alloc::Global;
use std::collections::HashMap;

/// The places of a list by their spellings.
pub type Places = HashMap<Vec<u8>, usize>;

/// The place of each spelling in a list.
pub fn places_of(alloc: Global, spelled: &[Spelled]) -> Result<Places, Memory> {
    let mut places = HashMap::new(alloc);
    for (place, one) in spelled.iter().enumerate() {
        places.insert(one.text.items.clone()?, place)?;
    }
    Ok(places)
}

/// The choice of an actor with this spelling.
fn find_at(alloc: Global, net: &Net, actor: u32, text: &[u8]) -> Result<Option<u32>, Memory>
    requires { actor < length net.now.actors }
    ensures found { IfOk result (λ found. IfSome found (λ c. HasChoice net.now actor c)) }
    ensures spelled { IfOk result
        (λ found. IfSome found (λ c. choice_text net.now actor c ≡ text.now)) }
    ensures none { IfOk result
        (λ found. IfNone found ((c : ℕ) → HasChoice net.now actor c
        → ¬ (choice_text net.now actor c ≡ text.now))) }
{
    for choice in 0..net.choice_count(actor) {
        let spelling = choice_text(alloc, net, actor, choice)?;
        if spelling.items.as_slice() == text {
            return Ok(Some(choice));
        }
    }
    Ok(None)
}

/// The choice with this spelling, where the table doesn't have it.
fn find_slowly(alloc: Global, net: &Net, text: &[u8]) -> Result<Option<(u32, u32)>, Memory>
    ensures { IfOk result (λ found. FindsTurn net.now text.now found) }
{
    for actor in 0..net.actors().len() as u32 {
        if let Some(choice) = find_at(alloc, net, actor, text)? {
            return Ok(Some((actor, choice)));
        }
    }
    Ok(None)
}

/// The choice of the list with this spelling, where the table has it.
fn find_listed(spelled: &[Spelled], places: &Places, text: &[u8]) -> Option<(u32, u32)>
    ensures { IfSome result (λ e. (net : Net) → All (IsSpelled net) spelled.now
        → HasChoice net e.0 e.1 × (choice_text net e.0 e.1 ≡ text.now)) }
{
    let place = *places.get(text)?;
    let found = spelled.get(place)?;
    if found.text.items.as_slice() == text {
        Some((found.actor, found.choice))
    } else {
        None
    }
}

/// The choice with this spelling. The table has the places of the list; where it had others, the
/// answer would be the same, and take longer.
pub fn find_spelled(
    alloc: Global,
    net: &Net,
    spelled: &[Spelled],
    places: &Places,
    text: &[u8],
) -> Result<Option<(u32, u32)>, Memory>
    requires { All (IsSpelled net.now) spelled.now }
    ensures { IfOk result (λ found. FindsTurn net.now text.now found) }
{
    match find_listed(spelled, places, text) {
        Some(entry) => Ok(Some(entry)),
        None => find_slowly(alloc, net, text),
    }
}
