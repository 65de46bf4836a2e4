// Texts that have a spelling in each line.
ghost use Rattle.std.specs.Prelude.{ℕ, List, IfOk, IfSome, IfNone};
ghost use Rattle.std.specs.List.{All};
ghost use Rattle.sl_report.specs.Spelled.{IsSpelled};
ghost use Rattle.sl_check.specs.Spellings.{SpellsLines, IsScript};

use crate::lines::split_line;
use crate::spellings::{Places, find_spelled};
use sl_machine::Memory;
use sl_net::Net;
use sl_report::Spelled;
use std::alloc::Global;

/// The turns whose spellings are the lines of a text, or none where it is no such text.
pub fn read_script(
    alloc: Global,
    net: &Net,
    spelled: &[Spelled],
    places: &Places,
    text: &[u8],
) -> Result<Option<Vec<(u32, u32)>>, Memory>
    requires spelled { All (IsSpelled net.now) spelled.now }
    requires lines { SpellsLines net.now }
    ensures read { IfOk result (λ read. IfSome read (λ es. IsScript net.now text.now es.items)) }
    ensures none { IfOk result
        (λ read. IfNone read ((es : List (ℕ × ℕ)) → IsScript net.now text.now es → ⊥)) }
{
    let mut entries = Vec::new(alloc);
    let mut rest = text;
    while let Some((line, next)) = split_line(rest) {
        let Some(entry) = find_spelled(alloc, net, spelled, places, line)? else {
            return Ok(None);
        };
        entries.push(entry)?;
        rest = next;
    }
    if rest.is_empty() {
        Ok(Some(entries))
    } else {
        Ok(None)
    }
}
