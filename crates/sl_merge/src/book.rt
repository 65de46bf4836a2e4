// A book of the entries of many logs.
ghost use Rattle.std.specs.Prelude.{OnOk};
ghost use Rattle.std.specs.List.Sorted.{IsPermutation, IsNonDecreasingBy};
ghost use Rattle.sl_merge.specs.Merging.{IsMerge, AreLogs, IsAscending};

use sl_machine::{Book, Memory};

/// Puts the entries of a book, which come in the order of their actors, in the order of number and
/// actor. Entries with both the same, of which logs have none, stay in their order. `merge` makes the
/// same book of the logs themselves.
pub fn sort_book(book: &mut Book) -> Result<(), Memory>
    requires { IsNonDecreasingBy (λ e. e.actor) book.old.entries }
    ensures same_entries { IsPermutation book.old.entries book.new.entries }
    ensures merge { OnOk result (IsMerge book.old.entries book.new.entries) }
    ensures ascending { OnOk result (AreLogs book.old.entries → IsAscending book.new.entries) }
{
    book.entries.sort_by_key(|e| e.number)?;
    Ok(())
}
