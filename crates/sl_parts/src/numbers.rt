// Lists of numbers, and tables of lists.
ghost use Rattle.std.specs.Prelude.{◌≡◌, ℕ, ◌++◌, ◌∷◌, [], ◌<◌, OnOk, IfOk, cond, length, map};
ghost use Rattle.std.specs.Prelude.{slice_index_or};
ghost use Rattle.sl_parts.specs.Parts.{below};

use sl_machine::Listed;
use std::alloc::{AllocError, Global};

/// A list of numbers.
pub type Numbers = Listed<u32>;

/// Adds the number at the end where it passes.
pub fn push_if(numbers: &mut Vec<u32>, passes: bool, number: u32) -> Result<(), AllocError>
    ensures { OnOk result (numbers.new.items ≡ numbers.old.items ++ cond passes (number ∷ []) []) }
{
    if passes {
        numbers.push(number)?;
    }
    Ok(())
}

/// One list of a table of lists.
pub fn row(table: &[Numbers], i: usize) -> &[u32]
    requires { i < length table.now }
    ensures { result.now ≡ slice_index_or table.now i [] }
{
    let list = &table[i];
    list.items.as_slice()
}

/// A table of so many empty lists.
pub fn empty_lists<T: Drop>(alloc: Global, count: usize) -> Result<Vec<Listed<T>>, AllocError>
    ensures { IfOk result (λ lists. lists.items ≡ map (λ (i : ℕ). []) (below count)) }
{
    let mut lists = Vec::new(alloc);
    for _i in 0..count {
        lists.push(Listed {
            items: Vec::new(alloc),
        })?;
    }
    Ok(lists)
}
