// Tables of equal entries.
ghost use Rattle.std.specs.Prelude.{◌≡◌, IfOk, replicate};

use std::alloc::{AllocError, Global};

/// This many times this value.
pub fn filled<T: Copy>(alloc: Global, value: T, count: usize) -> Result<Vec<T>, AllocError>
    ensures { IfOk result (λ table. table.items ≡ replicate count value) }
{
    let mut table = Vec::new(alloc);
    for _i in 0..count {
        table.push(value)?;
    }
    Ok(table)
}
