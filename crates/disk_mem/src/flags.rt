//! Which blocks are loose.
ghost use Rattle.std.specs.Prelude.{◌≡◌, ℕ, false, length, slice_index_or, IfOk};

use std::alloc::{AllocError, Global};

/// No flag stands.
pub fn no_flags(alloc: Global, n: usize) -> Result<Vec<bool>, AllocError>
    ensures clear { IfOk result (λ v. (k : ℕ) → slice_index_or v.items k false ≡ false) }
    ensures len { IfOk result (λ v. length v.items ≡ n) }
{
    let mut flags = vec![in alloc; false; n]?;
    clear(&mut flags);
    Ok(flags)
}

/// Takes all flags down.
pub fn clear(flags: &mut Vec<bool>)
    ensures all { (k : ℕ) → slice_index_or flags.new.items k false ≡ false }
    ensures len { length flags.new.items ≡ length flags.old.items }
{
    for i in 0..flags.len() {
        flags[i] = false;
    }
}
