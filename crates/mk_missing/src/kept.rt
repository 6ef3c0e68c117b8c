//! Numbers kept one by one.
ghost use Rattle.std.specs.Prelude.{◌≡◌, ◌++◌, ◌∷◌, [], OnOk, false, true};

use std::alloc::AllocError;

/// Puts a number behind others, if it is wanted. The only error is out of memory.
pub(crate) fn keep(numbers: &mut Vec<u32>, n: u32, wanted: bool) -> Result<(), AllocError>
    ensures put { wanted ≡ true → OnOk result (numbers.new.items ≡ numbers.old.items ++ n ∷ []) }
    ensures same { wanted ≡ false → OnOk result (numbers.new.items ≡ numbers.old.items) }
{
    if wanted {
        numbers.push(n)?;
    }
    Ok(())
}
