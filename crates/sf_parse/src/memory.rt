//! What takes memory: lists that grow by one, values in boxes.

ghost use Rattle.std.specs.Prelude.{◌≡◌, ◌∷◌, ◌++◌, [], IfOk};

use std::alloc::{AllocError, Global};

/// One more at the end.
pub fn add<T: Drop>(found: &mut Vec<T>, one: T) -> Result<(), AllocError>
    ensures { IfOk result (λ _. found.new.items ≡ found.old.items ++ one ∷ []) }
{
    found.push(one)?;
    Ok(())
}

/// The first one, and those after it.
pub fn with_first<T: Drop>(first: T, more: Vec<T>) -> Result<Vec<T>, AllocError>
    ensures { IfOk result (λ all. all.items ≡ first ∷ more.items) }
{
    let mut all = more;
    all.insert(0, first)?;
    Ok(all)
}

/// The value in a box.
pub fn boxed<T: Drop>(alloc: Global, value: T) -> Result<Box<T>, AllocError>
    ensures { IfOk result (λ b. b.value ≡ value) }
{
    Ok(Box::new(alloc, value)?)
}
