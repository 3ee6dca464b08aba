//! Copies of lists, each with memory of its own for the list.
//! Cited by other crates.

ghost use Rattle.std.specs.Prelude.{◌≡◌, IfOk};

use crate::tuple::Tuple;
use crate::value::Value;
use std::alloc::{AllocError, Global};

/// The same values, in a list of their own. `AllocError` where memory is wanting.
pub fn copy_values(alloc: Global, values: &[Value]) -> Result<Vec<Value>, AllocError>
    ensures { IfOk result (λ v. v.items ≡ values.now) }
{
    let mut copies = Vec::with_capacity(alloc, values.len())?;
    for value in values {
        copies.push(value.copy())?;
    }
    Ok(copies)
}

/// The same tuples, in a list of their own. `AllocError` where memory is wanting.
pub fn copy_tuples(alloc: Global, tuples: &[Tuple]) -> Result<Vec<Tuple>, AllocError>
    ensures { IfOk result (λ v. v.items ≡ tuples.now) }
{
    let mut copies = Vec::with_capacity(alloc, tuples.len())?;
    for tuple in tuples {
        copies.push(tuple.copy(alloc)?)?;
    }
    Ok(copies)
}
