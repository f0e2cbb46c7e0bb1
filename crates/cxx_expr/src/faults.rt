//! Faults of expressions.

ghost use Rattle.std.specs.Prelude.{◌≡◌, [], IfOk};
ghost use Rattle.cxx_model.specs.Stops.{Faulty, fault as fault_of, not_built_at as not_built};

use cxx_model::{Fault, FaultText, Listed, Place};
use std::alloc::{AllocError, Global};

/// A fault that rests on nothing but its place.
pub fn fault(alloc: Global, place: Place, text: FaultText) -> Result<Box<Fault>, AllocError>
    ensures { IfOk result (λ at. Faulty at.value ≡ fault_of place text) }
{
    Ok(Box::new(
        alloc,
        Fault {
            place,
            text,
            evidence: Listed::new(alloc),
        },
    )?)
}

/// What is not read yet.
pub fn not_built_at(alloc: Global, place: Place) -> Result<Box<Fault>, AllocError>
    ensures { IfOk result (λ at. Faulty at.value ≡ not_built place) }
{
    fault(alloc, place, FaultText::NotBuilt)
}
