//! Declarations that are held under numbers.
ghost use Rattle.std.specs.Prelude.{OnOk};
ghost use Rattle.cxx_form.specs.Giving.{HasHeld};

use crate::rows::Rows;
use cxx_model::FactId;
use std::alloc::AllocError;

/// Adds a declaration to those under a number, where it is held under one.
pub(crate) fn hold(rows: &mut Rows, number: u32, holder: Option<u32>) -> Result<(), AllocError>
    ensures { OnOk result (HasHeld rows.old rows.new number holder) }
{
    let Some(holder) = holder else {
        return Ok(());
    };
    rows.push(holder, FactId(number))?;
    Ok(())
}
