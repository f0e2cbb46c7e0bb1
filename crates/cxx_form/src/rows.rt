//! Lists of declarations by number.
ghost use Rattle.std.specs.Prelude.{◌≡◌, ◌<◌, [], length, OnOk};
ghost use Rattle.cxx_form.specs.Rows.{row_at, AreSameRows, IsRowMore};

use cxx_model::FactId;
use std::alloc::{AllocError, Global};
use std::marker::Model;

/// Lists of the numbers of facts, by number; each grows at its end. Those past the last are empty.
#[derive(Drop)]
pub(crate) struct Rows {
    rows: Vec<Vec<FactId>>,
    alloc: Global,
}

impl Model for Rows {
    ghost use Rattle.std.specs.Prelude.{List, map};
    ghost use Rattle.std.specs.Coded.{codes};
    ghost use Rattle.cxx_model.specs.declared.types.FactId.{FactId as Number};

    ghost Value = { List (List Number) };

    ghost coded = { Prim.hlevel codes };

    ghost view = { λ rows. map (λ row. row.items) rows.rows.items };
}

impl Rows {
    pub(crate) fn new(alloc: Global) -> Rows
        ensures { result ≡ [] }
    {
        Rows {
            rows: Vec::new(alloc),
            alloc,
        }
    }

    pub(crate) fn row(&self, number: u32) -> &[FactId]
        ensures { result.now ≡ row_at self.now number }
    {
        match self.rows.get(number as usize) {
            Some(row) => row.as_slice(),
            None => &[],
        }
    }

    // Makes the row with a number one that is there.
    fn reach(&mut self, number: u32) -> Result<(), AllocError>
        ensures same { AreSameRows self.old self.new }
        ensures there { OnOk result (number < length self.new) }
    {
        while self.rows.len() <= number as usize {
            self.rows.push(Vec::new(self.alloc))?;
        }
        Ok(())
    }

    /// Adds a number to a row.
    pub(crate) fn push(&mut self, number: u32, fact: FactId) -> Result<(), AllocError>
        ensures { OnOk result (IsRowMore self.old self.new number fact) }
    {
        self.reach(number)?;
        let row = &mut self.rows[number as usize];
        row.push(fact)?;
        Ok(())
    }
}
