ghost use Rattle.std.specs.Prelude.{◌≡◌, ◌<◌, [], length, OnOk, OnErr};
ghost use Rattle.cxx_implicit.specs.Rows.{row_at, AreSameRows, IsRowMore};

use cxx_model::{ClassId, OutOfMemory};
use std::alloc::Global;
use std::marker::Model;

/// Lists of classes, by number; each grows at its end. Those past the last are empty.
#[derive(Drop)]
pub(crate) struct Rows {
    rows: Vec<Vec<ClassId>>,
    alloc: Global,
}

impl Model for Rows {
    ghost use Rattle.std.specs.Prelude.{List, map};
    ghost use Rattle.std.specs.Coded.{codes};
    ghost use Rattle.cxx_model.specs.declared.types.ClassId.{ClassId as Class};

    ghost Value = { List (List Class) };

    ghost coded = { Prim.hlevel codes };

    ghost view = { λ rows. map (λ row. row.items) rows.rows.items };
}

impl Rows {
    pub(crate) fn new(alloc: Global) -> Rows
        ensures { result ≡ [] }
    {
        Rows {
            rows: Vec::new(alloc),
            alloc,
        }
    }

    pub(crate) fn row(&self, number: u32) -> &[ClassId]
        ensures { result.now ≡ row_at self.now number }
    {
        match self.rows.get(number as usize) {
            Some(row) => row.as_slice(),
            None => &[],
        }
    }

    // Makes the row with a number one that is there.
    fn reach(&mut self, number: u32) -> Result<(), OutOfMemory>
        ensures same { AreSameRows self.old self.new }
        ensures there { OnOk result (number < length self.new) }
    {
        while self.rows.len() <= number as usize {
            self.rows.push(Vec::new(self.alloc))?;
        }
        Ok(())
    }

    /// Adds a class to a row. An `Err` changes no row.
    pub(crate) fn push(&mut self, number: u32, class: ClassId) -> Result<(), OutOfMemory>
        ensures added { OnOk result (IsRowMore self.old self.new number class) }
        ensures unchanged { OnErr result (AreSameRows self.old self.new) }
    {
        self.reach(number)?;
        let row = &mut self.rows[number as usize];
        row.push(class)?;
        Ok(())
    }
}
