//! The numbers of names in the order of the text.
ghost use Rattle.std.specs.Prelude.{◌≡◌, ◌<◌, [], ℕ, List, OnOk};
ghost use Rattle.cxx_reading.specs.TextOrder.{number_in, with_new};
ghost use Rattle.cxx_form.specs.Numbered.{IsNumbering};

use crate::slots::Slots;
use std::alloc::{AllocError, Global};

/// The most names: the numbers are below it.
const MOST: u32 = 4_294_967_294;

/// The numbers of declarations, from 1, in the order in which their names stand in a text.
#[derive(Drop)]
pub(crate) struct Numbering {
    slots: Slots,
    count: u32,
    ghost bounded: { count < 4294967295 },
}

impl Numbering {
    #[tactic(auto, using(crate::proofs::Numbers::none_numbered))]
    pub fn new(alloc: Global) -> Numbering
        ensures { IsNumbering [] result.count result.slots }
    {
        Numbering {
            slots: Slots::new(alloc),
            count: 0,
        }
    }

    /// Gives the next number to a declaration that has none. So many names as there are numbers are more than any
    /// memory of today holds: one more is answered as want of memory.
    #[tactic(auto, using(crate::proofs::Numbers::numbered_before))]
    pub fn note(&mut self, number: u32) -> Result<(), AllocError>
        ensures { (order : List ℕ) → IsNumbering order self.old.count self.old.slots → OnOk result (IsNumbering (with_new order number) self.new.count self.new.slots) }
    {
        if self.slots.at(number) != 0 {
            return Ok(());
        }
        if self.count >= MOST {
            return Err(AllocError);
        }
        self.slots.set(number, self.count + 1)?;
        self.count += 1;
        Ok(())
    }

    /// The number of a declaration; of one whose name does not stand in the text, the next.
    #[tactic(auto, using(crate::proofs::Numbers::number_read, crate::proofs::Numbers::number_none))]
    pub fn number(&self, number: u32) -> u32
        ensures { (order : List ℕ) → IsNumbering order self.now.count self.now.slots → result ≡ number_in order number }
    {
        let slot = self.slots.at(number);
        if slot == 0 { self.count + 1 } else { slot }
    }
}
