//! Numbers by number.
ghost use Rattle.std.specs.Prelude.{◌≡◌, ◌<◌, [], length, OnOk};
ghost use Rattle.cxx_form.specs.Slots.{slot_at, AreSameSlots, IsSlotSet};

use std::alloc::{AllocError, Global};
use std::marker::Model;

/// Numbers by number, each of them 0 until it is set.
#[derive(Drop)]
pub(crate) struct Slots {
    slots: Vec<u32>,
}

impl Model for Slots {
    ghost use Rattle.std.specs.Prelude.{ℕ, List};

    ghost Value = { List ℕ };

    ghost view = { λ slots. slots.slots.items };
}

impl Slots {
    pub(crate) fn new(alloc: Global) -> Slots
        ensures { result ≡ [] }
    {
        Slots {
            slots: Vec::new(alloc),
        }
    }

    #[tactic(auto, using(crate::proofs::Slotted::slot_past))]
    pub(crate) fn at(&self, number: u32) -> u32
        ensures { result ≡ slot_at self.now number }
    {
        match self.slots.get(number as usize) {
            Some(value) => *value,
            None => 0,
        }
    }

    // Makes the slot with a number one that is there.
    #[tactic(auto, using(crate::proofs::Slotted::slots_reached))]
    fn reach(&mut self, number: u32) -> Result<(), AllocError>
        ensures same { AreSameSlots self.old self.new }
        ensures there { OnOk result (number < length self.new) }
    {
        while self.slots.len() <= number as usize {
            self.slots.push(0)?;
        }
        Ok(())
    }

    #[tactic(auto, using(crate::proofs::Slotted::slot_set))]
    pub(crate) fn set(&mut self, number: u32, value: u32) -> Result<(), AllocError>
        ensures { OnOk result (IsSlotSet self.old self.new number value) }
    {
        self.reach(number)?;
        self.slots[number as usize] = value;
        Ok(())
    }
}
