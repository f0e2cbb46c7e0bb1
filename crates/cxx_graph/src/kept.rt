ghost use Rattle.std.specs.Prelude.{◌≡◌, ◌++◌, [], ◌∷◌, List, length, OnErr, OnOk};
ghost use Rattle.cxx_model.specs.declared.facts.Fact.{Fact as Declaration};
ghost use Rattle.cxx_model.specs.declared.types.FactId.{FactId as Number};
ghost use Rattle.cxx_graph.specs.Kept.{AreSameHolders, HasBase, HasPlace, HasValue, IsKept, holders_at};
ghost use Rattle.cxx_graph.specs.Rows.{AreSameRows};

use crate::promotion::Holders;
use crate::rows::Rows;
use cxx_model::{Entity, EnumId, Fact, FactId, OutOfMemory};
use std::alloc::Global;

/// What is kept beside the facts, so that no question goes over them all.
#[derive(Drop)]
pub(crate) struct Kept {
    // The facts of each scope.
    pub(crate) members: Rows,
    // The facts of the direct bases of each class.
    pub(crate) bases: Rows,
    // Which types hold the values of each enumeration.
    pub(crate) holders: Vec<Holders>,
}

impl Kept {
    pub(crate) fn new(alloc: Global) -> Kept
        ensures { IsKept [] result.members result.bases result.holders.items }
    {
        Kept {
            members: Rows::new(alloc),
            bases: Rows::new(alloc),
            holders: Vec::new(alloc),
        }
    }

    /// Which types hold the values of an enumeration.
    pub(crate) fn holders_of(&self, number: EnumId) -> Holders
        ensures { result ≡ holders_at self.now.holders.items number.0 }
    {
        match self.holders.get(number.0 as usize) {
            Some(holders) => *holders,
            None => Holders::all(),
        }
    }

    /// Takes note of the next fact. An `Err` changes nothing of what is kept.
    pub(crate) fn note(&mut self, number: FactId, fact: &Fact) -> Result<(), OutOfMemory>
        ensures noted { (facts : List Declaration) → IsKept facts self.old.members self.old.bases self.old.holders.items
            → number.0 ≡ length facts
            → OnOk result (IsKept (facts ++ fact.now ∷ []) self.new.members self.new.bases self.new.holders.items) }
        ensures same { (facts : List Declaration) → IsKept facts self.old.members self.old.bases self.old.holders.items
            → OnErr result (IsKept facts self.new.members self.new.bases self.new.holders.items) }
    {
        make_place(&mut self.holders, &fact.what)?;
        add_base(&mut self.bases, &fact.what, number)?;
        if let Err(fault) = self.members.push(fact.scope.0, number) {
            drop_base(&mut self.bases, &fact.what);
            return Err(fault);
        }
        add_value(&mut self.holders, &fact.what);
        Ok(())
    }
}

// 10: one more base. An `Err` changes nothing.
fn add_base(bases: &mut Rows, what: &Entity, number: FactId) -> Result<(), OutOfMemory>
    ensures added { OnOk result (HasBase bases.old bases.new what.now number) }
    ensures same { OnErr result (AreSameRows bases.old bases.new) }
{
    match what {
        Entity::Ancestor { class, .. } => bases.push(class.0, number),
        _ => Ok(()),
    }
}

// Takes back what `add_base` did.
fn drop_base(bases: &mut Rows, what: &Entity)
    ensures { (before : List (List Number)) (number : Number) → HasBase before bases.old what.now number → AreSameRows before bases.new }
{
    if let Entity::Ancestor { class, .. } = what {
        bases.pop(class.0);
    }
}

// 7.2: a place for the value of an enumerator.
fn make_place(holders: &mut Vec<Holders>, what: &Entity) -> Result<(), OutOfMemory>
    ensures same { AreSameHolders holders.old.items holders.new.items }
    ensures there { OnOk result (HasPlace holders.new.items what.now) }
{
    if let Entity::Enumerator { number, .. } = what {
        while holders.len() <= number.0 as usize {
            holders.push(Holders::all())?;
        }
    }
    Ok(())
}

// 7.2: the value of an enumerator.
fn add_value(holders: &mut Vec<Holders>, what: &Entity)
    requires { HasPlace holders.old.items what.now }
    ensures { HasValue holders.old.items holders.new.items what.now }
{
    if let Entity::Enumerator { number, value } = what {
        let place = number.0 as usize;
        holders[place] = holders[place].with(*value);
    }
}
