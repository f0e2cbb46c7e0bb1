//! Who is asked which function a call means.

ghost use Rattle.std.specs.Prelude.{◌≡◌, ◌≤◌, [], List, length, Option, Some, None, is_some, IfOk, IfSome, OnErr, OnOk};
ghost use Rattle.std.specs.Option.{option_copied};
ghost use Rattle.cxx_model.specs.declared.limits.TheConstants as limits;
ghost use Rattle.cxx_model.specs.declared.place.Place.{Place as PlaceOfText};
ghost use Rattle.cxx_model.specs.Facts.Declarations.{graph_at};
ghost use Rattle.cxx_model.specs.Facts.Fitted.{Fitted};
ghost use Rattle.cxx_model.specs.Stops.{Gives};
ghost use Rattle.cxx_overload.specs.Calls.{decided};
ghost use Rattle.cxx_overload.specs.Decisions.{decision_at, IsDecisionBelow};
ghost use Rattle.cxx_overload.specs.Told.{told_more};
ghost use Rattle.cxx_overload.specs.Views.{numbered_in, object_at, operands_at, passed, AreOperandsBelow, IsObject};

use crate::decision::{Decision, decide};
use crate::object::Object;
use cxx_graph::Graph;
use cxx_model::{FactId, Operand, Place, Stop};
use cxx_types::TypeTable;
use std::alloc::Global;
use std::marker::Model;

/// Somebody who is asked which function a call means (13.3).
pub trait Chooser {
    // The places at which it was asked and answered, in order, where it tells them.
    ghost told: { Self → Option (List PlaceOfText) };

    /// Which function a call at a place means, by its object, where it has one, its arguments and the declarations
    /// `found` of its name.
    fn choose<'t>(
        &mut self,
        alloc: Global,
        graph: &Graph,
        types: &'t TypeTable,
        place: Place,
        object: Option<Object>,
        operands: &[Operand],
        found: &[FactId],
    ) -> Result<Decision<'t>, Stop>
        requires few { length operands.now ≤ limits.MOST_ARGUMENTS }
        requires object { IfSome object (IsObject types.now) }
        requires operands { AreOperandsBelow (length types.now) operands.now }
        requires fitted { Fitted graph.now types.now }
        ensures is { Gives (decision_at types.now place object operands.now) result (decided place (object_at types.now object) (operands_at types.now operands.now) (graph_at types.now graph.now) (numbered_in (graph_at types.now graph.now) found.now)) }
        ensures below { IfOk result (IsDecisionBelow (length types.now) (length (passed object operands.now))) }
        ensures asked { OnOk result (told self.new ≡ told_more place (told self.old)) }
        ensures stays { OnErr result (told self.new ≡ told self.old) };
}

/// It gives the best viable function, and does not tell where it was asked.
#[derive(Clone, Copy, Debug, PartialEq, Eq)]
pub struct Champion;

impl Chooser for Champion {
    ghost told = { λ _. None };

    fn choose<'t>(
        &mut self,
        alloc: Global,
        graph: &Graph,
        types: &'t TypeTable,
        place: Place,
        object: Option<Object>,
        operands: &[Operand],
        found: &[FactId],
    ) -> Result<Decision<'t>, Stop> {
        decide(alloc, graph, types, place, object, operands, found)
    }
}

/// It gives the best viable function, and keeps the places at which it was asked and answered.
#[derive(Drop)]
pub struct Recorder {
    places: Vec<Place>,
}

impl Model for Recorder {
    ghost use Rattle.std.specs.Prelude.{List};
    ghost use Rattle.cxx_model.specs.declared.place.Place.{Place};

    ghost Value = { List Place };

    ghost view = { λ recorder. recorder.places.items };
}

impl Recorder {
    pub fn new(alloc: Global) -> Recorder
        ensures { result ≡ [] }
    {
        Recorder {
            places: Vec::new(alloc),
        }
    }

    /// The places at which it was asked and answered, in order.
    pub fn asked(&self) -> &[Place]
        ensures { result.now ≡ self.now }
    {
        self.places.as_slice()
    }
}

impl Chooser for Recorder {
    ghost told = { λ places. Some places };

    fn choose<'t>(
        &mut self,
        alloc: Global,
        graph: &Graph,
        types: &'t TypeTable,
        place: Place,
        object: Option<Object>,
        operands: &[Operand],
        found: &[FactId],
    ) -> Result<Decision<'t>, Stop> {
        let decision = decide(alloc, graph, types, place, object, operands, found)?;
        self.places.push(place)?;
        Ok(decision)
    }
}

/// Any of these.
#[derive(Drop)]
pub enum Choosing {
    Champion(Champion),
    Recorder(Recorder),
}

impl Chooser for Choosing {
    ghost use Rattle.cxx_overload.specs.Choosers.{told_by};

    ghost told = { told_by };

    fn choose<'t>(
        &mut self,
        alloc: Global,
        graph: &Graph,
        types: &'t TypeTable,
        place: Place,
        object: Option<Object>,
        operands: &[Operand],
        found: &[FactId],
    ) -> Result<Decision<'t>, Stop> {
        match self {
            Choosing::Champion(champion) => {
                champion.choose(alloc, graph, types, place, object, operands, found)
            }
            Choosing::Recorder(recorder) => {
                recorder.choose(alloc, graph, types, place, object, operands, found)
            }
        }
    }
}

impl Choosing {
    ghost use Rattle.cxx_overload.specs.Choosers.{told_by};

    /// Whether it tells where it was asked.
    pub fn tells(&self) -> bool
        ensures { result ≡ is_some (told_by self.now) }
    {
        match self {
            Choosing::Champion(_) => false,
            Choosing::Recorder(_) => true,
        }
    }

    /// The places at which it was asked and answered, in order, where it tells them.
    pub fn asked(&self) -> Option<&[Place]>
        ensures { option_copied result ≡ told_by self.now }
    {
        match self {
            Choosing::Champion(_) => None,
            Choosing::Recorder(recorder) => Some(recorder.asked()),
        }
    }
}
