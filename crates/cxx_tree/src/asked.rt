//! The calls that were decided, and who is asked which function a call means (13.3).

ghost use Rattle.std.specs.Prelude.{◌≡◌, ◌++◌, ◌∷◌, [], true, false, length, is_some, IsTrue, IfOk, IfSome, OnErr, OnOk};
ghost use Rattle.std.specs.Option.{option_copied};
ghost use Rattle.cxx_overload.specs.Choosers.{IsNew, told_by};
ghost use Rattle.cxx_overload.specs.Told.{told_more};
ghost use Rattle.cxx_tree.specs.Asked.{places_at, told_where};

use crate::kept::{Decided, DecidedList};
use cxx_model::{Listed, OutOfMemory, Place};
use cxx_overload::Choosing;
use std::alloc::Global;
use std::marker::Model;

/// The most calls: their numbers are below it.
const MOST_CALLS: usize = 4_294_967_295;

/// The calls that were decided so far, and who is asked. It is taken out while it is asked.
#[derive(Drop)]
pub(crate) struct Calls {
    list: DecidedList,
    chooser: Option<Choosing>,
    // Whether the one who is asked tells where that was.
    tells: bool,
}

impl Model for Calls {
    ghost use Rattle.std.specs.Prelude.{is_some};
    ghost use Rattle.std.specs.Coded.{codes, coded_list};
    ghost use Rattle.cxx_model.specs.Types.Code.{coded_type};
    ghost use Rattle.cxx_model.specs.contracts.types.Formula as formula;
    ghost use Rattle.cxx_model.specs.contracts.types.TypeTree as tree;
    ghost use Rattle.cxx_tree.specs.Asked.{Asked, TellsCalls};

    ghost Value = { Asked };

    ghost coded = { Prim.hlevel (codes, coded_type, formula.the_row.coded, tree.the_row.coded) };

    ghost view = { λ all. record { calls = all.list; tells = all.tells; asks = is_some all.chooser } };

    ghost invariant = { λ all. TellsCalls all.chooser all.tells all.list };
}

impl Calls {
    /// No call was decided, and whoever is asked was asked nothing yet.
    pub(crate) fn new(alloc: Global, chooser: Choosing) -> Calls
        requires { IsNew chooser }
        ensures { result ≡ record { calls = []; tells = is_some (told_by chooser); asks = true } }
    {
        let tells = chooser.tells();
        Calls {
            list: Listed::new(alloc),
            chooser: Some(chooser),
            tells,
        }
    }

    pub(crate) fn as_slice(&self) -> &[Decided]
        ensures { result.now ≡ (self.now).calls }
    {
        self.list.as_slice()
    }

    pub(crate) fn is_asking(&self) -> bool
        ensures { result ≡ (self.now).asks }
    {
        self.chooser.is_some()
    }

    /// The places at which somebody was asked, where they are told.
    pub(crate) fn asked(&self) -> Option<&[Place]>
        requires { IsTrue (self.now).asks }
        ensures { option_copied result ≡ told_where (self.now).tells (places_at (self.now).calls) }
    {
        match &self.chooser {
            Some(chooser) => chooser.asked(),
            None => unreachable!(),
        }
    }

    /// Takes out who is asked.
    pub(crate) fn take(&mut self) -> Option<Choosing>
        ensures held { self.new ≡ record self.old { asks = false } }
        ensures given { is_some result ≡ (self.old).asks }
        ensures told { IfSome result (λ chooser. told_by chooser ≡ told_where (self.old).tells (places_at (self.old).calls)) }
    {
        self.chooser.take()
    }

    /// Puts back who was asked nothing meanwhile.
    pub(crate) fn put(&mut self, chooser: Choosing)
        requires { told_by chooser ≡ told_where (self.old).tells (places_at (self.old).calls) }
        ensures { self.new ≡ record self.old { asks = true } }
    {
        self.chooser = Some(chooser);
    }

    /// Keeps a call that was decided, and puts back who was asked. It answers its index among the calls.
    pub(crate) fn add(&mut self, call: Decided, chooser: Choosing) -> Result<u32, OutOfMemory>
        requires { told_by chooser ≡ told_more call.place (told_where (self.old).tells (places_at (self.old).calls)) }
        ensures number { IfOk result (λ number. number ≡ length (self.old).calls) }
        ensures added { OnOk result (self.new ≡ record { calls = (self.old).calls ++ call ∷ []; tells = (self.old).tells; asks = true }) }
        ensures unchanged { OnErr result (self.new ≡ self.old) }
    {
        let count = self.list.len();
        if count >= MOST_CALLS {
            return Err(OutOfMemory);
        }
        self.list.push(call)?;
        self.chooser = Some(chooser);
        Ok(count as u32)
    }
}
