//! Which members a class declares by itself (12.1, 12.8).
ghost use Rattle.std.specs.Prelude.{◌≡◌};
ghost use Rattle.std.specs.List.{list_all};
ghost use Rattle.cxx_model.specs.Facts.Declarations.{CxxGraph};
ghost use Rattle.cxx_implicit.specs.Members as definition;
ghost use Rattle.cxx_implicit.specs.Noted.{Notes, assigned_by_parts, copied_by_parts, implied_by, special_in as special_at};

use crate::index::SpecialMembers;
use crate::specials::special_in;
use cxx_model::{ClassId, Cv};

/// Which members a class declares by itself; of the last two the cv words of what their parameter refers to.
#[derive(Clone, Copy)]
pub struct Implied {
    pub default_constructor: bool,
    pub copy_constructor: Option<Cv>,
    pub copy_assignment: Option<Cv>,
}

pub(crate) fn only_const(is_const: bool) -> Cv
    ensures { result ≡ definition.only_const is_const }
{
    Cv {
        is_const,
        is_volatile: false,
    }
}

impl SpecialMembers {
    // Whether each part of a class has a copy constructor that takes a reference to a const object.
    fn copies_parts(&self, class: ClassId) -> bool
        ensures { result ≡ copied_by_parts self.now class.0 }
    {
        let parts = self.parts.row(class.0);
        for part in parts {
            if !special_in(&self.specials, *part).copies_const {
                return false;
            }
        }
        true
    }

    // Whether each part of a class has a copy assignment operator that takes a const object.
    fn assigns_parts(&self, class: ClassId) -> bool
        ensures { result ≡ assigned_by_parts self.now class.0 }
    {
        let parts = self.parts.row(class.0);
        for part in parts {
            if !special_in(&self.specials, *part).assigns_const {
                return false;
            }
        }
        true
    }

    fn copy_constructor(&self, class: ClassId) -> Option<Cv>
        ensures { result ≡ definition.unless (special_at self.now.specials.items class.0).copy_constructor (definition.only_const (copied_by_parts self.now class.0)) }
    {
        if special_in(&self.specials, class).copy_constructor {
            return None;
        }
        Some(only_const(self.copies_parts(class)))
    }

    fn copy_assignment(&self, class: ClassId) -> Option<Cv>
        ensures { result ≡ definition.unless (special_at self.now.specials.items class.0).copy_assignment (definition.only_const (assigned_by_parts self.now class.0)) }
    {
        if special_in(&self.specials, class).copy_assignment {
            return None;
        }
        Some(only_const(self.assigns_parts(class)))
    }

    fn implied_members(&self, class: ClassId) -> Implied
        ensures { result ≡ implied_by self.now class.0 }
    {
        Implied {
            default_constructor: !special_in(&self.specials, class).constructor,
            copy_constructor: self.copy_constructor(class),
            copy_assignment: self.copy_assignment(class),
        }
    }

    /// Which members a class declares by itself, by the facts that were noted. It takes a step for each base of the class
    /// and each member of a class.
    #[tactic(auto, using(crate::proofs::Implying::implied_is))]
    pub fn implied(&self, class: ClassId) -> Implied
        ensures { (graph : CxxGraph) → Notes self.now graph.facts → result ≡ definition.implied graph class.0 }
    {
        self.implied_members(class)
    }
}
