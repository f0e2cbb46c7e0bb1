//! The names that facts declare.

ghost use Rattle.std.specs.Prelude.{◌≡◌, ◌<◌, List, length};
ghost use Rattle.cxx_model.specs.Types.Trees.{CxxType};
ghost use Rattle.cxx_model.specs.Facts.Declarations.{declares_at, fact_at, name_at};
ghost use Rattle.cxx_model.specs.Facts.Fitted.{IsFactBelow, IsNameBelow};
ghost use Rattle.cxx_model.specs.Facts.Conflicts.{declares_name as declares_a_name, has_name as has_a_name, same_name as same_names};
ghost use Rattle.cxx_meaning.specs.Lookups.Sightings.{is_named as is_one_named};

use crate::asking::Asking;
use cxx_model::{Entity, Fact, Name};

// Whether a fact declares a name.
fn declares_name(what: Entity) -> bool
    ensures { (types : List CxxType) → result ≡ declares_a_name (declares_at types what) }
{
    match what {
        Entity::Scope { .. } => false,
        Entity::Complete { .. } => false,
        Entity::Passed { .. } => false,
        Entity::Ancestor { .. } => false,
        Entity::Directive { .. } => false,
        Entity::Friend { .. } => false,
        _ => true,
    }
}

fn has_name(name: &Name) -> bool
    ensures { (types : List CxxType) → result ≡ has_a_name (name_at types name.now) }
{
    match name {
        Name::Unnamed => false,
        _ => true,
    }
}

impl Asking<'_> {
    fn same_name(&self, one: &Name, two: &Name) -> bool
        requires one_below { IsNameBelow (length self.now.types.now) one.now }
        requires two_below { IsNameBelow (length self.now.types.now) two.now }
        ensures { result ≡ same_names (name_at self.now.types.now one.now) (name_at self.now.types.now two.now) }
    {
        match one {
            Name::Unnamed => match two {
                Name::Unnamed => true,
                _ => false,
            },
            Name::Spelled(word) => match two {
                Name::Spelled(other) => word == other,
                _ => false,
            },
            Name::Operator(operator) => match two {
                Name::Operator(other) => *operator == *other,
                _ => false,
            },
            Name::Conversion(of) => match two {
                Name::Conversion(other) => self.types.same(*of, *other),
                _ => false,
            },
            Name::Destructor => match two {
                Name::Destructor => true,
                _ => false,
            },
        }
    }

    /// Whether a fact is a declaration of a name.
    pub fn is_named(&self, name: &Name, fact: &Fact) -> bool
        requires name_below { IsNameBelow (length self.now.types.now) name.now }
        requires fact_below { IsFactBelow (length self.now.types.now) fact.now }
        ensures { result ≡ is_one_named (name_at self.now.types.now name.now) (fact_at self.now.types.now fact.now) }
    {
        declares_name(fact.what) && (has_name(name) && self.same_name(&fact.name, name))
    }
}
