ghost use Rattle.std.specs.Prelude.{◌≡◌, [], None, false};
ghost use Rattle.cxx_reading.specs.Declarators.{no_cv, no_words};

use cxx_model::{Cv, Listed, TreeIdList, TypeId};
use cxx_reading::{StorageWord, TypeWords};
use std::alloc::Global;

/// What the specifiers of a declaration say (7.1).
#[derive(Drop)]
pub struct Specifiers {
    pub storage: Option<StorageWord>,
    pub is_inline: bool,
    pub cv: Cv,
    pub words: TypeWords,
    /// A type that a name, an enumeration or a class gives.
    pub named: Option<TypeId>,
    /// Whether a declaration of them alone stands: an enumeration or a class is defined among them, or a class is named
    /// (clause 7).
    pub stands_alone: bool,
    pub parts: TreeIdList,
}

/// No specifier was read yet.
pub fn no_specifiers_yet(alloc: Global) -> Specifiers
    ensures { result ≡ record { storage = None; is_inline = false; cv = no_cv; words = no_words; named = None; stands_alone = false; parts = [] } }
{
    Specifiers {
        storage: None,
        is_inline: false,
        cv: Cv {
            is_const: false,
            is_volatile: false,
        },
        words: TypeWords {
            core: None,
            sign: None,
            size: None,
        },
        named: None,
        stands_alone: false,
        parts: Listed::new(alloc),
    }
}
