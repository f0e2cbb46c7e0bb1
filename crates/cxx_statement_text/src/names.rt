//! What a text names things, and how it declares them.
ghost use Rattle.std.specs.Prelude.{[], ◌∷◌, ◌<◌, length, ℤ};
ghost use Rattle.cxx_model.specs.Facts.Fitted.{IsTypeNumberBelow};
ghost use Rattle.cxx_page.specs.Sheets.{Writes, put};
ghost use Rattle.cxx_phrase_text.specs.Named.{trees_of, type_for};
ghost use Rattle.cxx_reading.specs.Declarators.{no_cv};
ghost use Rattle.cxx_reading.specs.Trees.{CxxTree};
ghost use Rattle.cxx_reading.specs.Words.{declared, name_word, value_words};
ghost use Rattle.cxx_tree.specs.Arena.{tree_in};

use cxx_model::{FactId, TreeId, TypeId};
use cxx_page::{Page, PlainFault};
use cxx_phrase_text::Names;

/// Who knows besides how a name stands in its declaration, and the values of constants.
pub trait StatementNames: Names {
    ghost value: { Self → CxxTree → ℤ };

    /// Writes the declaration of a name with a type; without one it is `void` (8.3).
    fn write_declared(
        &self,
        page: &mut Page,
        of: Option<TypeId>,
        number: FactId,
    ) -> Result<(), PlainFault>
        requires ready { Self.is_ready self.now }
        requires below { IsTypeNumberBelow (length (Self.named self.now).held.types) of }
        ensures { Writes result page.new (put (declared (Self.named self.now).tags no_cv (type_for (Self.named self.now) of) (name_word ((Self.named self.now).name number.0) ∷ [])) page.old) };

    /// Writes the value of a constant (5.19).
    fn write_constant(&self, page: &mut Page, number: TreeId) -> Result<(), PlainFault>
        requires ready { Self.is_ready self.now }
        requires known { number.0 < length (trees_of (Self.named self.now)) }
        ensures { Writes result page.new (put (value_words (value self.now (tree_in (trees_of (Self.named self.now)) number.0))) page.old) };
}
