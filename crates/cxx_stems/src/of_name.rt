//! The stem of what a declaration declares.
ghost use Rattle.std.specs.Prelude.{◌≡◌, List};
ghost use Rattle.cxx_model.specs.Facts.Declarations.{name_at};
ghost use Rattle.cxx_model.specs.Types.Trees.{CxxType};
ghost use Rattle.cxx_stems.specs.Names.{stem_of_name, word_of_name};

use crate::names::stem;
use crate::operators::operator_word;
use cxx_model::Name;

fn word_of_name(name: &Name) -> &[u8]
    ensures { (types : List CxxType) → result.now ≡ word_of_name (name_at types name.now) }
{
    match name {
        Name::Unnamed => b"unnamed",
        Name::Spelled(word) => word.as_slice(),
        Name::Operator(operator) => operator_word(*operator),
        Name::Conversion(_) => b"conv",
        Name::Destructor => b"",
    }
}

/// What the printed name of a declaration with this name begins with, whatever types a conversion function's type stands
/// among.
#[tactic(auto, unfolding(crate::specs::Names::stem_of_name))]
pub fn stem_of_name(name: &Name) -> &[u8]
    ensures { (types : List CxxType) → result.now ≡ stem_of_name (name_at types name.now) }
{
    stem(word_of_name(name))
}
