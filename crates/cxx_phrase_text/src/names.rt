//! What a text names things.
ghost use Rattle.std.specs.Prelude.{[], ◌∷◌, ◌++◌, ◌≡◌, ◌<◌, length};
ghost use Rattle.cxx_model.specs.Facts.Declarations.{type_of_option};
ghost use Rattle.cxx_model.specs.Facts.Fitted.{IsTypeNumberBelow};
ghost use Rattle.cxx_model.specs.Types.Numbers.{type_at};
ghost use Rattle.cxx_page.specs.Sheets.{Writes, put};
ghost use Rattle.cxx_reading.specs.Declarators.{no_cv};
ghost use Rattle.cxx_reading.specs.Plain.{target_or as target_or_of};
ghost use Rattle.cxx_reading.specs.Words.{declared, name_word};
ghost use Rattle.cxx_tree.specs.Arena.{number_of_option};
ghost use Rattle.cxx_phrase_text.specs.Named.{type_for, NamedState};
ghost use Rattle.cxx_phrase_text.specs.Phrases as phrases;

use crate::standing::target_or;
use cxx_model::{FactId, TypeId, TypeNode};
use cxx_page::{Page, PlainFault};
use cxx_reading::Role;
use cxx_tree::State;
use cxx_types::TypeTable;

/// Who holds the trees that are written, and knows what their text names things.
pub trait Names {
    ghost named: { Self → NamedState };

    ghost is_ready: { Self → Type 0 };

    /// The state that holds the trees.
    fn state(&self) -> &State
        ensures { result.now ≡ (named self.now).held };

    /// Writes the name of a declaration.
    fn write_name(&self, page: &mut Page, number: FactId) -> Result<(), PlainFault>
        requires { is_ready self.now }
        ensures { Writes result page.new (put (name_word ((named self.now).name number.0) ∷ []) page.old) };

    /// Writes a type that stands alone; without one it is `void` (8.1).
    fn write_type(&self, page: &mut Page, of: Option<TypeId>) -> Result<(), PlainFault>
        requires ready { is_ready self.now }
        requires below { IsTypeNumberBelow (length (named self.now).held.types) of }
        ensures { Writes result page.new (put (declared (named self.now).tags no_cv (type_for (named self.now) of) []) page.old) };
}

fn is_class(types: &TypeTable, of: TypeId) -> bool
    requires { of.0 < length types.now }
    ensures { result ≡ phrases.is_class (type_at types.now of.0) }
{
    match types.node(of) {
        TypeNode::Class(_) => true,
        _ => false,
    }
}

fn has_class(state: &State, of: Option<TypeId>) -> bool
    requires { IsTypeNumberBelow (length (state.now).types) of }
    ensures { result ≡ phrases.has_class (type_of_option (state.now).types of) }
{
    match of {
        Some(of) => is_class(state.types(), of),
        None => false,
    }
}

fn is_in_class<N: Names>(names: &N, of: Option<TypeId>) -> bool
    requires ready { N.is_ready names.now }
    requires below { IsTypeNumberBelow (length (N.named names.now).held.types) of }
    ensures { result ≡ phrases.has_class (type_of_option (N.named names.now).held.types of) }
{
    has_class(names.state(), of)
}

// Writes a class and `::` (3.4.3.1).
#[tactic(auto, using(cxx_page::proofs::Put::put_append))]
fn write_class<N: Names>(names: &N, page: &mut Page, of: Option<TypeId>) -> Result<(), PlainFault>
    requires ready { N.is_ready names.now }
    requires below { IsTypeNumberBelow (length (N.named names.now).held.types) of }
    ensures { Writes result page.new (put (declared (N.named names.now).tags no_cv (type_for (N.named names.now) of) [] ++ phrases.scope_word ∷ []) page.old) }
{
    names.write_type(page, of)?;
    page.word(Role::Joins, b"::")
}

#[tactic(auto, using(cxx_page::proofs::Put::put_none))]
fn write_class_where<N: Names>(
    names: &N,
    page: &mut Page,
    of: Option<TypeId>,
    stands: bool,
) -> Result<(), PlainFault>
    requires ready { N.is_ready names.now }
    requires below { IsTypeNumberBelow (length (N.named names.now).held.types) of }
    ensures { Writes result page.new (put (phrases.scope_words (N.named names.now).tags (type_for (N.named names.now) of) stands) page.old) }
{
    if stands {
        return write_class(names, page, of);
    }
    Ok(())
}

// Writes the class of a static member, where there is one.
fn write_scope<N: Names>(names: &N, page: &mut Page, of: Option<TypeId>) -> Result<(), PlainFault>
    requires ready { N.is_ready names.now }
    requires below { IsTypeNumberBelow (length (N.named names.now).held.types) of }
    ensures { Writes result page.new (put (phrases.scope_words (N.named names.now).tags (type_for (N.named names.now) of) (phrases.has_class (type_of_option (N.named names.now).held.types of))) page.old) }
{
    write_class_where(names, page, of, is_in_class(names, of))
}

/// Writes a name (5.1); that of a static member stands behind its class (9.4).
#[tactic(auto, using(cxx_page::proofs::Put::put_append))]
pub(crate) fn write_named<N: Names>(
    names: &N,
    page: &mut Page,
    of: Option<TypeId>,
    target: Option<FactId>,
) -> Result<(), PlainFault>
    requires ready { N.is_ready names.now }
    requires below { IsTypeNumberBelow (length (N.named names.now).held.types) of }
    ensures { Writes result page.new (put (phrases.named_words (N.named names.now).tags (N.named names.now).name (type_of_option (N.named names.now).held.types of) (target_or_of (number_of_option target))) page.old) }
{
    write_scope(names, page, of)?;
    names.write_name(page, target_or(target))
}
