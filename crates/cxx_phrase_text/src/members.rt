//! Members of objects.
ghost use Rattle.std.specs.Prelude.{◌∷◌, ◌<◌, length};
ghost use Rattle.cxx_model.specs.Facts.Declarations.{type_of_option};
ghost use Rattle.cxx_model.specs.Facts.Fitted.{IsTypeNumberBelow};
ghost use Rattle.cxx_page.specs.Sheets.{Writes, put};
ghost use Rattle.cxx_reading.specs.Plain.{target_or as target_or_of};
ghost use Rattle.cxx_tree.specs.Arena.{AreTreesBelow, number_of_option};
ghost use Rattle.cxx_phrase_text.specs.Named.{trees_of};
ghost use Rattle.cxx_phrase_text.specs.Phrases as phrases;
ghost use Rattle.cxx_phrase_text.specs.Written.{phrases_at};

use crate::names::{Names, write_named};
use crate::operands::write_operand_part;
use crate::operators::write_prefix;
use cxx_model::{FactId, TreeId, TypeId};
use cxx_page::{Page, PlainFault};
use cxx_reading::Role;

// Writes a dot and the name of a member, behind a class where it has one.
#[tactic(auto, using(cxx_page::proofs::Put::put_more))]
fn write_selected<N: Names>(
    names: &N,
    page: &mut Page,
    of: Option<TypeId>,
    target: Option<FactId>,
) -> Result<(), PlainFault>
    requires ready { N.is_ready names.now }
    requires below { IsTypeNumberBelow (length (N.named names.now).held.types) of }
    ensures { Writes result page.new (put (phrases.dot_word ∷ phrases.named_words (N.named names.now).tags (N.named names.now).name (type_of_option (N.named names.now).held.types of) (target_or_of (number_of_option target))) page.old) }
{
    page.word(Role::Joins, b".")?;
    write_named(names, page, of, target)
}

/// Writes a member of an object (5.2.5).
#[cycle(words)]
#[tactic(auto, using(cxx_page::proofs::Put::put_append))]
pub(crate) fn write_member<N: Names>(
    names: &N,
    page: &mut Page,
    of: Option<TypeId>,
    target: Option<FactId>,
    parts: &[TreeId],
    end: TreeId,
) -> Result<(), PlainFault>
    requires ready { N.is_ready names.now }
    requires below { IsTypeNumberBelow (length (N.named names.now).held.types) of }
    requires known { end.0 < length (trees_of (N.named names.now)) }
    requires earlier { AreTreesBelow end.0 parts.now }
    ensures { Writes result page.new (put (phrases.member_words (N.named names.now).tags (N.named names.now).name (type_of_option (N.named names.now).held.types of) (number_of_option target) (phrases.operand (phrases.part (phrases_at (N.named names.now) parts.now) 0))) page.old) }
{
    write_operand_part(names, page, parts, 0, end)?;
    write_selected(names, page, of, target)
}

// Writes `*` and a pointer.
#[cycle(words)]
#[tactic(auto, using(cxx_page::proofs::Put::put_append, cxx_page::proofs::Put::put_more), unfolding(crate::specs::Phrases::pointed_words))]
fn write_pointed<N: Names>(
    names: &N,
    page: &mut Page,
    parts: &[TreeId],
    end: TreeId,
) -> Result<(), PlainFault>
    requires ready { N.is_ready names.now }
    requires known { end.0 < length (trees_of (N.named names.now)) }
    requires earlier { AreTreesBelow end.0 parts.now }
    ensures { Writes result page.new (put (phrases.pointed_words (phrases_at (N.named names.now) parts.now)) page.old) }
{
    page.word(Role::Opens, b"(")?;
    write_prefix(names, page, b"*", parts, end)?;
    page.word(Role::Closes, b")")
}

/// Writes a member of what is pointed to, as one of an object (5.2.5).
#[cycle(words)]
#[tactic(auto, using(cxx_page::proofs::Put::put_append))]
pub(crate) fn write_arrow<N: Names>(
    names: &N,
    page: &mut Page,
    of: Option<TypeId>,
    target: Option<FactId>,
    parts: &[TreeId],
    end: TreeId,
) -> Result<(), PlainFault>
    requires ready { N.is_ready names.now }
    requires below { IsTypeNumberBelow (length (N.named names.now).held.types) of }
    requires known { end.0 < length (trees_of (N.named names.now)) }
    requires earlier { AreTreesBelow end.0 parts.now }
    ensures { Writes result page.new (put (phrases.member_words (N.named names.now).tags (N.named names.now).name (type_of_option (N.named names.now).held.types of) (number_of_option target) (phrases.pointed_words (phrases_at (N.named names.now) parts.now))) page.old) }
{
    write_pointed(names, page, parts, end)?;
    write_selected(names, page, of, target)
}
