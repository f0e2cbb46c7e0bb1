//! Casts and operators.
ghost use Rattle.std.specs.Prelude.{[], ◌∷◌, ◌++◌, ◌<◌, codes, length};
ghost use Rattle.cxx_model.specs.Facts.Fitted.{IsTypeNumberBelow};
ghost use Rattle.cxx_page.specs.Sheets.{Writes, put};
ghost use Rattle.cxx_reading.specs.Words.{close_bracket_word, keyword_word, open_bracket_word};
ghost use Rattle.cxx_tree.specs.Arena.{AreTreesBelow};
ghost use Rattle.cxx_phrase_text.specs.Named.{trees_of, type_for};
ghost use Rattle.cxx_phrase_text.specs.Phrases as phrases;
ghost use Rattle.cxx_phrase_text.specs.Written.{cast_parts, phrases_at};

use crate::names::Names;
use crate::operands::{write_last, write_operand_part, write_part};
use crate::words::{write_cast_front, write_infix_word};
use cxx_model::{TreeId, TypeId};
use cxx_page::{Page, PlainFault};
use cxx_reading::Role;

// Writes a cast, or a conversion, which is written as one (5.2.9 to 5.2.11).
#[cycle(words)]
#[tactic(auto, using(cxx_page::proofs::Put::put_append), unfolding(crate::specs::Written::cast_parts))]
pub(crate) fn write_cast<N: Names>(
    names: &N,
    page: &mut Page,
    spelling: &[u8],
    of: Option<TypeId>,
    parts: &[TreeId],
    end: TreeId,
) -> Result<(), PlainFault>
    requires ready { N.is_ready names.now }
    requires below { IsTypeNumberBelow (length (N.named names.now).held.types) of }
    requires known { end.0 < length (trees_of (N.named names.now)) }
    requires earlier { AreTreesBelow end.0 parts.now }
    ensures { Writes result page.new (put (cast_parts (N.named names.now).tags (phrases.cast_keyword spelling.now) (type_for (N.named names.now) of) (phrases.last_part (phrases_at (N.named names.now) parts.now)).words) page.old) }
{
    write_cast_front(names, page, spelling, of)?;
    write_last(names, page, parts, end)?;
    page.word(Role::Closes, b")")
}

// Writes an index in its brackets.
#[cycle(words)]
#[tactic(auto, using(cxx_page::proofs::Put::put_append, cxx_page::proofs::Put::put_more))]
fn write_index<N: Names>(
    names: &N,
    page: &mut Page,
    parts: &[TreeId],
    end: TreeId,
) -> Result<(), PlainFault>
    requires ready { N.is_ready names.now }
    requires known { end.0 < length (trees_of (N.named names.now)) }
    requires earlier { AreTreesBelow end.0 parts.now }
    ensures { Writes result page.new (put (open_bracket_word ∷ ((phrases.part (phrases_at (N.named names.now) parts.now) 1).words ++ close_bracket_word ∷ [])) page.old) }
{
    page.word(Role::Opens, b"[")?;
    write_part(names, page, parts, 1, end)?;
    page.word(Role::Closes, b"]")
}

// Writes a subscript (5.2.1).
#[cycle(words)]
#[tactic(auto, using(cxx_page::proofs::Put::put_append))]
pub(crate) fn write_subscript<N: Names>(
    names: &N,
    page: &mut Page,
    parts: &[TreeId],
    end: TreeId,
) -> Result<(), PlainFault>
    requires ready { N.is_ready names.now }
    requires known { end.0 < length (trees_of (N.named names.now)) }
    requires earlier { AreTreesBelow end.0 parts.now }
    ensures { Writes result page.new (put (phrases.subscript_words (phrases_at (N.named names.now) parts.now)) page.old) }
{
    write_operand_part(names, page, parts, 0, end)?;
    write_index(names, page, parts, end)
}

// Writes a step behind its operand (5.2.6).
#[cycle(words)]
#[tactic(auto, using(cxx_page::proofs::Put::put_append))]
pub(crate) fn write_postfix<N: Names>(
    names: &N,
    page: &mut Page,
    spelling: &[u8],
    parts: &[TreeId],
    end: TreeId,
) -> Result<(), PlainFault>
    requires ready { N.is_ready names.now }
    requires known { end.0 < length (trees_of (N.named names.now)) }
    requires earlier { AreTreesBelow end.0 parts.now }
    ensures { Writes result page.new (put (phrases.operand (phrases.part (phrases_at (N.named names.now) parts.now) 0) ++ phrases.postfix_word spelling.now ∷ []) page.old) }
{
    write_operand_part(names, page, parts, 0, end)?;
    page.word(Role::Follows, spelling)
}

// Writes an operator before its operand (5.3).
#[cycle(words)]
#[tactic(auto, using(cxx_page::proofs::Put::put_more))]
pub(crate) fn write_prefix<N: Names>(
    names: &N,
    page: &mut Page,
    spelling: &[u8],
    parts: &[TreeId],
    end: TreeId,
) -> Result<(), PlainFault>
    requires ready { N.is_ready names.now }
    requires known { end.0 < length (trees_of (N.named names.now)) }
    requires earlier { AreTreesBelow end.0 parts.now }
    ensures { Writes result page.new (put (phrases.prefix_word spelling.now ∷ phrases.operand (phrases.part (phrases_at (N.named names.now) parts.now) 0)) page.old) }
{
    page.word(Role::Leads, spelling)?;
    write_operand_part(names, page, parts, 0, end)
}

// Writes an operator and its right operand.
#[cycle(words)]
#[tactic(auto, using(cxx_page::proofs::Put::put_more))]
fn write_right<N: Names>(
    names: &N,
    page: &mut Page,
    spelling: &[u8],
    parts: &[TreeId],
    end: TreeId,
) -> Result<(), PlainFault>
    requires ready { N.is_ready names.now }
    requires known { end.0 < length (trees_of (N.named names.now)) }
    requires earlier { AreTreesBelow end.0 parts.now }
    ensures { Writes result page.new (put (phrases.infix_word spelling.now ∷ phrases.operand (phrases.part (phrases_at (N.named names.now) parts.now) 1)) page.old) }
{
    write_infix_word(page, spelling)?;
    write_operand_part(names, page, parts, 1, end)
}

// Writes an operator between its operands (5.6 to 5.15, 5.17, 5.18).
#[cycle(words)]
#[tactic(auto, using(cxx_page::proofs::Put::put_append))]
pub(crate) fn write_infix<N: Names>(
    names: &N,
    page: &mut Page,
    spelling: &[u8],
    parts: &[TreeId],
    end: TreeId,
) -> Result<(), PlainFault>
    requires ready { N.is_ready names.now }
    requires known { end.0 < length (trees_of (N.named names.now)) }
    requires earlier { AreTreesBelow end.0 parts.now }
    ensures { Writes result page.new (put (phrases.operand (phrases.part (phrases_at (N.named names.now) parts.now) 0) ++ (phrases.infix_word spelling.now ∷ phrases.operand (phrases.part (phrases_at (N.named names.now) parts.now) 1))) page.old) }
{
    write_operand_part(names, page, parts, 0, end)?;
    write_right(names, page, spelling, parts, end)
}

// Writes the second arm of a conditional expression.
#[cycle(words)]
#[tactic(auto, using(cxx_page::proofs::Put::put_more))]
fn write_otherwise<N: Names>(
    names: &N,
    page: &mut Page,
    parts: &[TreeId],
    end: TreeId,
) -> Result<(), PlainFault>
    requires ready { N.is_ready names.now }
    requires known { end.0 < length (trees_of (N.named names.now)) }
    requires earlier { AreTreesBelow end.0 parts.now }
    ensures { Writes result page.new (put (keyword_word (codes ":") ∷ phrases.operand (phrases.part (phrases_at (N.named names.now) parts.now) 2)) page.old) }
{
    page.word(Role::Alone, b":")?;
    write_operand_part(names, page, parts, 2, end)
}

// Writes the arms of a conditional expression.
#[cycle(words)]
#[tactic(auto, using(cxx_page::proofs::Put::put_append, cxx_page::proofs::Put::put_more))]
fn write_arms<N: Names>(
    names: &N,
    page: &mut Page,
    parts: &[TreeId],
    end: TreeId,
) -> Result<(), PlainFault>
    requires ready { N.is_ready names.now }
    requires known { end.0 < length (trees_of (N.named names.now)) }
    requires earlier { AreTreesBelow end.0 parts.now }
    ensures { Writes result page.new (put (keyword_word (codes "?") ∷ (phrases.operand (phrases.part (phrases_at (N.named names.now) parts.now) 1) ++ (keyword_word (codes ":") ∷ phrases.operand (phrases.part (phrases_at (N.named names.now) parts.now) 2)))) page.old) }
{
    page.word(Role::Alone, b"?")?;
    write_operand_part(names, page, parts, 1, end)?;
    write_otherwise(names, page, parts, end)
}

// Writes a conditional expression (5.16).
#[cycle(words)]
#[tactic(auto, using(cxx_page::proofs::Put::put_append))]
pub(crate) fn write_conditional<N: Names>(
    names: &N,
    page: &mut Page,
    parts: &[TreeId],
    end: TreeId,
) -> Result<(), PlainFault>
    requires ready { N.is_ready names.now }
    requires known { end.0 < length (trees_of (N.named names.now)) }
    requires earlier { AreTreesBelow end.0 parts.now }
    ensures { Writes result page.new (put (phrases.conditional_words (phrases_at (N.named names.now) parts.now)) page.old) }
{
    write_operand_part(names, page, parts, 0, end)?;
    write_arms(names, page, parts, end)
}
