//! Single words and runs of them.
ghost use Rattle.std.specs.Prelude.{[], ◌∷◌, ◌++◌, ◌≡◌, codes, length};
ghost use Rattle.cxx_model.specs.Facts.Fitted.{IsTypeNumberBelow};
ghost use Rattle.cxx_page.specs.Sheets.{Writes, put};
ghost use Rattle.cxx_page.specs.Sides.{closed, comma_unless, opened};
ghost use Rattle.cxx_reading.specs.Declarators.{no_cv};
ghost use Rattle.cxx_reading.specs.Words.{close_word, declared, keyword_word};
ghost use Rattle.cxx_phrase_text.specs.Named.{type_for};
ghost use Rattle.cxx_phrase_text.specs.Phrases as phrases;
ghost use Rattle.cxx_phrase_text.specs.Written.{cast_between, cast_front, cast_opened, zero_parts};

use crate::names::Names;
use cxx_model::TypeId;
use cxx_page::{Page, PlainFault};
use cxx_reading::Role;

/// Writes `(` where it stands.
#[tactic(auto, using(cxx_page::proofs::Put::put_none))]
pub(crate) fn write_opened(page: &mut Page, stands: bool) -> Result<(), PlainFault>
    ensures { Writes result page.new (put (opened stands) page.old) }
{
    if stands {
        return page.word(Role::Opens, b"(");
    }
    Ok(())
}

/// Writes `)` where it stands.
#[tactic(auto, using(cxx_page::proofs::Put::put_none))]
pub(crate) fn write_closed(page: &mut Page, stands: bool) -> Result<(), PlainFault>
    ensures { Writes result page.new (put (closed stands) page.old) }
{
    if stands {
        return page.word(Role::Closes, b")");
    }
    Ok(())
}

/// Writes a comma, unless nothing stands before it.
#[tactic(auto, using(cxx_page::proofs::Put::put_none))]
pub(crate) fn write_comma_unless(page: &mut Page, is_first: bool) -> Result<(), PlainFault>
    ensures { Writes result page.new (put (comma_unless is_first) page.old) }
{
    if is_first {
        return Ok(());
    }
    page.word(Role::Follows, b",")
}

/// Whether an operator is the comma (5.18).
pub(crate) fn spells_comma(spelling: &[u8]) -> bool
    ensures { result ≡ phrases.spells_comma spelling.now }
{
    match spelling {
        [b] => *b == b',',
        _ => false,
    }
}

/// Writes an operator that stands between its operands.
pub(crate) fn write_infix_word(page: &mut Page, spelling: &[u8]) -> Result<(), PlainFault>
    ensures { Writes result page.new (put (phrases.infix_word spelling.now ∷ []) page.old) }
{
    if spells_comma(spelling) {
        return page.word(Role::Follows, b",");
    }
    page.word(Role::Alone, spelling)
}

// The keyword of a cast; a conversion that nothing spells is written as a static cast.
fn cast_keyword(spelling: &[u8]) -> &[u8]
    ensures { result.now ≡ phrases.cast_keyword spelling.now }
{
    match spelling {
        [] => b"static_cast",
        _ => spelling,
    }
}

#[tactic(auto, using(cxx_page::proofs::Put::put_more), unfolding(crate::specs::Written::cast_opened))]
fn write_cast_opened(page: &mut Page, keyword: &[u8]) -> Result<(), PlainFault>
    ensures { Writes result page.new (put (cast_opened keyword.now) page.old) }
{
    page.word(Role::Alone, keyword)?;
    page.word(Role::Joins, b"<")
}

#[tactic(auto, using(cxx_page::proofs::Put::put_more), unfolding(crate::specs::Written::cast_between))]
fn write_cast_between(page: &mut Page) -> Result<(), PlainFault>
    ensures { Writes result page.new (put cast_between page.old) }
{
    page.word(Role::Closes, b">")?;
    page.word(Role::Opens, b"(")
}

#[tactic(auto, using(cxx_page::proofs::Put::put_append), unfolding(crate::specs::Written::cast_front))]
fn write_front<N: Names>(
    names: &N,
    page: &mut Page,
    keyword: &[u8],
    of: Option<TypeId>,
) -> Result<(), PlainFault>
    requires ready { N.is_ready names.now }
    requires below { IsTypeNumberBelow (length (N.named names.now).held.types) of }
    ensures { Writes result page.new (put (cast_front (N.named names.now).tags keyword.now (type_for (N.named names.now) of)) page.old) }
{
    write_cast_opened(page, keyword)?;
    names.write_type(page, of)?;
    write_cast_between(page)
}

/// Writes what stands before the operand of a cast (5.2.9 to 5.2.11).
pub(crate) fn write_cast_front<N: Names>(
    names: &N,
    page: &mut Page,
    spelling: &[u8],
    of: Option<TypeId>,
) -> Result<(), PlainFault>
    requires ready { N.is_ready names.now }
    requires below { IsTypeNumberBelow (length (N.named names.now).held.types) of }
    ensures { Writes result page.new (put (cast_front (N.named names.now).tags (phrases.cast_keyword spelling.now) (type_for (N.named names.now) of)) page.old) }
{
    write_front(names, page, cast_keyword(spelling), of)
}

#[tactic(auto, using(cxx_page::proofs::Put::put_more))]
fn write_zero_closed(page: &mut Page) -> Result<(), PlainFault>
    ensures { Writes result page.new (put (keyword_word (codes "0") ∷ close_word ∷ []) page.old) }
{
    page.word(Role::Alone, b"0")?;
    page.word(Role::Closes, b")")
}

/// Writes a zero of a type (5.2.3).
#[tactic(auto, using(cxx_page::proofs::Put::put_append), unfolding(crate::specs::Written::zero_parts))]
pub(crate) fn write_zero<N: Names>(
    names: &N,
    page: &mut Page,
    of: Option<TypeId>,
) -> Result<(), PlainFault>
    requires ready { N.is_ready names.now }
    requires below { IsTypeNumberBelow (length (N.named names.now).held.types) of }
    ensures { Writes result page.new (put (zero_parts (N.named names.now).tags (type_for (N.named names.now) of)) page.old) }
{
    write_front(names, page, b"static_cast", of)?;
    write_zero_closed(page)
}
