//! Types round a declared name (8.1, 8.3): what stands before it, and what stands behind it.
ghost use Rattle.std.specs.Prelude.{◌≡◌, ◌<◌, true, [], ◌∷◌, ◌++◌, length};
ghost use Rattle.cxx_model.specs.Types.Numbers.{type_at, types_at, bound_at, AreTypesBelow};
ghost use Rattle.cxx_model.specs.Types.Trees.{merged as merged_of};
ghost use Rattle.cxx_reading.specs.Declarators.{no_cv as no_cv_of};
ghost use Rattle.cxx_reading.specs.Words.{ampersand_word, bound_words, close_bracket_word, close_word, cv_words, base_words, declared, is_bracketed as is_bracketed_of, star_word, type_name_word};
ghost use Rattle.cxx_page.specs.Sheets.{Writes, put};
ghost use Rattle.cxx_page.specs.Sides.{back, bound_part, comma_unless, dots, front, list_part, listed, opened};
ghost use Rattle.cxx_page.specs.Views.{tags_of};

use crate::fault::PlainFault;
use crate::page::Page;
use crate::tags::{Tags, text_at};
use crate::values::write_literal;
use crate::words::{
    no_cv, write_alone, write_base, write_closed, write_comma_unless, write_cv, write_opened,
};
use cxx_model::{Bound, Cv, TypeId, TypeIdList, TypeNode};
use cxx_reading::Role;
use cxx_types::TypeTable;

/// Whether brackets stand round the declarator of a pointer or a reference to the type (8.3.4, 8.3.5).
fn is_bracketed(types: &TypeTable, number: TypeId) -> bool
    requires { number.0 < length types.now }
    ensures { result ≡ is_bracketed_of (type_at types.now number.0) }
{
    match types.node(number) {
        TypeNode::Array(_, _) | TypeNode::Function { .. } => true,
        _ => false,
    }
}

fn merged(one: Cv, two: Cv) -> Cv
    ensures { result ≡ merged_of one two }
{
    Cv {
        is_const: one.is_const || two.is_const,
        is_volatile: one.is_volatile || two.is_volatile,
    }
}

/// Writes `*` with the words behind it.
#[tactic(auto, using(crate::proofs::Put::put_more))]
fn write_star(page: &mut Page, cv: Cv) -> Result<(), PlainFault>
    ensures { Writes result page.new (put (star_word ∷ [] ++ cv_words cv) page.old) }
{
    page.word(Role::Leads, b"*")?;
    write_cv(page, cv)
}

#[tactic(auto, using(crate::proofs::Put::put_append))]
fn write_pointer(page: &mut Page, is_bracketed: bool, cv: Cv) -> Result<(), PlainFault>
    ensures { Writes result page.new (put (opened is_bracketed ++ (star_word ∷ [] ++ cv_words cv)) page.old) }
{
    write_opened(page, is_bracketed)?;
    write_star(page, cv)
}

#[tactic(auto, using(crate::proofs::Put::put_append))]
fn write_reference(page: &mut Page, is_bracketed: bool) -> Result<(), PlainFault>
    ensures { Writes result page.new (put (opened is_bracketed ++ ampersand_word ∷ []) page.old) }
{
    write_opened(page, is_bracketed)?;
    page.word(Role::Leads, b"&")
}

/// Writes the name of a class or an enumeration behind cv words.
#[tactic(auto, using(crate::proofs::Put::put_append))]
fn write_tag(page: &mut Page, cv: Cv, name: &[u8]) -> Result<(), PlainFault>
    ensures { Writes result page.new (put (cv_words cv ++ type_name_word name.now ∷ []) page.old) }
{
    write_cv(page, cv)?;
    page.word(Role::Alone, name)
}

#[tactic(auto, using(crate::proofs::Put::put_append))]
fn write_plain(page: &mut Page, cv: Cv, base: cxx_model::Base) -> Result<(), PlainFault>
    ensures { Writes result page.new (put (cv_words cv ++ base_words base) page.old) }
{
    write_cv(page, cv)?;
    write_base(page, base)
}

/// Writes what stands before the declared name.
#[tactic(auto, using(crate::proofs::Put::put_append, crate::proofs::Put::put_none))]
pub fn write_declaration_front(
    page: &mut Page,
    types: &TypeTable,
    tags: &Tags,
    cv: Cv,
    number: TypeId,
) -> Result<(), PlainFault>
    requires { number.0 < length types.now }
    ensures { Writes result page.new (put (front (tags_of tags.now) cv (type_at types.now number.0)) page.old) }
{
    match types.node(number) {
        TypeNode::Plain(base) => write_plain(page, cv, *base),
        TypeNode::Class(class) => write_tag(page, cv, text_at(tags.classes.as_slice(), class.0)),
        TypeNode::Enum(name) => write_tag(page, cv, text_at(tags.enumerations.as_slice(), name.0)),
        TypeNode::Pointer(of) => {
            write_declaration_front(page, types, tags, no_cv(), *of)?;
            write_pointer(page, is_bracketed(types, *of), cv)
        }
        TypeNode::Reference(of) => {
            write_declaration_front(page, types, tags, no_cv(), *of)?;
            write_reference(page, is_bracketed(types, *of))
        }
        TypeNode::Array(element, _) => write_declaration_front(page, types, tags, cv, *element),
        TypeNode::Function { result, .. } => {
            write_declaration_front(page, types, tags, no_cv(), *result)
        }
        TypeNode::Qualified(own, of) => {
            write_declaration_front(page, types, tags, merged(cv, *own), *of)
        }
        TypeNode::Parameter(_, _) | TypeNode::Special(_, _) | TypeNode::Nested(_, _) => Ok(()),
    }
}

/// Writes a bound; one that is left out or depends on parameters of templates has no words.
#[tactic(auto, using(crate::proofs::Put::put_none))]
fn write_bound_value(page: &mut Page, types: &TypeTable, bound: &Bound) -> Result<(), PlainFault>
    ensures { Writes result page.new (put (bound_words (bound_at types.now bound.now)) page.old) }
{
    let _ = types;
    match bound {
        Bound::Number(value) => write_literal(page, u128::from(*value)),
        Bound::Unknown | Bound::Computed(_) => Ok(()),
    }
}

#[tactic(auto, using(crate::proofs::Put::put_append))]
fn write_bound_end(page: &mut Page, types: &TypeTable, bound: &Bound) -> Result<(), PlainFault>
    ensures { Writes result page.new (put (bound_words (bound_at types.now bound.now) ++ close_bracket_word ∷ []) page.old) }
{
    write_bound_value(page, types, bound)?;
    page.word(Role::Closes, b"]")
}

/// Writes the bound of an array in its brackets (8.3.4).
#[tactic(auto, using(crate::proofs::Put::put_more), unfolding(crate::specs::Sides::bound_part))]
fn write_bound(page: &mut Page, types: &TypeTable, bound: &Bound) -> Result<(), PlainFault>
    ensures { Writes result page.new (put (bound_part (bound_at types.now bound.now)) page.old) }
{
    page.word(Role::Opens, b"[")?;
    write_bound_end(page, types, bound)
}

/// Writes `...` where it stands (8.3.5).
#[tactic(auto, using(crate::proofs::Put::put_append, crate::proofs::Put::put_none))]
fn write_dots(page: &mut Page, is_first: bool, ellipsis: bool) -> Result<(), PlainFault>
    ensures { Writes result page.new (put (dots is_first ellipsis) page.old) }
{
    if !ellipsis {
        return Ok(());
    }
    write_comma_unless(page, is_first)?;
    write_alone(page, b"...")
}

/// Writes the end of a list with the words behind it.
#[tactic(auto, using(crate::proofs::Put::put_more))]
fn write_list_end(page: &mut Page, cv: Cv) -> Result<(), PlainFault>
    ensures { Writes result page.new (put (close_word ∷ [] ++ cv_words cv) page.old) }
{
    page.word(Role::Closes, b")")?;
    write_cv(page, cv)
}

#[cycle(back)]
#[tactic(auto, using(crate::proofs::Put::put_append), unfolding(crate::specs::Sides::listed))]
fn write_listed(
    page: &mut Page,
    types: &TypeTable,
    tags: &Tags,
    parameters: &[TypeId],
    ellipsis: bool,
    end: TypeId,
) -> Result<(), PlainFault>
    requires known { end.0 < length types.now }
    requires below { AreTypesBelow end.0 parameters.now }
    ensures { Writes result page.new (put (listed (tags_of tags.now) true (types_at types.now parameters.now) ellipsis) page.old) }
{
    let mut is_first = true;
    for parameter in parameters {
        write_listed_type(page, types, tags, is_first, *parameter)?;
        is_first = false;
    }
    write_dots(page, is_first, ellipsis)
}

#[cycle(back)]
#[tactic(auto, using(crate::proofs::Put::put_append))]
fn write_listed_type(
    page: &mut Page,
    types: &TypeTable,
    tags: &Tags,
    is_first: bool,
    number: TypeId,
) -> Result<(), PlainFault>
    requires { number.0 < length types.now }
    ensures { Writes result page.new (put (comma_unless is_first ++ declared (tags_of tags.now) no_cv_of (type_at types.now number.0) []) page.old) }
{
    write_comma_unless(page, is_first)?;
    write_type(page, types, tags, number)
}

#[cycle(back)]
#[tactic(auto, using(crate::proofs::Put::put_append, crate::proofs::Put::put_more), unfolding(crate::specs::Sides::list_part))]
fn write_list(
    page: &mut Page,
    types: &TypeTable,
    tags: &Tags,
    parameters: &TypeIdList,
    ellipsis: bool,
    cv: Cv,
    end: TypeId,
) -> Result<(), PlainFault>
    requires known { end.0 < length types.now }
    requires below { AreTypesBelow end.0 parameters.now }
    ensures { Writes result page.new (put (list_part (tags_of tags.now) (types_at types.now parameters.now) ellipsis cv) page.old) }
{
    page.word(Role::Opens, b"(")?;
    write_listed(page, types, tags, parameters.as_slice(), ellipsis, end)?;
    write_list_end(page, cv)
}

/// Writes a type that stands alone (8.1).
#[cycle(back)]
#[tactic(auto, using(crate::proofs::Put::put_append, crate::proofs::Sides::split))]
pub fn write_type(
    page: &mut Page,
    types: &TypeTable,
    tags: &Tags,
    number: TypeId,
) -> Result<(), PlainFault>
    requires { number.0 < length types.now }
    ensures { Writes result page.new (put (declared (tags_of tags.now) no_cv_of (type_at types.now number.0) []) page.old) }
{
    write_declaration_front(page, types, tags, no_cv(), number)?;
    write_declaration_back(page, types, tags, number)
}

/// Writes what stands behind the declared name.
#[cycle(back)]
#[tactic(auto, using(crate::proofs::Put::put_append, crate::proofs::Put::put_none))]
pub fn write_declaration_back(
    page: &mut Page,
    types: &TypeTable,
    tags: &Tags,
    number: TypeId,
) -> Result<(), PlainFault>
    requires { number.0 < length types.now }
    ensures { Writes result page.new (put (back (tags_of tags.now) (type_at types.now number.0)) page.old) }
{
    match types.node(number) {
        TypeNode::Pointer(of) => {
            write_closed(page, is_bracketed(types, *of))?;
            write_declaration_back(page, types, tags, *of)
        }
        TypeNode::Reference(of) => {
            write_closed(page, is_bracketed(types, *of))?;
            write_declaration_back(page, types, tags, *of)
        }
        TypeNode::Array(element, bound) => {
            write_bound(page, types, bound)?;
            write_declaration_back(page, types, tags, *element)
        }
        TypeNode::Function {
            result,
            parameters,
            ellipsis,
            cv,
        } => {
            write_list(page, types, tags, parameters, *ellipsis, *cv, number)?;
            write_declaration_back(page, types, tags, *result)
        }
        TypeNode::Qualified(_, of) => write_declaration_back(page, types, tags, *of),
        _ => Ok(()),
    }
}
