//! Candidates for each operator (13.6).
ghost use Rattle.std.specs.Prelude.{◌≡◌, [], length, OnOk};
ghost use Rattle.cxx_candidates.specs.Candidates as definition;
ghost use Rattle.cxx_meaning.specs.Conversions.BuiltIn as built_in;
ghost use Rattle.cxx_candidates.specs.Shapes.{letters_at, second_at, slots_at, Adds, AreLettersKnown, AreSlotsKnown, IsSecondKnown};

use crate::adding::{
    add_alone, add_both, add_changing_alone, add_changing_both, add_changing_same, add_twice,
};
use crate::letters::Letters;
use crate::shapes::{Shape, Slot};
use cxx_graph::Graph;
use cxx_meaning::{BinaryFamily, UnaryFamily};
use cxx_model::{Base, OutOfMemory, punct};
use cxx_types::TypeTable;

const PROMOTED_INTEGRAL: [Slot; 4] = [
    Slot::Plain(Base::Int),
    Slot::Plain(Base::Unsigned),
    Slot::Plain(Base::Long),
    Slot::Plain(Base::UnsignedLong),
];

const PROMOTED_ARITHMETIC: [Slot; 7] = [
    Slot::Plain(Base::Int),
    Slot::Plain(Base::Unsigned),
    Slot::Plain(Base::Long),
    Slot::Plain(Base::UnsignedLong),
    Slot::Plain(Base::Float),
    Slot::Plain(Base::Double),
    Slot::Plain(Base::LongDouble),
];

const INTEGRAL: [Slot; 11] = [
    Slot::Plain(Base::Bool),
    Slot::Plain(Base::Char),
    Slot::Plain(Base::SignedChar),
    Slot::Plain(Base::UnsignedChar),
    Slot::Plain(Base::Short),
    Slot::Plain(Base::UnsignedShort),
    Slot::Plain(Base::WideChar),
    Slot::Plain(Base::Int),
    Slot::Plain(Base::Unsigned),
    Slot::Plain(Base::Long),
    Slot::Plain(Base::UnsignedLong),
];

const ARITHMETIC_BUT_BOOL: [Slot; 13] = [
    Slot::Plain(Base::Char),
    Slot::Plain(Base::SignedChar),
    Slot::Plain(Base::UnsignedChar),
    Slot::Plain(Base::Short),
    Slot::Plain(Base::UnsignedShort),
    Slot::Plain(Base::WideChar),
    Slot::Plain(Base::Int),
    Slot::Plain(Base::Unsigned),
    Slot::Plain(Base::Long),
    Slot::Plain(Base::UnsignedLong),
    Slot::Plain(Base::Float),
    Slot::Plain(Base::Double),
    Slot::Plain(Base::LongDouble),
];

const ARITHMETIC: [Slot; 14] = [
    Slot::Plain(Base::Bool),
    Slot::Plain(Base::Char),
    Slot::Plain(Base::SignedChar),
    Slot::Plain(Base::UnsignedChar),
    Slot::Plain(Base::Short),
    Slot::Plain(Base::UnsignedShort),
    Slot::Plain(Base::WideChar),
    Slot::Plain(Base::Int),
    Slot::Plain(Base::Unsigned),
    Slot::Plain(Base::Long),
    Slot::Plain(Base::UnsignedLong),
    Slot::Plain(Base::Float),
    Slot::Plain(Base::Double),
    Slot::Plain(Base::LongDouble),
];

const CONDITION: [Slot; 1] = [Slot::Plain(Base::Bool)];

const DISTANCE: [Slot; 1] = [Slot::Plain(Base::Long)];

/// `++` and `--`.
fn add_stepped(
    graph: &Graph,
    types: &TypeTable,
    list: &mut Vec<Shape>,
    numbers: &[Slot],
    second: Option<Slot>,
    letters: Letters<'_>,
) -> Result<(), OutOfMemory>
    requires numbers { AreSlotsKnown graph.now (length types.now) numbers.now }
    requires second { IsSecondKnown graph.now (length types.now) second }
    requires letters { AreLettersKnown graph.now (length types.now) letters }
    ensures { OnOk result (Adds graph.now types.now list.old.items list.new.items (definition.stepped (slots_at types.now numbers.now) (second_at types.now second) (letters_at types.now letters.entry))) }
{
    add_changing_alone(graph, types, list, second, numbers)?;
    add_changing_alone(graph, types, list, second, letters.objects)?;
    Ok(())
}

/// `*` of one operand.
fn add_followed(
    graph: &Graph,
    types: &TypeTable,
    list: &mut Vec<Shape>,
    letters: Letters<'_>,
) -> Result<(), OutOfMemory>
    requires { AreLettersKnown graph.now (length types.now) letters }
    ensures { OnOk result (Adds graph.now types.now list.old.items list.new.items (definition.followed (letters_at types.now letters.entry))) }
{
    add_alone(graph, types, list, letters.objects)?;
    add_alone(graph, types, list, letters.functions)?;
    Ok(())
}

/// `+` of one operand.
fn add_kept(
    graph: &Graph,
    types: &TypeTable,
    list: &mut Vec<Shape>,
    letters: Letters<'_>,
) -> Result<(), OutOfMemory>
    requires { AreLettersKnown graph.now (length types.now) letters }
    ensures { OnOk result (Adds graph.now types.now list.old.items list.new.items (definition.kept (letters_at types.now letters.entry))) }
{
    add_alone(graph, types, list, &PROMOTED_ARITHMETIC)?;
    add_alone(graph, types, list, letters.pointers)?;
    Ok(())
}

/// `+`
fn add_sums(
    graph: &Graph,
    types: &TypeTable,
    list: &mut Vec<Shape>,
    letters: Letters<'_>,
) -> Result<(), OutOfMemory>
    requires { AreLettersKnown graph.now (length types.now) letters }
    ensures { OnOk result (Adds graph.now types.now list.old.items list.new.items (definition.sums (letters_at types.now letters.entry))) }
{
    add_both(
        graph,
        types,
        list,
        &PROMOTED_ARITHMETIC,
        &PROMOTED_ARITHMETIC,
    )?;
    add_both(graph, types, list, letters.objects, &DISTANCE)?;
    add_both(graph, types, list, &DISTANCE, letters.objects)?;
    Ok(())
}

/// `-`
fn add_differences(
    graph: &Graph,
    types: &TypeTable,
    list: &mut Vec<Shape>,
    letters: Letters<'_>,
) -> Result<(), OutOfMemory>
    requires { AreLettersKnown graph.now (length types.now) letters }
    ensures { OnOk result (Adds graph.now types.now list.old.items list.new.items (definition.differences (letters_at types.now letters.entry))) }
{
    add_both(
        graph,
        types,
        list,
        &PROMOTED_ARITHMETIC,
        &PROMOTED_ARITHMETIC,
    )?;
    add_both(graph, types, list, letters.objects, &DISTANCE)?;
    add_twice(graph, types, list, letters.objects)?;
    Ok(())
}

/// Comparisons.
fn add_comparisons(
    graph: &Graph,
    types: &TypeTable,
    list: &mut Vec<Shape>,
    letters: Letters<'_>,
) -> Result<(), OutOfMemory>
    requires { AreLettersKnown graph.now (length types.now) letters }
    ensures { OnOk result (Adds graph.now types.now list.old.items list.new.items (definition.comparisons (letters_at types.now letters.entry))) }
{
    add_both(
        graph,
        types,
        list,
        &PROMOTED_ARITHMETIC,
        &PROMOTED_ARITHMETIC,
    )?;
    add_twice(graph, types, list, letters.pointers)?;
    add_twice(graph, types, list, letters.enumerations)?;
    Ok(())
}

/// `[]`
fn add_elements(
    graph: &Graph,
    types: &TypeTable,
    list: &mut Vec<Shape>,
    letters: Letters<'_>,
) -> Result<(), OutOfMemory>
    requires { AreLettersKnown graph.now (length types.now) letters }
    ensures { OnOk result (Adds graph.now types.now list.old.items list.new.items (definition.elements (letters_at types.now letters.entry))) }
{
    add_both(graph, types, list, letters.objects, &DISTANCE)?;
    add_both(graph, types, list, &DISTANCE, letters.objects)?;
    Ok(())
}

/// `=`
fn add_assignments(
    graph: &Graph,
    types: &TypeTable,
    list: &mut Vec<Shape>,
    letters: Letters<'_>,
) -> Result<(), OutOfMemory>
    requires { AreLettersKnown graph.now (length types.now) letters }
    ensures { OnOk result (Adds graph.now types.now list.old.items list.new.items (definition.assignments (letters_at types.now letters.entry))) }
{
    add_changing_both(graph, types, list, &ARITHMETIC, &PROMOTED_ARITHMETIC)?;
    add_changing_same(graph, types, list, letters.pointers)?;
    add_changing_same(graph, types, list, letters.enumerations)?;
    Ok(())
}

/// `+=` and `-=`
fn add_additions(
    graph: &Graph,
    types: &TypeTable,
    list: &mut Vec<Shape>,
    letters: Letters<'_>,
) -> Result<(), OutOfMemory>
    requires { AreLettersKnown graph.now (length types.now) letters }
    ensures { OnOk result (Adds graph.now types.now list.old.items list.new.items (definition.additions (letters_at types.now letters.entry))) }
{
    add_changing_both(graph, types, list, &ARITHMETIC, &PROMOTED_ARITHMETIC)?;
    add_changing_both(graph, types, list, letters.objects, &DISTANCE)?;
    Ok(())
}

// ---- operators by number

fn unary_family(operator: u8) -> Option<UnaryFamily>
    ensures { result ≡ built_in.unary_family operator }
{
    match operator {
        punct::STAR => Some(UnaryFamily::Follow),
        punct::AMPERSAND => Some(UnaryFamily::Address),
        punct::PLUS => Some(UnaryFamily::Plus),
        punct::MINUS => Some(UnaryFamily::Minus),
        punct::TILDE => Some(UnaryFamily::Complement),
        punct::EXCLAMATION => Some(UnaryFamily::Not),
        punct::INCREMENT => Some(UnaryFamily::Increment),
        punct::DECREMENT => Some(UnaryFamily::Decrement),
        _ => None,
    }
}

fn comparison_family(operator: u8) -> Option<BinaryFamily>
    ensures { result ≡ built_in.comparison_family operator }
{
    match operator {
        punct::LESS
        | punct::GREATER
        | punct::LESS_OR_EQUAL
        | punct::GREATER_OR_EQUAL
        | punct::EQUAL_TO
        | punct::NOT_EQUAL_TO => Some(BinaryFamily::Compare),
        punct::LOGICAL_AND | punct::LOGICAL_OR => Some(BinaryFamily::Logic),
        punct::EQUALS => Some(BinaryFamily::Assign),
        punct::COMMA => Some(BinaryFamily::Comma),
        punct::LEFT_BRACKET => Some(BinaryFamily::Subscript),
        _ => None,
    }
}

fn binary_family(operator: u8) -> Option<BinaryFamily>
    ensures { result ≡ built_in.binary_family operator }
{
    match operator {
        punct::STAR | punct::SLASH => Some(BinaryFamily::Multiply),
        punct::PLUS => Some(BinaryFamily::Add),
        punct::MINUS => Some(BinaryFamily::Subtract),
        punct::PERCENT | punct::AMPERSAND | punct::CARET | punct::BAR => Some(BinaryFamily::Bits),
        punct::SHIFT_LEFT | punct::SHIFT_RIGHT => Some(BinaryFamily::Shift),
        _ => comparison_family(operator),
    }
}

fn compound_family(operator: u8) -> Option<BinaryFamily>
    ensures { result ≡ built_in.compound_family operator }
{
    match operator {
        punct::STAR_EQUALS | punct::SLASH_EQUALS => Some(BinaryFamily::Multiply),
        punct::PLUS_EQUALS => Some(BinaryFamily::Add),
        punct::MINUS_EQUALS => Some(BinaryFamily::Subtract),
        punct::PERCENT_EQUALS | punct::AMPERSAND_EQUALS | punct::CARET_EQUALS | punct::BAR_EQUALS =>
            Some(BinaryFamily::Bits),
        punct::SHIFT_LEFT_EQUALS | punct::SHIFT_RIGHT_EQUALS => Some(BinaryFamily::Shift),
        _ => None,
    }
}

fn stepping(operator: u8) -> Option<bool>
    ensures { result ≡ definition.stepping operator }
{
    match operator {
        punct::INCREMENT => Some(false),
        punct::DECREMENT => Some(true),
        _ => None,
    }
}

// ---- candidates

/// No candidates.
pub(crate) fn add_none(
    graph: &Graph,
    types: &TypeTable,
    list: &mut Vec<Shape>,
) -> Result<(), OutOfMemory>
    ensures { OnOk result (Adds graph.now types.now list.old.items list.new.items []) }
{
    let _ = graph;
    let _ = types;
    let _ = list;
    Ok(())
}

fn add_unary_by(
    graph: &Graph,
    types: &TypeTable,
    list: &mut Vec<Shape>,
    letters: Letters<'_>,
    family: Option<UnaryFamily>,
) -> Result<(), OutOfMemory>
    requires { AreLettersKnown graph.now (length types.now) letters }
    ensures { OnOk result (Adds graph.now types.now list.old.items list.new.items (definition.unary_by (letters_at types.now letters.entry) family)) }
{
    match family {
        None => add_none(graph, types, list),
        Some(UnaryFamily::Increment) => {
            add_stepped(graph, types, list, &ARITHMETIC, None, letters)
        }
        Some(UnaryFamily::Decrement) => {
            add_stepped(graph, types, list, &ARITHMETIC_BUT_BOOL, None, letters)
        }
        Some(UnaryFamily::Follow) => add_followed(graph, types, list, letters),
        Some(UnaryFamily::Plus) => add_kept(graph, types, list, letters),
        Some(UnaryFamily::Minus) => add_alone(graph, types, list, &PROMOTED_ARITHMETIC),
        Some(UnaryFamily::Complement) => add_alone(graph, types, list, &PROMOTED_INTEGRAL),
        Some(UnaryFamily::Not) => add_alone(graph, types, list, &CONDITION),
        Some(UnaryFamily::Address) => add_none(graph, types, list),
    }
}

fn add_binary_by(
    graph: &Graph,
    types: &TypeTable,
    list: &mut Vec<Shape>,
    letters: Letters<'_>,
    family: BinaryFamily,
) -> Result<(), OutOfMemory>
    requires { AreLettersKnown graph.now (length types.now) letters }
    ensures { OnOk result (Adds graph.now types.now list.old.items list.new.items (definition.binary_by (letters_at types.now letters.entry) family)) }
{
    match family {
        BinaryFamily::Multiply => {
            add_both(
                graph,
                types,
                list,
                &PROMOTED_ARITHMETIC,
                &PROMOTED_ARITHMETIC,
            )
        }
        BinaryFamily::Add => add_sums(graph, types, list, letters),
        BinaryFamily::Subtract => add_differences(graph, types, list, letters),
        BinaryFamily::Bits => {
            add_both(graph, types, list, &PROMOTED_INTEGRAL, &PROMOTED_INTEGRAL)
        }
        BinaryFamily::Shift => {
            add_both(graph, types, list, &PROMOTED_INTEGRAL, &PROMOTED_INTEGRAL)
        }
        BinaryFamily::Compare => add_comparisons(graph, types, list, letters),
        BinaryFamily::Logic => add_both(graph, types, list, &CONDITION, &CONDITION),
        BinaryFamily::Subscript => add_elements(graph, types, list, letters),
        BinaryFamily::Assign => add_assignments(graph, types, list, letters),
        BinaryFamily::Comma => add_none(graph, types, list),
    }
}

fn add_compound_by(
    graph: &Graph,
    types: &TypeTable,
    list: &mut Vec<Shape>,
    letters: Letters<'_>,
    family: BinaryFamily,
) -> Result<(), OutOfMemory>
    requires { AreLettersKnown graph.now (length types.now) letters }
    ensures { OnOk result (Adds graph.now types.now list.old.items list.new.items (definition.compound_by (letters_at types.now letters.entry) family)) }
{
    match family {
        BinaryFamily::Multiply => {
            add_changing_both(graph, types, list, &ARITHMETIC, &PROMOTED_ARITHMETIC)
        }
        BinaryFamily::Add => add_additions(graph, types, list, letters),
        BinaryFamily::Subtract => add_additions(graph, types, list, letters),
        BinaryFamily::Bits => {
            add_changing_both(graph, types, list, &INTEGRAL, &PROMOTED_INTEGRAL)
        }
        BinaryFamily::Shift => {
            add_changing_both(graph, types, list, &INTEGRAL, &PROMOTED_INTEGRAL)
        }
        _ => add_none(graph, types, list),
    }
}

fn add_family(
    graph: &Graph,
    types: &TypeTable,
    list: &mut Vec<Shape>,
    letters: Letters<'_>,
    family: Option<BinaryFamily>,
    compound: Option<BinaryFamily>,
) -> Result<(), OutOfMemory>
    requires { AreLettersKnown graph.now (length types.now) letters }
    ensures { OnOk result (Adds graph.now types.now list.old.items list.new.items (definition.family_candidates (letters_at types.now letters.entry) family compound)) }
{
    match family {
        Some(family) => add_binary_by(graph, types, list, letters, family),
        None => match compound {
            None => add_none(graph, types, list),
            Some(family) => add_compound_by(graph, types, list, letters, family),
        },
    }
}

/// The candidates for an operator with one operand.
pub(crate) fn add_unary(
    graph: &Graph,
    types: &TypeTable,
    list: &mut Vec<Shape>,
    letters: Letters<'_>,
    operator: u8,
) -> Result<(), OutOfMemory>
    requires { AreLettersKnown graph.now (length types.now) letters }
    ensures { OnOk result (Adds graph.now types.now list.old.items list.new.items (definition.unary_candidates (letters_at types.now letters.entry) operator)) }
{
    let family = unary_family(operator);
    add_unary_by(graph, types, list, letters, family)
}

/// The candidates for an operator with two operands.
pub(crate) fn add_binary(
    graph: &Graph,
    types: &TypeTable,
    list: &mut Vec<Shape>,
    letters: Letters<'_>,
    operator: u8,
) -> Result<(), OutOfMemory>
    requires { AreLettersKnown graph.now (length types.now) letters }
    ensures { OnOk result (Adds graph.now types.now list.old.items list.new.items (definition.binary_candidates (letters_at types.now letters.entry) operator)) }
{
    let int = Some(Slot::Plain(Base::Int));
    match stepping(operator) {
        Some(false) => add_stepped(graph, types, list, &ARITHMETIC, int, letters),
        Some(true) => add_stepped(graph, types, list, &ARITHMETIC_BUT_BOOL, int, letters),
        None => {
            let family = binary_family(operator);
            let compound = compound_family(operator);
            add_family(graph, types, list, letters, family, compound)
        }
    }
}
