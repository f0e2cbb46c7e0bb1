//! Labels (6.1).

ghost use Rattle.std.specs.Prelude.{◌≡◌, ◌++◌, [], ◌∷◌, IfOk, codes};
ghost use Rattle.cxx_reading.specs.Reads.{place_ahead};
ghost use Rattle.cxx_statements.specs.Productions as productions;
ghost use Rattle.cxx_statements.specs.Statements as definition;
ghost use Rattle.cxx_statements.specs.Views.{IsAround, IsLabelled, IsSeveral, IsSeveralTurn, IsStated, IsSwitch, around_of, labelled_of, several_of, several_turn, stated_of, switch_of};
ghost use Rattle.cxx_cursor.specs.Asking.{AnyKnown, IsTreeKnown, itself};
ghost use Rattle.cxx_cursor.specs.Making.{GrowsTree};
ghost use Rattle.cxx_cursor.specs.Reading.{IsRead};
ghost use Rattle.cxx_tree.specs.Held.{meaning, tree};

use crate::around::{Around, Labelled, Several, Stated, Switch};
use crate::making::{one_tree, with_tree, word_tree};
use crate::parts::{Parts, Purpose, Target};
use crate::production;
use crate::tests::is_label;
use cxx_cursor::{Cursor, Turn, is_keyword};
use cxx_model::{FaultText, Listed, Stop, TreeId, keyword, punct};
use cxx_tree::State;
use std::alloc::AllocError;

// No two labels of a switch have one value (6.4.2).
#[tactic(auto, using(cxx_cursor::proofs::Kept::later_refl), unfolding(crate::specs::Statements::fresh_label))]
fn fresh_label(
    state: &State,
    from: &Cursor<'_>,
    cursor: &Cursor<'_>,
    value: i128,
    switch: &Switch,
) -> Result<(), Stop>
    ensures { IsRead itself AnyKnown state.now state.now cursor.now result (definition.fresh_label (place_ahead from.now) value (switch_of state.now switch.now) (meaning state.now) cursor.now) }
{
    let _ = state;
    let _ = cursor;
    if switch.values.has(value) {
        return Err(Stop::Fault(from.faulty(FaultText::OperandsDoNotFit)?));
    }
    Ok(())
}

fn with_label(value: i128, switch: Switch) -> Result<Switch, AllocError>
    ensures { IfOk result (λ more. more ≡ record switch { values = switch.values ++ value ∷ [] }) }
{
    Ok(Switch {
        of: switch.of,
        values: switch.values.with(value)?,
        has_default: switch.has_default,
    })
}

// The tree of a label with its constant (6.1).
fn case_tree(
    state: &mut State,
    constant: TreeId,
    from: &Cursor<'_>,
    to: &Cursor<'_>,
) -> Result<TreeId, Stop>
    requires { IsTreeKnown state.old constant }
    ensures { GrowsTree state.old state.new result (definition.word_tree productions.label (codes "case") (tree state.old constant ∷ []) from.now to.now) }
{
    let all = one_tree(from.alloc(), constant)?;
    word_tree(state, production::LABEL, b"case", all, from, to)
}

#[tactic(auto, using(cxx_cursor::proofs::Kept::later_trans, cxx_cursor::proofs::Kept::later_refl, crate::proofs::Kept::tree_kept, crate::proofs::Kept::tree_later, cxx_cursor::proofs::Kept::type_kept, cxx_cursor::proofs::Kept::type_later), unfolding(crate::specs::Statements::case_of))]
fn case_of<P: Parts>(
    parts: &P,
    state: &mut State,
    cursor: &mut Cursor<'_>,
    switch: Switch,
    room: u32,
) -> Result<Labelled, Stop>
    requires ready { P.is_ready parts.now }
    requires switch { IsSwitch state.old switch }
    ensures { IsRead labelled_of IsLabelled state.old state.new cursor.new result (definition.case_of (P.asks parts.now room) (switch_of state.old switch) (meaning state.old) cursor.old) }
{
    let from = cursor.mark();
    cursor.advance();
    let number = parts.expression(state, cursor, Purpose::Constant, room)?;
    let constant = parts.converted(state, Target::Of(switch.of), number, room)?;
    let value = parts.value(state, constant, room)?;
    fresh_label(state, &from, cursor, value, &switch)?;
    cursor.punct(punct::COLON)?;
    let tree = case_tree(state, constant, &from, cursor)?;
    Ok(Labelled {
        tree,
        switch: with_label(value, switch)?,
    })
}

#[tactic(auto, using(cxx_cursor::proofs::Kept::later_trans, cxx_cursor::proofs::Kept::later_refl, cxx_cursor::proofs::Kept::type_kept, cxx_cursor::proofs::Kept::type_later), unfolding(crate::specs::Statements::default_taken))]
fn default_taken(
    state: &mut State,
    cursor: &mut Cursor<'_>,
    switch: Switch,
) -> Result<Labelled, Stop>
    requires { IsSwitch state.old switch }
    ensures { IsRead labelled_of IsLabelled state.old state.new cursor.new result (definition.default_taken (switch_of state.old switch) (meaning state.old) cursor.old) }
{
    let from = cursor.mark();
    cursor.advance();
    cursor.punct(punct::COLON)?;
    let none = Listed::new(cursor.alloc());
    let tree = word_tree(state, production::LABEL, b"default", none, &from, cursor)?;
    Ok(Labelled {
        tree,
        switch: Switch {
            of: switch.of,
            values: switch.values,
            has_default: true,
        },
    })
}

#[tactic(auto, using(cxx_cursor::proofs::Kept::later_trans, cxx_cursor::proofs::Kept::later_refl), unfolding(crate::specs::Statements::default_of))]
fn default_of(state: &mut State, cursor: &mut Cursor<'_>, switch: Switch) -> Result<Labelled, Stop>
    requires { IsSwitch state.old switch }
    ensures { IsRead labelled_of IsLabelled state.old state.new cursor.new result (definition.default_of (switch_of state.old switch) (meaning state.old) cursor.old) }
{
    if switch.has_default {
        return Err(Stop::Fault(cursor.faulty(FaultText::OperandsDoNotFit)?));
    }
    default_taken(state, cursor, switch)
}

// A label, with its switch behind it.
#[tactic(auto, using(cxx_cursor::proofs::Kept::later_trans, cxx_cursor::proofs::Kept::later_refl), unfolding(crate::specs::Statements::label_in))]
fn label_in<P: Parts>(
    parts: &P,
    state: &mut State,
    cursor: &mut Cursor<'_>,
    switch: Switch,
    room: u32,
) -> Result<Labelled, Stop>
    requires ready { P.is_ready parts.now }
    requires switch { IsSwitch state.old switch }
    ensures { IsRead labelled_of IsLabelled state.old state.new cursor.new result (definition.label_in (P.asks parts.now room) (switch_of state.old switch) (meaning state.old) cursor.old) }
{
    if is_keyword(keyword::CASE, cursor.kind()) {
        return case_of(parts, state, cursor, switch, room);
    }
    default_of(state, cursor, switch)
}

// Where its keyword stands.
#[tactic(auto, using(cxx_cursor::proofs::Kept::later_trans, cxx_cursor::proofs::Kept::later_refl), unfolding(crate::specs::Statements::label_at))]
fn label_at<P: Parts>(
    parts: &P,
    state: &mut State,
    cursor: &mut Cursor<'_>,
    around: Around,
    room: u32,
) -> Result<Stated, Stop>
    requires ready { P.is_ready parts.now }
    requires around { IsAround state.old around }
    ensures { IsRead stated_of IsStated state.old state.new cursor.new result (definition.label_at (P.asks parts.now room) (around_of state.old around) (meaning state.old) cursor.old) }
{
    let Around {
        in_loop,
        breaks,
        switch,
    } = around;
    match switch {
        None => Err(Stop::Fault(cursor.faulty(FaultText::OperandsDoNotFit)?)),
        Some(switch) => {
            let one = label_in(parts, state, cursor, switch, room)?;
            Ok(Stated {
                tree: one.tree,
                around: Around {
                    in_loop,
                    breaks,
                    switch: Some(one.switch),
                },
            })
        }
    }
}

#[tactic(auto, using(cxx_cursor::proofs::Kept::later_trans, cxx_cursor::proofs::Kept::later_refl, cxx_cursor::proofs::Kept::trees_kept, cxx_cursor::proofs::Kept::trees_later, cxx_cursor::proofs::Kept::trees_append, cxx_cursor::proofs::Kept::trees_below_append), unfolding(crate::specs::Statements::label_step))]
fn label_step<P: Parts>(
    parts: &P,
    state: &mut State,
    cursor: &mut Cursor<'_>,
    so_far: Several,
    room: u32,
) -> Result<Turn<Several, Several>, Stop>
    requires ready { P.is_ready parts.now }
    requires so_far { IsSeveral state.old so_far }
    ensures { IsRead several_turn IsSeveralTurn state.old state.new cursor.new result (definition.label_step (P.asks parts.now room) (several_of state.old so_far) (meaning state.old) cursor.old) }
{
    if !is_label(cursor.kind()) {
        return Ok(Turn::Done(so_far));
    }
    let one = label_at(parts, state, cursor, so_far.around, room)?;
    Ok(Turn::More(Several {
        trees: with_tree(so_far.trees, one.tree)?,
        around: one.around,
    }))
}

/// All labels before a statement.
#[tactic(auto, using(cxx_cursor::proofs::Loops::turn, cxx_cursor::proofs::Loops::no_turn, cxx_cursor::proofs::Kept::later_trans, cxx_cursor::proofs::Kept::later_refl), unfolding(crate::specs::Statements::labels_in))]
pub(crate) fn labels_in<P: Parts>(
    parts: &P,
    state: &mut State,
    cursor: &mut Cursor<'_>,
    around: Around,
    room: u32,
) -> Result<Several, Stop>
    requires ready { P.is_ready parts.now }
    requires around { IsAround state.old around }
    ensures { IsRead several_of IsSeveral state.old state.new cursor.new result (definition.labels_in (P.asks parts.now room) (around_of state.old around) (meaning state.old) cursor.old) }
{
    let mut so_far = Several {
        trees: Listed::new(cursor.alloc()),
        around,
    };
    for _turn in 0..cursor.count() {
        match label_step(parts, state, cursor, so_far, room)? {
            Turn::More(next) => so_far = next,
            Turn::Done(all) => return Ok(all),
        }
    }
    Ok(so_far)
}
