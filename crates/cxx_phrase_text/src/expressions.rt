//! Expressions by their forms.
ghost use Rattle.std.specs.Prelude.{◌<◌, length};
ghost use Rattle.cxx_model.specs.Facts.Fitted.{IsTypeNumberBelow};
ghost use Rattle.cxx_page.specs.Sheets.{Writes, put};
ghost use Rattle.cxx_tree.specs.Arena.{AreTreesBelow};
ghost use Rattle.cxx_phrase_text.specs.Named.{trees_of};
ghost use Rattle.cxx_phrase_text.specs.Written.{phrase_at, phrase_in};

use crate::form::{Form, form_of};
use crate::lists::{is_by_name, write_braces, write_call};
use crate::members::{write_arrow, write_member};
use crate::names::{Names, write_named};
use crate::operands::write_part;
use crate::operators::{
    write_cast, write_conditional, write_infix, write_postfix, write_prefix, write_subscript,
};
use crate::standing::is_braced;
use crate::words::write_zero;
use cxx_model::{Node, TreeId};
use cxx_page::{Page, PlainFault};
use cxx_reading::Role;

// Writes what initializes: a list in braces, or its one part.
#[cycle(words)]
fn write_initial<N: Names>(
    names: &N,
    page: &mut Page,
    node: &Node,
    number: TreeId,
) -> Result<(), PlainFault>
    requires ready { N.is_ready names.now }
    requires known { number.0 < length (trees_of (N.named names.now)) }
    requires below { IsTypeNumberBelow (length (N.named names.now).held.types) node.now.of }
    requires earlier { AreTreesBelow number.0 node.now.children }
    ensures { Writes result page.new (put (phrase_in (N.named names.now) Form.Initial node.now).words page.old) }
{
    let parts = node.children.as_slice();
    if is_braced(names.state(), node, number) {
        return write_braces(names, page, parts, number);
    }
    write_part(names, page, parts, 0, number)
}

// Writes the expression of a node by its form.
#[cycle(words)]
fn write_form<N: Names>(
    names: &N,
    page: &mut Page,
    form: Form,
    node: &Node,
    number: TreeId,
) -> Result<(), PlainFault>
    requires ready { N.is_ready names.now }
    requires known { number.0 < length (trees_of (N.named names.now)) }
    requires below { IsTypeNumberBelow (length (N.named names.now).held.types) node.now.of }
    requires earlier { AreTreesBelow number.0 node.now.children }
    ensures { Writes result page.new (put (phrase_in (N.named names.now) form node.now).words page.old) }
{
    let spelling = node.spelling.as_slice();
    let parts = node.children.as_slice();
    match form {
        Form::Spelled => page.word(Role::Alone, spelling),
        Form::Name => write_named(names, page, node.of, node.target),
        Form::Parenthesis => write_part(names, page, parts, 0, number),
        Form::Call => write_call(
            names,
            page,
            node.of,
            node.target,
            is_by_name(node),
            parts,
            number,
        ),
        Form::Zero => write_zero(names, page, node.of),
        Form::Member => write_member(names, page, node.of, node.target, parts, number),
        Form::Arrow => write_arrow(names, page, node.of, node.target, parts, number),
        Form::Subscript => write_subscript(names, page, parts, number),
        Form::Postfix => write_postfix(names, page, spelling, parts, number),
        Form::Prefix => write_prefix(names, page, spelling, parts, number),
        Form::Cast => write_cast(names, page, spelling, node.of, parts, number),
        Form::Infix => write_infix(names, page, spelling, parts, number),
        Form::Conditional => write_conditional(names, page, parts, number),
        Form::Initial => write_initial(names, page, node, number),
    }
}

/// Writes the expression with a number.
#[cycle(words)]
pub fn write_expression<N: Names>(
    names: &N,
    page: &mut Page,
    number: TreeId,
) -> Result<(), PlainFault>
    requires ready { N.is_ready names.now }
    requires known { number.0 < length (trees_of (N.named names.now)) }
    ensures { Writes result page.new (put (phrase_at (N.named names.now) number).words page.old) }
{
    let node = names.state().node(number);
    write_form(names, page, form_of(node.production), node, number)
}
