//! The top call: words, a unit from a source, its plain form, its calls or a report to a sink, and a status.
#![tactic(auto)]

ghost use Rattle.std.specs.Prelude.{map, string_bytes};
ghost use Rattle.cxx_command.specs.Streams.{change};
ghost use Rattle.cxx_command.specs.Run.{IsAnswer};

mod again;
mod answers;
mod delivery;
mod due;
mod unit;

use cxx_edge::{Sink, Source};
use cxx_language_laws::{choice_faults_are_told, each_call_is_best, undeclared_names_are_told};
use cxx_listing::calls_are_listed;
use std::alloc::Global;

/// Does all that the program does, and gives its status: 0 where what the words want of the unit, its plain form or its
/// calls, was written to `out`; else a text on `err` says why: 1 the unit is broken, 2 the words are not understood, 3 the
/// source cannot be read, 5 a limit is passed, 6 there is no memory, 7 the plain form, read again, does not come back as the
/// same text with the same functions. 4 says that a sink failed, in place of every other status. `words` does not hold the
/// program's name.
pub fn run<S: Source, K: Sink, E: Sink>(
    alloc: Global,
    words: &[String],
    source: &mut S,
    out: &mut K,
    err: &mut E,
) -> u8
    ensures { IsAnswer (map string_bytes words.now) (change S.left S.faults source.old source.new)
        (change K.taken K.faults out.old out.new) (change E.taken E.faults err.old err.new) result }
{
    each_call_is_best();
    choice_faults_are_told();
    undeclared_names_are_told();
    calls_are_listed();
    let answer = answers::read_and_answer(alloc, words, source);
    delivery::deliver(&answer, out, err)
}
