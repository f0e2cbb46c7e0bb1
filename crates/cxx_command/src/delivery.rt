ghost use Rattle.std.specs.Prelude.{◌≡◌};
ghost use Rattle.cxx_model.specs.Printing.Reports.{limit_report};
ghost use Rattle.cxx_command.specs.Streams.{change};
ghost use Rattle.cxx_command.specs.Answers.{DeliversAnswer};
ghost use Rattle.cxx_command.specs.Run.{IsToldTo};

use crate::answers::Answer;
use cxx_edge::{Sink, write_all};
use cxx_model::LimitKind;

/// The status of a run whose sink failed.
const SINK_FAILED: u8 = 4;

/// Writes the text to the sink, and says `said`, or that the sink failed.
fn tell<K: Sink>(sink: &mut K, text: &[u8], said: u8) -> u8
    ensures { IsToldTo (change K.taken K.faults sink.old sink.new) text.now said result }
{
    match write_all(sink, text) {
        Ok(()) => said,
        Err(_) => SINK_FAILED,
    }
}

#[tactic(auto, unfolding(cxx_model::specs::Printing::Reports::limit_report))]
fn limit_text(limit: LimitKind) -> &'static [u8]
    ensures { result.now ≡ limit_report limit }
{
    match limit {
        LimitKind::Bytes => b"limit: bytes\n",
        LimitKind::Tokens => b"limit: tokens\n",
        LimitKind::Nesting => b"limit: nesting\n",
        LimitKind::Facts => b"limit: facts\n",
        LimitKind::Candidates => b"limit: candidates\n",
        LimitKind::Arguments => b"limit: arguments\n",
        LimitKind::TemplateArguments => b"limit: template arguments\n",
        LimitKind::Instances => b"limit: instances\n",
        LimitKind::Nodes => b"limit: nodes\n",
        LimitKind::Output => b"limit: output\n",
    }
}

/// Says the answer on the sink that it belongs to, and gives the status.
pub fn deliver<K: Sink, E: Sink>(answer: &Answer, out: &mut K, err: &mut E) -> u8
    ensures { DeliversAnswer answer.now (change K.taken K.faults out.old out.new) (change E.taken E.faults err.old err.new) result }
{
    match answer {
        Answer::Writes(text) => tell(out, text, 0),
        Answer::Reports(text) => tell(err, text, 1),
        Answer::PassesLimit(limit) => tell(err, limit_text(*limit), 5),
        Answer::DoesNotReadBack(text) => tell(err, text, 7),
        Answer::NotUnderstood => tell(err, b"words not understood\n", 2),
        Answer::CannotRead => tell(err, b"cannot read\n", 3),
        Answer::NoMemory => tell(err, b"out of memory\n", 6),
    }
}
