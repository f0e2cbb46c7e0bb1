ghost use Rattle.std.specs.Prelude.{◌≡◌, ◌≤◌, length, map, string_bytes};
ghost use Rattle.cxx_command.specs.Streams.{change};
ghost use Rattle.cxx_command.specs.Answers.{IsJobAnswer, IsRunAnswer};

use crate::due::answer_unit;
use cxx_edge::{ReadFault, Source, read_all};
use cxx_model::LimitKind;
use cxx_model::limits::MOST_BYTES;
use cxx_words::{Job, read_words};
use std::alloc::Global;

/// What a run says.
#[derive(Drop)]
pub enum Answer {
    /// What the words want of a whole unit.
    Writes(Vec<u8>),
    /// The report of the first fault of a broken one.
    Reports(Vec<u8>),
    PassesLimit(LimitKind),
    /// What is said of a plain form that does not read back.
    DoesNotReadBack(Vec<u8>),
    NotUnderstood,
    CannotRead,
    NoMemory,
}

// The answer to a job over this source.
fn answer_job<S: Source>(alloc: Global, job: Job, source: &mut S) -> Answer
    ensures { IsJobAnswer job (change S.left S.faults source.old source.new) result }
{
    match read_all(alloc, source, MOST_BYTES as usize) {
        Ok(bytes) => answer_unit(alloc, job, &bytes),
        Err(ReadFault::TooLong) => Answer::PassesLimit(LimitKind::Bytes),
        Err(ReadFault::Failed) => Answer::CannotRead,
        Err(ReadFault::OutOfMemory) => Answer::NoMemory,
    }
}

/// The answer to a run with these words over this source.
pub fn read_and_answer<S: Source>(alloc: Global, words: &[String], source: &mut S) -> Answer
    ensures { IsRunAnswer (map string_bytes words.now) (change S.left S.faults source.old source.new) result }
{
    match read_words(words) {
        Some(job) => answer_job(alloc, job, source),
        None => Answer::NotUnderstood,
    }
}
