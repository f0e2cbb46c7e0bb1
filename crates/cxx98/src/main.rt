//! Reads a C++98 translation unit on standard input and writes what the words want of it, its plain form or its calls, or
//! says what is wrong with it.
#![tactic(auto)]

use cxx_command::run;
use cxx_edge::{StdSink, StdSource, write_all};
use std::alloc::AllocError;
use std::process::ExitCode;
use std::rt::Env;
use std::{env, io};

/// The status where the words find no memory.
const NO_MEMORY: u8 = 6;

/// The status where an output cannot be written.
const CANNOT_WRITE: u8 = 4;

/// Why there are no words to hand on.
enum WordsFault {
    /// A word is not UTF-8, or the system does not give the words.
    NotUnderstood,
    OutOfMemory,
}

impl From<AllocError> for WordsFault {
    fn from(_error: AllocError) -> WordsFault {
        WordsFault::OutOfMemory
    }
}

impl From<io::Error> for WordsFault {
    fn from(error: io::Error) -> WordsFault {
        match error.kind() {
            io::ErrorKind::OutOfMemory => WordsFault::OutOfMemory,
            _ => WordsFault::NotUnderstood,
        }
    }
}

/// The words of the command line, without the program's name.
fn words<R: Env + AllocGlobal>(rt: &R) -> Result<Vec<String>, WordsFault> {
    let mut words = Vec::new(rt.alloc());
    for word in env::args(rt)?.skip(1) {
        words.push(word).map_err(AllocError::from)?;
    }
    Ok(words)
}

/// Words that are not understood, in place of those that are no text.
fn no_text<R: AllocGlobal>(rt: &R) -> Result<Vec<String>, AllocError> {
    let mut words = Vec::new(rt.alloc());
    words.push(String::new(rt.alloc()))?;
    Ok(words)
}

/// Says that the words find no memory.
fn no_memory<W: io::Write + Drop>(stderr: W) -> ExitCode {
    let mut err = StdSink::new(stderr);
    match write_all(&mut err, b"out of memory\n") {
        Ok(()) => ExitCode::from(NO_MEMORY),
        Err(_) => ExitCode::from(CANNOT_WRITE),
    }
}

fn main(rt: HostRuntime) -> ExitCode {
    let words = match words(&rt) {
        Ok(words) => words,
        Err(WordsFault::OutOfMemory) => return no_memory(rt.stderr()),
        Err(WordsFault::NotUnderstood) => match no_text(&rt) {
            Ok(words) => words,
            Err(AllocError) => return no_memory(rt.stderr()),
        },
    };
    let mut source = StdSource::new(rt.stdin());
    let mut out = StdSink::new(rt.stdout());
    let mut err = StdSink::new(rt.stderr());
    ExitCode::from(run(rt.alloc(), &words, &mut source, &mut out, &mut err))
}
