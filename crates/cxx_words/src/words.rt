//! What words say.
ghost use Rattle.std.specs.Prelude.{◌≡◌, map, option_map, string_bytes};
ghost use Rattle.cxx_words.specs.Reader.{at_start, read_on};
ghost use Rattle.cxx_words.specs.Words.{is_dashes as are_dashes, job_of, understood, without_dashes as without_dashes_of};

use crate::job::Job;
use crate::reader::Reader;

fn is_dashes(word: &String) -> bool
    ensures { result ≡ are_dashes (string_bytes word.now) }
{
    word.as_bytes() == b"--".as_slice()
}

// Without a last word that is `--`.
fn without_dashes(words: &[String]) -> &[String]
    ensures { map string_bytes result.now ≡ without_dashes_of (map string_bytes words.now) }
{
    let [front @ .., last] = words else {
        return words;
    };
    if is_dashes(last) { front } else { words }
}

// What words choose without that.
fn read_each(words: &[String]) -> Option<Job>
    ensures { result ≡ option_map job_of (read_on at_start (map string_bytes words.now)) }
{
    let mut reader = Reader::new();
    for word in words {
        reader = reader.next(word.as_bytes())?;
    }
    reader.job()
}

/// What the words of a command line choose, without the program's name; nothing where they are not understood.
#[tactic(auto, unfolding(crate::specs::Words::understood))]
pub fn read_words(words: &[String]) -> Option<Job>
    ensures { result ≡ understood (map string_bytes words.now) }
{
    read_each(without_dashes(words))
}
