//! Words, read one after another.
ghost use Rattle.std.specs.Prelude.{◌≡◌, option_map, unwrap_or};
ghost use Rattle.cxx_words.specs.Words as words;
ghost use Rattle.cxx_words.specs.Words.{behind as behind_in, job_of, note, opening_of, setting_named as named_by};
ghost use Rattle.cxx_words.specs.Reader.{at_start, ended, ended_at, next_of, opens};

use crate::depth::depth_of;
use crate::job::{DEFAULT_DEPTH, Job, Mode};

/// An option.
#[derive(Clone, Copy)]
pub(crate) enum Setting {
    Mode,
    Depth,
}

/// What words have chosen.
#[derive(Clone, Copy)]
pub(crate) struct Chosen {
    pub(crate) mode: Option<Mode>,
    pub(crate) depth: Option<u32>,
}

/// Between two words.
#[derive(Clone, Copy)]
pub(crate) struct Reader {
    /// The option whose value is the next word.
    pub(crate) waiting: Option<Setting>,
    pub(crate) chosen: Chosen,
}

fn mode_of(text: &[u8]) -> Option<Mode>
    ensures { result ≡ words.mode_of text.now }
{
    if text == b"bind".as_slice() {
        return Some(Mode::Bind);
    }
    if text == b"calls".as_slice() {
        return Some(Mode::Calls);
    }
    None
}

fn setting_named(word: &[u8]) -> Option<Setting>
    ensures { result ≡ named_by word.now }
{
    if word == b"--mode".as_slice() {
        return Some(Setting::Mode);
    }
    if word == b"--depth".as_slice() {
        return Some(Setting::Depth);
    }
    None
}

fn behind<'a>(front: &[u8], word: &'a [u8]) -> Option<&'a [u8]>
    ensures { option_map (λ rest. rest.now) result ≡ behind_in front.now word.now }
{
    word.strip_prefix(front)
}

impl Chosen {
    fn with_mode(self, text: &[u8]) -> Option<Chosen>
        ensures { result ≡ words.note_mode self (words.mode_of text.now) }
    {
        let mode = mode_of(text)?;
        match self.mode {
            Some(_) => None,
            None => Some(Chosen {
                mode: Some(mode),
                depth: self.depth,
            }),
        }
    }

    fn with_depth(self, text: &[u8]) -> Option<Chosen>
        ensures { result ≡ words.note_depth self (words.depth_of text.now) }
    {
        let depth = depth_of(text)?;
        match self.depth {
            Some(_) => None,
            None => Some(Chosen {
                mode: self.mode,
                depth: Some(depth),
            }),
        }
    }

    /// With the value of an option, unless it has one already or this is none.
    fn with(self, setting: Setting, text: &[u8]) -> Option<Chosen>
        ensures { result ≡ note self setting text.now }
    {
        match setting {
            Setting::Mode => self.with_mode(text),
            Setting::Depth => self.with_depth(text),
        }
    }

    fn job(self) -> Job
        ensures { result ≡ job_of self }
    {
        Job {
            mode: self.mode.unwrap_or(Mode::Bind),
            depth: self.depth.unwrap_or(DEFAULT_DEPTH),
        }
    }
}

impl Reader {
    /// Before the first word.
    pub(crate) fn new() -> Reader
        ensures { result ≡ at_start }
    {
        Reader {
            waiting: None,
            chosen: Chosen {
                mode: None,
                depth: None,
            },
        }
    }

    // Behind the value of an option.
    fn given(self, setting: Setting, text: &[u8]) -> Option<Reader>
        ensures { result ≡ ended (note self.chosen setting text.now) }
    {
        let chosen = self.chosen.with(setting, text)?;
        Some(Reader {
            waiting: None,
            chosen,
        })
    }

    // Behind the first word of a piece.
    #[tactic(auto, unfolding(crate::specs::Words::opening_of))]
    fn opened(self, word: &[u8]) -> Option<Reader>
        ensures { result ≡ opens self.chosen (opening_of word.now) }
    {
        if let Some(setting) = setting_named(word) {
            return Some(Reader {
                waiting: Some(setting),
                chosen: self.chosen,
            });
        }
        if let Some(value) = behind(b"--mode=", word) {
            return self.given(Setting::Mode, value);
        }
        if let Some(value) = behind(b"--depth=", word) {
            return self.given(Setting::Depth, value);
        }
        None
    }

    /// Behind one more word, where it is understood.
    pub(crate) fn next(self, word: &[u8]) -> Option<Reader>
        ensures { result ≡ next_of self word.now }
    {
        match self.waiting {
            Some(setting) => self.given(setting, word),
            None => self.opened(word),
        }
    }

    /// What is chosen behind the last word.
    pub(crate) fn job(self) -> Option<Job>
        ensures { result ≡ option_map job_of (ended_at self.waiting self.chosen) }
    {
        match self.waiting {
            Some(_) => None,
            None => Some(self.chosen.job()),
        }
    }
}
