ghost use Rattle.std.specs.Prelude.{◌≡◌, ◌≤◌, ◌+◌, [], ◌∷◌, ◌++◌, length};
ghost use Rattle.cxx_reading.specs.Words.{has_gap as has_gap_of};
ghost use Rattle.cxx_page.specs.Sheets.{Writes, blank, put, line_ended, word_of};

use crate::fault::PlainFault;
use cxx_model::limits::MOST_OUTPUT;
use cxx_reading::Role;
use std::alloc::Global;
use std::marker::Model;

/// A text of at most `MOST_OUTPUT` bytes, and the role of the word at its end.
#[derive(Drop)]
pub struct Page {
    bytes: Vec<u8>,
    last: Role,
}

impl Model for Page {
    ghost use Rattle.std.specs.Prelude.{◌≤◌, length};
    ghost use Rattle.cxx_model.specs.declared.limits.TheConstants.{MOST_OUTPUT};
    ghost use Rattle.cxx_page.specs.Sheets.{Sheet};

    ghost Value = { Sheet };

    ghost view = { λ page. record { text = page.bytes.items; last = page.last } };

    ghost invariant = { λ page. length page.bytes.items ≤ MOST_OUTPUT };
}

/// Whether a space stands between two words with these roles.
fn has_gap(one: Role, two: Role) -> bool
    ensures { result ≡ has_gap_of one two }
{
    match (one, two) {
        (Role::Opens, _) | (Role::Leads, _) | (Role::Joins, _) => false,
        (_, Role::Closes) | (_, Role::Follows) | (_, Role::Joins) => false,
        (Role::Named, Role::Opens) | (Role::Closes, Role::Opens) => false,
        _ => true,
    }
}

impl Page {
    pub fn new(alloc: Global) -> Page
        ensures { result ≡ blank }
    {
        Page {
            bytes: Vec::new(alloc),
            last: Role::Leads,
        }
    }

    fn room(&self) -> usize
        ensures { length self.now.text + result ≡ MOST_OUTPUT }
    {
        MOST_OUTPUT as usize - self.bytes.len()
    }

    #[tactic(auto, using(crate::proofs::Held::held_fits, crate::proofs::Held::held_not), unfolding(crate::specs::Sheets::put, crate::specs::Sheets::put_word))]
    /// Writes a word, behind the space that stands before it. Nothing is written that would not fit.
    pub fn word(&mut self, role: Role, spelling: &[u8]) -> Result<(), PlainFault>
        ensures { Writes result self.new (put (word_of role spelling.now ∷ []) self.old) }
    {
        let gap = has_gap(self.last, role);
        let size = if gap { 1 } else { 0 };
        if spelling.len() > self.room() || spelling.len() + size > self.room() {
            return Err(PlainFault::Limit);
        }
        if gap {
            self.bytes.extend_from_slice(b" ")?;
        }
        self.bytes.extend_from_slice(spelling)?;
        self.last = role;
        Ok(())
    }

    #[tactic(auto, using(crate::proofs::Held::held_fits, crate::proofs::Held::held_not), unfolding(crate::specs::Sheets::put, crate::specs::Sheets::put_word))]
    /// Writes a word whose spelling is three parts, one behind another.
    pub fn word_in_parts(
        &mut self,
        role: Role,
        one: &[u8],
        two: &[u8],
        three: &[u8],
    ) -> Result<(), PlainFault>
        ensures { Writes result self.new (put (word_of role (one.now ++ two.now ++ three.now) ∷ []) self.old) }
    {
        let gap = has_gap(self.last, role);
        let room = self.room();
        let size = if gap { 1 } else { 0 };
        if one.len() > room || two.len() > room - one.len() {
            return Err(PlainFault::Limit);
        }
        if three.len() > room - one.len() - two.len()
            || size > room - one.len() - two.len() - three.len()
        {
            return Err(PlainFault::Limit);
        }
        if gap {
            self.bytes.extend_from_slice(b" ")?;
        }
        self.bytes.extend_from_slice(one)?;
        self.bytes.extend_from_slice(two)?;
        self.bytes.extend_from_slice(three)?;
        self.last = role;
        Ok(())
    }

    #[tactic(auto, using(crate::proofs::Held::held_fits, crate::proofs::Held::held_not), unfolding(crate::specs::Sheets::line_ended))]
    /// Ends a line.
    pub fn end_line(&mut self) -> Result<(), PlainFault>
        ensures { Writes result self.new (line_ended self.old) }
    {
        if self.room() == 0 {
            return Err(PlainFault::Limit);
        }
        self.bytes.extend_from_slice(b"\n")?;
        self.last = Role::Leads;
        Ok(())
    }

    pub fn into_bytes(self) -> Vec<u8>
        ensures text { result.items ≡ self.text }
        ensures within { length result.items ≤ MOST_OUTPUT }
    {
        let Page { bytes, .. } = self;
        bytes
    }
}
