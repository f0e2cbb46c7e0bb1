//! What a reader expects of pages, as contracts of functions that do nothing.
ghost use Rattle.std.specs.Prelude.{◌≡◌, List, ◌++◌};
ghost use Rattle.cxx_model.specs.declared.types.Cv.{Cv};
ghost use Rattle.cxx_model.specs.Types.Trees.{CxxType};
ghost use Rattle.cxx_reading.specs.Words.{Tags, Word, declared};
ghost use Rattle.cxx_page.specs.Sheets.{HasLines};
ghost use Rattle.cxx_page.specs.Sides.{back, front};

/// A page on which lines were written holds exactly their text, each word with the space before it and each line with
/// its end; or that text is longer than a page may be.
pub fn lines_are_texts()
    ensures { (lines : List (List Word)) → HasLines lines }
{}

/// A declaration is the words before its name, the name, and the words behind it (8.3).
pub fn declarations_have_sides()
    ensures { (tags : Tags) (cv : Cv) (of : CxxType) (inner : List Word) → declared tags cv of inner ≡ front tags cv of ++ (inner ++ back tags of) }
{}
