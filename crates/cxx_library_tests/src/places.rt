use cxx_model::Place;

pub(crate) fn at(line: u32, column: u32) -> Place {
    Place { line, column }
}
