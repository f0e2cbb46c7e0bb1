use cxx_model::{Form, TreeIdList};

/// How an object is initialized, and by what (8.5): the parts of braces, the expressions in brackets, or the one behind
/// `=`.
#[derive(Drop)]
pub struct Initializer {
    pub form: Form,
    pub parts: TreeIdList,
}
