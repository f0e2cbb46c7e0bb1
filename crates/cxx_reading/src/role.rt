/// What a word is to the words beside it: it says where a space stands.
#[derive(Clone, Copy)]
pub enum Role {
    /// A keyword, a literal, a binary operator, a brace, the name of a type before a declarator.
    Alone,
    /// Any other name.
    Named,
    /// `(` and `[`.
    Opens,
    /// `)` and `]`, and the `>` of a cast.
    Closes,
    /// `,` and `;`, the colon of a label, a postfix operator.
    Follows,
    /// A prefix or pointer operator.
    Leads,
    /// `.` and `::`, and the `<` of a cast.
    Joins,
}
