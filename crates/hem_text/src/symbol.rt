//! The symbols of a grammar.

/// A symbol of a grammar: a token, an item, an item or nothing, or any number of an item.
#[derive(Clone, Copy, Debug, PartialEq, Eq)]
pub enum Symbol<T, I> {
    /// This token.
    One(T),
    /// This item.
    Item(I),
    /// This item, or nothing.
    Maybe(I),
    /// This item any number of times, or nothing.
    Many(I),
}

/// What a token of a grammar is: a reserved word, a used name, or something else.
#[derive(Clone, Copy, Debug, PartialEq, Eq)]
pub enum Stands {
    /// A reserved word.
    Reserved,
    /// A name that must have been declared before.
    Used,
    /// A name that is declared here, a number or a sign.
    Other,
}
