//! The tokens of modules, by what they mean.

/// What a test is of.
#[derive(Clone, Copy, Debug, PartialEq, Eq)]
pub enum TestRole {
    /// It is the first of a clause.
    First,
    /// It is a further one of a clause.
    Further,
    /// It is of an action's condition.
    Condition,
}

/// A token of a value.
#[derive(Clone, Copy, Debug, PartialEq, Eq)]
pub enum ValuePart {
    Number,
    Register,
    /// The word before a queue.
    Word,
    Queue,
}

/// A token of modules, by what it means.
#[derive(Clone, Copy, Debug, PartialEq, Eq)]
pub enum Terminal {
    /// The word that begins modules.
    Modules,
    Name,
    /// The word that begins a register.
    Register,
    NewRegister,
    /// The number that a register holds at the start.
    Start,
    /// The word that begins a queue.
    Queue,
    NewQueue,
    /// The word that begins a rule.
    Rule,
    Object,
    RuleName,
    /// The word before a child.
    From,
    Child,
    /// Any token after the name of a rule that stands already.
    Twice,
    Spontaneous,
    /// The word that begins the clauses.
    When,
    /// The word that begins the actions.
    Do,
    /// The comma before a clause.
    Comma,
    /// The comma before an action.
    NextAction,
    /// The clause that never holds.
    Never,
    /// The sign before a further test of a clause.
    Or,
    /// The register of a test.
    TestRegister(TestRole),
    Is,
    Differs,
    TestNumber(TestRole),
    /// The word that begins a test of a queue's head.
    Head(TestRole),
    HeadQueue,
    /// The sign before the id of a head.
    Equals,
    HeadId(TestRole),
    /// The word that begins an action's condition.
    If,
    /// The word before a further test of a condition.
    And,
    Dequeue,
    LosingQueue,
    /// The register that an action writes.
    WrittenRegister,
    Assign,
    Enqueue,
    GainingQueue,
    SentId,
    Value(ValuePart),
    /// The word that ends a rule.
    EndRule,
    /// The word that ends modules.
    End,
}

/// What may stand several times, at one of several places, or not at all.
#[derive(Clone, Copy, Debug, PartialEq, Eq)]
pub enum Item {
    Register,
    Queue,
    Rule,
    /// The child of a rule.
    Child,
    /// A rule that stands already.
    Twice,
    Spontaneous,
    /// The clauses of a rule.
    Clauses,
    Clause,
    NextClause,
    /// A further test of a clause, with the sign before it.
    Or,
    Test(TestRole),
    /// The sign of a test of a register.
    Comparison,
    /// The actions of a rule.
    Actions,
    Action,
    NextAction,
    /// A further test of a condition, with the word before it.
    And,
    /// What an action does.
    Act,
    Value,
}
