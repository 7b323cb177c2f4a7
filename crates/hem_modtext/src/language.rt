//! The grammar of modules.

ghost use Rattle.std.specs.Prelude.{◌≡◌};
ghost use Rattle.hem_modtext.specs.Grammar.{start, firsts, follows, stands, test_firsts, test_follows, head_follows};
ghost use Rattle.hem_modtext.specs.Draft.{is_short, is_new_child, value_spells, grammar};

use crate::draft::Draft;
use crate::limits::{MOST_BYTES, MOST_ID, MOST_NUMBER};
use crate::tokens::{Item, Terminal, TestRole, ValuePart};
use hem_base::{OutOfMemory, Reserved, Sign};
use hem_text::{Language, Lexeme, Stands, Symbol, is_at_most, value_of};

/// What modules begin with.
pub(crate) fn start() -> &'static [Symbol<Terminal, Item>]
    ensures { result.now ≡ start }
{
    &[
        Symbol::One(Terminal::Modules),
        Symbol::One(Terminal::Name),
        Symbol::Many(Item::Register),
        Symbol::Many(Item::Queue),
        Symbol::Many(Item::Rule),
        Symbol::One(Terminal::End),
    ]
}

/// The tokens with which a test may begin.
fn test_firsts(role: TestRole) -> &'static [Terminal]
    ensures { result.now ≡ test_firsts role }
{
    match role {
        TestRole::First => &[
            Terminal::TestRegister(TestRole::First),
            Terminal::Head(TestRole::First),
        ],
        TestRole::Further => &[
            Terminal::TestRegister(TestRole::Further),
            Terminal::Head(TestRole::Further),
        ],
        TestRole::Condition => &[
            Terminal::TestRegister(TestRole::Condition),
            Terminal::Head(TestRole::Condition),
        ],
    }
}

/// What must follow the register of a test.
fn test_follows(role: TestRole) -> &'static [Symbol<Terminal, Item>]
    ensures { result.now ≡ test_follows role }
{
    match role {
        TestRole::First => &[
            Symbol::Item(Item::Comparison),
            Symbol::One(Terminal::TestNumber(TestRole::First)),
            Symbol::Many(Item::Or),
        ],
        TestRole::Further => &[
            Symbol::Item(Item::Comparison),
            Symbol::One(Terminal::TestNumber(TestRole::Further)),
        ],
        TestRole::Condition => &[
            Symbol::Item(Item::Comparison),
            Symbol::One(Terminal::TestNumber(TestRole::Condition)),
        ],
    }
}

/// What must follow the word that begins a test of a queue's head.
fn head_follows(role: TestRole) -> &'static [Symbol<Terminal, Item>]
    ensures { result.now ≡ head_follows role }
{
    match role {
        TestRole::First => &[
            Symbol::One(Terminal::HeadQueue),
            Symbol::One(Terminal::Equals),
            Symbol::One(Terminal::HeadId(TestRole::First)),
            Symbol::Many(Item::Or),
        ],
        TestRole::Further => &[
            Symbol::One(Terminal::HeadQueue),
            Symbol::One(Terminal::Equals),
            Symbol::One(Terminal::HeadId(TestRole::Further)),
        ],
        TestRole::Condition => &[
            Symbol::One(Terminal::HeadQueue),
            Symbol::One(Terminal::Equals),
            Symbol::One(Terminal::HeadId(TestRole::Condition)),
        ],
    }
}

impl Draft {
    /// Whether a token of a value is spelled so.
    fn spells_value(&self, part: ValuePart, token: &Lexeme<'_>) -> bool
        ensures { result ≡ value_spells self.now part token.now }
    {
        match part {
            ValuePart::Number => token.is_number(),
            ValuePart::Register => self.is_register(token),
            ValuePart::Word => token.is_the_word(Reserved::Value),
            ValuePart::Queue => self.is_queue(token),
        }
    }

    /// Whether the rule that is being read doesn't stand already with this child.
    fn is_new_child(&self, token: &Lexeme<'_>) -> bool
        ensures { result ≡ is_new_child self.now token.now }
    {
        let text = token.text();
        !(is_at_most(text, MOST_ID) && self.stands_already(Some(value_of(text) as u32)))
    }
}

/// Whether a text has the length of a name.
fn is_short(text: &[u8]) -> bool
    ensures { result ≡ is_short text.now }
{
    1 <= text.len() && text.len() <= MOST_BYTES
}

impl Language for Draft {
    type Terminal = Terminal;

    type Item = Item;

    ghost grammar = { grammar };

    fn firsts(item: Item) -> &'static [Terminal]
        ensures { result.now ≡ firsts item }
    {
        match item {
            Item::Register => &[Terminal::Register],
            Item::Queue => &[Terminal::Queue],
            Item::Rule => &[Terminal::Rule],
            Item::Child => &[Terminal::From],
            Item::Twice => &[Terminal::Twice],
            Item::Spontaneous => &[Terminal::Spontaneous],
            Item::Clauses => &[Terminal::When],
            Item::Clause => &[
                Terminal::Never,
                Terminal::TestRegister(TestRole::First),
                Terminal::Head(TestRole::First),
            ],
            Item::NextClause => &[Terminal::Comma],
            Item::Or => &[Terminal::Or],
            Item::Test(role) => test_firsts(role),
            Item::Comparison => &[Terminal::Is, Terminal::Differs],
            Item::Actions => &[Terminal::Do],
            Item::Action => &[
                Terminal::If,
                Terminal::Dequeue,
                Terminal::WrittenRegister,
                Terminal::Enqueue,
            ],
            Item::NextAction => &[Terminal::NextAction],
            Item::And => &[Terminal::And],
            Item::Act => &[
                Terminal::Dequeue,
                Terminal::WrittenRegister,
                Terminal::Enqueue,
            ],
            Item::Value => &[
                Terminal::Value(ValuePart::Number),
                Terminal::Value(ValuePart::Register),
                Terminal::Value(ValuePart::Word),
            ],
        }
    }

    fn follows(terminal: Terminal) -> &'static [Symbol<Terminal, Item>]
        ensures { result.now ≡ follows terminal }
    {
        match terminal {
            Terminal::Register => &[
                Symbol::One(Terminal::NewRegister),
                Symbol::One(Terminal::Start),
            ],
            Terminal::Queue => &[Symbol::One(Terminal::NewQueue)],
            Terminal::Rule => &[
                Symbol::One(Terminal::Object),
                Symbol::One(Terminal::RuleName),
                Symbol::Maybe(Item::Child),
                Symbol::Maybe(Item::Twice),
                Symbol::Maybe(Item::Spontaneous),
                Symbol::Maybe(Item::Clauses),
                Symbol::Maybe(Item::Actions),
                Symbol::One(Terminal::EndRule),
            ],
            Terminal::From => &[Symbol::One(Terminal::Child)],
            Terminal::When => &[Symbol::Item(Item::Clause), Symbol::Many(Item::NextClause)],
            Terminal::Comma => &[Symbol::Item(Item::Clause)],
            Terminal::TestRegister(role) => test_follows(role),
            Terminal::Head(role) => head_follows(role),
            Terminal::Or => &[Symbol::Item(Item::Test(TestRole::Further))],
            Terminal::Do => &[Symbol::Item(Item::Action), Symbol::Many(Item::NextAction)],
            Terminal::NextAction => &[Symbol::Item(Item::Action)],
            Terminal::If => &[
                Symbol::Item(Item::Test(TestRole::Condition)),
                Symbol::Many(Item::And),
                Symbol::Item(Item::Act),
            ],
            Terminal::And => &[Symbol::Item(Item::Test(TestRole::Condition))],
            Terminal::Dequeue => &[Symbol::One(Terminal::LosingQueue)],
            Terminal::WrittenRegister => &[
                Symbol::One(Terminal::Assign),
                Symbol::Item(Item::Value),
            ],
            Terminal::Enqueue => &[
                Symbol::One(Terminal::GainingQueue),
                Symbol::One(Terminal::SentId),
                Symbol::Item(Item::Value),
            ],
            Terminal::Value(ValuePart::Word) => &[Symbol::One(Terminal::Value(ValuePart::Queue))],
            _ => &[],
        }
    }

    fn stands(terminal: Terminal) -> Stands
        ensures { result ≡ stands terminal }
    {
        match terminal {
            Terminal::TestRegister(_)
            | Terminal::HeadQueue
            | Terminal::LosingQueue
            | Terminal::WrittenRegister
            | Terminal::GainingQueue
            | Terminal::Value(ValuePart::Register)
            | Terminal::Value(ValuePart::Queue) => Stands::Used,
            Terminal::Modules
            | Terminal::Register
            | Terminal::Queue
            | Terminal::Rule
            | Terminal::From
            | Terminal::Spontaneous
            | Terminal::When
            | Terminal::Do
            | Terminal::Never
            | Terminal::Head(_)
            | Terminal::If
            | Terminal::And
            | Terminal::Dequeue
            | Terminal::Enqueue
            | Terminal::Value(ValuePart::Word)
            | Terminal::EndRule
            | Terminal::End => Stands::Reserved,
            _ => Stands::Other,
        }
    }

    fn spells(&self, terminal: Terminal, token: &Lexeme<'_>) -> bool {
        match terminal {
            Terminal::Modules => token.is_the_word(Reserved::Modules),
            Terminal::Register => token.is_the_word(Reserved::Reg),
            Terminal::Queue => token.is_the_word(Reserved::Queue),
            Terminal::Rule => token.is_the_word(Reserved::Rule),
            Terminal::From => token.is_the_word(Reserved::From),
            Terminal::Spontaneous => token.is_the_word(Reserved::Spontaneous),
            Terminal::When => token.is_the_word(Reserved::When),
            Terminal::Do => token.is_the_word(Reserved::Do),
            Terminal::Never => token.is_the_word(Reserved::Never),
            Terminal::Head(_) => token.is_the_word(Reserved::Head),
            Terminal::If => token.is_the_word(Reserved::If),
            Terminal::And => token.is_the_word(Reserved::And),
            Terminal::Dequeue => token.is_the_word(Reserved::Deq),
            Terminal::Enqueue => token.is_the_word(Reserved::Enq),
            Terminal::EndRule | Terminal::End => token.is_the_word(Reserved::End),
            Terminal::Comma | Terminal::NextAction => token.is_the_sign(Sign::Comma),
            Terminal::Or => token.is_the_sign(Sign::Or),
            Terminal::Is | Terminal::Equals => token.is_the_sign(Sign::Equals),
            Terminal::Differs => token.is_the_sign(Sign::Differs),
            Terminal::Assign => token.is_the_sign(Sign::Assign),
            Terminal::Name | Terminal::NewRegister | Terminal::NewQueue | Terminal::RuleName => {
                token.is_name()
            }
            Terminal::Start
            | Terminal::Object
            | Terminal::Child
            | Terminal::TestNumber(_)
            | Terminal::HeadId(_)
            | Terminal::SentId => token.is_number(),
            Terminal::TestRegister(_) | Terminal::WrittenRegister => self.is_register(token),
            Terminal::HeadQueue | Terminal::LosingQueue | Terminal::GainingQueue => {
                self.is_queue(token)
            }
            Terminal::Twice => self.is_twice(),
            Terminal::Value(part) => self.spells_value(part, token),
        }
    }

    fn is_within(&self, terminal: Terminal, token: &Lexeme<'_>) -> bool {
        match terminal {
            Terminal::Name | Terminal::NewRegister | Terminal::NewQueue | Terminal::RuleName => {
                is_short(token.text())
            }
            Terminal::Object | Terminal::Child | Terminal::HeadId(_) | Terminal::SentId => {
                is_at_most(token.text(), MOST_ID)
            }
            Terminal::Start | Terminal::TestNumber(_) | Terminal::Value(ValuePart::Number) => {
                is_at_most(token.text(), MOST_NUMBER)
            }
            _ => true,
        }
    }

    fn is_fresh(&self, terminal: Terminal, token: &Lexeme<'_>) -> bool {
        match terminal {
            Terminal::NewRegister | Terminal::NewQueue => !self.is_declared(token.text()),
            Terminal::Child => self.is_new_child(token),
            Terminal::Twice | Terminal::EndRule => !self.is_twice(),
            _ => true,
        }
    }

    fn read(&mut self, terminal: Terminal, token: &Lexeme<'_>) -> Result<(), OutOfMemory> {
        match terminal {
            Terminal::Name => self.set_name(token),
            Terminal::NewRegister => self.add_register(token)?,
            Terminal::Start => self.set_start(value_of(token.text())),
            Terminal::NewQueue => self.add_queue(token)?,
            Terminal::Object => self.set_object(value_of(token.text()) as u32),
            Terminal::RuleName => self.set_rule_name(token),
            Terminal::Child => self.set_child(value_of(token.text()) as u32),
            Terminal::Spontaneous => self.set_spontaneous(),
            Terminal::Never => self.add_never()?,
            Terminal::TestRegister(_) => self.test_register(token),
            Terminal::Differs => self.set_differs(),
            Terminal::TestNumber(role) => self.number_test(role, value_of(token.text()))?,
            Terminal::HeadQueue => self.test_head(token),
            Terminal::HeadId(role) => self.id_test(role, value_of(token.text()) as u32)?,
            Terminal::LosingQueue => self.add_loss(token)?,
            Terminal::WrittenRegister => self.write_register(token),
            Terminal::GainingQueue => self.send_to(token),
            Terminal::SentId => self.set_sent_id(value_of(token.text()) as u32),
            Terminal::Value(ValuePart::Number) => self.number_value(value_of(token.text()))?,
            Terminal::Value(ValuePart::Register) => self.register_value(token)?,
            Terminal::Value(ValuePart::Queue) => self.head_value(token)?,
            Terminal::EndRule => self.end_rule()?,
            _ => {}
        }
        Ok(())
    }
}
