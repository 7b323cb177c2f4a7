//! A protocol as far as it has been read.

ghost use Rattle.std.specs.Prelude.{◌≡◌, IfOk, IsTrue, [], None};
ghost use Rattle.hem_syntax.specs.Protocol.{empty_part};
ghost use Rattle.hem_grammar.specs.Draft.{is_short, status, message, field, rule_id, is_status, is_message, is_field, is_among, place_among, no_rule, nothing, kind_read};

use hem_base::{List, MsgId, Name, OutOfMemory, RuleId, Status8};
use hem_syntax::{Class, Hold, KindPart, Named, Names, Need, Rule, SendTo, Take};
use hem_text::Lexeme;
use std::alloc::Global;
use std::marker::Model;
use std::mem;

/// What has been read of a protocol: its name and declarations, the finished root and mid, the kind that is being read,
/// and its rule that is being read.
#[derive(Debug, Drop)]
pub struct Draft {
    pub(crate) alloc: Global,
    pub(crate) name: Name,
    pub(crate) statuses: Names,
    pub(crate) messages: Named<Class>,
    pub(crate) rule_names: Names,
    pub(crate) root: KindPart,
    pub(crate) mid: KindPart,
    pub(crate) fields: List<(Name, Status8)>,
    pub(crate) dir: Option<Status8>,
    pub(crate) rules: List<Rule>,
    pub(crate) rule: Rule,
}

impl Model for Draft {
    ghost use Rattle.std.specs.Prelude.{◌≤◌, length};
    ghost use Rattle.hem_grammar.specs.Draft.{Read};

    ghost Value = { Read };

    ghost view = { λ d. record {
      name = d.name;
      statuses = d.statuses;
      messages = d.messages;
      rule_names = d.rule_names;
      root = d.root;
      mid = d.mid;
      fields = d.fields;
      dir = d.dir;
      rules = d.rules;
      rule = d.rule;
    } };

    ghost invariant = { λ d. (length d.statuses ≤ 4) × (length d.messages ≤ 64) × (length d.fields ≤ 3) };
}

/// The name of a text that has the length of one.
pub fn name_of(text: &[u8]) -> Name
    requires { IsTrue (is_short text.now) }
    ensures { result ≡ text.now }
{
    Name::from_slice(text).unwrap()
}

/// A rule of which nothing is read.
pub fn no_rule(alloc: Global) -> Rule
    ensures { result ≡ no_rule }
{
    Rule {
        name: RuleId(0),
        take: Take::Nothing,
        need: Need {
            up: Hold::Any,
            down: Hold::Any,
        },
        guard: List::new(alloc),
        sets: List::new(alloc),
        free: None,
        lock: None,
        send: SendTo::Nothing,
    }
}

fn empty_part(alloc: Global) -> KindPart
    ensures { result ≡ empty_part }
{
    KindPart {
        fields: List::new(alloc),
        dir: None,
        rules: List::new(alloc),
    }
}

/// Nothing is read yet.
pub fn nothing(alloc: Global) -> Draft
    ensures { result ≡ nothing }
{
    Draft {
        alloc,
        name: name_of(b"protocol"),
        statuses: Names::new(alloc),
        messages: Named::new(alloc),
        rule_names: Names::new(alloc),
        root: empty_part(alloc),
        mid: empty_part(alloc),
        fields: List::new(alloc),
        dir: None,
        rules: List::new(alloc),
        rule: no_rule(alloc),
    }
}

fn place_among(fields: &[(Name, Status8)], text: &[u8]) -> Option<usize>
    ensures { result ≡ place_among fields.now text.now }
{
    fields.iter().position(|f| f.0.as_bytes() == text)
}

/// Whether a field of that name is declared.
pub fn is_among(fields: &[(Name, Status8)], text: &[u8]) -> bool
    ensures { result ≡ is_among fields.now text.now }
{
    fields.iter().any(|f| f.0.as_bytes() == text)
}

impl Draft {
    pub(crate) fn status(&self, text: &[u8]) -> Status8
        ensures { result ≡ status self.now text.now }
    {
        let place = self.statuses.place(text).unwrap_or(0);
        Status8(place as u8)
    }

    pub(crate) fn message(&self, text: &[u8]) -> MsgId
        ensures { result ≡ message self.now text.now }
    {
        let place = self.messages.place(text).unwrap_or(0);
        MsgId(place as u32)
    }

    pub(crate) fn field(&self, text: &[u8]) -> u8
        ensures { result ≡ field self.now text.now }
    {
        let place = place_among(self.fields.as_slice(), text).unwrap_or(0);
        place as u8
    }

    /// The place of a rule's name among all, which is the next one where no rule has it yet.
    pub(crate) fn rule_place(&self, text: &[u8]) -> usize
        ensures { result ≡ (rule_id self.now text.now).0 }
    {
        let next = self.rule_names.len();
        self.rule_names.place(text).unwrap_or(next)
    }

    pub(crate) fn rule_id(&self, text: &[u8]) -> Result<RuleId, OutOfMemory>
        ensures { IfOk result (λ id. id ≡ rule_id self.now text.now) }
    {
        match u32::try_from(self.rule_place(text)) {
            Ok(id) => Ok(RuleId(id)),
            // So many names don't fit into memory.
            Err(_) => Err(OutOfMemory),
        }
    }

    pub(crate) fn is_status(&self, token: &Lexeme<'_>) -> bool
        ensures { result ≡ is_status self.now token.now }
    {
        token.is_word() && self.statuses.has(token.text())
    }

    pub(crate) fn is_message(&self, token: &Lexeme<'_>) -> bool
        ensures { result ≡ is_message self.now token.now }
    {
        token.is_word() && self.messages.has(token.text())
    }

    pub(crate) fn is_field(&self, token: &Lexeme<'_>) -> bool
        ensures { result ≡ is_field self.now token.now }
    {
        token.is_word() && is_among(self.fields.as_slice(), token.text())
    }

    /// Takes out the kind that has been read.
    pub(crate) fn take_kind(&mut self) -> KindPart
        ensures kind { result ≡ kind_read self.old }
        ensures left { self.new ≡ record self.old { fields = []; dir = None; rules = [] } }
    {
        let fields = mem::replace(&mut self.fields, List::new(self.alloc));
        let rules = mem::replace(&mut self.rules, List::new(self.alloc));
        let dir = self.dir;
        self.dir = None;
        KindPart { fields, dir, rules }
    }

    /// Takes out the rule that has been read.
    pub(crate) fn take_rule(&mut self) -> Rule
        ensures rule { result ≡ self.old.rule }
        ensures left { self.new ≡ record self.old { rule = no_rule } }
    {
        let next = no_rule(self.alloc);
        mem::replace(&mut self.rule, next)
    }
}
