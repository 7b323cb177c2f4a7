//! Modules as far as they have been read.

ghost use Rattle.std.specs.Prelude.{◌≡◌, ◌-◌, length, slice_get, unwrap_or, IsTrue, OnOk, OnErr};
ghost use Rattle.hem_modtext.specs.Draft.{is_short, is_declared, is_register, is_queue, register_of, queue_of, stands_already, is_twice, key_with, nothing};

use crate::key::RuleKey;
use hem_base::{List, Name};
use hem_module::{Act, Action, ModAtom, ModClause, ModRule, Modules};
use hem_syntax::{Named, Names};
use hem_text::Lexeme;
use indexmap::IndexSet;
use std::alloc::Global;
use std::marker::Model;

/// What has been read of modules: the finished registers, queues and rules, by what each rule is told apart, and the
/// parts of the rule that is being read. It keeps that what is finished may be written.
#[derive(Debug, Drop)]
pub struct Draft {
    pub(crate) alloc: Global,
    pub(crate) name: Name,
    pub(crate) regs: Named<u64>,
    pub(crate) queues: Names,
    pub(crate) rules: List<ModRule>,
    pub(crate) keys: IndexSet<RuleKey>,
    pub(crate) object: u32,
    pub(crate) rule_name: Name,
    pub(crate) from: Option<u32>,
    pub(crate) spontaneous: bool,
    pub(crate) clauses: List<ModClause>,
    pub(crate) actions: List<Action>,
    pub(crate) cond: List<ModAtom>,
    pub(crate) atom: Option<ModAtom>,
    pub(crate) act: Option<Act>,
}

impl Model for Draft {
    ghost use Rattle.hem_modtext.specs.Draft.{Read};
    ghost use Rattle.hem_modtext.specs.Sound.{IsSound};

    ghost Value = { Read };

    ghost view = { λ d. record {
      name = d.name;
      regs = d.regs;
      queues = d.queues;
      rules = d.rules;
      keys = d.keys.keys;
      object = d.object;
      rule_name = d.rule_name;
      from = d.from;
      spontaneous = d.spontaneous;
      clauses = d.clauses;
      actions = d.actions;
      cond = d.cond;
      atom = d.atom;
      act = d.act;
    } };

    ghost invariant = { λ d. IsSound (record {
      name = d.name;
      regs = d.regs;
      queues = d.queues;
      rules = d.rules;
      keys = d.keys.keys;
      object = d.object;
      rule_name = d.rule_name;
      from = d.from;
      spontaneous = d.spontaneous;
      clauses = d.clauses;
      actions = d.actions;
      cond = d.cond;
      atom = d.atom;
      act = d.act;
    }) };
}

/// The name of a text that has the length of one.
pub(crate) fn name_of(text: &[u8]) -> Name
    requires { IsTrue (is_short text.now) }
    ensures { result ≡ text.now }
{
    Name::from_slice(text).unwrap()
}

impl Draft {
    /// Nothing is read yet.
    pub(crate) fn new(alloc: Global) -> Draft
        ensures { result ≡ nothing }
    {
        Draft {
            alloc,
            name: name_of(b"m"),
            regs: Named::new(alloc),
            queues: Names::new(alloc),
            rules: List::new(alloc),
            keys: IndexSet::new(alloc),
            object: 0,
            rule_name: name_of(b"m"),
            from: None,
            spontaneous: false,
            clauses: List::new(alloc),
            actions: List::new(alloc),
            cond: List::new(alloc),
            atom: None,
            act: None,
        }
    }

    /// Whether a name is that of a register or of a queue.
    pub(crate) fn is_declared(&self, text: &[u8]) -> bool
        ensures { result ≡ is_declared self.now text.now }
    {
        self.regs.has(text) || self.queues.has(text)
    }

    /// Whether a token is a register.
    pub(crate) fn is_register(&self, token: &Lexeme<'_>) -> bool
        ensures { result ≡ is_register self.now token.now }
    {
        token.is_word() && self.regs.has(token.text())
    }

    /// Whether a token is a queue.
    pub(crate) fn is_queue(&self, token: &Lexeme<'_>) -> bool
        ensures { result ≡ is_queue self.now token.now }
    {
        token.is_word() && self.queues.has(token.text())
    }

    /// The register of that name.
    pub(crate) fn register_of(&self, text: &[u8]) -> usize
        ensures { result ≡ register_of self.now text.now }
    {
        self.regs.place(text).unwrap_or(0)
    }

    /// The queue of that name.
    pub(crate) fn queue_of(&self, text: &[u8]) -> usize
        ensures { result ≡ queue_of self.now text.now }
    {
        self.queues.place(text).unwrap_or(0)
    }

    /// By what the rule that is being read is told apart, with this child.
    pub(crate) fn key_with(&self, child: Option<u32>) -> RuleKey
        ensures { result ≡ key_with self.now child }
    {
        RuleKey {
            object: self.object,
            name: copy_of(&self.rule_name),
            from: child,
        }
    }

    /// Whether a rule of this object, name and child stands already.
    pub(crate) fn stands_already(&self, child: Option<u32>) -> bool
        ensures { result ≡ stands_already self.now (key_with self.now child) }
    {
        let key = self.key_with(child);
        let keys = &self.keys;
        keys.contains(&key)
    }

    /// Whether the rule that is being read stands already.
    pub(crate) fn is_twice(&self) -> bool
        ensures { result ≡ is_twice self.now }
    {
        self.stands_already(self.from)
    }
}

/// The same name once more.
pub(crate) fn copy_of(name: &Name) -> Name
    ensures { result ≡ name.now }
{
    Name::from_slice(name.as_bytes()).unwrap()
}
