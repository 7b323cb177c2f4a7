//! Lawful works.

ghost use Rattle.std.specs.Prelude.{◌≡◌, ◌≤◌, IfOk, IfErr, OnOk, None, length};
ghost use Rattle.hem_work.specs.Work.{requests_of, requests_on, requests_in_all};
ghost use Rattle.hem_work.specs.Limits.{most_requests};
ghost use Rattle.hem_work.specs.Lawful.{IsLawfulWork};
ghost use Rattle.hem_work.specs.Building.{work_of, first_fault, IsWorkRefused};
ghost use Rattle.hem_work.specs.Made.{made, made_fault, IsMakingRefused};

use crate::faults::first_fault;
use crate::made::{choices_of, fault_with, generated_count, rows_with};
use crate::raw::RawWork;
use crate::rows::rows_of;
use hem_base::{LineId, List, Message, ObjectId};
use hem_syntax::Protocol;
use hem_text::Place;
use hem_tree::{SetupError, Tree};
use std::alloc::Global;
use std::marker::Model;

/// A lawful work: how many lines there are, how many firings of self rules each object may make on each line, and the
/// requests of each leaf on each line, in order. It keeps the place of the word `work` of its text.
#[derive(Debug, Drop)]
pub struct Work {
    place: Place,
    lines: u32,
    self_count: u32,
    requests: List<List<List<Message>>>,
}

impl Model for Work {
    ghost use Rattle.hem_work.specs.Work.{Work as Described};

    ghost Value = { Described };

    ghost view = { λ w. record { place = w.place; lines = w.lines; self_count = w.self_count; requests = w.requests } };
}

/// How many requests a line has.
fn requests_on(row: &[List<Message>]) -> usize
    requires { requests_on row.now ≤ most_requests }
    ensures { result ≡ requests_on row.now }
{
    let mut count = 0;
    for list in row {
        count += list.len();
    }
    count
}

impl Work {
    /// The work of the text, where it is lawful. Entries of one leaf and line add up in the order of the text. An answer
    /// `Setup` is the first rule that is broken: the number of lines, the number of self firings, then entry by entry its
    /// object, its line, and request by request its class and the number of requests, and last what the work may start.
    pub fn build(
        alloc: Global,
        raw: &RawWork,
        p: &Protocol,
        tree: &Tree,
    ) -> Result<Work, SetupError>
        ensures data { IfOk result (λ work. work ≡ work_of raw.now (length tree.now)) }
        ensures faultless { OnOk result (first_fault raw.now p.now tree.now ≡ None) }
        ensures lawful { IfOk result (IsLawfulWork p.now tree.now) }
        ensures refused { IfErr result (IsWorkRefused raw.now p.now tree.now) }
    {
        if let Some(fault) = first_fault(raw, p, tree) {
            return Err(SetupError::Setup(fault));
        }
        let (lines, _) = raw.lines;
        let requests = rows_of(alloc, raw.entries.as_slice(), lines, tree.objects())?;
        Ok(Work {
            place: raw.place,
            lines,
            self_count: raw.self_count.0,
            requests,
        })
    }

    /// The work with so many generated requests after its own. A seed starts the generator of draws. Request k, counted from
    /// 1, takes three draws: its leaf is the first modulo the number of leaves, its line the second modulo the number of lines,
    /// and its id the third modulo the number of ids of requests of a processor, in order of declaration. Its value is k.
    /// A protocol without such ids gets no requests. An answer `Setup` stands at the word `work` of the text: there are
    /// too many requests in all, or else they may start too much.
    pub fn make(
        &self,
        alloc: Global,
        p: &Protocol,
        tree: &Tree,
        count: u32,
        seed: u64,
    ) -> Result<Work, SetupError>
        requires { IsLawfulWork p.now tree.now self.now }
        ensures data { IfOk result (λ work. work ≡ made p.now tree.now self.now count seed) }
        ensures faultless { OnOk result (made_fault p.now tree.now self.now count ≡ None) }
        ensures lawful { IfOk result (IsLawfulWork p.now tree.now) }
        ensures refused { IfErr result (IsMakingRefused p.now tree.now self.now count) }
    {
        let choices = choices_of(alloc, p, tree, self.lines)?;
        let count = generated_count(&choices, count);
        if let Some(fault) = fault_with(self, p, tree, count) {
            return Err(SetupError::Setup(fault));
        }
        let requests = rows_with(alloc, self, tree.objects(), &choices, count, seed)?;
        Ok(Work {
            place: self.place,
            lines: self.lines,
            self_count: self.self_count,
            requests,
        })
    }

    /// The place of the word `work` of its text.
    pub(crate) fn place(&self) -> Place
        ensures { result ≡ self.now.place }
    {
        self.place
    }

    /// How many requests there are in all.
    pub(crate) fn request_count(&self) -> usize
        requires { requests_in_all self.now ≤ most_requests }
        ensures { result ≡ requests_in_all self.now }
    {
        let mut count = 0;
        for row in self.requests.as_slice() {
            count += requests_on(row.as_slice());
        }
        count
    }

    /// The requests of each line, by object.
    pub fn by_line(&self) -> &[List<List<Message>>]
        ensures { result.now ≡ self.now.requests }
    {
        self.requests.as_slice()
    }

    pub fn lines(&self) -> u32
        ensures { result ≡ self.now.lines }
    {
        self.lines
    }

    /// How many firings of self rules each object may make on each line.
    pub fn self_count(&self) -> u32
        ensures { result ≡ self.now.self_count }
    {
        self.self_count
    }

    /// The requests of a leaf on a line, in order. There are none where there is no such leaf or line. It takes no memory.
    pub fn requests(&self, leaf: ObjectId, line: LineId) -> &[Message]
        ensures { result.now ≡ requests_of self.now line.0 leaf.0 }
    {
        match self.requests.get(line.0 as usize) {
            Some(row) => match row.get(leaf.0 as usize) {
                Some(list) => list.as_slice(),
                None => &[],
            },
            None => &[],
        }
    }
}
