//! The reading of a table.
//!
//! A line that begins with no blank begins a section; the lines of the section begin with blanks. Empty lines, and lines
//! whose first sign is `#`, say nothing.
//!
//! | section | its lines |
//! |---|---|
//! | `base NAME` | `| LINE`: the lines of a document that others begin with |
//! | `answer NAME` | `> LINE`: the lines of an answer that rows name |
//! | `case NAME => STATUS` | `words WORD..`, `over BASE`, `| LINE` of the document, `> LINE` of the answer |
//! | `rows WORD.. over BASE` | `NAME | CHANGES => STATUS ANSWER`: the base with changes |
//! | `whole WORD..` | `NAME | DOCUMENT => STATUS ANSWER`: a whole document, with `/` for a line feed |
//! | `cuts WORD.. over BASE` | `BYTES=LINE:COLUMN ..`: the first bytes of the base, and where more is expected; or `..=CAUSE` |
//!
//! A change is `N: LINES` (in place of line N), `N+: LINES` (behind it), `N-:` (without it) or `+: LINES` (at the end), with
//! `/` between lines; `;` stands between changes. An answer of a row is lines with `/` between them, or `[NAME]`. The escapes
//! are those of the module `escapes`.

use crate::cause::{Cause, Fault};
use crate::changes::Base;
use crate::escapes::{push_document, push_line, push_lines};
use hem_cli::Status;
use std::alloc::Global;

/// An answer with a name.
#[derive(Drop)]
struct Named<'t> {
    name: &'t str,
    text: Vec<u8>,
}

/// A document, and what the program is to answer to it.
#[derive(Drop)]
pub(crate) struct Case<'t> {
    /// The line of the table at which it stands.
    pub(crate) line: usize,
    pub(crate) name: &'t str,
    /// The words after the program's name, with blanks between them.
    pub(crate) words: &'t str,
    pub(crate) document: Vec<u8>,
    pub(crate) status: u8,
    pub(crate) text: Vec<u8>,
}

/// The words of a section's cases, and the place of the base on which they stand.
#[derive(Clone, Copy)]
struct Over<'t> {
    words: &'t str,
    base: usize,
}

/// What the lines of a section are.
#[derive(Clone, Copy)]
enum Section<'t> {
    /// There was no section so far.
    None,
    Base,
    Answer,
    Case,
    Rows(Over<'t>),
    Whole(&'t str),
    Cuts(Over<'t>),
}

/// A row: the name, what stands before the arrow, and the status and the answer behind it.
#[derive(Clone, Copy)]
struct Row<'t> {
    line: usize,
    name: &'t str,
    what: &'t str,
    status: u8,
    answer: &'t str,
}

fn status(text: &str) -> Result<u8, Cause> {
    match text.trim().parse::<u8>() {
        Ok(status) => Ok(status),
        Err(_) => Err(Cause::Status),
    }
}

fn read_row(line: usize, text: &str) -> Result<Row<'_>, Cause> {
    let (name, rest) = text.split_once('|').ok_or(Cause::Row)?;
    let (what, wanted) = rest.rsplit_once("=>").ok_or(Cause::Row)?;
    let (number, answer) = wanted.trim().split_once(' ').ok_or(Cause::Row)?;
    Ok(Row {
        line,
        name: name.trim(),
        what: what.trim(),
        status: status(number)?,
        answer: answer.trim(),
    })
}

/// What stands behind a mark and one blank.
fn marked(text: &str, mark: char) -> Option<&str> {
    let rest = text.strip_prefix(mark)?;
    Some(rest.strip_prefix(' ').unwrap_or(rest))
}

/// The name in brackets.
fn bracketed(text: &str) -> Option<&str> {
    text.strip_prefix('[')?.strip_suffix(']')
}

/// A word, and what stands behind it.
fn first_word(text: &str) -> (&str, &str) {
    text.split_once(' ').unwrap_or((text, ""))
}

fn says_nothing(text: &str) -> bool {
    let said = text.trim();
    said.is_empty() || said.starts_with('#')
}

/// What was read of a table: its cases, and what they stand on.
#[derive(Drop)]
pub(crate) struct Table<'t> {
    alloc: Global,
    bases: Vec<Base<'t>>,
    answers: Vec<Named<'t>>,
    cases: Vec<Case<'t>>,
    section: Section<'t>,
}

impl<'t> Table<'t> {
    /// Reads a whole table, or tells its first line that can't be read.
    pub(crate) fn read(alloc: Global, text: &'t str) -> Result<Self, Fault> {
        let mut table = Table {
            alloc,
            bases: Vec::new(alloc),
            answers: Vec::new(alloc),
            cases: Vec::new(alloc),
            section: Section::None,
        };
        for (at, line) in text.lines().enumerate() {
            let number = at.saturating_add(1);
            if let Err(cause) = table.line(number, line) {
                return Err(Fault::at(number, cause));
            }
        }
        Ok(table)
    }

    /// The cases, in order.
    pub(crate) fn cases(&self) -> &[Case<'t>] {
        &self.cases
    }

    fn line(&mut self, number: usize, text: &'t str) -> Result<(), Cause> {
        if says_nothing(text) {
            return Ok(());
        }
        if text.starts_with(' ') {
            return self.body(number, text.trim_start());
        }
        self.section = self.heading(number, text.trim())?;
        Ok(())
    }

    /// Begins a section.
    fn heading(&mut self, number: usize, text: &'t str) -> Result<Section<'t>, Cause> {
        let (sort, rest) = first_word(text);
        match sort {
            "base" => self.base(rest),
            "answer" => self.answer(rest),
            "case" => self.case(number, rest),
            "rows" => Ok(Section::Rows(self.over(rest)?)),
            "whole" => Ok(Section::Whole(rest)),
            "cuts" => Ok(Section::Cuts(self.over(rest)?)),
            _ => Err(Cause::Heading),
        }
    }

    fn base(&mut self, name: &'t str) -> Result<Section<'t>, Cause> {
        if self.bases.iter().any(|base| base.name == name) {
            return Err(Cause::Repeated);
        }
        let lines = Vec::new(self.alloc);
        self.bases.push(Base { name, lines })?;
        Ok(Section::Base)
    }

    fn answer(&mut self, name: &'t str) -> Result<Section<'t>, Cause> {
        if self.answers.iter().any(|answer| answer.name == name) {
            return Err(Cause::Repeated);
        }
        let text = Vec::new(self.alloc);
        self.answers.push(Named { name, text })?;
        Ok(Section::Answer)
    }

    fn case(&mut self, line: usize, text: &'t str) -> Result<Section<'t>, Cause> {
        let (name, number) = text.rsplit_once("=>").ok_or(Cause::Heading)?;
        let status = status(number)?;
        self.cases.push(Case {
            line,
            name: name.trim(),
            words: "",
            document: Vec::new(self.alloc),
            status,
            text: Vec::new(self.alloc),
        })?;
        Ok(Section::Case)
    }

    fn place_of(&self, name: &str) -> Result<usize, Cause> {
        match self.bases.iter().position(|base| base.name == name) {
            Some(place) => Ok(place),
            None => Err(Cause::NoBase),
        }
    }

    /// The words of a section's cases, and the base on which they stand.
    fn over(&self, text: &'t str) -> Result<Over<'t>, Cause> {
        let (words, name) = text.rsplit_once("over ").ok_or(Cause::Heading)?;
        let base = self.place_of(name)?;
        Ok(Over { words, base })
    }

    /// Reads a line of the section.
    fn body(&mut self, number: usize, text: &'t str) -> Result<(), Cause> {
        match self.section {
            Section::None => Err(Cause::Line),
            Section::Base => self.base_line(text),
            Section::Answer => self.answer_line(text),
            Section::Case => self.case_line(text),
            Section::Rows(over) => self.changed(over, read_row(number, text)?),
            Section::Whole(words) => self.whole(words, read_row(number, text)?),
            Section::Cuts(over) => self.cuts(number, over, text),
        }
    }

    fn base_line(&mut self, text: &'t str) -> Result<(), Cause> {
        let line = marked(text, '|').ok_or(Cause::Line)?;
        let base = self.bases.last_mut().ok_or(Cause::Line)?;
        base.lines.push(line)?;
        Ok(())
    }

    fn answer_line(&mut self, text: &str) -> Result<(), Cause> {
        let line = marked(text, '>').ok_or(Cause::Line)?;
        let answer = self.answers.last_mut().ok_or(Cause::Line)?;
        push_line(&mut answer.text, line)
    }

    fn case_line(&mut self, text: &'t str) -> Result<(), Cause> {
        let case = self.cases.last_mut().ok_or(Cause::Line)?;
        if let Some(line) = marked(text, '|') {
            return push_line(&mut case.document, line);
        }
        if let Some(line) = marked(text, '>') {
            return push_line(&mut case.text, line);
        }
        let (sort, rest) = first_word(text);
        match sort {
            "words" => {
                case.words = rest;
                Ok(())
            }
            "over" => self.begin(rest),
            _ => Err(Cause::Line),
        }
    }

    /// Begins the document of the last case with a base.
    fn begin(&mut self, name: &str) -> Result<(), Cause> {
        let place = self.place_of(name)?;
        let base = self.bases.get(place).ok_or(Cause::NoBase)?;
        let case = self.cases.last_mut().ok_or(Cause::Line)?;
        base.push_to(&mut case.document)
    }

    /// The answer that a row says: lines, or the name of an answer.
    fn wanted(&self, answer: &str) -> Result<Vec<u8>, Cause> {
        if let Some(name) = bracketed(answer) {
            let found = self.answers.iter().find(|one| one.name == name);
            let named = found.ok_or(Cause::NoAnswer)?;
            return Ok(named.text.clone()?);
        }
        let mut text = Vec::new(self.alloc);
        push_lines(&mut text, answer)?;
        Ok(text)
    }

    /// Adds the case of a row.
    fn add(&mut self, words: &'t str, document: Vec<u8>, row: Row<'t>) -> Result<(), Cause> {
        let text = self.wanted(row.answer)?;
        self.cases.push(Case {
            line: row.line,
            name: row.name,
            words,
            document,
            status: row.status,
            text,
        })?;
        Ok(())
    }

    fn changed(&mut self, over: Over<'t>, row: Row<'t>) -> Result<(), Cause> {
        let base = self.bases.get(over.base).ok_or(Cause::NoBase)?;
        let document = base.changed(self.alloc, row.what)?;
        self.add(over.words, document, row)
    }

    fn whole(&mut self, words: &'t str, row: Row<'t>) -> Result<(), Cause> {
        let mut document = Vec::new(self.alloc);
        push_document(&mut document, row.what)?;
        self.add(words, document, row)
    }

    fn cuts(&mut self, number: usize, over: Over<'t>, text: &'t str) -> Result<(), Cause> {
        for one in text.split_whitespace() {
            self.cut(number, over, one)?;
        }
        Ok(())
    }

    /// Adds the case of one cut: there more is expected, unless another cause is named.
    fn cut(&mut self, line: usize, over: Over<'t>, name: &'t str) -> Result<(), Cause> {
        let (bytes, wanted) = name.split_once('=').ok_or(Cause::Row)?;
        let (place, cause) = wanted.split_once('=').unwrap_or((wanted, "expected"));
        let base = self.bases.get(over.base).ok_or(Cause::NoBase)?;
        let document = base.cut(self.alloc, bytes)?;
        let text = format!(in self.alloc; "text {place} {cause}\n")?;
        self.cases.push(Case {
            line,
            name,
            words: over.words,
            document,
            status: Status::Text.code(),
            text: text.into_bytes(),
        })?;
        Ok(())
    }
}
