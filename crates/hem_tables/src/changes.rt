//! Documents with names, and what a row changes in one.

use crate::cause::Cause;
use crate::escapes::{push_line, push_lines};
use std::alloc::Global;

/// A document with a name, as the lines of the table say it.
#[derive(Drop)]
pub(crate) struct Base<'t> {
    pub(crate) name: &'t str,
    pub(crate) lines: Vec<&'t str>,
}

/// Where a row changes its base.
#[derive(Clone, Copy)]
enum Place {
    /// In place of a line.
    Instead,
    /// Behind a line.
    Behind,
    /// A line is left out.
    Without,
}

/// A change at one line, counted from 1, and the lines that come there, with `/` between them.
#[derive(Clone, Copy)]
struct Change<'t> {
    place: Place,
    line: usize,
    text: &'t str,
}

fn number(text: &str) -> Result<usize, Cause> {
    match text.parse::<usize>() {
        Ok(number) => Ok(number),
        Err(_) => Err(Cause::Change),
    }
}

/// The place and the line of `4`, `4+`, `4-`, or of `+` behind the last line.
fn read_place(text: &str, last: usize) -> Result<(Place, usize), Cause> {
    if text == "+" {
        return Ok((Place::Behind, last));
    }
    if let Some(line) = text.strip_suffix('+') {
        return Ok((Place::Behind, number(line)?));
    }
    if let Some(line) = text.strip_suffix('-') {
        return Ok((Place::Without, number(line)?));
    }
    Ok((Place::Instead, number(text)?))
}

impl<'t> Change<'t> {
    /// The change that a text says, of a base with so many lines.
    fn read(text: &'t str, last: usize) -> Result<Self, Cause> {
        let (at, text) = text.split_once(':').ok_or(Cause::Change)?;
        let (place, line) = read_place(at.trim(), last)?;
        if line < 1 || line > last {
            return Err(Cause::NoPlace);
        }
        let text = text.trim();
        Ok(Change { place, line, text })
    }

    /// Whether the line of the base is left out.
    fn drops(self, line: usize) -> bool {
        match self.place {
            Place::Instead | Place::Without => line == self.line,
            Place::Behind => false,
        }
    }

    /// Whether lines come at this line of the base.
    fn adds(self, line: usize) -> bool {
        match self.place {
            Place::Instead | Place::Behind => line == self.line,
            Place::Without => false,
        }
    }
}

/// Appends the lines that come at a line of the base.
fn push_added(document: &mut Vec<u8>, changes: &[Change<'_>], line: usize) -> Result<(), Cause> {
    for change in changes {
        if change.adds(line) {
            push_lines(document, change.text)?;
        }
    }
    Ok(())
}

impl Base<'_> {
    /// Appends the whole document.
    pub(crate) fn push_to(&self, document: &mut Vec<u8>) -> Result<(), Cause> {
        for line in &self.lines {
            push_line(document, line)?;
        }
        Ok(())
    }

    /// Appends the document with changes.
    fn push_with(&self, document: &mut Vec<u8>, changes: &[Change<'_>]) -> Result<(), Cause> {
        for (at, text) in self.lines.iter().enumerate() {
            let line = at.saturating_add(1);
            if !changes.iter().any(|change| change.drops(line)) {
                push_line(document, text)?;
            }
            push_added(document, changes, line)?;
        }
        Ok(())
    }

    /// The document with the changes that a row says, with `;` between them.
    pub(crate) fn changed(&self, alloc: Global, text: &str) -> Result<Vec<u8>, Cause> {
        let mut changes = Vec::new(alloc);
        for one in text.split(';') {
            changes.push(Change::read(one, self.lines.len())?)?;
        }
        let mut document = Vec::new(alloc);
        self.push_with(&mut document, &changes)?;
        Ok(document)
    }

    /// The first bytes of the document.
    pub(crate) fn cut(&self, alloc: Global, bytes: &str) -> Result<Vec<u8>, Cause> {
        let bytes = number(bytes)?;
        let mut document = Vec::new(alloc);
        self.push_to(&mut document)?;
        if bytes > document.len() {
            return Err(Cause::NoPlace);
        }
        document.truncate(bytes);
        Ok(document)
    }
}
