//! A text that grows at its end.

ghost use Rattle.std.specs.Prelude.{◌≡◌, [], ◌++◌, IfOk, OnOk, OnErr, IsTrue, codes, decimal};
ghost use Rattle.std.specs.String.{string_bytes};
ghost use Rattle.hem_base.specs.Words.{word_bytes, is_word_text};

use hem_base::{Name, OutOfMemory, Reserved, word_bytes};
use itoa::Buffer;
use std::alloc::Global;
use std::marker::Model;

/// A text that grows at its end, seen as its bytes. Where an append fails for want of memory, the text stays as it was.
#[derive(Drop)]
pub struct Output {
    bytes: Vec<u8>,
}

impl Model for Output {
    ghost use Rattle.std.specs.Prelude.{List, ℕ};
    ghost use Rattle.std.specs.Str.{IsUtf8};

    ghost Value = { List ℕ };

    ghost view = { λ o. o.bytes.items };

    ghost invariant = { λ o. IsUtf8 o.bytes.items };
}

impl Output {
    /// The empty text. It takes no memory.
    pub fn new(alloc: Global) -> Output
        ensures { result ≡ [] }
    {
        Output {
            bytes: Vec::new(alloc),
        }
    }

    /// The empty text, with room for so many bytes. A text that stays within it isn't moved as it grows.
    pub fn with_room(alloc: Global, bytes: usize) -> Result<Output, OutOfMemory>
        ensures { IfOk result (λ output. output ≡ []) }
    {
        Ok(Output {
            bytes: Vec::with_capacity(alloc, bytes)?,
        })
    }

    /// The text. It takes no memory.
    pub fn into_string(self) -> String
        ensures { string_bytes result ≡ self }
    {
        // What was appended is UTF-8, and so is the whole: it needn't be looked at again.
        unsafe { String::from_utf8_unchecked(self.bytes) }
    }

    /// Appends a text.
    pub fn text(&mut self, text: &str) -> Result<(), OutOfMemory>
        ensures ok { OnOk result (self.new ≡ self.old ++ text.now) }
        ensures err { OnErr result (self.new ≡ self.old) }
    {
        self.bytes.extend_from_slice(text.as_bytes())?;
        Ok(())
    }

    /// Appends a number in decimal.
    pub fn number(&mut self, number: u64) -> Result<(), OutOfMemory>
        ensures ok { OnOk result (self.new ≡ self.old ++ decimal number) }
        ensures err { OnErr result (self.new ≡ self.old) }
    {
        let mut buffer = Buffer::new();
        self.text(buffer.format(number))
    }

    /// Appends a word: letters, digits and `_`, of which the first is a letter.
    fn letters(&mut self, word: &[u8]) -> Result<(), OutOfMemory>
        requires { IsTrue (is_word_text word.now) }
        ensures ok { OnOk result (self.new ≡ self.old ++ word.now) }
        ensures err { OnErr result (self.new ≡ self.old) }
    {
        self.bytes.extend_from_slice(word)?;
        Ok(())
    }

    /// Appends a name that is a word, as every declared name is.
    pub fn name(&mut self, name: &Name) -> Result<(), OutOfMemory>
        requires { IsTrue (is_word_text name.now) }
        ensures ok { OnOk result (self.new ≡ self.old ++ name.now) }
        ensures err { OnErr result (self.new ≡ self.old) }
    {
        self.letters(name.as_bytes())
    }

    /// Appends a reserved word.
    pub fn word(&mut self, word: Reserved) -> Result<(), OutOfMemory>
        ensures ok { OnOk result (self.new ≡ self.old ++ word_bytes word) }
        ensures err { OnErr result (self.new ≡ self.old) }
    {
        self.letters(word_bytes(word))
    }

    /// Ends a line.
    pub fn end_line(&mut self) -> Result<(), OutOfMemory>
        ensures ok { OnOk result (self.new ≡ self.old ++ codes "\n") }
        ensures err { OnErr result (self.new ≡ self.old) }
    {
        self.text("\n")
    }
}
