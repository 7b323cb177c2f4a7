//! An object of a text's lines and a status.

ghost use Rattle.std.specs.Prelude.{◌≡◌, ◌++◌, ◌∷◌, ◌<◌, length, flat_map, codes, string_bytes, IfOk, OnOk};
ghost use Rattle.std.specs.List.{join_by};
ghost use Rattle.json.specs.Print.{quoted};
ghost use Rattle.hem_json.specs.Form.{lines_of, json_text};

use hem_base::OutOfMemory;
use hem_output::Output;
use std::alloc::Global;

/// The first line of a text that isn't empty, without its line feed, and what comes after it.
fn first_line(text: &str) -> (&str, &str)
    ensures first { 0 < length text.now → lines_of text.now ≡ result.0.now ∷ lines_of result.1.now }
    ensures less { 0 < length text.now → length result.1.now < length text.now }
{
    match text.split_once('\n') {
        Some((line, after)) => (line, after),
        None => (text, ""),
    }
}

/// Appends a line as a string.
fn append_line(alloc: Global, out: &mut Output, line: &str) -> Result<(), OutOfMemory>
    ensures { OnOk result (out.new ≡ out.old ++ quoted line.now) }
{
    match serde_json::to_string(alloc, &line) {
        Ok(string) => out.text(&string),
        Err(_) => Err(OutOfMemory),
    }
}

/// Appends the lines of a text as the later items of an array, each with a comma before it.
fn append_later(alloc: Global, out: &mut Output, text: &str) -> Result<(), OutOfMemory>
    ensures { OnOk result (out.new ≡ out.old ++ flat_map (λ line. codes "," ++ quoted line) (lines_of text.now)) }
{
    let mut rest = text;
    while !rest.is_empty() {
        let (line, after) = first_line(rest);
        out.text(",")?;
        append_line(alloc, out, line)?;
        rest = after;
    }
    Ok(())
}

/// Appends the lines of a text as the items of an array.
fn append_lines(alloc: Global, out: &mut Output, text: &str) -> Result<(), OutOfMemory>
    ensures { OnOk result (out.new ≡ out.old ++ join_by quoted (codes ",") (lines_of text.now)) }
{
    if text.is_empty() {
        return Ok(());
    }
    let (line, after) = first_line(text);
    append_line(alloc, out, line)?;
    append_later(alloc, out, after)
}

/// The JSON form of a text with its status: an object of its lines, without their line feeds, and the status, and then
/// a line feed. It grows line by line, and nothing else grows with the text.
pub fn json(alloc: Global, text: &str, status: u8) -> Result<String, OutOfMemory>
    ensures { IfOk result (λ form. string_bytes form ≡ json_text text.now status) }
{
    let mut out = Output::new(alloc);
    out.text("{\"lines\":[")?;
    append_lines(alloc, &mut out, text)?;
    out.text("],\"status\":")?;
    out.number(status as u64)?;
    out.text("}\n")?;
    Ok(out.into_string())
}
