//! Trees as texts.

ghost use Rattle.std.specs.Prelude.{◌≡◌, ◌<◌, ◌++◌, length, replicate, OnOk, IfOk, string_bytes};
ghost use Rattle.hem_tree.specs.Grammar.{word_of};
ghost use Rattle.hem_worktext.specs.ReadsBack.{TreeTextReads};
ghost use Rattle.hem_worktext.specs.TreeText.{level_after, gap_after, after_word, object_text, tree_text};

use hem_base::{Kind, ObjectId, OutOfMemory, Reserved};
use hem_output::Output;
use hem_tree::Tree;
use std::alloc::Global;

/// The word of a kind of objects.
fn word_of(kind: Kind) -> Reserved
    ensures { result ≡ word_of kind }
{
    match kind {
        Kind::Root => Reserved::Root,
        Kind::Mid => Reserved::Mid,
        Kind::Leaf => Reserved::Leaf,
    }
}

/// The level of the object after this one, and 1 after the last.
fn level_after(tree: &Tree, o: ObjectId) -> u32
    requires { o.0 < length tree.now }
    ensures { result ≡ level_after tree.now o.0 }
{
    let objects = tree.objects();
    let next = o.0 + 1;
    if next < objects {
        tree.depth(ObjectId(next))
    } else {
        1
    }
}

/// Closes so many families.
fn close(output: &mut Output, count: u32) -> Result<(), OutOfMemory>
    ensures { OnOk result (output.new ≡ output.old ++ replicate count 41) }
{
    for _ in 0..count {
        output.text(")")?;
    }
    Ok(())
}

/// Appends the space before the next object, where there is one.
fn write_gap(output: &mut Output, tree: &Tree, o: ObjectId) -> Result<(), OutOfMemory>
    requires { o.0 < length tree.now }
    ensures { OnOk result (output.new ≡ output.old ++ gap_after tree.now o.0) }
{
    let objects = tree.objects();
    let next = o.0 + 1;
    if next < objects {
        return output.text(" ");
    }
    Ok(())
}

/// Appends what stands after an object's word.
fn write_after(output: &mut Output, tree: &Tree, o: ObjectId, kind: Kind) -> Result<(), OutOfMemory>
    requires { o.0 < length tree.now }
    ensures { OnOk result (output.new ≡ output.old ++ after_word tree.now o.0 kind) }
{
    match kind {
        Kind::Leaf => {
            close(output, tree.depth(o).saturating_sub(level_after(tree, o)))?;
            write_gap(output, tree, o)
        }
        Kind::Root | Kind::Mid => output.text("("),
    }
}

/// Appends an object.
fn write_object(output: &mut Output, tree: &Tree, o: ObjectId) -> Result<(), OutOfMemory>
    requires { o.0 < length tree.now }
    ensures { OnOk result (output.new ≡ output.old ++ object_text tree.now o.0) }
{
    let kind = tree.kind(o);
    output.word(word_of(kind))?;
    write_after(output, tree, o, kind)
}

/// The canonical text of a tree, a line: `tree root(mid(leaf leaf) leaf)`. It reads as that tree.
pub fn tree_text(alloc: Global, tree: &Tree) -> Result<String, OutOfMemory>
    ensures text { IfOk result (λ text. string_bytes text ≡ tree_text tree.now) }
    ensures reads_back { OnOk result (TreeTextReads tree.now) }
{
    let objects = tree.objects();
    let mut output = Output::new(alloc);
    output.text("tree ")?;
    for o in 0..objects {
        write_object(&mut output, tree, ObjectId(o))?;
    }
    output.end_line()?;
    Ok(output.into_string())
}
