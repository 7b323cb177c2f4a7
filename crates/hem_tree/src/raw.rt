//! Trees as their text gives them.

ghost use Rattle.std.specs.Prelude.{◌≡◌, IfOk, IfErr, OnErr};
ghost use Rattle.hem_text.specs.Grammars.{state};
ghost use Rattle.hem_text.specs.Faults.{IsFirstFault};
ghost use Rattle.hem_tree.specs.Grammar.{start, grammar, nothing};
ghost use Rattle.hem_tree.specs.Raw.{IsRawTree};
ghost use Rattle.hem_tree.specs.TreeReading.{ReadsTree};

use crate::draft::{nothing, start};
use hem_base::{Kind, List};
use hem_text::{Cursor, Place, TextError, read_part};
use std::alloc::Global;
use std::marker::Model;

/// A node of a tree's text: its kind, its level, which is 1 at the root, and the place of its word.
#[derive(Clone, Copy, Debug, PartialEq, Eq)]
pub struct RawNode {
    pub kind: Kind,
    pub level: u32,
    pub place: Place,
}

/// A tree as its text gives it, of any size, seen as its nodes in the order of the text. It keeps that it is a tree of
/// the grammar.
#[derive(Debug, Drop)]
pub struct RawTree {
    nodes: List<RawNode>,
}

impl Model for RawTree {
    ghost use Rattle.std.specs.Prelude.{List as Sequence};
    ghost use Rattle.hem_tree.specs.declared.raw.RawNode.{RawNode};

    ghost Value = { Sequence RawNode };

    ghost use Rattle.hem_tree.specs.Raw.{IsRawTree};

    ghost view = { λ t. t.nodes };

    ghost invariant = { λ t. IsRawTree t.nodes };
}

impl RawTree {
    /// The nodes in the order of the text.
    pub fn nodes(&self) -> &[RawNode]
        ensures nodes { result.now ≡ self.now }
        ensures tree { IsRawTree self.now }
    {
        self.nodes.as_slice()
    }
}

/// Reads the tree that begins at the cursor, and moves the cursor past it. An answer `Text` is the first fault. After an
/// error the cursor stays where it was.
pub fn read_tree(alloc: Global, cursor: &mut Cursor<'_>) -> Result<RawTree, TextError>
    ensures ok { IfOk result (ReadsTree cursor.old.tokens cursor.new.tokens) }
    ensures text { IfErr result (IsFirstFault grammar (state nothing start) cursor.old.tokens cursor.old.end) }
    ensures end { cursor.new.end ≡ cursor.old.end }
    ensures stays { OnErr result (cursor.new ≡ cursor.old) }
{
    let begin = nothing(alloc);
    match read_part(alloc, cursor, begin, start()) {
        Ok(draft) => Ok(RawTree { nodes: draft.nodes }),
        Err(e) => Err(e),
    }
}
