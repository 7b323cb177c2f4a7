//! Trees: how their objects lie.

use hem_base::ObjectId;
use hem_text::Cursor;
use hem_tree::{Tree, read_tree};
use std::alloc::Global;
use std::test::Fail;

/// The number of an object that is there.
fn number_of(o: Option<ObjectId>) -> Option<u32> {
    match o {
        Some(o) => Some(o.0),
        None => None,
    }
}

/// A tree's objects, each as its kind, its parent, its level, its children, and those that are under it.
fn shown(alloc: Global, tree: &Tree) -> Result<String, Fail> {
    let mut text = String::new(alloc);
    for o in 0..tree.objects() {
        let o = ObjectId(o);
        let kind = tree.kind(o);
        let depth = tree.depth(o);
        let parent = number_of(tree.parent(o));
        text.push_str(format!(in alloc; " {kind:?}{depth} {parent:?}")?.as_str())?;
        for child in tree.children(o) {
            let child = child.0;
            text.push_str(format!(in alloc; " {child}")?.as_str())?;
        }
        text.push_str(" <")?;
        for low in 0..tree.objects() {
            if tree.is_under(ObjectId(low), o) {
                text.push_str(format!(in alloc; " {low}")?.as_str())?;
            }
        }
        text.push_str(";")?;
    }
    Ok(text)
}

/// The lawful tree that a text says, shown; any other text is refused.
fn tree_of(alloc: Global, bytes: &[u8]) -> Result<String, Fail> {
    if bytes.len() > 10_000_000 {
        return Ok(String::new(alloc));
    }
    let mut cursor = Cursor::new(bytes);
    let Ok(raw) = read_tree(alloc, &mut cursor) else {
        return Ok(String::from_str(alloc, "unread")?);
    };
    match Tree::build(alloc, &raw) {
        Ok(tree) => shown(alloc, &tree),
        Err(_) => Ok(String::from_str(alloc, "unlawful")?),
    }
}

/// A tree's text, and its objects.
static TREES: [(&str, &str); 3] = [
    ("tree root(leaf)", " Root1 None 1 < 1; Leaf2 Some(0) <;"),
    (
        "tree root(mid(leaf leaf) leaf)",
        " Root1 None 1 4 < 1 2 3 4; Mid2 Some(0) 2 3 < 2 3; Leaf3 Some(1) <; Leaf3 Some(1) <; Leaf2 Some(0) <;",
    ),
    (
        "tree root(mid(mid(leaf)) mid(leaf)) mid",
        " Root1 None 1 4 < 1 2 3 4 5; Mid2 Some(0) 2 < 2 3; Mid3 Some(1) 3 < 3; Leaf4 Some(2) <; Mid2 Some(0) 5 < 5; Leaf3 Some(4) <;",
    ),
];

fn trees() -> &'static [(&'static str, &'static str)] {
    &TREES
}

#[test]
fn trees_of_texts(rt: HostRuntime) -> Result<(), Fail> {
    for (text, want) in trees() {
        assert_eq!(rt; tree_of(rt.alloc(), text.as_bytes())?.as_str(), *want);
    }
    Ok(())
}

#[test]
fn a_deep_text_is_read(rt: HostRuntime) -> Result<(), Fail> {
    let alloc = rt.alloc();
    let mut text = String::from_str(alloc, "tree root(")?;
    for _ in 0..100_000 {
        text.push_str("mid(")?;
    }
    text.push_str("leaf)")?;
    for _ in 0..100_000 {
        text.push_str(")")?;
    }
    assert_eq!(rt; tree_of(alloc, text.as_bytes())?.as_str(), "unlawful");
    Ok(())
}
