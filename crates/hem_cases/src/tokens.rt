//! Tokens of texts.

use hem_text::Cursor;
use std::alloc::Global;
use std::test::Fail;

/// The tokens of a text, each as its kind, its length and its place.
fn shown(alloc: Global, bytes: &[u8]) -> Result<String, Fail> {
    let mut text = String::new(alloc);
    if bytes.len() > 1000 {
        return Ok(text);
    }
    let mut cursor = Cursor::new(bytes);
    for _ in 0..bytes.len() {
        let Some(token) = cursor.next() else {
            return Ok(text);
        };
        let kind = token.kind();
        let (len, place) = (token.text().len(), token.place());
        let (line, column) = (place.line, place.column);
        let one = format!(in alloc; " {kind:?} {len} at {line}:{column}")?;
        text.push_str(one.as_str())?;
    }
    Ok(text)
}

#[test]
fn tokens_of_texts(rt: HostRuntime) -> Result<(), Fail> {
    let table: [(&[u8], &str); 16] = [
        (b"", ""),
        (b" \t\r\n", ""),
        (b"status I", " Word 6 at 1:1 Word 1 at 1:8"),
        (b"# x", ""),
        (b"#a\nb", " Word 1 at 2:1"),
        (b"a#b\r\n\n c", " Word 1 at 1:1 Word 1 at 3:2"),
        (b"a\rb", " Word 1 at 1:1 Word 1 at 1:3"),
        (b"\ta", " Word 1 at 1:2"),
        (b"a\xffb", " Word 1 at 1:1 Bad 1 at 1:2 Word 1 at 1:3"),
        (b"_x 1a", " Bad 2 at 1:1 Bad 2 at 1:4"),
        (
            b"007 x_1 Y2",
            " Number 3 at 1:1 Word 3 at 1:5 Word 2 at 1:9",
        ),
        (b": !", " Bad 1 at 1:1 Bad 1 at 1:3"),
        (
            b":==!=|",
            " Sign 2 at 1:1 Sign 1 at 1:3 Sign 2 at 1:4 Sign 1 at 1:6",
        ),
        (b"a:=b", " Word 1 at 1:1 Sign 2 at 1:2 Word 1 at 1:4"),
        (
            b"(a,b)",
            " Sign 1 at 1:1 Word 1 at 1:2 Sign 1 at 1:3 Word 1 at 1:4 Sign 1 at 1:5",
        ),
        (b"::=-", " Bad 1 at 1:1 Sign 2 at 1:2 Bad 1 at 1:4"),
    ];
    for (text, want) in table {
        assert_eq!(rt; shown(rt.alloc(), text)?.as_str(), want);
    }
    Ok(())
}
