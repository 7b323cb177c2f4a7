//! Forms of small texts.

use crate::json;
use std::test::Fail;

/// Texts, each with the JSON form of it at status 3.
static FORMS: [(&str, &str); 6] = [
    ("", "{\"lines\":[],\"status\":3}\n"),
    ("\n", "{\"lines\":[\"\"],\"status\":3}\n"),
    ("a b\n", "{\"lines\":[\"a b\"],\"status\":3}\n"),
    ("a\n\nb", "{\"lines\":[\"a\",\"\",\"b\"],\"status\":3}\n"),
    (
        "say \"no\\\"\r\n",
        "{\"lines\":[\"say \\\"no\\\\\\\"\\r\"],\"status\":3}\n",
    ),
    (
        "\u{1}\t\u{7f}é",
        "{\"lines\":[\"\\u0001\\t\u{7f}é\"],\"status\":3}\n",
    ),
];

#[test]
fn forms_of_texts(rt: HostRuntime) -> Result<(), Fail> {
    for (text, form) in &FORMS {
        let made = json(rt.alloc(), text, 3)?;
        assert!(rt; made.as_str() == *form);
    }
    Ok(())
}
