//! One document at every limit at once: read, printed back, and replayed.

use crate::call::answer;
use crate::reading::prints_as;
use hem_cli::Status;
use std::alloc::Global;
use std::test::Fail;

/// The front of a name of 32 bytes: one byte more tells what it names, and two digits which one.
const LONG: &str = "abcdefghijklmnopqrstuvwxyz_ab";

/// How many requests the leaf gets, and answers: its lists are longer than 256 messages.
const REQUESTS: u32 = 300;

/// Appends a name of 32 bytes, after a blank.
fn name(alloc: Global, text: &mut String, sort: &str, number: u32) -> Result<(), Fail> {
    let zero = if number < 10 { "0" } else { "" };
    text.push_str(&format!(in alloc; " {LONG}{sort}{zero}{number}")?)?;
    Ok(())
}

/// Appends a message of a class.
fn message(alloc: Global, text: &mut String, number: u32, class: &str) -> Result<(), Fail> {
    text.push_str("message")?;
    name(alloc, text, "m", number)?;
    text.push_str(class)?;
    Ok(())
}

/// Appends the 64 messages: a processor's request and its answer, a child's request and its answer, and more requests.
fn messages(alloc: Global, text: &mut String) -> Result<(), Fail> {
    message(alloc, text, 0, " ext_req\n")?;
    message(alloc, text, 1, " ext_rsp\n")?;
    message(alloc, text, 2, " up_req\n")?;
    message(alloc, text, 3, " down_rsp\n")?;
    for number in 4..64 {
        message(alloc, text, number, " up_req\n")?;
    }
    Ok(())
}

/// Appends three fields.
fn fields(alloc: Global, text: &mut String) -> Result<(), Fail> {
    for number in 0..3 {
        text.push_str("field")?;
        name(alloc, text, "f", number)?;
        text.push_str(" init")?;
        name(alloc, text, "s", 0)?;
        text.push_str("\n")?;
    }
    Ok(())
}

/// Appends a condition on a field, which holds in each state.
fn condition(alloc: Global, text: &mut String, field: u32) -> Result<(), Fail> {
    name(alloc, text, "f", field)?;
    text.push_str(" in")?;
    for status in 0..4 {
        name(alloc, text, "s", status)?;
    }
    Ok(())
}

/// Appends 16 conditions.
fn guard(alloc: Global, text: &mut String) -> Result<(), Fail> {
    text.push_str(" when")?;
    condition(alloc, text, 0)?;
    for number in 1..16 {
        text.push_str(",")?;
        condition(alloc, text, number % 3)?;
    }
    Ok(())
}

/// Appends the 64 rules of a kind, with names that no other kind has: each answers the request at once.
fn rules(
    alloc: Global,
    text: &mut String,
    sort: &str,
    request: u32,
    answer: u32,
) -> Result<(), Fail> {
    for number in 0..64 {
        text.push_str("rule")?;
        name(alloc, text, sort, number)?;
        text.push_str(" take me")?;
        name(alloc, text, "m", request)?;
        text.push_str(" need up free down free")?;
        guard(alloc, text)?;
        text.push_str(" send me")?;
        name(alloc, text, "m", answer)?;
        text.push_str(" msg end\n")?;
    }
    Ok(())
}

/// Appends what a kind has.
fn kind(alloc: Global, text: &mut String, word: &str, sort: &str) -> Result<(), Fail> {
    text.push_str("kind ")?;
    text.push_str(word)?;
    text.push_str("\n")?;
    fields(alloc, text)?;
    if word == "leaf" {
        rules(alloc, text, sort, 0, 1)?;
    } else {
        text.push_str("dir init")?;
        name(alloc, text, "s", 3)?;
        text.push_str("\n")?;
        rules(alloc, text, sort, 2, 3)?;
    }
    text.push_str("end\n")?;
    Ok(())
}

/// The greatest protocol, in its canonical text.
fn protocol(alloc: Global) -> Result<String, Fail> {
    let mut text = String::from_str(alloc, "protocol")?;
    name(alloc, &mut text, "p", 0)?;
    text.push_str("\nstatus")?;
    for number in 0..4 {
        name(alloc, &mut text, "s", number)?;
    }
    text.push_str("\n")?;
    messages(alloc, &mut text)?;
    kind(alloc, &mut text, "root", "r")?;
    kind(alloc, &mut text, "mid", "k")?;
    kind(alloc, &mut text, "leaf", "l")?;
    text.push_str("end\n")?;
    Ok(text)
}

/// A tree of 64 objects on 8 levels, of which the root has 8 children; object 7 is a leaf on the last level.
const TREE: &str = "tree root(mid(mid(mid(mid(mid(mid(leaf)))))) \
mid(leaf leaf leaf leaf leaf leaf leaf) mid(leaf leaf leaf leaf leaf leaf leaf) mid(leaf leaf leaf leaf leaf leaf leaf) \
mid(leaf leaf leaf leaf leaf leaf leaf) mid(leaf leaf leaf leaf leaf leaf leaf) mid(leaf leaf leaf leaf leaf leaf leaf) \
mid(leaf leaf leaf leaf leaf leaf leaf))\n";

/// Appends the requests of the leaf on the last line, and the history that answers them.
fn requests(alloc: Global, text: &mut String) -> Result<(), Fail> {
    text.push_str("work lines 16 self 0 at 7 line 15")?;
    for _ in 0..REQUESTS {
        name(alloc, text, "m", 0)?;
        text.push_str(" 18446744073709551615")?;
    }
    text.push_str(" end\nhistory\n")?;
    for number in 0..REQUESTS {
        text.push_str("15 7")?;
        name(alloc, text, "l", number % 64)?;
        text.push_str("\n")?;
    }
    text.push_str("end\n")?;
    Ok(())
}

/// The greatest protocol's text, and behind it a tree, requests and a history.
fn document(alloc: Global, protocol: &str) -> Result<Vec<u8>, Fail> {
    let mut text = String::from_str(alloc, protocol)?;
    text.push_str(TREE)?;
    requests(alloc, &mut text)?;
    Ok(text.into_bytes())
}

#[test]
fn greatest_document(rt: HostRuntime) -> Result<(), Fail> {
    let alloc = rt.alloc();
    let text = protocol(alloc)?;
    assert!(rt; prints_as(alloc, text.as_str(), text.as_str())?);
    let (status, sink) = answer(&rt, alloc, document(alloc, text.as_str())?)?;
    assert_eq!(rt; status, Status::Done);
    assert!(rt;
        sink.bytes()
            .starts_with(b"quiet\nblocks 300\nblock 0\n15 7 ")
    );
    Ok(())
}
