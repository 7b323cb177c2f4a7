//! Tables of names.

use hem_base::Name;
use hem_syntax::{Class, Named, Names};
use std::test::Fail;

fn name(text: &[u8]) -> Result<Name, Fail> {
    Ok(Name::from_slice(text).ok_or("no name")?)
}

/// Puts a name at the end, where it isn't there yet.
fn put(names: &mut Names, text: &[u8]) -> Result<(), Fail> {
    let name = name(text)?;
    if !names.has(name.as_bytes()) {
        names.push(name)?;
    }
    Ok(())
}

/// Puts a message at the end, where it isn't there yet.
fn declare(messages: &mut Named<Class>, text: &[u8], class: Class) -> Result<(), Fail> {
    let name = name(text)?;
    if !messages.has(name.as_bytes()) {
        messages.push(name, class)?;
    }
    Ok(())
}

#[test]
fn names_are_found(rt: HostRuntime) -> Result<(), Fail> {
    let mut names = Names::new(rt.alloc());
    for text in ["I", "M", "I"] {
        put(&mut names, text.as_bytes())?;
    }
    assert!(rt; names.len() == 2);
    for (text, place) in [("I", Some(0)), ("M", Some(1)), ("S", None), ("", None)] {
        assert!(rt; names.place(text.as_bytes()) == place);
    }
    Ok(())
}

/// The class of the message at a place.
fn class_at(messages: &Named<Class>, place: usize) -> Option<Class> {
    messages.value(place).copied()
}

#[test]
fn messages_are_found(rt: HostRuntime) -> Result<(), Fail> {
    let mut messages = Named::new(rt.alloc());
    declare(&mut messages, b"Ld", Class::ExtReq)?;
    declare(&mut messages, b"LdR", Class::ExtReq)?;
    messages.set_last(Class::ExtRsp);
    assert!(rt; messages.len() == 2);
    assert!(rt; messages.place(b"LdR") == Some(1));
    assert!(rt; class_at(&messages, 0) == Some(Class::ExtReq));
    assert!(rt; class_at(&messages, 1) == Some(Class::ExtRsp));
    Ok(())
}
