//! The first rule that a work breaks.

ghost use Rattle.std.specs.Prelude.{◌≡◌, ◌+◌, ◌<◌, ◌≤◌, length, IfOk, IfNone};
ghost use Rattle.hem_syntax.specs.Protocol.{has_class, is_ext_req};
ghost use Rattle.hem_tree.specs.Limits.{most_objects};
ghost use Rattle.hem_work.specs.Limits.{most_lines, most_self, most_requests};
ghost use Rattle.hem_work.specs.Building.{fault_if, fault_in, is_leaf, is_leaf_kind, request_count, starts_of, request_fault, requests_fault, heading_fault, entry_fault, entries_fault, counts_fault, starts_fault, first_fault};

use crate::limits::{MOST_LINES, MOST_REQUESTS, MOST_SELF, MOST_STARTS};
use crate::raw::{RawEntry, RawWork};
use hem_base::{Kind, Message, MsgId, ObjectId};
use hem_syntax::{Class, Protocol};
use hem_text::Place;
use hem_tree::{SetupCause, SetupFault, Tree};

/// A fault, where its rule is broken.
pub(crate) fn fault_if(broken: bool, cause: SetupCause, place: Place) -> Option<SetupFault>
    ensures { result ≡ fault_if broken cause place }
{
    if broken {
        Some(SetupFault { place, cause })
    } else {
        None
    }
}

fn is_ext_req(class: Class) -> bool
    ensures { result ≡ is_ext_req class }
{
    match class {
        Class::ExtReq => true,
        _ => false,
    }
}

/// Whether a message is a request of a processor.
pub(crate) fn is_external(p: &Protocol, id: MsgId) -> bool
    ensures { result ≡ has_class p.now id is_ext_req }
{
    match p.class(id) {
        Some(class) => is_ext_req(class),
        None => false,
    }
}

fn is_leaf_kind(kind: Kind) -> bool
    ensures { result ≡ is_leaf_kind kind }
{
    match kind {
        Kind::Leaf => true,
        Kind::Root | Kind::Mid => false,
    }
}

/// Whether an object is there and is a leaf.
pub(crate) fn is_leaf(tree: &Tree, object: u32) -> bool
    ensures { result ≡ is_leaf tree.now object }
{
    if object < tree.objects() {
        is_leaf_kind(tree.kind(ObjectId(object)))
    } else {
        false
    }
}

/// The rule that a request breaks, before which `before` requests stand in the text.
fn request_fault(p: &Protocol, request: (Message, Place), before: usize) -> Option<SetupFault>
    ensures first { result ≡ request_fault p.now before request }
    ensures few { IfNone result (before < most_requests) }
{
    let (message, place) = request;
    if !is_external(p, message.id) {
        return Some(SetupFault {
            place,
            cause: SetupCause::Request,
        });
    }
    fault_if(before >= MOST_REQUESTS, SetupCause::Requests, place)
}

/// The first rule that requests break, before which `before` requests stand in the text.
fn requests_fault(p: &Protocol, requests: &[(Message, Place)], before: usize) -> Option<SetupFault>
    requires { before ≤ most_requests }
    ensures first { result ≡ requests_fault p.now before requests.now }
    ensures few { IfNone result (before + length requests.now ≤ most_requests) }
{
    for (k, request) in requests.iter().enumerate() {
        if let Some(fault) = request_fault(p, *request, before + k) {
            return Some(fault);
        }
    }
    None
}

/// The first rule that the object and the line of an entry break.
fn heading_fault(tree: &Tree, lines: u32, entry: &RawEntry) -> Option<SetupFault>
    ensures { result ≡ heading_fault tree.now lines entry.now }
{
    if !is_leaf(tree, entry.object.0) {
        return Some(SetupFault {
            place: entry.object.1,
            cause: SetupCause::Object,
        });
    }
    fault_if(entry.line.0 >= lines, SetupCause::Line, entry.line.1)
}

/// The first rule that an entry breaks, before which `before` requests stand in the text.
fn entry_fault(
    p: &Protocol,
    tree: &Tree,
    lines: u32,
    entry: &RawEntry,
    before: usize,
) -> Option<SetupFault>
    requires { before ≤ most_requests }
    ensures first { result ≡ entry_fault p.now tree.now lines before entry.now }
    ensures few { IfNone result (before + length entry.now.requests ≤ most_requests) }
{
    match heading_fault(tree, lines, entry) {
        Some(fault) => Some(fault),
        None => requests_fault(p, entry.requests.as_slice(), before),
    }
}

/// How many requests the entries have, or the first rule that they break.
fn count_requests(
    p: &Protocol,
    tree: &Tree,
    lines: u32,
    entries: &[RawEntry],
) -> Result<usize, SetupFault>
    ensures fault { fault_in result ≡ entries_fault p.now tree.now lines 0 entries.now }
    ensures count { IfOk result (λ n. n ≡ request_count entries.now) }
    ensures few { IfOk result (λ n. n ≤ most_requests) }
{
    let mut count = 0;
    for entry in entries {
        if let Some(fault) = entry_fault(p, tree, lines, entry, count) {
            return Err(fault);
        }
        count += entry.requests.len();
    }
    Ok(count)
}

/// The first of the number of lines and that of self firings that is out of its bounds.
fn counts_fault(raw: &RawWork) -> Option<SetupFault>
    ensures first { result ≡ counts_fault raw.now }
    ensures lines { IfNone result (raw.now.lines.0 ≤ most_lines) }
    ensures self_count { IfNone result (raw.now.self_count.0 ≤ most_self) }
{
    let (lines, place) = raw.lines;
    if lines < 1 || lines > MOST_LINES {
        return Some(SetupFault {
            place,
            cause: SetupCause::Lines,
        });
    }
    let (self_count, place) = raw.self_count;
    fault_if(self_count > MOST_SELF, SetupCause::SelfCount, place)
}

/// The fault of a work of so many requests, over a tree of so many objects, that may start too much.
fn starts_fault(raw: &RawWork, objects: u32, count: usize) -> Option<SetupFault>
    requires lines { raw.now.lines.0 ≤ most_lines }
    requires self_count { raw.now.self_count.0 ≤ most_self }
    requires objects { objects ≤ most_objects }
    requires count { count ≡ request_count raw.now.entries }
    requires few { count ≤ most_requests }
    ensures { result ≡ starts_fault raw.now objects }
{
    let firings = u64::from(raw.self_count.0) * u64::from(objects) * u64::from(raw.lines.0);
    let starts = count as u64 + firings;
    fault_if(starts > MOST_STARTS, SetupCause::Starts, raw.place)
}

/// The first rule that a work breaks: its counts, then entry by entry, then what it may start. It takes no memory.
pub fn first_fault(raw: &RawWork, p: &Protocol, tree: &Tree) -> Option<SetupFault>
    ensures { result ≡ first_fault raw.now p.now tree.now }
{
    if let Some(fault) = counts_fault(raw) {
        return Some(fault);
    }
    match count_requests(p, tree, raw.lines.0, raw.entries.as_slice()) {
        Ok(count) => starts_fault(raw, tree.objects(), count),
        Err(fault) => Some(fault),
    }
}
