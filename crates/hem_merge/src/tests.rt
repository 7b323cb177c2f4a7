use crate::merge;
use hem_base::{Firing, LineId, List, ObjectId, RuleId, Stamped};
use std::alloc::Global;
use std::test::Fail;

fn stamped(line: u32, object: u32, stamp: u64) -> Stamped {
    Stamped {
        firing: Firing {
            line: LineId(line),
            object: ObjectId(object),
            rule: RuleId(0),
            me: None,
        },
        stamp,
    }
}

fn journal(alloc: Global, line: u32, object: u32, stamps: &[u64]) -> Result<List<Stamped>, Fail> {
    let mut journal = List::new(alloc);
    for stamp in stamps {
        journal.push(stamped(line, object, *stamp))?;
    }
    Ok(journal)
}

#[test]
fn stamps_come_first_then_lines_then_objects(rt: HostRuntime) -> Result<(), Fail> {
    let alloc = rt.alloc();
    let mut journals = Vec::new(alloc);
    journals.push(journal(alloc, 1, 0, &[1, 4])?)?;
    journals.push(journal(alloc, 0, 2, &[1, 2])?)?;
    journals.push(journal(alloc, 0, 1, &[])?)?;
    journals.push(journal(alloc, 0, 0, &[2, 3])?)?;
    let history = merge(alloc, journals.as_slice())?;
    let mut places = Vec::new(alloc);
    for firing in history.iter() {
        places.push((firing.line.0, firing.object.0))?;
    }
    assert!(rt; places.as_slice() == [(0, 2), (1, 0), (0, 0), (0, 2), (0, 0), (1, 0)].as_slice());
    Ok(())
}
