//! Each write of an answer failing in turn.

use hem_cli::{Status, hem};
use hem_io::{MemSink, MemSource, OpenGate};
use std::alloc::Global;
use std::test::Fail;
use std::thread::Threads;

/// How many bytes the sink takes a call.
const PIECE: usize = 8;

/// Two stores that interleave.
static DOCUMENT: &str = "use msi_inclusive
tree root(leaf leaf)
work lines 1 self 0 at 1 line 0 Ld 0 St 5 at 2 line 0 Ld 0 St 7 end
history 0 1 ld_miss 0 0 gets_hit from 1 0 1 ld_resp 0 2 ld_miss 0 0 gets_hit from 2 0 2 ld_resp 0 1 st_miss 0 2 st_miss 0 0 getm_inv from 2 0 1 inv 0 0 getm_done 0 2 st_resp 0 0 getm_inv from 1 0 2 inv 0 0 getm_done 0 1 st_resp end
";

/// The answer of the job `group` to them.
static ANSWER: &str = "quiet
blocks 4
block 0
0 1 ld_miss
0 0 gets_hit from 1
0 1 ld_resp
block 3
0 2 ld_miss
0 0 gets_hit from 2
0 2 ld_resp
block 7
0 2 st_miss
0 0 getm_inv from 2
0 1 inv
0 0 getm_done
0 2 st_resp
block 6
0 1 st_miss
0 0 getm_inv from 1
0 2 inv
0 0 getm_done
0 1 st_resp
state
line 0
0 root st=M val=7 up=free down=free dir=M,I
1 leaf st=M val=5 up=free down=free
ans 1 LdR:0 StR:0
2 leaf st=I val=7 up=free down=free
ans 2 LdR:0 StR:0
end
";

fn document() -> &'static [u8] {
    DOCUMENT.as_bytes()
}

fn whole() -> &'static [u8] {
    ANSWER.as_bytes()
}

/// The status where one call of the sink fails (0: none), and the sink.
fn failing_at<R: Threads + Sync>(
    rt: &R,
    alloc: Global,
    call: u64,
) -> Result<(Status, MemSink), Fail> {
    let mut words = Vec::new(alloc);
    words.push(String::from_str(alloc, "group")?)?;
    let mut source = MemSource::make(document().to_vec(alloc)?, Vec::new(alloc));
    let mut sink = MemSink::make(alloc, 1_000_000, PIECE, [call].to_vec(alloc)?)?;
    let status = hem(rt, alloc, &words, &mut source, &mut sink, &OpenGate);
    Ok((status, sink))
}

#[test]
fn each_write_fails_in_turn(rt: HostRuntime) -> Result<(), Fail> {
    let alloc = rt.alloc();
    let mut before = Vec::new(alloc);
    for (place, piece) in whole().chunks(PIECE).enumerate() {
        let (status, sink) = failing_at(&rt, alloc, place.saturating_add(1) as u64)?;
        assert!(rt; sink.bytes() == before.as_slice());
        assert_eq!(rt; status, Status::WriteFault);
        before.extend_from_slice(piece)?;
    }
    let (status, sink) = failing_at(&rt, alloc, 0)?;
    assert!(rt; sink.bytes() == whole());
    assert_eq!(rt; status, Status::Done);
    Ok(())
}
