//! Documents at the limits of what a document may have much of.

use crate::call::answer;
use hem_cli::Status;
use std::alloc::Global;
use std::process::Abort;
use std::test::Fail;
use std::thread::Threads;

/// A document with a piece many times in it, and how its answer begins.
pub struct Long {
    pub head: &'static str,
    pub piece: &'static str,
    pub count: u32,
    pub tail: &'static str,
    pub status: Status,
    pub begins: &'static str,
}

/// With many requests, or at the limits of the starts.
pub static MANY: [Long; 6] = [
    Long {
        head: "use msi_inclusive\ntree root(leaf)\nwork lines 1 self 0 at 1 line 0 ",
        piece: "Ld 0 ",
        count: 100_000,
        tail: "end\nhistory end\n",
        status: Status::Done,
        begins: "open\n",
    },
    Long {
        head: "use msi_inclusive\ntree root(leaf)\nwork lines 1 self 0 at 1 line 0 ",
        piece: "Ld 0 ",
        count: 100_001,
        tail: "end\nhistory end\n",
        status: Status::Setup,
        begins: "setup 3:500033 requests\n",
    },
    Long {
        head: "use msi_inclusive\ntree root(leaf)\nwork lines 1 self 0 at 1 line 0 ",
        piece: "Ld 0 ",
        count: 100_000,
        tail: "GetS 0 end\nhistory end\n",
        status: Status::Setup,
        begins: "setup 3:500033 request\n",
    },
    Long {
        head: "use msi_inclusive\ntree root(leaf)\nwork lines 1 self 0 at 1 line 0 ",
        piece: "Ld 0 ",
        count: 100_000,
        tail: "at 1 line 0 Ld 0 end\nhistory end\n",
        status: Status::Setup,
        begins: "setup 3:500045 requests\n",
    },
    Long {
        head: "use msi_inclusive\ntree root(mid(leaf leaf leaf leaf leaf) mid(leaf leaf leaf leaf leaf))\nwork lines 16 self 1000 at 2 line 0 ",
        piece: "Ld 0 ",
        count: 100_001,
        tail: "end\nhistory end\n",
        status: Status::Setup,
        begins: "setup 3:500037 requests\n",
    },
    Long {
        head: "use msi_inclusive\ntree root(mid(leaf leaf leaf leaf leaf leaf leaf leaf) mid(leaf leaf leaf leaf leaf leaf leaf leaf) leaf)\n",
        piece: "work lines 10 self 1000 end\n",
        count: 1,
        tail: "history end\n",
        status: Status::Done,
        begins: "quiet\n",
    },
];

/// With many firings.
pub static MOST: [Long; 2] = [
    Long {
        head: "protocol one\nstatus I S\nmessage Ld ext_req\nmessage LdR ext_rsp\nkind root dir init I end\nkind mid dir init I end\nkind leaf field st init S\nrule ld_hit take me Ld need up free down free\nwhen st in S send me LdR val end\nend\nend\ntree root(leaf)\nwork lines 1 self 0 at 1 line 0 Ld 0 end\nhistory ",
        piece: "0 1 ld_hit ",
        count: 1_000_001,
        tail: "end\n",
        status: Status::Text,
        begins: "text 14:11000009 too many\n",
    },
    Long {
        head: "protocol one\nstatus I S\nmessage Ld ext_req\nmessage LdR ext_rsp\nkind root dir init I end\nkind mid dir init I end\nkind leaf field st init S\nrule ld_hit take me Ld need up free down free\nwhen st in S send me LdR val end\nend\nend\ntree root(leaf)\nwork lines 1 self 0 at 1 line 0 Ld 0 end\nhistory ",
        piece: "0 1 ld_hit ",
        count: 1_000_000,
        tail: "end\n",
        status: Status::Illegal,
        begins: "illegal 1\n",
    },
];

fn many() -> &'static [Long] {
    &MANY
}

fn most() -> &'static [Long] {
    &MOST
}

fn document(alloc: Global, row: &Long) -> Result<Vec<u8>, Fail> {
    let mut bytes = Vec::new(alloc);
    bytes.extend_from_slice(row.head.as_bytes())?;
    for _ in 0..row.count {
        bytes.extend_from_slice(row.piece.as_bytes())?;
    }
    bytes.extend_from_slice(row.tail.as_bytes())?;
    Ok(bytes)
}

fn check_long<R: Abort + Threads + Sync>(rt: &R, alloc: Global, rows: &[Long]) -> Result<(), Fail> {
    for row in rows {
        let bytes = document(alloc, row)?;
        let (status, sink) = answer(rt, alloc, bytes)?;
        assert!(rt; sink.bytes().starts_with(row.begins.as_bytes()));
        assert_eq!(rt; status, row.status);
    }
    Ok(())
}

#[test]
fn limits_of_long_documents(rt: HostRuntime) -> Result<(), Fail> {
    check_long(&rt, rt.alloc(), many())
}

#[test]
fn limits_of_the_longest_histories(rt: HostRuntime) -> Result<(), Fail> {
    check_long(&rt, rt.alloc(), most())
}
