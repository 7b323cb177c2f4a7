//! Protocols print back: the shipped ones as they stand, others in their canonical form.

use crate::reading::prints_as;
use hem_shipped::shipped;
use std::test::Fail;

/// The shipped protocols, each with the text that names it.
const SHIPPED: [(&str, &str); 4] = [
    ("msi_inclusive", "use msi_inclusive"),
    ("mesi_inclusive", "use mesi_inclusive"),
    ("msi_noninclusive", "use msi_noninclusive"),
    ("mesi_noninclusive", "use mesi_noninclusive"),
];

/// A protocol with blanks, comments, sets in any order and zeros of any length.
const FREE_FORM: &str = "\tprotocol one status I S#two\r
M message A ext_req message B down_req
kind root dir init I end kind mid field f init S field g init I dir init M
rule r take none need up any down any when g in M I,kids any S I send others in M S B 000 end
rule q take kids B need up parent down self set targets:=I,val:=0 free up lock down self end end
kind leaf rule r take me A need up free down child when asked B end end end tree";

const CANONICAL: &str = "protocol one
status I S M
message A ext_req
message B down_req
kind root
dir init I
end
kind mid
field f init S
field g init I
dir init M
rule r take none need up any down any when g in I M, kids any I S send others in S M B 0 end
rule q take kids B need up parent down self set targets := I, val := 0 free up lock down self end
end
kind leaf
rule r take me A need up free down child when asked B end
end
end
";

#[test]
fn protocols_print_back(rt: HostRuntime) -> Result<(), Fail> {
    let alloc = rt.alloc();
    for (name, used) in SHIPPED {
        let text = shipped(name.as_bytes()).ok_or("not shipped")?;
        assert!(rt; prints_as(alloc, text, text)?);
        assert!(rt; prints_as(alloc, used, text)?);
    }
    for text in [FREE_FORM, CANONICAL] {
        assert!(rt; prints_as(alloc, text, CANONICAL)?);
    }
    Ok(())
}
