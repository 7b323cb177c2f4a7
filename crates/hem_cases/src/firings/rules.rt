//! The protocol whose rules are fired: each kind has the same rules, one for each part of a rule.

/// The declarations, and the root up to its rules.
pub(super) const HEAD: &str = "protocol parts
status I S M
message Ld ext_req
message LdR ext_rsp
message Get up_req
message GetR down_rsp
message Inv down_req
message InvR up_rsp
kind root
field st init S
dir init M
";

/// The mid up to its rules.
pub(super) const MID: &str = "end
kind mid
field st init S
dir init I
";

/// The leaf up to its rules.
pub(super) const LEAF: &str = "end
kind leaf
field st init I
";

/// The rules of each kind.
pub(super) const RULES: &str = "rule take_me take me Get need up any down any end
rule take_parent take parent Inv need up any down any end
rule take_kids take kids InvR need up any down any end
rule take_none take none need up any down any end
rule up_free take none need up free down any end
rule up_child take none need up child down any end
rule up_parent take none need up parent down any end
rule up_self take none need up self down any end
rule down_free take none need up any down free end
rule down_child take none need up any down child end
rule down_parent take none need up any down parent end
rule down_self take none need up any down self end
rule st_in take none need up any down any when st in S M end
rule me_in take me Get need up any down any when me in M end
rule me_of_parent take parent Inv need up any down any when me in M end
rule me_of_kids take kids InvR need up any down any when me in S end
rule me_of_none take none need up any down any when me in I S M end
rule kids_all take none need up any down any when kids all I S end
rule kids_any take none need up any down any when kids any S M end
rule others_all take me Get need up any down any when others all I S end
rule others_any take me Get need up any down any when others any M end
rule others_of_none take none need up any down any when others all I S M end
rule asked_up take parent Inv need up any down any when asked Get end
rule asked_down take kids InvR need up any down any when asked Get end
rule set_st take me Get need up any down any set st := M end
rule set_me take me Get need up any down any set me := I end
rule set_targets take kids InvR need up any down any set targets := I end
rule set_me_and_targets take kids InvR need up any down any set me := M, targets := I end
rule targets_of_me take me Get need up any down any set targets := I end
rule val_msg take me Get need up any down any set val := msg end
rule val_msg_of_kids take kids InvR need up any down any set val := msg end
rule val_kept_up take parent Inv need up any down any set val := kept end
rule val_kept_down take kids InvR need up any down any set val := kept end
rule val_kept_of_me take me Get need up any down any set val := kept end
rule val_rs take kids InvR need up any down any set val := rs end
rule val_zero take none need up any down any set val := 0 end
rule send_me take me Get need up any down any send me GetR val end
rule send_me_of_parent take parent Inv need up any down any send me GetR msg end
rule send_me_of_kids take kids InvR need up any down any send me GetR kept end
rule send_me_of_none take none need up any down any send me GetR 0 end
rule send_up_response take none need up any down any set val := 0 send parent InvR val end
rule send_up_request take me Get need up any down any send parent Get msg end
rule send_kids take none need up any down any send kids in S M Inv val end
rule send_others take me Get need up any down any set me := S send others in I S Inv 0 end
rule lock_up_child take me Get need up any down any lock up child end
rule lock_up_parent take me Get need up any down any lock up parent end
rule lock_up_self take none need up any down any lock up self send parent Get val end
rule lock_down_child take me Get need up any down any lock down child send others in I S Inv 0 end
rule lock_down_parent take none need up any down any lock down parent send kids in S M Inv val end
rule lock_down_self take me Get need up any down any lock down self end
rule lock_of_nothing take none need up any down any lock up self end
rule lock_for_nobody take none need up any down any lock up child send parent Get val end
rule free_up take none need up any down any free up end
rule free_down take none need up any down any free down end
rule lock_again take parent GetR need up any down any free up lock up self send parent InvR 0 end
rule lock_on take parent GetR need up any down any free up lock down child send others in I S Inv msg end
rule lock_same take kids InvR need up any down any free down lock down parent send kids in S M Inv rs end
rule mixture take me Get need up any down any when me in M, others any S, kids all I S M, st in S set me := I, val := msg, st := M free down lock down child send others in S Inv val end
rule join take kids InvR need up free down child when asked Get, kids any M set me := M, targets := I, val := rs free down send me GetR kept end
rule pass take parent Inv need up child down free when others all S set me := S lock down parent send kids in S Inv msg end
rule give_back take kids InvR need up self down parent set targets := I, val := rs free down send parent InvR rs end
rule miss take me Get need up free down free when kids all I, others all I, st in S lock up child send parent Get msg end
rule answer take parent GetR need up child down any set st := M, val := msg free up send me LdR kept end
";

/// What stands after the leaf's rules.
pub(super) const END: &str = "end
end
";
