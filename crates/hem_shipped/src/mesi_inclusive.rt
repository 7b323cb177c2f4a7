//! Inclusive MESI.

ghost use Rattle.std.specs.Prelude.{◌≡◌, ◌<◌, length};
ghost use Rattle.hem_shipped.specs.Texts.{text_of_lines};
ghost use Rattle.hem_shipped.specs.MesiInclusive.{mesi_inclusive_lines};

/// The canonical text of the protocol `mesi_inclusive`.
pub const MESI_INCLUSIVE: &str = "protocol mesi_inclusive
status I S E M
message Ld ext_req
message St ext_req
message LdR ext_rsp
message StR ext_rsp
message GetS up_req
message GetM up_req
message Put up_req
message RsS down_rsp
message RsM down_rsp
message RsPut down_rsp
message Inv down_req
message Down down_req
message InvR up_rsp
message DownR up_rsp
message RsE down_rsp
kind root
field st init M
dir init I
rule gets_hit take me GetS need up free down free when st in S set me := S send me RsS val end
rule gets_share take me GetS need up free down free when st in M, others any S, others all I S set me := S send me RsS val end
rule gets_excl take me GetS need up free down free when st in M, others all I set me := M send me RsE val end
rule gets_down take me GetS need up free down free when st in M, others any M lock down child send others in M Down 0 end
rule gets_done take kids DownR need up any down child when asked GetS set targets := S, me := S, val := rs free down send me RsS rs end
rule getm_hit take me GetM need up free down free when st in M, others all I set me := M send me RsM val end
rule getm_inv take me GetM need up free down free when st in M, others any S M lock down child send others in S M Inv 0 end
rule getm_done take kids InvR need up any down child when asked GetM set targets := I, me := M, val := rs free down send me RsM rs end
rule put_m take me Put need up free down free when me in M set val := msg, me := I send me RsPut 0 end
rule put_s take me Put need up free down free when me in S set me := I send me RsPut 0 end
rule put_i take me Put need up free down free when me in I send me RsPut 0 end
end
kind mid
field st init I
dir init I
rule gets_hit take me GetS need up free down free when st in S set me := S send me RsS val end
rule gets_share take me GetS need up free down free when st in M, others any S, others all I S set me := S send me RsS val end
rule gets_excl take me GetS need up free down free when st in M, others all I set me := M send me RsE val end
rule gets_down take me GetS need up free down free when st in M, others any M lock down child send others in M Down 0 end
rule gets_done take kids DownR need up any down child when asked GetS set targets := S, me := S, val := rs free down send me RsS rs end
rule getm_hit take me GetM need up free down free when st in M, others all I set me := M send me RsM val end
rule getm_inv take me GetM need up free down free when st in M, others any S M lock down child send others in S M Inv 0 end
rule getm_done take kids InvR need up any down child when asked GetM set targets := I, me := M, val := rs free down send me RsM rs end
rule put_m take me Put need up free down free when me in M set val := msg, me := I send me RsPut 0 end
rule put_s take me Put need up free down free when me in S set me := I send me RsPut 0 end
rule put_i take me Put need up free down free when me in I send me RsPut 0 end
rule gets_up take me GetS need up free down free when st in I lock up child send parent GetS 0 end
rule gets_resp take parent RsS need up child down free set st := S, val := msg, me := S free up send me RsS msg end
rule gets_resp_e take parent RsE need up child down free set st := M, val := msg, me := M free up send me RsE msg end
rule getm_up take me GetM need up free down free when st in I S lock up child send parent GetM 0 end
rule getm_resp take parent RsM need up child down free when others all I set st := M, val := msg, me := M free up send me RsM msg end
rule getm_resp_inv take parent RsM need up child down free when others any S M set st := M, val := msg free up lock down child send others in S M Inv 0 end
rule inv take parent Inv need up any down free when st in S M, kids all I set st := I send parent InvR val end
rule inv_down take parent Inv need up any down free when st in S M, kids any S M lock down parent send kids in S M Inv 0 end
rule inv_done take kids InvR need up any down parent when asked Inv set targets := I, st := I free down send parent InvR rs end
rule downgrade take parent Down need up any down free when st in M, kids all I S set st := S send parent DownR val end
rule down_down take parent Down need up any down free when st in M, kids any M lock down parent send kids in M Down 0 end
rule down_done take kids DownR need up any down parent when asked Down set targets := S, st := S, val := rs free down send parent DownR rs end
rule evict take none need up free down free when kids all I lock up self send parent Put val end
rule evict_ack take parent RsPut need up self down free set st := I free up end
rule recall take none need up free down free when kids any S M lock down self send kids in S M Inv 0 end
rule recall_done take kids InvR need up any down self set targets := I, val := rs free down end
end
kind leaf
field st init I
rule ld_hit take me Ld need up free down free when st in S E M send me LdR val end
rule st_hit take me St need up free down free when st in E M set st := M, val := msg send me StR 0 end
rule ld_miss take me Ld need up free down free when st in I lock up child send parent GetS 0 end
rule st_miss take me St need up free down free when st in I S lock up child send parent GetM 0 end
rule ld_resp take parent RsS need up child down free set st := S, val := msg free up send me LdR msg end
rule ld_resp_e take parent RsE need up child down free set st := E, val := msg free up send me LdR msg end
rule st_resp take parent RsM need up child down free set st := M, val := kept free up send me StR 0 end
rule evict take none need up free down free lock up self send parent Put val end
rule evict_ack take parent RsPut need up self down free set st := I free up end
rule inv take parent Inv need up any down free when st in S E M set st := I send parent InvR val end
rule downgrade take parent Down need up any down free when st in E M set st := S send parent DownR val end
end
end
";

/// The text as it is promised.
#[tactic(auto, unfolding(crate::specs::Texts::text_of_lines, crate::specs::MesiInclusive::mesi_inclusive_lines))]
pub fn text() -> &'static str
    ensures same { result.now ≡ text_of_lines mesi_inclusive_lines }
    ensures short { length result.now < 65536 }
{
    MESI_INCLUSIVE
}
