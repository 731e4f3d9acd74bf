//! Worked examples of `chip`.

use crate::commands::first_wrong;
use crate::rows::are_right;

static CHIP: &str = r"# TESTED
s = chip 1\nname soc\nbudget 5\nunit 3 c.m m16\nunit 3 c.m m8\nunit 2 mats.m t2\n
c.m = $c
mats.m = $mats
m16 = memory 1\nname m16\nwords 16\nbits 1\n
m8 = memory 1\nname m8\nwords 8\nbits 8\n
t2 = memory 1\nname t2\nwords 2\nbits 1\n
> chip s v
0 chip units 3 groups 2 done 483
v begins module m16_bist(\n
v ends endmodule\n
anew
s = chip 1\nname one\nbudget 1\nunit 1 w t2\n
w = $w0
t2 = memory 1\nname t2\nwords 2\nbits 1\n
0 chip units 1 groups 1 done 4
v begins module t2_bist(\n
v ends endmodule\n
# two groups: the second is held in reset until the first is done, in cycle 4, and has 32 commands
s = chip 1\nname soc\nbudget 2\nunit 2 w t2\nunit 1 w m8\n
m8 = memory 1\nname m8\nwords 8\nbits 8\n
0 chip units 2 groups 2 done 37
v ends
| endmodule
| module soc(
|   input clk,
|   input reset,
|   input rdata_0,
|   output en_0,
|   output we_0,
|   output addr_0,
|   output wdata_0,
|   input [7:0] rdata_1,
|   output en_1,
|   output we_1,
|   output [2:0] addr_1,
|   output [7:0] wdata_1,
|   output done,
|   output [1:0] fail
| );
|   wire over_0;
|   wire bad_0;
|   wire over_1;
|   wire bad_1;
|   wire hold_1;
|   assign hold_1 = (!over_0);
|   assign done = over_1;
|   assign fail = {bad_1, bad_0};
|   t2_bist unit_0(.clk(clk), .reset(reset), .rdata(rdata_0), .en(en_0), .we(we_0), .addr(addr_0), .wdata(wdata_0), .done(over_0), .fail(bad_0));
|   m8_bist unit_1(.clk(clk), .reset(hold_1), .rdata(rdata_1), .en(en_1), .we(we_1), .addr(addr_1), .wdata(wdata_1), .done(over_1), .fail(bad_1));
| endmodule
no t2
no m8
s = chip 1\nname unit_0\nbudget 2\nunit 1 w a\nunit 1 w b\nunit 1 w c\n
a = memory 1\nname hold_1\nwords 2\nbits 1\n
b = memory 1\nname en_0\nwords 2\nbits 1\n
c = memory 1\nname done\nwords 2\nbits 1\n
0 chip units 3 groups 2 done 7
v begins module hold_1_bist(\n
v ends endmodule\n
s = chip 1\nname soc\nbudget 16\nunit 1 w a\nunit 1 w b\nunit 1 w c\nunit 1 w d\nunit 1 w e\nunit 1 w f\nunit 1 w g\nunit 1 w h\nunit 1 w i\nunit 1 w j\nunit 1 w k\nunit 1 w l\nunit 1 w m\nunit 1 w n\nunit 1 w o\nunit 1 w p\n
a = memory 1\nname a\nwords 2\nbits 1\n
b = memory 1\nname b\nwords 2\nbits 1\n
c = memory 1\nname c\nwords 2\nbits 1\n
d = memory 1\nname d\nwords 2\nbits 1\n
e = memory 1\nname e\nwords 2\nbits 1\n
f = memory 1\nname f\nwords 2\nbits 1\n
g = memory 1\nname g\nwords 2\nbits 1\n
h = memory 1\nname h\nwords 2\nbits 1\n
i = memory 1\nname i\nwords 2\nbits 1\n
j = memory 1\nname j\nwords 2\nbits 1\n
k = memory 1\nname k\nwords 2\nbits 1\n
l = memory 1\nname l\nwords 2\nbits 1\n
m = memory 1\nname m\nwords 2\nbits 1\n
n = memory 1\nname n\nwords 2\nbits 1\n
o = memory 1\nname o\nwords 2\nbits 1\n
p = memory 1\nname p\nwords 2\nbits 1\n
0 chip units 16 groups 1 done 4
s swaps budget 16 => budget 1
0 chip units 16 groups 16 done 49

# REFUSED
anew
s = chip 1\nname soc\nbits 1\n
15 chip C1 line 3 byte 1
s = chip 1\nname soc\nbudget 5\nunit 3 c.m m16\nunit 3 c.m m16\n
c.m = $c
m16 = memory 1\nname m16\nwords 16\nbits 1\n
15 chip C8 unit 1
s = chip 1\nname soc\nbudget 5\nunit 6 c.m m16\n
15 chip C9 line 4
anew
s = chip 1\nname soc\nbudget 5\nunit 1 w t2\nunit 1 w a\nunit 1 w b\n
w = $w0
t2 = memory 1\nname t2\nwords 2\nbits 1\n
a = memory 1\nname u\nwords 4\nbits 1\n
b = memory 1\nname u\nwords 2\nbits 1\n
15 chip C8 unit 2
anew
s = chip 1\nname t2_bist\nbudget 5\nunit 1 w m8\nunit 1 w t2\n
w = $w0
m8 = memory 1\nname m8\nwords 8\nbits 8\n
t2 = memory 1\nname t2\nwords 2\nbits 1\n
15 chip C8 unit 1
no m8
s = chip 1\nname one\nbudget 1\nunit 1 w t2\n
> chip s s
2 usage
> chip s v r
2 usage

# STOPPED
no t2
> chip s v
10 unit 0 absent 2
no w
10 unit 0 absent 1
no s
w = $w0
t2 = memory 1\nname t2\nwords 2\nbits 1\n
10 absent 1
no t2
s = chip 1\nname one\nbudget 1\nunit 1 w t2\n
w =
3 unit 0 march M3
w = $w0
t2 =
4 unit 0 memory D2
s = chip 1\nname soc\nbudget 5\nunit 1 w t2\nunit 1 x m8\n
t2 = memory 1\nname t2\nwords 2\nbits 1\n
x = {any(r0)}
3 unit 1 march M7 element 0 operation 0
no x
s = chip 1\nname soc\nbudget 5\nunit 1 w t2\nunit 1 w t2\nunit 1 w m8\n
10 unit 2 absent 2
s = chip 1\nname t2_bist\nbudget 5\nunit 1 w t2\nunit 1 x t2\n
10 unit 1 absent 1
# the file of a unit's march is too large
anew
s = chip 1\nname one\nbudget 1\nunit 1 w t2\n
t2 = memory 1\nname t2\nwords 2\nbits 1\n
w = \1048577{\s\}
6 unit 0 too large 1
";

#[test]
fn chips(rt: HostRuntime) {
    are_right(&rt, first_wrong(rt.alloc(), CHIP));
}
