//! Worked examples of `check`.

use crate::commands::first_wrong;
use crate::rows::are_right;

static CHECK: &str = r"# CONTROLLERS
m = $w0
d = $two
$f =
| module f(input clk, input reset, input rdata, output en, output we,
|   output addr, output wdata, output done, output fail);
| reg [2:0] t;
| assign en = !reset && t < 3'd2;
| assign we = 1'd1;
| assign addr = t == 3'd1;
| assign wdata = 1'd0;
| assign done = !reset && t == 3'd3;
| assign fail = 1'd0 & rdata;
| always @(posedge clk) if (reset) t <= 3'd0; else if (t != 3'd3) t <= t + 3'd1;
| endmodule
z = $f
> check z m d
0 conforms 5
z =
| module g(output fail, output done, output wdata, output addr,
|   output we, output en, input rdata, input reset, input clk);
| reg [2:0] t;
| assign en = ((!reset) && (t < 3'd2));
| assign we = 1'd1;
| assign addr = (t == 3'd1);
| assign wdata = 1'd0;
| assign done = ((!reset) && (t == 3'd3));
| assign fail = (1'd0 & rdata);
| always @(posedge clk) if (reset) t <= 3'd0; else if ((t != 3'd3)) t <= (t + 3'd1);
| endmodule
0 conforms 5
z = $f
z swaps t < 3'd2 => t < 3'd3
1 differs cycle 3 port en expected 0 got 1
z = $f
z swaps wdata = 1'd0 => wdata = rdata
1 unknown cycle 1 port wdata
z = $f
z swaps en = !reset && t => en = t
1 unknown cycle 0 port en
# its ports in another order
z = $f
z swaps input clk, input reset, input rdata, output en, output we, => output done, output wdata, input rdata, output fail, output addr,
z swaps output addr, output wdata, output done, output fail => output en, input reset, output we, input clk
0 conforms 5
# no reset
z = $f
z swaps input reset, input rdata => input rdata
z swaps !reset && t < => !1'd0 && t <
z swaps !reset && t == => !1'd0 && t ==
z swaps if (reset) => if (1'd0)
14 verilog B2 reset
# an `if` on a word that returns leaves the counter open, unless a later assignment gives it a number
z = $f
z swaps else if (t != 3'd3) t <= t + 3'd1; => else if (rdata) t <= t + 3'd1; else t <= t + 3'd1;
1 unknown cycle 2 port en
z = $f
z swaps else if (t != 3'd3) t <= t + 3'd1; => else begin if (rdata) t <= 3'd7; if (t != 3'd3) t <= t + 3'd1; else t <= t; end
0 conforms 5

# ONE OPERAND MAY DECIDE
z = $f
z swaps wdata = 1'd0 => wdata = rdata & 1'd0
0 conforms 5
z = $f
z swaps wdata = 1'd0 => wdata = 1'd0 & rdata
0 conforms 5
z = $f
z swaps wdata = 1'd0 => wdata = rdata && 1'd0
0 conforms 5
z = $f
z swaps wdata = 1'd0 => wdata = 1'd1 | rdata
1 differs cycle 1 port wdata expected 0 got 1
z = $f
z swaps wdata = 1'd0 => wdata = rdata || 1'd1
1 differs cycle 1 port wdata expected 0 got 1
z = $f
z swaps wdata = 1'd0 => wdata = rdata ^ rdata
1 unknown cycle 1 port wdata
z = $f
z swaps wdata = 1'd0 => wdata = rdata & !rdata
1 unknown cycle 1 port wdata
z = $f
z swaps wdata = 1'd0 => wdata = rdata ? 1'd0 : 1'd0
0 conforms 5
z = $f
z swaps wdata = 1'd0 => wdata = rdata ? 1'd0 : 1'd1
1 unknown cycle 1 port wdata
z = $f
z swaps wdata = 1'd0 => wdata = reset ? rdata : 1'd0
0 conforms 5

# TOO LONG COMES BEFORE WRONG PORTS
m = $c
d = memory 1\nname big\nwords 65536\nbits 64\n
z = $f
z swaps input reset, input rdata => input rdata
z swaps !reset && t < 3'd2 => 1'd0
z swaps !reset && t == => !1'd0 && t ==
z swaps if (reset) => if (1'd0)
12 too long 4587523

# REFUSED
m = $long
d = memory 2\nname buf0\nwords 16\nbits 1\npause 64515\n
z =
| module z(input clk,input reset,input rdata,output en,output we,
|   output [3:0] addr,output wdata,output done,output fail);
| assign en=1'd0;assign we=1'd0;assign addr=4'd0;assign wdata=1'd0;
| assign done=1'd0;assign fail=1'd0;
| endmodule
1 differs cycle 1 port en expected 1 got 0
d = memory 2\nname buf0\nwords 16\nbits 1\nlatency 2\npause 64515\n
12 too long 2000001
z = $f
12 too long 2000001
m = $c
d = $16
14 verilog B2 addr
z =
14 verilog L2
z = module m(output a);assign a=1'd0&&&1'd0;endmodule
14 verilog L1 byte 34
z = module m(output a);assign a=\257{1'd0|\}
14 verilog L3 byte 1312
z = module m(output a);wire b;assign a=b|c;endmodule
14 verilog N1 c
z = module m(output b);endmodule
14 verilog N9 b
no z
m =
d =
10 absent 1
z =
14 verilog L2
z = $f
3 march M3
m = $w0
4 memory D2
no d
10 absent 3
d = $two
> check z m z
2 usage
> benchfile z m d
14 verilog L1 byte 149
# a module that the program writes
anew
m = $c
d = $16
l = SF
> compile m d l v r
0 total 2 covered 2 escapes 0
z = @v
> check z m d
0 conforms 163
";

#[test]
fn checks(rt: HostRuntime) {
    are_right(&rt, first_wrong(rt.alloc(), CHECK));
}
