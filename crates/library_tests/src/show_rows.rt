//! Worked examples of `show`: what is said of marches, memories, lists, chips and modules, and what is refused.

use crate::commands::first_wrong;
use crate::rows::are_right;

static SHOW: &str = r"# MARCHES
m = any( w0 ) ;\n^(r0, w1);del ;v(r1)\n
> show march m
0 {any(w0);up(r0,w1);del;down(r1)}
m = $w0
0 {any(w0)}

# MEMORIES
d = # four words\nmemory 1\n bits 1 # one\nwords 4\nname s4\n
> show memory d
0 ..
said == memory 1\nname s4\nwords 4\nbits 1\nbackgrounds 0\n
# a scrambling, and version 2 where it is needed
d = memory 2\nname s4\nwords 4\nbits 8\npause 7\nscramble a1 = 1 ^ p1\nscramble a0 = p1^p0\nbackgrounds 0 F\n
0 ..
said == memory 2\nname s4\nwords 4\nbits 8\nlatency 1\npolarity 00\npause 7\nscramble a0 = p0 ^ p1\nscramble a1 = p1 ^ 1\nbackgrounds 00 0f\n
# version 2 that says nothing new
d = memory 2\nname s4\nwords 4\nbits 1\nlatency 1\n
0 ..
said == memory 1\nname s4\nwords 4\nbits 1\nbackgrounds 0\n

# LISTS
l = # none\n
> show list l
0 # primitives 0
l = SF # two\n <0w1;0/1/->\n<0w1r1/0/0>\n
0 ..
said == # primitives 4\n<0/1/->\n<1/0/->\n<0w1;0/1/->\n<0w1r1/0/0>\n

# CHIPS
c = # one\nchip 1\nunit 2 m d # and no more\nbudget 16\n name s\nunit 3 m e\n
> show chip c
0 ..
said == chip 1\nname s\nbudget 16\nunit 2 m d\nunit 3 m e\n

# MODULES
s = module m(input clk,input[1:0]a,output y,output reg[7:0]q);wire[1:0]w,v;assign w=~a;assign v={a[1],1'b1};assign y=!w[0]&v[1]|a==2'd3;always@(posedge clk)if(y)q<=8'd10;else q<=q+8'b1;endmodule // by precedence\n
> show module s
0 ..
said == module m(\n  input clk,\n  input [1:0] a,\n  output y,\n  output reg [7:0] q\n);\n  wire [1:0] w;\n  wire [1:0] v;\n  assign w = (~a);\n  assign v = {a[1], 1'h1};\n  assign y = (((!w[0]) & v[1]) | (a == 2'h3));\n  always @(posedge clk) begin\n    if (y) begin\n      q <= 8'h0a;\n    end else begin\n      q <= (q + 8'h01);\n    end\n  end\nendmodule\n
# in full parentheses too
s = module m(input a,output y);assign y=((!a)&a);endmodule
0 ..
said == module m(\n  input a,\n  output y\n);\n  assign y = ((!a) & a);\nendmodule\n
# 64 open at once, and 65
s = module m(input a,output y);assign y=a\64{^a\};endmodule
0 ..
said == module m(\n  input a,\n  output y\n);\n  assign y = \64{(\}a\64{ ^ a)\};\nendmodule\n
s = module m(input a,output y);assign y=a\65{^a\};endmodule
14 verilog L3 byte 0
s = module m(input clk,input a,output reg q);always@(posedge clk)\31{if(a)\}q<=!a;endmodule
0 ..
said begins module m(\n  input clk,\n  input a,\n  output reg q\n);\n  always @(posedge clk) begin\n    if (a) begin\n      if (a) begin\n
s = module m(input clk,input a,output reg q);always@(posedge clk)\31{if(a)\}q<=!!a;endmodule
14 verilog L1 byte 220
s = module m(input clk,input a,output reg q);always@(posedge clk)\31{if(a)\}q<=!(!a);endmodule
14 verilog L3 byte 0
s = module m(input clk,input a,output reg q);always@(posedge clk)\32{if(a)\}q<=a;endmodule
14 verilog L3 byte 0
# the reader's own refusals come first, then the rules, then loops
s = module m(input a,output y);assign y=b\65{^a\};endmodule
14 verilog N1 b
s = module m(output y);assign y=y\65{^y\};endmodule
14 verilog N7 y
s = module m(input a,output y);assign y=a\257{^a\};endmodule
14 verilog L3 byte 549
s = module m(output y);endmodule
14 verilog N9 y
s =
14 verilog L2

# REFUSED
> show
2 usage
> show march
2 usage
> show marches m
2 usage
> show March m
2 usage
> show march m m
2 usage
> show march -m
2 usage
no m
> show march m
10 absent 2
m = {del}
3 march M3
> show memory m
4 memory D1 line 1 byte 0
> show list m
5 fault F1 line 1 byte 0
> show chip m
15 chip C1 line 1 byte 0
> show module m
14 verilog L1 byte 0

# MODULES OF THE LONGEST MARCHES ARE READ AS THEY ARE WRITTEN: 256 operations in all
anew
d = memory 1\nname buffer\nwords 1000\nbits 64\n
l = SF
m = {\63{any(w0,r0,w1,r1);\}any(w0,r0,w1,r1)}
> compile m d l v r
0 total 2 covered 2 escapes 0
$v = @v
v = $v
> show module v
0 ..
said == $v
m = {\15{any(w0,r0,w1,r1,w0,r0,w1,r1,w0,r0,w1,r1,w0,r0,w1,r1);\}up(w0,r0,w1,r1,w1,r1,w0,r0,w1,r1,w0,r0,w0,r0,w1,r1)}
> compile m d l v r
0 total 2 covered 2 escapes 0
$v = @v
v = $v
> show module v
0 ..
said == $v
";

#[test]
fn inputs_in_one_form(rt: HostRuntime) {
    are_right(&rt, first_wrong(rt.alloc(), SHOW));
}
