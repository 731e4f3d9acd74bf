//! Modules that break rules, and ones that don't, as `show` reads them.

use crate::commands::first_wrong;
use crate::rows::are_right;

static RULES: &str = r"# NO DESIGN

> show module s
s = module m(output y);wire b;wire c;assign y=b;assign b=c;assign c=b;endmodule
14 verilog N7 b c
s = module m(output a);wire b;assign a = b;assign b = a;endmodule
14 verilog N7 a b
s = module m(output y);assign y=y;endmodule
14 verilog N7 y
# What `check` refuses comes first.
s = module m(output y,output z);assign y=y;endmodule
14 verilog N9 z
s = module m(input clk,output reg q);always@(posedge clk)q<=1'h0;always@(posedge clk)q<=1'h1;endmodule
14 verilog N4 q

# RULES

s = module m(input clk,input [3:0]a,input [2:0]b,output [3:0]y);assign y=a;endmodule
0 ..
s = module m(input clk,input [3:0]a,input [2:0]b,output [3:0]y);assign y=w;endmodule
14 ..
said begins verilog N1\s
s = module m(input clk,input [3:0]a,input [2:0]b,output [3:0]y);assign y=clk;endmodule
14 ..
said begins verilog N3\s
s = module m(input clk,input [3:0]a,input [2:0]b,output [3:0]y);assign a=a;endmodule
14 ..
said begins verilog N5\s
s = module m(input clk,input [3:0]a,input [2:0]b,output [3:0]y);assign y=a[4:1];endmodule
14 ..
said begins verilog N6\s
s = module m(input clk,input [3:0]a,input [2:0]b,output [3:0]y);assign y=a;assign y=a;endmodule
14 ..
said begins verilog N2\s
s = module m(input clk,input [3:0]a,input [2:0]b,output [3:0]y);assign y=(a+b);endmodule
14 ..
said begins verilog N3\s
s = module m(input clk,input [3:0]a,input [2:0]b,output [3:0]y);assign y=(a<<b);endmodule
0 ..
s = module m(input clk,input [3:0]a,input [2:0]b,output [3:0]y);assign y=(a>>b);endmodule
0 ..
s = module m(input clk,input [3:0]a,input [2:0]b,output [3:0]y);assign y={3'h0,(a&&b)};endmodule
0 ..
s = module m(input clk,input [3:0]a,input [2:0]b,output [3:0]y);assign y={3'h0,(a||b)};endmodule
0 ..
s = module m(input clk,input [3:0]a,input [2:0]b,output [3:0]y);assign y=(a-b);endmodule
14 ..
said begins verilog N3\s
s = module m(input clk,input [3:0]a,input [2:0]b,output [3:0]y);assign y=(a&b);endmodule
14 ..
said begins verilog N3\s
s = module m(input clk,input [3:0]a,input [2:0]b,output [3:0]y);assign y=(a|b);endmodule
14 ..
said begins verilog N3\s
s = module m(input clk,input [3:0]a,input [2:0]b,output [3:0]y);assign y=(a^b);endmodule
14 ..
said begins verilog N3\s
s = module m(input clk,input [3:0]a,input [2:0]b,output [3:0]y);assign y={3'h0,(a<b)};endmodule
14 ..
said begins verilog N3\s
s = module m(input clk,input [3:0]a,input [2:0]b,output [3:0]y);assign y={3'h0,(a<=b)};endmodule
14 ..
said begins verilog N3\s
s = module m(input clk,input [3:0]a,input [2:0]b,output [3:0]y);assign y={3'h0,(a>b)};endmodule
14 ..
said begins verilog N3\s
s = module m(input clk,input [3:0]a,input [2:0]b,output [3:0]y);assign y={3'h0,(a>=b)};endmodule
14 ..
said begins verilog N3\s
s = module m(input clk,input [3:0]a,input [2:0]b,output [3:0]y);assign y={3'h0,(a==b)};endmodule
14 ..
said begins verilog N3\s
s = module m(input clk,input [3:0]a,input [2:0]b,output [3:0]y);assign y={3'h0,(a!=b)};endmodule
14 ..
said begins verilog N3\s
s = module m(input clk,input [3:0]a,input [2:0]b,output [3:0]y);reg [3:0]r;always@(posedge clk)r<=4'h9;always@(posedge clk)r<=4'h9;assign y=r;endmodule
14 ..
said begins verilog N4\s
s = module m(input clk,input [3:0]a,input [2:0]b,output [3:0]y);endmodule
14 ..
said begins verilog N9\s
";

#[test]
fn rules(rt: HostRuntime) {
    are_right(&rt, first_wrong(rt.alloc(), RULES));
}
