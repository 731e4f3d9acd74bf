//! Texts of modules, and what the readers say of them.

use crate::questions::first_wrong;
use crate::rows::are_right;

static TEXTS: &str = r"# CUT

module L2:
module L2:  \t\r\n\x0c
module L2: /
module L2: //
module L2: /*/
module L2: /* module */ // m
module L2: modul

# CUT AT EACH BYTE, AND WHOLE

module L2:
module L2: m
module L2: mo
module L2: mod
module L2: modu
module L2: modul
module L2: module
module L2: module\s
module L2: module m
module L2: module m(
module L2: module m(i
module L2: module m(in
module L2: module m(inp
module L2: module m(inpu
module L2: module m(input
module L2: module m(input\s
module L2: module m(input c
module L2: module m(input cl
module L2: module m(input clk
module L2: module m(input clk)
module L2: module m(input clk);
module L2: module m(input clk);e
module L2: module m(input clk);en
module L2: module m(input clk);end
module L2: module m(input clk);endm
module L2: module m(input clk);endmo
module L2: module m(input clk);endmod
module L2: module m(input clk);endmodu
module L2: module m(input clk);endmodul
module: module m(input clk);endmodule
| module m(
|   input clk
| );
| endmodule

# UNEXPECTED BYTES

module L1 byte 0: #
module L1 byte 0: \x00
module L1 byte 1: /a
module L1 byte 0: \xc3\xa9
module L1 byte 5: modula
module L1 byte 13: module always(
module L1 byte 7: module 1
module L1 byte 9: module m();
module L1 byte 29: module m(input clk);endmodulex
module L1 byte 30: module m(input clk);endmodule x
module L1 byte 19: module t(input [3:00]a);endmodule
module L1 byte 17: module t(input [0'
module L1 byte 29: module t(output y);assign y ==
module L1 byte 32: module t(output y);assign y=(a===b);
module L1 byte 30: module t(output y);assign y=12;
module L1 byte 33: module t(output y);assign y=4'h1 5;
module L1 byte 33: module t(output y);assign y=(4'h1?a:b);
module L1 byte 31: module t(output y);assign y=4'b2;
module L1 byte 30: module t(output y);assign y=4'_1;
module L1 byte 29: module t(output y);assign y={};
module L1 byte 36: module t(input c);always@(posedge c);
module L1 byte 43: module t(input c);always@(posedge c)case(q)default
module L1 byte 26: module t(input c);always@(negedge

# NUMBERS OUT OF RANGE

module L5 byte 29: module t(output y);assign y=65
module L5 byte 29: module t(output y);assign y=0'
module L5 byte 30: module t(output y);assign y=00'
module L5 byte 29: module t(output y);assign y=65'h0
module L5 byte 38: module t(output [3:0] y);assign y=4'd16;endmodule
module L5 byte 32: module t(output y);assign y=4'h1F?
module L5 byte 52: module t(output y);assign y=64'h1_0000_0000_0000_0000
module L5 byte 17: module t(input [64:0]a)
module L5 byte 31: module t(output y);assign y=a[64]

# DEEP TEXTS AND LONG NAMES

module L2: module m(output a);assign a = \64{(\}
module L3 byte 94: module m(output a);assign a = \65{(\}
module L3 byte 94: module m(output a);assign a = \64{(\}(#
module L3 byte 94: module m(output a);assign a = \65{{\}
module L3 byte 437: module m(input clk,output reg q);always@(posedge clk)\65{begin \}
module L3 byte 437: module m(input clk,output reg q);always@(posedge clk)\64{begin \}begin
module L3 byte 437: module m(input clk,output reg q);always@(posedge clk)\64{begin \}begin'
module L2: module m(input clk,output reg q);always@(posedge clk)\64{begin \}begi
module L1 byte 441: module m(input clk,output reg q);always@(posedge clk)\64{begin \}begi#
module L3 byte 437: module m(input clk,output reg q);always@(posedge clk)\64{begin \}if
module L3 byte 437: module m(input clk,output reg q);always@(posedge clk)\64{begin \}case(
module L2: module m(input clk,output reg q);always@(posedge clk)\64{begin \}begins<=clk;
module L3 byte 370: module m(input clk,output reg q);always@(posedge clk)\63{if(q)\}if(
module L2: module m(input clk,output reg q);always@(posedge clk)\63{if(q)\}if\s
module L3 byte 1000: module m(input clk,output reg q);always@(posedge clk)\63{if(q)q<=q;else \}if(
module L2: module \64{a\}(
module L4 byte 71: module \65{a\}(

# READ, AND HOW THEIR MODULES ARE PRINTED

module: module t(input [3:0]a,output y);assign y=(&a[2:1]);endmodule
| module t(
|   input [3:0] a,
|   output y
| );
|   assign y = (&a[2:1]);
| endmodule
module: /**/module t (input wire[03:0]a , output wire y);assign y = ((&a[2:1]));endmodule//
| module t(
|   input [3:0] a,
|   output y
| );
|   assign y = (&a[2:1]);
| endmodule
module: module t(output[3:0]y);wire x;reg[1:0]p,q;assign y=(x?04'b0_001:4'hF);endmodule /* end */
| module t(
|   output [3:0] y
| );
|   wire x;
|   reg [1:0] p;
|   reg [1:0] q;
|   assign y = (x ? 4'h1 : 4'hf);
| endmodule
module: module t(output[3:0]y);wire x;reg[1:0]p,q;assign y=(x?4'd1:4'o17);endmodule\n
| module t(
|   output [3:0] y
| );
|   wire x;
|   reg [1:0] p;
|   reg [1:0] q;
|   assign y = (x ? 4'h1 : 4'hf);
| endmodule
module: module f(input clk,input d,output reg q);always@(posedge clk)begin if(d)if(d)q<=1'd0;else q<=1'h1;begin case(d)1'b0,1'o1:q<=1'd0;default q<=1'd1;endcase end end endmodule
| module f(
|   input clk,
|   input d,
|   output reg q
| );
|   always @(posedge clk) begin
|     if (d) begin
|       if (d) begin
|         q <= 1'h0;
|       end else begin
|         q <= 1'h1;
|       end
|     end
|     case (d)
|       1'h0, 1'h1: begin
|         q <= 1'h0;
|       end
|       default: begin
|         q <= 1'h1;
|       end
|     endcase
|   end
| endmodule
# Each form of an item, a statement and an expression.
module: module m2(input clk,input [7:0]d,output reg [7:0]q,output p);wire [2:0]w;reg r;assign p=(d[3]?1'h1:w[0]);assign w={d[7:6],r};always@(posedge clk)begin if((!d))begin if(r)q<=(q+8'hf);end else r<=1'h0;case(w)3'h0,3'h5:q<=d;default r<=r;endcase case(w)3'h0,3'h5:q<=d;endcase end endmodule
| module m2(
|   input clk,
|   input [7:0] d,
|   output reg [7:0] q,
|   output p
| );
|   wire [2:0] w;
|   reg r;
|   assign p = (d[3] ? 1'h1 : w[0]);
|   assign w = {d[7:6], r};
|   always @(posedge clk) begin
|     if ((!d)) begin
|       if (r) begin
|         q <= (q + 8'h0f);
|       end
|     end else begin
|       r <= 1'h0;
|     end
|     case (w)
|       3'h0, 3'h5: begin
|         q <= d;
|       end
|       default: begin
|         r <= r;
|       end
|     endcase
|     case (w)
|       3'h0, 3'h5: begin
|         q <= d;
|       end
|     endcase
|   end
| endmodule
";

#[test]
fn texts(rt: HostRuntime) {
    are_right(&rt, first_wrong(rt.alloc(), TEXTS));
}

static FREE: &str = r"# EXPRESSIONS, AND THE SAME WITH EACH OPERATOR IN PARENTHESES OF ITS OWN

groups (a|(b&c)): a|b&c
groups ((a-b)-c): a-b-c
groups (a-(b-c)): a-(b-c)
groups a: (a)
groups a: ((a))
groups: a?b:c?a:b
| (a?b:(c?a:b))
groups: a?b?c:a:b
| (a?(b?c:a):b)
groups (a||(b&&(c|(a^(b&(c==(a<(b<<(c+a))))))))): a||b&&c|a^b&c==a<b<<c+a
groups (((((((((a+b)<<c)<a)==b)&c)^a)|b)&&c)||a): a+b<<c<a==b&c^a|b&&c||a
groups ((a<<b)>>c): a<<b>>c
groups ((((a<b)<=c)>a)>=b): a<b<=c>a>=b
groups ((a==b)!=c): a==b!=c
groups (a<(b-c)): a<b-c
groups (c<<(a-b)): c<<a-b
groups (a<(b>>c)): a<b>>c
groups (a==(b>=c)): a==b>=c
groups (a&(b!=c)): a&b!=c
groups ((a-b)<c): a-b<c
groups ((a>>b)<c): a>>b<c
groups ((a>=b)==c): a>=b==c
groups ((a!=b)&c): a!=b&c
groups (a&&(&b)): a && &b
groups (a&(&b)): a & &b
groups ((~a)+b): ~a+b
groups (!(a|b)): !(a|b)
groups ((a|b)&{a,(b-c)}): (a|b)&{a,b-c}
groups: {a?b:c,a}
| {(a?b:c),a}
groups: d[3]+d[2:1]
| (d[3]+d[2:1])
groups: a||b?c:a||b
| ((a||b)?c:(a||b))
groups: (a?b:c)?a:b
| ((a?b:c)?a:b)
groups (4'b0101^{a,b,c,a}): 4'b0101^{a,b,c,a}
groups: !a?~b:^c
| ((!a)?(~b):(^c))

# REFUSED

free L1 byte 47: module m(input a,input b,output y);assign y=a&&&b
free L1 byte 46: module m(input a,input b,output y);assign y=a^~b
free L1 byte 45: module m(input a,input b,output y);assign y=~&a
free L1 byte 45: module m(input a,input b,output y);assign y=!!a
free L1 byte 47: module m(input a,input b,output y);assign y=a===b
free L1 byte 45: module m(input a,input b,output y);assign y=a.b
free L1 byte 46: module m(input a,input b,output y);assign y=a b
free L1 byte 47: module m(input a,input b,output y);assign y=a?b;
free L1 byte 45: module m(input a,input b,output y);assign y=a:b
free L1 byte 49: module m(input a,input b,output y);assign y=a?b:b:
free L1 byte 48: module m(input a,input b,output y);assign y=(a?b)
free L1 byte 45: module m(input a,input b,output y);assign y={}
free L1 byte 46: module m(input a,input b,output y);assign y=(a,
free L2: module m(input a,input b,output y);assign y=a&&
free L2: module m(input a,input b,output y);assign y=a
free L2: module m(input a,input b,output y);assign y=a\256{+a\}
free L3 byte 557: module m(input a,input b,output y);assign y=a\256{+a\}+
free L3 byte 558: module m(input a,input b,output y);assign y=a\256{+a\} &&\s
free L1 byte 559: module m(input a,input b,output y);assign y=a\256{+a\}&&&
free L3 byte 557: module m(input a,input b,output y);assign y=a\256{+a\}?
free L3 byte 1069: module m(input a,input b,output y);assign y=a\256{?a:a\}?
free L3 byte 428: module m(input a,input b,output y);assign y=!a\127{+!a\}+!a
free L2: module m(input a,input b,output y);assign y=\64{(\}a
free L3 byte 108: module m(input a,input b,output y);assign y=\65{(\}
free L3 byte 108: module m(input a,input b,output y);assign y=\1280{(\}a
free L3 byte 108: module m(input a,input b,output y);assign y=\1280{{\}a
free L3 byte 557: module m(input a,input b,output y);assign y=a\1280{+a\};endmodule
free L3 byte 1069: module m(input a,input b,output y);assign y=a\1280{?a:a\};endmodule

# AS MANY OPERATORS AS MAY BE

free yes: module m(input a,input b,output y);assign y=a\256{+a\};endmodule
free yes: module m(input a,input b,output y);assign y=a\256{?a:a\};endmodule
free yes: module m(input a,input b,output y);assign y=!a\127{+!a\}+a;endmodule
free yes: module m(input a,input b,output y);assign y=a\128{||a&&a\};endmodule
free yes: module m(input a,input b,output y);assign y=a\256{+a\};assign y=a+a;endmodule
";

#[test]
fn texts_whose_operators_bind_by_precedence(rt: HostRuntime) {
    are_right(&rt, first_wrong(rt.alloc(), FREE));
}
