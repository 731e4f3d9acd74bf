//! Worked examples of the commands that clock the module of a memory against boxes.

use crate::commands::first_wrong;
use crate::rows::are_right;

static BENCH: &str = r"# BOXES
m = $c
d = $16
boxes sound:65536 sound:16
> bench m d
0+1 fail 0 done 162
boxes zeros:65536
1 fail 1 done 162 cycle 50 expected 1 returned 0
boxes ones:65536
1 fail 1 done 162 cycle 18 expected 0 returned 1
boxes count:65536
1 fail 1 done 162 cycle 18 expected 0 returned 1
boxes no_fit:65536
9+1 no memory
boxes sound:8
11+1 device V1 words 16 room 8
boxes sound:15 sound:16
11+2 device V1 words 16 room 15
boxes
11 device V4
d = memory 2\nname buf0\nwords 16\nbits 1\nlatency 3\n
boxes sound:65536
0 fail 0 done 164
boxes zeros:65536
1 fail 1 done 164 cycle 52 expected 1 returned 0
d = memory 1\nname large_one\nwords 65536\nbits 64\n
boxes sound:65536
12+1 too long 4587523
m = $ss
12+1 too long 10092547
m = $c
d = memory 1\nname buf0\nwords 5\nbits 1\n
0 fail 0 done 52

# FAULTS
d = memory 1\nname buf8\nwords 8\nbits 8\n
> benchfault m d <0w0/1/-> none 999999999.0
11+1 device V2
> benchfault m d <0w0/1/-> none 1000000000.0
2+1 usage
d = $16
> benchfault m d <0w0/1/-> none 3.0
1 fail 1 done 162 cycle 24 expected 0 returned 1
> benchfault m d <1w1/0/-> none 3.0
0 fail 0 done 162
> benchfault m d <0;0/1/-> none 3.0
13+1 misfit aggressor
d = memory 1\nname large_one\nwords 65536\nbits 64\n
boxes
> benchfault m d <0w0/1/-> 2.0 3.0
13 misfit aggressor
d = memory 1\nname buf8\nwords 8\nbits 8\n
boxes sound:65536
> benchfault m d <0w1;0/1/-> 6.3 1.5
1 fail 1 done 322 cycle 54 expected 00 returned 20
> benchfault m d <0w1;0/1/-> 6.3 6.5
11+1 device V2
boxes sound:7
> benchfault m d <0w1;0/1/-> 6.3 8.5
11+1 device V2
boxes sound:8
> benchfault m d <0w1;0/1/-> 6.8 1.5
11+1 device V2
boxes sound:7
> benchfault m d <0w1;0/1/-> 6.3 1.5
11+1 device V1 words 8 room 7
d = memory 2\nname buf8\nwords 8\nbits 8\nlatency 3\npolarity ff\n
boxes sound:65536
1 fail 1 done 324 cycle 56 expected ff returned df
m = $retention
d = memory 2\nname buf0\nwords 16\nbits 1\npause 4\n
> benchfault m d <0t/1/-> none 5.0
1 fail 1 done 38 cycle 27 expected 0 returned 1
> benchfault m d <1t/0/-> none 5.0
0 fail 0 done 38
m = $c
d = $16
> benchfault m d <0w0/1/-> none 3.00
2+1 usage
> benchfault m d <0w0/1/-> none 3
2+1 usage
d = memory 2\nname buf8\nwords 8\nbits 8\nlatency 3\n
> benchfault m d <0w1;0/1/-> 6.3 1.5
1 fail 1 done 324 cycle 56 expected 00 returned 20
m = $retention
d = memory 2\nname two\nwords 2\nbits 1\npause 5\n
> benchfault m d <0t/1/-> none 1.0
1 fail 1 done 11 cycle 10 expected 0 returned 1

# ALL
m = $c
d = $16
boxes sound:65536 zeros:65536 count:65536
> benchall m d
1 boxes 3 failing 2
boxes sound:65536 zeros:8 count:65536
11+3 device V1 words 16 room 8
boxes sound:65536 no_fit:65536 count:65536
9+2 no memory
boxes sound:65536 sound:16
0 boxes 2 failing 0
boxes
11 device V4
";

#[test]
fn boxes(rt: HostRuntime) {
    are_right(&rt, first_wrong(rt.alloc(), BENCH));
}

static FILES: &str = r"# FILES
m = {any(w1);any(r1)}
d = memory 1\nname buf0\nwords 2\nbits 1\n
z =
| module z(input clk,input reset,input rdata,output en,output we,
|   output addr,output wdata,output done,output fail);
| assign en=1'd0;assign we=1'd0;assign addr=1'd0;assign wdata=1'd0;
| assign done=1'd0;assign fail=1'd0;
| endmodule
boxes sound:65536
> benchfile z m d
0 fail 0 done none cycle 4 expected 1 returned 0
m = {any(w0);any(r0)}
0 fail 0 done none
m = $c
d = memory 1\nname buf8\nwords 8\nbits 8\n
14+1 verilog B2 rdata
> benchfile z m z
2+1 usage

# MODULES
d = $16
z =
boxes
> benchfile z m d
14 verilog L2
z = modul m
14 verilog L1 byte 5
z = module m(output a);assign a=\65{(\}1'd0
14 verilog L3 byte 92
z = module \65{a\}
14 verilog L4 byte 71
z = module m(output a);assign a=65'h0;endmodule
14 verilog L5 byte 29
z = module m(output a);wire b;assign a=c;endmodule
14 verilog N1 c
z = module m(output a);wire a;endmodule
14 verilog N2 a
z = module m(output a);assign a=2'd0;endmodule
14 verilog N3 1 2
z = module m(input clk,output reg q);always@(posedge clk)q<=1'd0;always@(posedge clk)q<=1'd1;endmodule
14 verilog N4 q
z = module m(input a,output b);assign a=b;endmodule
14 verilog N5 a
z = module m(input [1:0] a,output b);assign b=a[2];endmodule
14 verilog N6 a
z = module m(output b);endmodule
14 verilog N9 b
z = module m(output a);assign a=a;endmodule
14 verilog N7 a
z = module m(output a);wire b;assign a = b;assign b = a;endmodule
14 verilog N7 a b
z = module m(input a,output reg b);always@(posedge a)b<=1'd0;endmodule
14 verilog N10 a
# a module that the program writes
anew
m = $c
d = $16
l = SF
> compile m d l v r
0 total 2 covered 2 escapes 0
z = @v
boxes sound:65536
> benchfile z m d
0 fail 0 done 162
boxes zeros:65536
1 fail 1 done 162 cycle 50 expected 1 returned 0
";

#[test]
fn modules_of_files(rt: HostRuntime) {
    are_right(&rt, first_wrong(rt.alloc(), FILES));
}
