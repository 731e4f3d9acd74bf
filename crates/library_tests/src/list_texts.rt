//! Texts of lists of both kinds, and what `show` says of them.

use crate::commands::first_wrong;
use crate::rows::are_right;

static DYNAMIC: &str = r"# REFUSED

> show list l
l = <0w1r0/0/1>
5 fault F3 line 1
l = <0w1r1/1/1>
5 fault F3 line 1
l = <0w1w0/0/->
5 fault F3 line 1
l = <0w1r1/0/->
5 fault F3 line 1
l = <1r0w1/0/->
5 fault F3 line 1
l = <0tt/1/->
5 fault F3 line 1
l = <0tw1/0/->
5 fault F3 line 1
l = <0w1w1;0/0/->
5 fault F3 line 1
l = <0r0/0/0>
5 fault F3 line 1
l = <0w1;0r0/1/0>
5 fault F4 line 1
l = <0w1r1w0/1/->
5 fault F4 line 1
l = <0t;0w0/1/->
5 fault F4 line 1
l = <0w1r1;0w1/0/->
5 fault F4 line 1
l = dyn
5 fault F2 line 1
l = dyn3
5 fault F1 line 1 byte 3
l = dyn1 x
5 fault F1 line 1 byte 5
l = dyn1\ndyn\n
5 fault F1 line 2 byte 3
l = dyn1\n<0w1r1/0/0>\n<0tt/1/->
5 fault F3 line 3

# WORDS BRING PRIMITIVES

l =
0 # primitives 0
l = dyn1
0 ..
said begins # primitives 30\n
l =  dyn2#all\n
0 ..
said begins # primitives 96\n
l = DRF\n<0w1r1/0/0>\ndyn1\n
0 ..
said begins # primitives 33\n

# A LIST HOLDS 1024 ITEMS: ten lines bring 960

l = \10{dyn2\n\}dyn1\ndyn1\nDRF\nDRF\n
0 ..
said begins # primitives 1024\n
l = \10{dyn2\n\}dyn1\ndyn1\nDRF\nDRF\n<0w1r1/0/0>
5 fault F5 line 15

# PRINTED

l = <r0w1/0/->
0 ..
said == # primitives 1\n<0r0w1/0/->\n
l = \t< 0 w1 r1 / 0/ 0 >\s
0 ..
said == # primitives 1\n<0w1r1/0/0>\n
l = <1r1w0 ;0/1/->
0 ..
said == # primitives 1\n<1r1w0;0/1/->\n
l = <1; r0 r0/1/0>
0 ..
said == # primitives 1\n<1;0r0r0/1/0>\n
";

#[test]
fn dynamic_primitives(rt: HostRuntime) {
    are_right(&rt, first_wrong(rt.alloc(), DYNAMIC));
}
