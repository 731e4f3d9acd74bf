//! Worked examples of `compile` and `make`.

use crate::commands::first_wrong;
use crate::rows::are_right;

static COMPILE: &str = r"# COMPILED
m = $c
d = $16
l = SF
> compile m d l v r
0 total 2 covered 2 escapes 0
r ==
| march {any(w0);up(r0,w1);up(r1,w0);down(r0,w1);down(r1,w0);any(r0)}
| memory buf0 words 16 bits 1 backgrounds 1 commands 160
| covered <0/1/-> SF
| covered <1/0/-> SF
| class SF 2 covered 2
| total 2 covered 2 escapes 0
v begins module buf0_bist(\n  input clk,\n  input reset,\n  input rdata,\n
v ends endmodule\n
d = memory 1\nname buf0\nwords 5\nbits 1\n
l = <0w0/1/->
1 total 1 covered 0 escapes 1
r ==
| march {any(w0);up(r0,w1);up(r1,w0);down(r0,w1);down(r1,w0);any(r0)}
| memory buf0 words 5 bits 1 backgrounds 1 commands 50
| escape <0w0/1/-> WDF aggressor none victim 0 content 10 directions uuuddu
| class WDF 1 covered 0
| total 1 covered 0 escapes 1
v begins
# eight bits have four logarithmic backgrounds
d = memory 1\nname d\nwords 16\nbits 8\n
l = SF
0 total 2 covered 2 escapes 0
r begins march {any(w0);up(r0,w1);up(r1,w0);down(r0,w1);down(r1,w0);any(r0)}\nmemory d words 16 bits 8 backgrounds 4 commands 640\n
d = $16
l = <1w0r0/1/1>\n<r0w1/0/->\n
1 total 2 covered 1 escapes 1
r ==
| march {any(w0);up(r0,w1);up(r1,w0);down(r0,w1);down(r1,w0);any(r0)}
| memory buf0 words 16 bits 1 backgrounds 1 commands 160
| escape <1w0r0/1/1> DYN1 cells 2 aggressor none victim 0 content 00 directions uuuddd
| covered <0r0w1/0/-> DYN1
| class DYN1 2 covered 1
| total 2 covered 1 escapes 1

# WHICH OF TWO COMES FIRST
anew
> compile m d l v r
10 absent 1
m = $mats
10 absent 2
d = $two
10 absent 3
d =
4 memory D2
m = {del}
3 march M3
d = $two
l = <0w1/1/->
3 march M3
m = $mats
5 fault F3 line 1
";

#[test]
fn compilations(rt: HostRuntime) {
    are_right(&rt, first_wrong(rt.alloc(), COMPILE));
}

static MAKE: &str = r"# MADE
> make 1 a b c v r
1 made elements 6 operations 10 commands 210 covered 672 of 1008
a == $c
> make 0 a b c v r
0 made elements 64 operations 254 commands 3556 covered 1008 of 1008
> make 1000 a b c v r
0 made elements 64 operations 254 commands 1781556 covered 1008 of 1008
a == {any(w0);up(r0,r0,w0,r0,w1);up(r1,r1,w1,r1,w0);down(r0,r0,w0,r0,w1);down(r1,r1,w1,r1,w0);any(r0);down(r0,w0,r0,w1);down(r1,w1,r1,w0);up(r0,w1,r1,w1);down(r1,w0,r0,w1);down(r1,w1,r1,w1);up(r1,w1,r1,w0);up(r0,w0,r0,w1);any(r1,w0,r0,w0);down(r0,w1,r1,w0);down(r0,w1,r1,w1);up(r1,w0,r0,w1);down(r1,w1,r1,w0);any(r0,w0,r0,w0);any(r0,w1,r1,w1);down(r1,w1,r1,w0);up(r0,w1,r1,w0);up(r0,w0,r0,w1);down(r1,w1,r1,w1);any(r1,w0,r0,w1);any(r1,w1,r1,w0);down(r0,w1,r1,w0);up(r0,w1,r1,w0);any(r0,w0,r0,w1);up(r1,w0,r0,w0);any(r0,w0,r0,w0);up(r0,w0,r0,w0);any(r0,w0,r0,w0);up(r0,w0,r0,w1);down(r1,w1,r1,w1);down(r1,w0,r0,w0);any(r0,w1,r1,w1);any(r1,w1,r1,w1);down(r1,w1,r1,w1);up(r1,w1,r1,w0);any(r0,w0,r0,w1);any(r1,w0,r0,w0);any(r0,w1,r1,w1);any(r1,w0,r0,w0);up(r0,w0,r0,w1);any(r1,w0,r0,w0);up(r0,w1,r1,w1);down(r1,w0,r0,w0);down(r0,w1,r1,w0);down(r0,w1,r1,w1);any(r1,w1,r1,w1);any(r1,w1,r1,w0);down(r0,w0,r0,w1);down(r1,w1,r1,w0);any(r0,w0,r0,w0);down(r0,w0,r0,w0);any(r0,w1,r1,w0);any(r0,w1,r1,w1);up(r1,w0,r0,w0);up(r0,w0,r0,w0);any(r0,w0,r0,w1);up(r1,w0,r0,w0);down(r0,w0,r0,w1);up(r1,w1,r1,w0)}\n
b ==
| memory 1
| name made
| words 1002
| bits 64
| backgrounds 0000000000000000 aaaaaaaaaaaaaaaa cccccccccccccccc f0f0f0f0f0f0f0f0 ff00ff00ff00ff00 ffff0000ffff0000 ffffffff00000000
c == \21{all\n\}
v begins module made_bist(\n
r ends total 1008 covered 1008 escapes 0\n
> make 65534 a b c v r
0 made elements 64 operations 254 commands 116523008 covered 1008 of 1008
> make 65535 a b c v r
2 usage
> make 01 a b c v r
2 usage
> make 0 a b c
2 usage
> make 0 a b c v a
2 usage
";

#[test]
fn made_inputs(rt: HostRuntime) {
    are_right(&rt, first_wrong(rt.alloc(), MAKE));
}
