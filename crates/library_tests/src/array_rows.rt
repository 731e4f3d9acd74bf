//! Worked examples of `sim`.

use crate::commands::first_wrong;
use crate::rows::are_right;

static SIM: &str = r"# ARRAYS
m = {any(w0)\63{;any(r0)\}}
> sim m <0/1/-> 2 00 none 0 \64{u\}
1 caught element 1 address 0 operation 0
> sim m <0/1/-> 2 00 none 0 \65{u\}
2 usage
m = $mats
> sim m <0w1/0/-> 2 00 none 0 uud
1 caught element 2 address 0 operation 0
> sim m <1w1/0/-> 2 00 none 0 uud
0 passes
> sim m <1w1/0/-> 2 00 none 0 uuu
13 misfit directions
> sim m <1w1/0/-> 2 00 1 0 uud
13 misfit aggressor
> sim m <0;0/1/-> 2 00 none 0 uud
13 misfit aggressor
> sim m <0w1;0/1/-> 2 00 0 1 uud
1 caught element 1 address 1 operation 0
> sim m <0w1;0/1/-> 3 000 2 0 uud
0 passes
# the first digit is cell 0's
m = {up(w0);up(r0)}
> sim m <1w0;0/1/-> 2 01 1 0 uu
1 caught element 1 address 0 operation 0
> sim m <1w0;0/1/-> 2 10 1 0 uu
0 passes
m = {any(w0);up(r0,w1,r1)}
> sim m <0w1/0/-> 2 00 none 0 uu
1 caught element 1 address 0 operation 2
m = $mats
> sim m <1w1/0/-> 2 00 0 0 uud
2 usage
> sim m <1w1/0/-> 1 0 none 0 uud
2 usage
> sim -m <0w1/0/-> 2 00 none 0 uud
2 usage
> sim m <0w1/1/-> 2 00 none 0 uud
5 fault F3 line 1
> sim m <0w1;0w0/1/-> 2 00 none 0 uud
5 fault F4 line 1
> sim m <0w1/0> 2 00 none 0 uud
5 fault F1 line 1 byte 6
m = {up(r0,w1)}
> sim m <0w1/0/-> 2 00 none 0 u
3 march M7 element 0 operation 0
m = {any(w2)}
3 march M1 byte 6
m = {any(w0);up(r0,
3 march M2
anew
> sim m <0w1/0/-> 2 00 none 0 uud
10 absent 1
m = $retention
> sim m <0t/1/-> 2 00 none 1 uuu
1 caught element 2 address 1 operation 0
> sim m <0t/1/-> 2 00 none 1 udu
13 misfit directions
m = $mats
> sim m <0w1r1/0/0> 2 00 none 0 uud
5 fault F4 line 1
> sim m <0w1/0/-> 4096 \4096{0\} none 0 uud
1 caught element 2 address 0 operation 0
> sim m <0w1/0/-> 4097 \4097{0\} none 0 uud
2 usage
# which of two comes first
> sim m <0w1/1/-> 2 00 1 0 uu
5 fault F3 line 1
> sim m <1w1/0/-> 2 00 1 0 uuu
13 misfit aggressor
no m
> sim m <0w1/1/-> 2 00 1 0 uu
10 absent 1
# as many blanks as an input may have, and one more
m = \1048576{\s\}
> sim m <0w1/0/-> 2 00 none 0 uud
3 march M3
m = \1048577{\s\}
6 too large 1
";

#[test]
fn arrays(rt: HostRuntime) {
    are_right(&rt, first_wrong(rt.alloc(), SIM));
}
