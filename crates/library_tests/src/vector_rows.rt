//! Worked examples of `vectors`, and of how its files are refused.

use crate::commands::first_wrong;
use crate::rows::are_right;

static VECTORS: &str = r"# VECTORS
$each = w 0 0\nw 1 0\nw 2 0\nw 3 0\nw 4 0\nw 5 0\nw 6 0\nw 7 0\nw 8 0\nw 9 0\nw 10 0\nw 11 0\nw 12 0\nw 13 0\nw 14 0\nw 15 0\nr 0 0\nr 1 0\nr 2 0\nr 3 0\nr 4 0\nr 5 0\nr 6 0\nr 7 0\nr 8 0\nr 9 0\nr 10 0\nr 11 0\nr 12 0\nr 13 0\nr 14 0\nr 15 0\n
m = $long
d = memory 2\nname buf0\nwords 16\nbits 1\nlatency 1\npause 64515\n
> vectors m d o
0 vectors 32
o == $each
d = memory 2\nname buf0\nwords 16\nbits 1\npause 64515\n
0 vectors 32
o == $each
m = {up(w1);down(r1)}
d = memory 1\nname s4\nwords 4\nbits 1\nscramble a0 = p0 ^ p1\nscramble a1 = p1\n
0 vectors 8
o == w 0 1\nw 1 1\nw 3 1\nw 2 1\nr 2 1\nr 3 1\nr 1 1\nr 0 1\n
m = {any(w0);up(r0,w1)}
d = memory 1\nname two\nwords 2\nbits 2\n
0 vectors 12
o == w 0 0\nw 1 0\nr 0 0\nw 0 3\nr 1 0\nw 1 3\nw 0 2\nw 1 2\nr 0 2\nw 0 1\nr 1 2\nw 1 1\n
m = {up(w1);down(r1)}
d = memory 2\nname two\nwords 2\nbits 1\npolarity 1\n
0 vectors 4
o == w 0 0\nw 1 0\nr 1 0\nr 0 0\n
# a word has a digit for each four bits that it begins
m = $w0
d = memory 1\nname d\nwords 2\nbits 9\n
0 vectors 10
o == w 0 000\nw 1 000\nw 0 0aa\nw 1 0aa\nw 0 0cc\nw 1 0cc\nw 0 0f0\nw 1 0f0\nw 0 100\nw 1 100\n
m = $retention
d = memory 2\nname two\nwords 2\nbits 1\npause 5\n
0 vectors 4
o == w 0 0\nw 1 0\nr 0 0\nr 1 0\n

# REFUSED
m = {}
d =
3 march M3
m = {any(w0);up(r1)}
3 march M8 element 1 operation 0
m = $mats
4 memory D2
d = memory 1\nname n\nwords 2\nbits 1\nlatency 1\n
4 memory D1 line 5 byte 0
d = memory 1\nname s4\nwords 4\nbits 1\nscramble a0 = p0\nscramble a1 = p0\n
4 memory D6 rows a0 a1
m = $ss
d = memory 1\nname big\nwords 65536\nbits 64\n
12 too long 10092547
m = $long
d = memory 2\nname buf0\nwords 16\nbits 1\nlatency 2\npause 64515\n
12 too long 2000001
";

#[test]
fn vectors(rt: HostRuntime) {
    are_right(&rt, first_wrong(rt.alloc(), VECTORS));
}
