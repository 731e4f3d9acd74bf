//! Worked examples of `decoder`: which marches detect which faults of the address decoder, and the arrays that pass.

use crate::commands::first_wrong;
use crate::rows::are_right;

static DECODER: &str = r"# DECODER
# x first writes both cells; where y comes first, the and of 0 and 1 is still the 0 that x expects, and so is what its own cell holds
m = {any(w0);any(r0,w1);any(r1)}
> decoder m r
1 total 6 covered 4 escapes 2
r ==
| march {any(w0);any(r0,w1);any(r1)}
| covered none 0
| covered none 1
| covered other
| escape both and x 0 y 1 content 00 directions udu
| covered both or
| escape both own x 0 y 1 content 00 directions udu
| total 6 covered 4 escapes 2
# a pause has the letter u
m = {any(w0);del;any(r0,w1);del;any(r1)}
1 total 6 covered 4 escapes 2
r ==
| march {any(w0);del;any(r0,w1);del;any(r1)}
| covered none 0
| covered none 1
| covered other
| escape both and x 0 y 1 content 00 directions uuduu
| covered both or
| escape both own x 0 y 1 content 00 directions uuduu
| total 6 covered 4 escapes 2
# the same with the other bit
m = {any(w1);any(r1,w0);any(r0)}
1 total 6 covered 4 escapes 2
r ==
| march {any(w1);any(r1,w0);any(r0)}
| covered none 0
| covered none 1
| covered other
| covered both and
| escape both or x 0 y 1 content 00 directions udu
| escape both own x 0 y 1 content 00 directions udu
| total 6 covered 4 escapes 2
m = $mats
0 total 6 covered 6 escapes 0
r ==
| march {any(w0);up(r0,w1);down(r1,w0)}
| covered none 0
| covered none 1
| covered other
| covered both and
| covered both or
| covered both own
| total 6 covered 6 escapes 0
# March X, C- and SS have an element up and one down
m = {any(w0);up(r0,w1);down(r1,w0);any(r0)}
0 total 6 covered 6 escapes 0
m = $c
0 total 6 covered 6 escapes 0
m = $ss
0 total 6 covered 6 escapes 0
# none goes down: where y has the lower address it comes first, and only the turned 1 shows the and
m = {any(w0);up(r0,w1);up(r1)}
1 total 6 covered 4 escapes 2
r ==
| march {any(w0);up(r0,w1);up(r1)}
| covered none 0
| covered none 1
| covered other
| escape both and x 1 y 0 content 00 directions uuu
| covered both or
| escape both own x 1 y 0 content 00 directions uuu
| total 6 covered 4 escapes 2
# and where each cell answers for itself nothing shows it
m = {any(w0);up(r0,w1);up(r1,w0)}
1 total 6 covered 5 escapes 1
r ends
| covered both or
| escape both own x 1 y 0 content 00 directions uuu
| total 6 covered 5 escapes 1
# a read of 0 alone tells an address without a cell that answers 1
m = {any(w0);any(r0)}
1 total 6 covered 1 escapes 5
r ==
| march {any(w0);any(r0)}
| escape none 0 x 0 y 1 content 00 directions uu
| covered none 1
| escape other x 0 y 1 content 00 directions uu
| escape both and x 0 y 1 content 00 directions uu
| escape both or x 0 y 1 content 00 directions uu
| escape both own x 0 y 1 content 00 directions uu
| total 6 covered 1 escapes 5
# no element reads and writes, so no address is told from another
m = {any(w0);any(r0);any(w1);any(r1)}
1 total 6 covered 2 escapes 4
r ==
| march {any(w0);any(r0);any(w1);any(r1)}
| covered none 0
| covered none 1
| escape other x 0 y 1 content 00 directions uuuu
| escape both and x 0 y 1 content 00 directions uuuu
| escape both or x 0 y 1 content 00 directions uuuu
| escape both own x 0 y 1 content 00 directions uuuu
| total 6 covered 2 escapes 4
# an element that leaves the bit that it reads turns none
m = {any(w0);up(r0,w1,w0);down(r0,w1,r1,w0)}
1 total 6 covered 2 escapes 4
m = $w0
1 total 6 covered 0 escapes 6
m = {\63{any(w0);\}any(w1,r1)}
1 total 6 covered 1 escapes 5

# REFUSED
m = {del}
> decoder m r
3 march M3
m = {any(r0)}
3 march M7 element 0 operation 0
no m
10 absent 1
m = $c
> decoder m m
2 usage
> decoder m
2 usage
> decoder m r r
2 usage
> decoder -m r
2 usage
";

#[test]
fn verdicts_on_the_decoder(rt: HostRuntime) {
    are_right(&rt, first_wrong(rt.alloc(), DECODER));
}
