//! Worked examples of `linked`: how many linked faults of each kind marches cover, and arrays that pass.

use crate::commands::first_wrong;
use crate::rows::are_right;

static LINKED: &str = r"# LINKED
# nothing is read
m = $w0
> linked m r
1 total 600 covered 0 escapes 600
r begins march {any(w0)}\nescape LF1 <0w1/0/-> <0w0/1/-> a none b none v 0 content 000 directions u\nescape LF1 <0w1/0/-> <0r0/1/1> a none b none v 0 content 000 directions u\n
# in the last one each has an aggressor of its own, the first's at the lower address
r ends
| escape LF3 <1;1r1/0/1> <1;0r0/1/1> a 0 b 1 v 2 content 000 directions u
| kind LF1 total 12 covered 0 escapes 12
| kind LF2aa total 240 covered 0 escapes 240
| kind LF2av total 48 covered 0 escapes 48
| kind LF2va total 60 covered 0 escapes 60
| kind LF3 total 240 covered 0 escapes 240
| devices total 455 covered 0 escapes 455
| total 600 covered 0 escapes 600
# of one cell: it writes what a cell holds in its first element alone, so a cell that holds 1 passes with two write disturb faults
m = $c
1 total 600 covered 466 escapes 134
r begins
| march {any(w0);up(r0,w1);up(r1,w0);down(r0,w1);down(r1,w0);any(r0)}
| covered LF1 <0w1/0/-> <0w0/1/->
| covered LF1 <0w1/0/-> <0r0/1/1>
| covered LF1 <1w0/1/-> <1w1/0/->
| covered LF1 <1w0/1/-> <1r1/0/0>
| escape LF1 <0w0/1/-> <1w1/0/-> a none b none v 0 content 100 directions uuuddu
| covered LF1 <0w0/1/-> <1r1/0/0>
| escape LF1 <1w1/0/-> <0w0/1/-> a none b none v 0 content 100 directions uuuddu
| covered LF1 <1w1/0/-> <0r0/1/1>
| covered LF1 <0r0/1/0> <1w1/0/->
| covered LF1 <0r0/1/0> <1r1/0/0>
| covered LF1 <1r1/0/1> <0w0/1/->
| covered LF1 <1r1/0/1> <0r0/1/1>
r ends
| kind LF1 total 12 covered 10 escapes 2
| kind LF2aa total 240 covered 196 escapes 44
| kind LF2av total 48 covered 40 escapes 8
| kind LF2va total 60 covered 48 escapes 12
| kind LF3 total 240 covered 172 escapes 68
| devices total 455 covered 372 escapes 83
| total 600 covered 466 escapes 134
m = $mats
1 total 600 covered 58 escapes 542
r ends
| kind LF1 total 12 covered 8 escapes 4
| kind LF2aa total 240 covered 20 escapes 220
| kind LF2av total 48 covered 24 escapes 24
| kind LF2va total 60 covered 6 escapes 54
| kind LF3 total 240 covered 0 escapes 240
| devices total 455 covered 52 escapes 403
| total 600 covered 58 escapes 542
# March LR, and March SL
m = {any(w0);down(r0,w1);up(r1,w0,r0,w1);up(r1,w0);up(r0,w1,r1,w0);up(r0)}
1 total 600 covered 490 escapes 110
r ends \ndevices total 455 covered 386 escapes 69\ntotal 600 covered 490 escapes 110\n
m = {any(w0);up(r0,r0,w1,w1,r1,r1,w0,w0,r0,w1);up(r1,r1,w0,w0,r0,r0,w1,w1,r1,w0);down(r0,r0,w1,w1,r1,r1,w0,w0,r0,w1);down(r1,r1,w0,w0,r0,r0,w1,w1,r1,w0)}
0 total 600 covered 600 escapes 0
r ends \ndevices total 455 covered 455 escapes 0\ntotal 600 covered 600 escapes 0\n
# refusals are those of `judge` without its list
m = {any(w0);up(r1)}
3 march M8 element 1 operation 0
no m
> linked m r
10 absent 1
> linked m m
2 usage
> linked m
2 usage";

#[test]
fn linked_verdicts(rt: HostRuntime) {
    are_right(&rt, first_wrong(rt.alloc(), LINKED));
}
