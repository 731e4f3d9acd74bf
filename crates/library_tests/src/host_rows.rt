//! Commands over a host whose calls fail.

use crate::commands::first_wrong;
use crate::rows::are_right;

static FAILING: &str = r"# CALLS
m = $mats
fails 1
> sim m <0w1/0/-> 2 00 none 0 uud
7 read failed 1
fails 2
8
l = one
fails 3
> judge m l r
8 write failed 3
anew
s = chip 1\nname one\nbudget 1\nunit 1 w t2\n
w = $w0
t2 = memory 1\nname t2\nwords 2\nbits 1\n
fails 1
> chip s v
7 read failed 1
fails 2
7 unit 0 read failed 1
fails 3
7 unit 0 read failed 2
fails 4
8 write failed 2
fails 5
8

# HALVES
anew
m = $c
d = $16
l = SF
> compile m d l v r
0 total 2 covered 2 escapes 0
$v = @v
$r = @r
fails 1
7 read failed 1
fails 2
7 read failed 2
fails 3
7 read failed 3
fails 1 2
7
fails 4
8 write failed 4
v half $v
r absent
fails 5
8 write failed 5
v == $v
r half $r
fails 6
8
v == $v
r == $r
";

#[test]
fn failing_calls(rt: HostRuntime) {
    are_right(&rt, first_wrong(rt.alloc(), FAILING));
}
