//! Texts of primitives and of lists, and what the readers say of them.

use crate::questions::first_wrong;
use crate::rows::are_right;

static FAULTS: &str = r"# REFUSED PRIMITIVES

prim F3 line 1: <0r0/0/0>
prim F3 line 1: <1r0/0/0>
prim F3 line 1: <0w1/0/0>
prim F3 line 1: <0r0/1/->
prim F4 line 1: <0w1r1/0/0>
prim F4 line 1: <0w1;0w0/1/->
prim F4 line 1: <r0w1/0/->
prim F1 line 1 byte 6: <0w1/0>
prim F1 line 1 byte 3: <0w 1/0/->
prim F1 line 1 byte 1: <w1/0/->
prim F1 line 1 byte 4: <0;0;0/1/->
prim F1 line 1 byte 7: <0/1/->\n
prim F1 line 1 byte 0: SF
prim F2 line 1: <0w1/0
prim F2 line 1:

# REFUSED LISTS

list F2 line 1: <0w1/0
list F1 line 1 byte 6: <0w1/0\n
list F1 line 1 byte 7: <0w1/0 #x
list F2 line 1: CF
list F1 line 1 byte 2: CF\n
list F1 line 1 byte 2: SFx
list F1 line 1 byte 4: one two
list F3 line 4: one\n# \n\n <0r0/0/0>
list F4 line 2: one\n<0w1;0w0/1/->\nx

# A LIST HOLDS 1024 PRIMITIVES: 21 lines bring 1008

list 1024: \21{all\n\}one#two\n CFst\n
list F5 line 24: \21{all\n\}one#two\n CFst\n<0/1/->

# PRINTED

prim <0r0/1/1>: <r0/1/1>
prim <0w1/0/->: \t<0 w1 / 0/ - >\s
prim <0w1;0/1/->: <0w1 ;0/1/->
";

#[test]
fn primitives_and_lists(rt: HostRuntime) {
    are_right(&rt, first_wrong(rt.alloc(), FAULTS));
}

static PAUSES: &str = r"# REFUSED PRIMITIVES

prim F3 line 1: <0t/0/->
prim F3 line 1: <0t/1/0>
prim F3 line 1: <0t/1/1>
prim F3 line 1: <0;0t/1/->
prim F3 line 1: <0t;0/1/->
prim F4 line 1: <0tt/1/->
prim F4 line 1: <0tw1/0/->
prim F4 line 1: <0w1;0t/1/->
prim F2 line 1: <0t
prim F1 line 1 byte 1: <t/1/->
prim F1 line 1 byte 3: <0t0/1/->

# PRINTED

prim <0t/1/->: <0t/1/->
prim <1t/0/->: <1t/0/->

# LISTS HOLD THE CLASS

list 2: DRF
list 50:  DRF # a pause\nall
list 48: all
list 1: <0t/1/->

# REFUSED LISTS

list F2 line 1: DR
list F1 line 1 byte 2: DR\n
list F1 line 1 byte 3: DRFx
list F4 line 2: DRF\n<0tt/1/->
";

#[test]
fn pauses_in_primitives(rt: HostRuntime) {
    are_right(&rt, first_wrong(rt.alloc(), PAUSES));
}
