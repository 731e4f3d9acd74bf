//! Texts of marches, and what the reader says of them.

use crate::commands::first_wrong;
use crate::rows::are_right;

static MARCHES: &str = r"# REFUSED

> show march m
m =
3 march M3
m = {}
3 march M3
m =  \t\r\n
3 march M3
m = {any(w0);up(r0,
3 march M2
m = any(w0);
3 march M2
m = {any(w2)}
3 march M1 byte 6
m = {any(w0);}
3 march M1 byte 9
m = any(w0)}
3 march M1 byte 7
m = {any(w0)};
3 march M1 byte 9
m = {}x
3 march M1 byte 2
m = any(w 0)
3 march M1 byte 5
m = #
3 march M1 byte 0
m = \xef\xbb\xbfany(w0)
3 march M1 byte 0
m = \xe2\x86\x92(w0)
3 march M1 byte 2
m = \xe2\x88\x88(w0)
3 march M1 byte 1
m = {up(r0,w1)}
3 march M7 element 0 operation 0
m = {any(w0);up(r1)}
3 march M8 element 1 operation 0

# THE GRAMMAR COMES BEFORE THE LIMITS

m = \64{any(w0);\}any(w0)
3 march M4
m = \65{any(w0);\}
3 march M2
m = \64{any(w0);\}any(w0)!
3 march M1 byte 519
m = up(\16{w0,\}w0)
3 march M5 element 0
m = up(r0,\15{w0,\}w0)
3 march M5 element 0
m = up(r0)\64{;any(w0)\}
3 march M4
m = \64{any(w0,w0,w0,w0);\}any(w0)
3 march M4
m = \51{any(w0,w0,w0,w0,w0);\}any(w0,w0)
3 march M6

# OTHER SPELLINGS ARE PRINTED AS WORDS

m = {\xe2\x87\x95(w0); \xe2\x87\x91(r0,w1); \xe2\x87\x93(r1,w0)}\n
0 {any(w0);up(r0,w1);down(r1,w0)}
m = \xe2\x86\x95(w0);\xe2\x86\x91(r0,w1);\xe2\x86\x93(r1,w0)
0 {any(w0);up(r0,w1);down(r1,w0)}
m =  * ( w0 ) ;\n ^ (r0 , w1); v(r1,w0)
0 {any(w0);up(r0,w1);down(r1,w0)}
m = {any(w0);up(r0,w1);down(r1,w0)}
0 {any(w0);up(r0,w1);down(r1,w0)}

# REFUSED WITH PAUSES

m = {del}
3 march M3
m = del
3 march M3
m =  del ;\tdel\n
3 march M3
m = d
3 march M2
m = {de
3 march M2
m = {del
3 march M2
m = del;
3 march M2
m = del(w0)
3 march M1 byte 3
m = dell
3 march M1 byte 3
m = {dew
3 march M1 byte 3
m = {del;}
3 march M1 byte 5
m = del any(w0)
3 march M1 byte 4
m = {del;up(r0)}
3 march M7 element 1 operation 0
m = {any(w0);del;del;up(r0,r1)}
3 march M8 element 3 operation 1

# PAUSES COUNT AS ELEMENTS

m = \64{del;\}del
3 march M4
m = \64{del;\}any(w0)
3 march M4
m = \63{del;\}del
3 march M3
m = \63{del;\}any(w0)
0 ..
m = \65{del;\}
3 march M2
m = \2{del;\}up(w0,w0,w0,w0,w0,w0,w0,w0,w0,w0,w0,w0,w0,w0,w0,w0,w0)
3 march M5 element 2

# PRINTED WITH PAUSES

m = { any(w0) ; del ;\tany(r0) }
0 {any(w0);del;any(r0)}
m = del;*(w0)
0 {del;any(w0)}

# CUT AT EACH BYTE

m = {
3 march M2
m = {a
3 march M2
m = {an
3 march M2
m = {any
3 march M2
m = {any(
3 march M2
m = {any(w
3 march M2
m = {any(w0
3 march M2
m = {any(w0)
3 march M2
m = {any(w0);
3 march M2
m = {any(w0);u
3 march M2
m = {any(w0);up
3 march M2
m = {any(w0);up(
3 march M2
m = {any(w0);up(r
3 march M2
m = {any(w0);up(r0
3 march M2
m = {any(w0);up(r0,
3 march M2
m = {any(w0);up(r0,w
3 march M2
m = {any(w0);up(r0,w1
3 march M2
m = {any(w0);up(r0,w1)
3 march M2
m = {any(w0);up(r0,w1);
3 march M2
m = {any(w0);up(r0,w1);d
3 march M2
m = {any(w0);up(r0,w1);do
3 march M2
m = {any(w0);up(r0,w1);dow
3 march M2
m = {any(w0);up(r0,w1);down
3 march M2
m = {any(w0);up(r0,w1);down(
3 march M2
m = {any(w0);up(r0,w1);down(r
3 march M2
m = {any(w0);up(r0,w1);down(r1
3 march M2
m = {any(w0);up(r0,w1);down(r1,
3 march M2
m = {any(w0);up(r0,w1);down(r1,w
3 march M2
m = {any(w0);up(r0,w1);down(r1,w0
3 march M2
m = {any(w0);up(r0,w1);down(r1,w0)
3 march M2
";

#[test]
fn marches(rt: HostRuntime) {
    are_right(&rt, first_wrong(rt.alloc(), MARCHES));
}
