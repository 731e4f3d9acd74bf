//! Worked examples of `inword`.

use crate::commands::first_wrong;
use crate::rows::are_right;

static IN_WORD: &str = r"# TWO BITS
m = $c
d = memory 1\nname duo\nwords 2\nbits 2\n
l = two
> inword m d l r
1 total 36 covered 16 escapes 20
m = $ss
1 total 36 covered 32 escapes 4
m = $mats
1 total 36 covered 13 escapes 23
m = $w0
1 total 36 covered 0 escapes 36
# March RAW1
m = {any(w0);any(w0,r0);any(r0);any(w1,r1);any(r1);any(w1,r1);any(r1);any(w0,r0);any(r0)}
1 total 36 covered 29 escapes 7
l = <0;0w0/1/->\n<0;1w1/0/->\n<1;0w0/1/->\n<1;1w1/0/->
1 total 4 covered 2 escapes 2
r ends
| escape <0;0w0/1/-> CFwd aggressor 1 victim 0 content 00 reading both
| covered <0;1w1/0/-> CFwd
| escape <1;0w0/1/-> CFwd aggressor 1 victim 0 content 00 reading behind
| covered <1;1w1/0/-> CFwd
| apart 0
| total 4 covered 2 escapes 2
# The second background is 10. Its first write sets bit 1 from 0 to 1 and leaves bit 0 at 0: there alone an aggressor at
# bit 1 shows what this primitive does, and none at bit 0.
m = $ss
l = SF\n<0w1;0/1/->\n<0w1r1;0/1/->\n<0;0/1/->\n<0w1;0/1/->\n
1 total 3 covered 1 escapes 2
r ==
| march {any(w0);up(r0,r0,w0,r0,w1);up(r1,r1,w1,r1,w0);down(r0,r0,w0,r0,w1);down(r1,r1,w1,r1,w0);any(r0)}
| memory duo words 2 bits 2 backgrounds 2 commands 88
| escape <0w1;0/1/-> CFds aggressor 0 victim 1 content 00 reading before
| covered <0;0/1/-> CFst
| escape <0w1;0/1/-> CFds aggressor 0 victim 1 content 00 reading before
| apart 3
| total 3 covered 1 escapes 2
l =
0 total 0 covered 0 escapes 0
r ends \napart 0\ntotal 0 covered 0 escapes 0\n
l = one\nDRF\ndyn1
0 total 0 covered 0 escapes 0
r ends \napart 44\ntotal 0 covered 0 escapes 0\n
# one background: both bits always hold the same, but in a content
d = memory 1\nname duo\nwords 2\nbits 2\nbackgrounds 0\n
m = $c
l = two
1 total 36 covered 6 escapes 30
m = $ss
1 total 36 covered 14 escapes 22
m = {any(w0);any(r0)}
l = <0;0/1/->\n<0w0;0/1/->\n<0w0;1/0/->\n<0;0w0/1/->\n<0;1w0/1/->
1 total 5 covered 1 escapes 4
r ==
| march {any(w0);any(r0)}
| memory duo words 2 bits 2 backgrounds 1 commands 4
| covered <0;0/1/-> CFst
| escape <0w0;0/1/-> CFds aggressor 1 victim 0 content 01 reading both
| escape <0w0;1/0/-> CFds aggressor 1 victim 0 content 00 reading both
| escape <0;0w0/1/-> CFwd aggressor 1 victim 0 content 01 reading both
| escape <0;1w0/1/-> CFtr aggressor 1 victim 0 content 00 reading both
| apart 0
| total 5 covered 1 escapes 4
# Both bits go from 0 to 1 at once: before the write the other bit is at 0, behind it at 1. An aggressor that must be at 0 is caught in
# the first reading alone, and one at 1 in the second alone, as is a victim at 1. A victim that must be at 0 is written over in the
# first, and never found in the second.
m = {any(w0);any(r0,w1);any(r1)}
l = <0;0w1/0/->\n<1;0w1/0/->\n<0w1;0/1/->\n<0w1;1/0/->
1 total 4 covered 0 escapes 4
r ends
| escape <0;0w1/0/-> CFtr aggressor 1 victim 0 content 00 reading behind
| escape <1;0w1/0/-> CFtr aggressor 1 victim 0 content 00 reading before
| escape <0w1;0/1/-> CFds aggressor 1 victim 0 content 00 reading both
| escape <0w1;1/0/-> CFds aggressor 1 victim 0 content 00 reading before
| apart 0
| total 4 covered 0 escapes 4

# OTHER WORDS
d = memory 1\nname octet\nwords 4\nbits 8\n
m = $c
l = two
1 total 36 covered 16 escapes 20
m = $ss
1 total 36 covered 32 escapes 4
d = memory 1\nname octet\nwords 4\nbits 8\nbackgrounds de cf 3f 7b f7 b5 00 00\n
m = $c
1 total 36 covered 20 escapes 16
d = memory 1\nname octet\nwords 4\nbits 8\nbackgrounds 0\n
1 total 36 covered 6 escapes 30
# a word of one bit has no two bits, so nothing is judged
d = $16
m = $c
0 total 0 covered 0 escapes 0
r ends \nmemory buf0 words 16 bits 1 backgrounds 1 commands 160\napart 0\nno two bits 36\ntotal 0 covered 0 escapes 0\n
l = SF\n<0;0/1/->\n<0;0/1/->
0 total 0 covered 0 escapes 0
r ends \napart 2\nno two bits 2\ntotal 0 covered 0 escapes 0\n
d = memory 1\nname wide\nwords 2\nbits 64\n
m = $ss
l = \4{all\n\}
1 total 144 covered 128 escapes 16
r ends \napart 48\ntotal 144 covered 128 escapes 16\n

# REFUSED
m = {del}
d = memory 1\n
l = <0w1/0>
> inword m d l r
3 march M3
m = $c
4 memory D4 name
d = $16
5 fault F1 line 1 byte 6
no l
10 absent 3
> inword m d l
2 usage
> inword m d m r
2 usage
> inword m d l r v
2 usage
";

#[test]
fn verdicts_in_words(rt: HostRuntime) {
    are_right(&rt, first_wrong(rt.alloc(), IN_WORD));
}
