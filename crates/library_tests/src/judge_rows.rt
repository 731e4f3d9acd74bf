//! Worked examples of `judge`, and refusals of other commands.

use crate::commands::first_wrong;
use crate::rows::are_right;

static JUDGE: &str = r"# JUDGE
m = $w0
l = CFir\nCFdr\nCFrd\nCFtr\nCFst
> judge m l r
1 total 20 covered 0 escapes 20
r ==
| march {any(w0)}
| escape <0;0r0/0/1> CFir aggressor 0 victim 1 content 00 directions u
| escape <0;1r1/1/0> CFir aggressor 0 victim 1 content 00 directions u
| escape <1;0r0/0/1> CFir aggressor 0 victim 1 content 00 directions u
| escape <1;1r1/1/0> CFir aggressor 0 victim 1 content 00 directions u
| escape <0;0r0/1/0> CFdr aggressor 0 victim 1 content 00 directions u
| escape <0;1r1/0/1> CFdr aggressor 0 victim 1 content 00 directions u
| escape <1;0r0/1/0> CFdr aggressor 0 victim 1 content 00 directions u
| escape <1;1r1/0/1> CFdr aggressor 0 victim 1 content 00 directions u
| escape <0;0r0/1/1> CFrd aggressor 0 victim 1 content 00 directions u
| escape <0;1r1/0/0> CFrd aggressor 0 victim 1 content 00 directions u
| escape <1;0r0/1/1> CFrd aggressor 0 victim 1 content 00 directions u
| escape <1;1r1/0/0> CFrd aggressor 0 victim 1 content 00 directions u
| escape <0;0w1/0/-> CFtr aggressor 0 victim 1 content 00 directions u
| escape <0;1w0/1/-> CFtr aggressor 0 victim 1 content 00 directions u
| escape <1;0w1/0/-> CFtr aggressor 0 victim 1 content 00 directions u
| escape <1;1w0/1/-> CFtr aggressor 0 victim 1 content 00 directions u
| escape <0;0/1/-> CFst aggressor 0 victim 1 content 00 directions u
| escape <0;1/0/-> CFst aggressor 0 victim 1 content 00 directions u
| escape <1;0/1/-> CFst aggressor 0 victim 1 content 00 directions u
| escape <1;1/0/-> CFst aggressor 0 victim 1 content 00 directions u
| class CFst 4 covered 0
| class CFtr 4 covered 0
| class CFrd 4 covered 0
| class CFdr 4 covered 0
| class CFir 4 covered 0
| total 20 covered 0 escapes 20
m = {any(w0);del;any(r0,w1);del;any(r1)}
l = DRF
0 total 2 covered 2 escapes 0
m = $retention
1 total 2 covered 1 escapes 1
r ==
| march {any(w0);del;any(r0)}
| covered <0t/1/-> DRF
| escape <1t/0/-> DRF aggressor none victim 0 content 00 directions uuu
| class DRF 2 covered 1
| total 2 covered 1 escapes 1
m = $mats
l = one
1 total 12 covered 7 escapes 5
m = $c
l = two
1 total 36 covered 24 escapes 12
m = $ss
l = all
0 total 48 covered 48 escapes 0
m = $w0
1 total 48 covered 0 escapes 48
m = {any(w0);up(r0,w1);down(r1,w0);any(r0)}\n
l = <0/1/->
0 total 1 covered 1 escapes 0
m = $mats
l =
0 total 0 covered 0 escapes 0
# each of 2^64 choices of direction finds them, which no prover could try one by one
m = {\63{any(w0);\}any(w1,r1)}
l = <0w1/0/->\n<0w1r1/0/0>
0 total 2 covered 2 escapes 0
m = {any(w0);any(w1,r1)}
l = <0w1r1/0/0>\n<0w1/0/->\n<0w1r1;0/1/->\n<0w1r1/0/0>\n
1 total 4 covered 3 escapes 1
r ==
| march {any(w0);any(w1,r1)}
| covered <0w1r1/0/0> DYN1
| covered <0w1/0/-> TF
| escape <0w1r1;0/1/-> DYN2 cells 2 aggressor 0 victim 1 content 00 directions uu
| covered <0w1r1/0/0> DYN1
| class TF 1 covered 1
| class DYN1 2 covered 2
| class DYN2 1 covered 0
| total 4 covered 3 escapes 1
m = $c
l = dyn1
1 total 30 covered 2 escapes 28
l =  dyn2 # two cells\n
1 total 96 covered 8 escapes 88
l = all\nDRF\ndyn1\ndyn2\n
1 total 176 covered 42 escapes 134

# REFUSED
m = {del;any(r0)}
3 march M7 element 1 operation 0
m = {del}
l = DRF
3 march M3
no l
m = $mats
> compile m d l v l
2 usage
l = <0w1r1w0/1/->
> judge m l r
5 fault F4 line 1
l = dyn1\n<0w1;0r0/1/0>\n
5 fault F4 line 2
l = <0w1r0/0/1>
5 fault F3 line 1
l = one\n<0w1/0
5 fault F2 line 2
no l
10 absent 2
> judge m m r
2 usage
> judge -x l r
2 usage
> vectors m l o
10 absent 2
no m
10 absent 1
> judge m l r
10 absent 1
m = $mats
10 absent 2
> vectors m l o
10 absent 2
> vectors m l m
2 usage
l = \22{all\n\}
> judge m l r
5 fault F5 line 22

# REPORTS
m = $c
l = one
1 total 12 covered 8 escapes 4
r ==
| march {any(w0);up(r0,w1);up(r1,w0);down(r0,w1);down(r1,w0);any(r0)}
| covered <0/1/-> SF
| covered <1/0/-> SF
| covered <0w1/0/-> TF
| covered <1w0/1/-> TF
| escape <0w0/1/-> WDF aggressor none victim 0 content 10 directions uuuddu
| escape <1w1/0/-> WDF aggressor none victim 0 content 00 directions uuuddu
| covered <0r0/1/1> RDF
| covered <1r1/0/0> RDF
| escape <0r0/1/0> DRDF aggressor none victim 0 content 00 directions uuuddu
| escape <1r1/0/1> DRDF aggressor none victim 0 content 00 directions uuuddu
| covered <0r0/0/1> IRF
| covered <1r1/1/0> IRF
| class SF 2 covered 2
| class TF 2 covered 2
| class WDF 2 covered 0
| class RDF 2 covered 2
| class DRDF 2 covered 0
| class IRF 2 covered 2
| total 12 covered 8 escapes 4
m = $mats
l = WDF # both\n<0w1;0/1/->\n
1 total 3 covered 0 escapes 3
r ==
| march {any(w0);up(r0,w1);down(r1,w0)}
| escape <0w0/1/-> WDF aggressor none victim 0 content 10 directions uud
| escape <1w1/0/-> WDF aggressor none victim 0 content 00 directions uud
| escape <0w1;0/1/-> CFds aggressor 1 victim 0 content 00 directions uud
| class WDF 2 covered 0
| class CFds 1 covered 0
| total 3 covered 0 escapes 3
m = {any(w0);any(r0,w1);any(w0);down(r0,w1)}
l = <0w1;0/1/->
1 total 1 covered 0 escapes 1
r ==
| march {any(w0);any(r0,w1);any(w0);down(r0,w1)}
| escape <0w1;0/1/-> CFds aggressor 0 victim 1 content 00 directions udud
| class CFds 1 covered 0
| total 1 covered 0 escapes 1
m = $c
l = DRF
1 total 2 covered 0 escapes 2
r ==
| march {any(w0);up(r0,w1);up(r1,w0);down(r0,w1);down(r1,w0);any(r0)}
| escape <0t/1/-> DRF aggressor none victim 0 content 00 directions uuuddu
| escape <1t/0/-> DRF aggressor none victim 0 content 00 directions uuuddu
| class DRF 2 covered 0
| total 2 covered 0 escapes 2
l = CFwd
1 total 4 covered 0 escapes 4
r ==
| march {any(w0);up(r0,w1);up(r1,w0);down(r0,w1);down(r1,w0);any(r0)}
| escape <0;0w0/1/-> CFwd aggressor 0 victim 1 content 01 directions uuuddu
| escape <0;1w1/0/-> CFwd aggressor 0 victim 1 content 00 directions uuuddu
| escape <1;0w0/1/-> CFwd aggressor 0 victim 1 content 00 directions uuuddu
| escape <1;1w1/0/-> CFwd aggressor 0 victim 1 content 00 directions uuuddu
| class CFwd 4 covered 0
| total 4 covered 0 escapes 4
m = {any(w0);up(w1);down(r1);up(w0);down(w1);up(r1)}
l = <0w1r1/0/0>
1 total 1 covered 0 escapes 1
r ==
| march {any(w0);up(w1);down(r1);up(w0);down(w1);up(r1)}
| escape <0w1r1/0/0> DYN1 cells 3 aggressor none victim 1 content 000 directions uududu
| class DYN1 1 covered 0
| total 1 covered 0 escapes 1
m = $c
l = DRF\n<1w0r0/1/1>\nSF\n<0r0w1;0/1/->\n<1w0r0/1/1>\n
1 total 7 covered 3 escapes 4
r ==
| march {any(w0);up(r0,w1);up(r1,w0);down(r0,w1);down(r1,w0);any(r0)}
| escape <0t/1/-> DRF aggressor none victim 0 content 00 directions uuuddu
| escape <1t/0/-> DRF aggressor none victim 0 content 00 directions uuuddu
| escape <1w0r0/1/1> DYN1 cells 2 aggressor none victim 0 content 00 directions uuuddd
| covered <0/1/-> SF
| covered <1/0/-> SF
| covered <0r0w1;0/1/-> DYN2
| escape <1w0r0/1/1> DYN1 cells 2 aggressor none victim 0 content 00 directions uuuddd
| class SF 2 covered 2
| class DRF 2 covered 0
| class DYN1 2 covered 0
| class DYN2 1 covered 1
| total 7 covered 3 escapes 4
m = $mats
l = <0;0w1r1/0/0>
1 total 1 covered 0 escapes 1
r ==
| march {any(w0);up(r0,w1);down(r1,w0)}
| escape <0;0w1r1/0/0> DYN2 cells 2 aggressor 0 victim 1 content 00 directions uud
| class DYN2 1 covered 0
| total 1 covered 0 escapes 1
";

#[test]
fn verdicts(rt: HostRuntime) {
    are_right(&rt, first_wrong(rt.alloc(), JUDGE));
}
