//! The orders in which lists take primitives, and reports name classes. No read of `{any(w0)}` finds anything, so each
//! primitive escapes in its least array.

use crate::commands::first_wrong;
use crate::rows::are_right;

static ORDERS: &str = r"# ALL PRIMITIVES
m = $w0
l = all\ndyn1\ndyn2\n
> judge m l r
1 total 174 covered 0 escapes 174
r ==
| march {any(w0)}
| escape <0/1/-> SF aggressor none victim 0 content 00 directions u
| escape <1/0/-> SF aggressor none victim 0 content 00 directions u
| escape <0w1/0/-> TF aggressor none victim 0 content 00 directions u
| escape <1w0/1/-> TF aggressor none victim 0 content 00 directions u
| escape <0w0/1/-> WDF aggressor none victim 0 content 00 directions u
| escape <1w1/0/-> WDF aggressor none victim 0 content 00 directions u
| escape <0r0/1/1> RDF aggressor none victim 0 content 00 directions u
| escape <1r1/0/0> RDF aggressor none victim 0 content 00 directions u
| escape <0r0/1/0> DRDF aggressor none victim 0 content 00 directions u
| escape <1r1/0/1> DRDF aggressor none victim 0 content 00 directions u
| escape <0r0/0/1> IRF aggressor none victim 0 content 00 directions u
| escape <1r1/1/0> IRF aggressor none victim 0 content 00 directions u
| escape <0;0/1/-> CFst aggressor 0 victim 1 content 00 directions u
| escape <0;1/0/-> CFst aggressor 0 victim 1 content 00 directions u
| escape <1;0/1/-> CFst aggressor 0 victim 1 content 00 directions u
| escape <1;1/0/-> CFst aggressor 0 victim 1 content 00 directions u
| escape <0w0;0/1/-> CFds aggressor 0 victim 1 content 00 directions u
| escape <0w0;1/0/-> CFds aggressor 0 victim 1 content 00 directions u
| escape <0w1;0/1/-> CFds aggressor 0 victim 1 content 00 directions u
| escape <0w1;1/0/-> CFds aggressor 0 victim 1 content 00 directions u
| escape <1w0;0/1/-> CFds aggressor 0 victim 1 content 00 directions u
| escape <1w0;1/0/-> CFds aggressor 0 victim 1 content 00 directions u
| escape <1w1;0/1/-> CFds aggressor 0 victim 1 content 00 directions u
| escape <1w1;1/0/-> CFds aggressor 0 victim 1 content 00 directions u
| escape <0r0;0/1/-> CFds aggressor 0 victim 1 content 00 directions u
| escape <0r0;1/0/-> CFds aggressor 0 victim 1 content 00 directions u
| escape <1r1;0/1/-> CFds aggressor 0 victim 1 content 00 directions u
| escape <1r1;1/0/-> CFds aggressor 0 victim 1 content 00 directions u
| escape <0;0w1/0/-> CFtr aggressor 0 victim 1 content 00 directions u
| escape <0;1w0/1/-> CFtr aggressor 0 victim 1 content 00 directions u
| escape <1;0w1/0/-> CFtr aggressor 0 victim 1 content 00 directions u
| escape <1;1w0/1/-> CFtr aggressor 0 victim 1 content 00 directions u
| escape <0;0w0/1/-> CFwd aggressor 0 victim 1 content 00 directions u
| escape <0;1w1/0/-> CFwd aggressor 0 victim 1 content 00 directions u
| escape <1;0w0/1/-> CFwd aggressor 0 victim 1 content 00 directions u
| escape <1;1w1/0/-> CFwd aggressor 0 victim 1 content 00 directions u
| escape <0;0r0/1/1> CFrd aggressor 0 victim 1 content 00 directions u
| escape <0;1r1/0/0> CFrd aggressor 0 victim 1 content 00 directions u
| escape <1;0r0/1/1> CFrd aggressor 0 victim 1 content 00 directions u
| escape <1;1r1/0/0> CFrd aggressor 0 victim 1 content 00 directions u
| escape <0;0r0/1/0> CFdr aggressor 0 victim 1 content 00 directions u
| escape <0;1r1/0/1> CFdr aggressor 0 victim 1 content 00 directions u
| escape <1;0r0/1/0> CFdr aggressor 0 victim 1 content 00 directions u
| escape <1;1r1/0/1> CFdr aggressor 0 victim 1 content 00 directions u
| escape <0;0r0/0/1> CFir aggressor 0 victim 1 content 00 directions u
| escape <0;1r1/1/0> CFir aggressor 0 victim 1 content 00 directions u
| escape <1;0r0/0/1> CFir aggressor 0 victim 1 content 00 directions u
| escape <1;1r1/1/0> CFir aggressor 0 victim 1 content 00 directions u
| escape <0w0w0/1/-> DYN1 cells 2 aggressor none victim 0 content 00 directions u
| escape <0w0w1/0/-> DYN1 cells 2 aggressor none victim 0 content 00 directions u
| escape <0w0r0/1/1> DYN1 cells 2 aggressor none victim 0 content 00 directions u
| escape <0w0r0/1/0> DYN1 cells 2 aggressor none victim 0 content 00 directions u
| escape <0w0r0/0/1> DYN1 cells 2 aggressor none victim 0 content 00 directions u
| escape <0w1w0/1/-> DYN1 cells 2 aggressor none victim 0 content 00 directions u
| escape <0w1w1/0/-> DYN1 cells 2 aggressor none victim 0 content 00 directions u
| escape <0w1r1/0/0> DYN1 cells 2 aggressor none victim 0 content 00 directions u
| escape <0w1r1/0/1> DYN1 cells 2 aggressor none victim 0 content 00 directions u
| escape <0w1r1/1/0> DYN1 cells 2 aggressor none victim 0 content 00 directions u
| escape <0r0w0/1/-> DYN1 cells 2 aggressor none victim 0 content 00 directions u
| escape <0r0w1/0/-> DYN1 cells 2 aggressor none victim 0 content 00 directions u
| escape <0r0r0/1/1> DYN1 cells 2 aggressor none victim 0 content 00 directions u
| escape <0r0r0/1/0> DYN1 cells 2 aggressor none victim 0 content 00 directions u
| escape <0r0r0/0/1> DYN1 cells 2 aggressor none victim 0 content 00 directions u
| escape <1w0w0/1/-> DYN1 cells 2 aggressor none victim 0 content 00 directions u
| escape <1w0w1/0/-> DYN1 cells 2 aggressor none victim 0 content 00 directions u
| escape <1w0r0/1/1> DYN1 cells 2 aggressor none victim 0 content 00 directions u
| escape <1w0r0/1/0> DYN1 cells 2 aggressor none victim 0 content 00 directions u
| escape <1w0r0/0/1> DYN1 cells 2 aggressor none victim 0 content 00 directions u
| escape <1w1w0/1/-> DYN1 cells 2 aggressor none victim 0 content 00 directions u
| escape <1w1w1/0/-> DYN1 cells 2 aggressor none victim 0 content 00 directions u
| escape <1w1r1/0/0> DYN1 cells 2 aggressor none victim 0 content 00 directions u
| escape <1w1r1/0/1> DYN1 cells 2 aggressor none victim 0 content 00 directions u
| escape <1w1r1/1/0> DYN1 cells 2 aggressor none victim 0 content 00 directions u
| escape <1r1w0/1/-> DYN1 cells 2 aggressor none victim 0 content 00 directions u
| escape <1r1w1/0/-> DYN1 cells 2 aggressor none victim 0 content 00 directions u
| escape <1r1r1/0/0> DYN1 cells 2 aggressor none victim 0 content 00 directions u
| escape <1r1r1/0/1> DYN1 cells 2 aggressor none victim 0 content 00 directions u
| escape <1r1r1/1/0> DYN1 cells 2 aggressor none victim 0 content 00 directions u
| escape <0w0w0;0/1/-> DYN2 cells 2 aggressor 0 victim 1 content 00 directions u
| escape <0w0w0;1/0/-> DYN2 cells 2 aggressor 0 victim 1 content 00 directions u
| escape <0w0w1;0/1/-> DYN2 cells 2 aggressor 0 victim 1 content 00 directions u
| escape <0w0w1;1/0/-> DYN2 cells 2 aggressor 0 victim 1 content 00 directions u
| escape <0w0r0;0/1/-> DYN2 cells 2 aggressor 0 victim 1 content 00 directions u
| escape <0w0r0;1/0/-> DYN2 cells 2 aggressor 0 victim 1 content 00 directions u
| escape <0w1w0;0/1/-> DYN2 cells 2 aggressor 0 victim 1 content 00 directions u
| escape <0w1w0;1/0/-> DYN2 cells 2 aggressor 0 victim 1 content 00 directions u
| escape <0w1w1;0/1/-> DYN2 cells 2 aggressor 0 victim 1 content 00 directions u
| escape <0w1w1;1/0/-> DYN2 cells 2 aggressor 0 victim 1 content 00 directions u
| escape <0w1r1;0/1/-> DYN2 cells 2 aggressor 0 victim 1 content 00 directions u
| escape <0w1r1;1/0/-> DYN2 cells 2 aggressor 0 victim 1 content 00 directions u
| escape <0r0w0;0/1/-> DYN2 cells 2 aggressor 0 victim 1 content 00 directions u
| escape <0r0w0;1/0/-> DYN2 cells 2 aggressor 0 victim 1 content 00 directions u
| escape <0r0w1;0/1/-> DYN2 cells 2 aggressor 0 victim 1 content 00 directions u
| escape <0r0w1;1/0/-> DYN2 cells 2 aggressor 0 victim 1 content 00 directions u
| escape <0r0r0;0/1/-> DYN2 cells 2 aggressor 0 victim 1 content 00 directions u
| escape <0r0r0;1/0/-> DYN2 cells 2 aggressor 0 victim 1 content 00 directions u
| escape <1w0w0;0/1/-> DYN2 cells 2 aggressor 0 victim 1 content 00 directions u
| escape <1w0w0;1/0/-> DYN2 cells 2 aggressor 0 victim 1 content 00 directions u
| escape <1w0w1;0/1/-> DYN2 cells 2 aggressor 0 victim 1 content 00 directions u
| escape <1w0w1;1/0/-> DYN2 cells 2 aggressor 0 victim 1 content 00 directions u
| escape <1w0r0;0/1/-> DYN2 cells 2 aggressor 0 victim 1 content 00 directions u
| escape <1w0r0;1/0/-> DYN2 cells 2 aggressor 0 victim 1 content 00 directions u
| escape <1w1w0;0/1/-> DYN2 cells 2 aggressor 0 victim 1 content 00 directions u
| escape <1w1w0;1/0/-> DYN2 cells 2 aggressor 0 victim 1 content 00 directions u
| escape <1w1w1;0/1/-> DYN2 cells 2 aggressor 0 victim 1 content 00 directions u
| escape <1w1w1;1/0/-> DYN2 cells 2 aggressor 0 victim 1 content 00 directions u
| escape <1w1r1;0/1/-> DYN2 cells 2 aggressor 0 victim 1 content 00 directions u
| escape <1w1r1;1/0/-> DYN2 cells 2 aggressor 0 victim 1 content 00 directions u
| escape <1r1w0;0/1/-> DYN2 cells 2 aggressor 0 victim 1 content 00 directions u
| escape <1r1w0;1/0/-> DYN2 cells 2 aggressor 0 victim 1 content 00 directions u
| escape <1r1w1;0/1/-> DYN2 cells 2 aggressor 0 victim 1 content 00 directions u
| escape <1r1w1;1/0/-> DYN2 cells 2 aggressor 0 victim 1 content 00 directions u
| escape <1r1r1;0/1/-> DYN2 cells 2 aggressor 0 victim 1 content 00 directions u
| escape <1r1r1;1/0/-> DYN2 cells 2 aggressor 0 victim 1 content 00 directions u
| escape <0;0w0w0/1/-> DYN2 cells 2 aggressor 0 victim 1 content 00 directions u
| escape <0;0w0w1/0/-> DYN2 cells 2 aggressor 0 victim 1 content 00 directions u
| escape <0;0w0r0/1/1> DYN2 cells 2 aggressor 0 victim 1 content 00 directions u
| escape <0;0w0r0/1/0> DYN2 cells 2 aggressor 0 victim 1 content 00 directions u
| escape <0;0w0r0/0/1> DYN2 cells 2 aggressor 0 victim 1 content 00 directions u
| escape <0;0w1w0/1/-> DYN2 cells 2 aggressor 0 victim 1 content 00 directions u
| escape <0;0w1w1/0/-> DYN2 cells 2 aggressor 0 victim 1 content 00 directions u
| escape <0;0w1r1/0/0> DYN2 cells 2 aggressor 0 victim 1 content 00 directions u
| escape <0;0w1r1/0/1> DYN2 cells 2 aggressor 0 victim 1 content 00 directions u
| escape <0;0w1r1/1/0> DYN2 cells 2 aggressor 0 victim 1 content 00 directions u
| escape <0;0r0w0/1/-> DYN2 cells 2 aggressor 0 victim 1 content 00 directions u
| escape <0;0r0w1/0/-> DYN2 cells 2 aggressor 0 victim 1 content 00 directions u
| escape <0;0r0r0/1/1> DYN2 cells 2 aggressor 0 victim 1 content 00 directions u
| escape <0;0r0r0/1/0> DYN2 cells 2 aggressor 0 victim 1 content 00 directions u
| escape <0;0r0r0/0/1> DYN2 cells 2 aggressor 0 victim 1 content 00 directions u
| escape <0;1w0w0/1/-> DYN2 cells 2 aggressor 0 victim 1 content 00 directions u
| escape <0;1w0w1/0/-> DYN2 cells 2 aggressor 0 victim 1 content 00 directions u
| escape <0;1w0r0/1/1> DYN2 cells 2 aggressor 0 victim 1 content 00 directions u
| escape <0;1w0r0/1/0> DYN2 cells 2 aggressor 0 victim 1 content 00 directions u
| escape <0;1w0r0/0/1> DYN2 cells 2 aggressor 0 victim 1 content 00 directions u
| escape <0;1w1w0/1/-> DYN2 cells 2 aggressor 0 victim 1 content 00 directions u
| escape <0;1w1w1/0/-> DYN2 cells 2 aggressor 0 victim 1 content 00 directions u
| escape <0;1w1r1/0/0> DYN2 cells 2 aggressor 0 victim 1 content 00 directions u
| escape <0;1w1r1/0/1> DYN2 cells 2 aggressor 0 victim 1 content 00 directions u
| escape <0;1w1r1/1/0> DYN2 cells 2 aggressor 0 victim 1 content 00 directions u
| escape <0;1r1w0/1/-> DYN2 cells 2 aggressor 0 victim 1 content 00 directions u
| escape <0;1r1w1/0/-> DYN2 cells 2 aggressor 0 victim 1 content 00 directions u
| escape <0;1r1r1/0/0> DYN2 cells 2 aggressor 0 victim 1 content 00 directions u
| escape <0;1r1r1/0/1> DYN2 cells 2 aggressor 0 victim 1 content 00 directions u
| escape <0;1r1r1/1/0> DYN2 cells 2 aggressor 0 victim 1 content 00 directions u
| escape <1;0w0w0/1/-> DYN2 cells 2 aggressor 0 victim 1 content 00 directions u
| escape <1;0w0w1/0/-> DYN2 cells 2 aggressor 0 victim 1 content 00 directions u
| escape <1;0w0r0/1/1> DYN2 cells 2 aggressor 0 victim 1 content 00 directions u
| escape <1;0w0r0/1/0> DYN2 cells 2 aggressor 0 victim 1 content 00 directions u
| escape <1;0w0r0/0/1> DYN2 cells 2 aggressor 0 victim 1 content 00 directions u
| escape <1;0w1w0/1/-> DYN2 cells 2 aggressor 0 victim 1 content 00 directions u
| escape <1;0w1w1/0/-> DYN2 cells 2 aggressor 0 victim 1 content 00 directions u
| escape <1;0w1r1/0/0> DYN2 cells 2 aggressor 0 victim 1 content 00 directions u
| escape <1;0w1r1/0/1> DYN2 cells 2 aggressor 0 victim 1 content 00 directions u
| escape <1;0w1r1/1/0> DYN2 cells 2 aggressor 0 victim 1 content 00 directions u
| escape <1;0r0w0/1/-> DYN2 cells 2 aggressor 0 victim 1 content 00 directions u
| escape <1;0r0w1/0/-> DYN2 cells 2 aggressor 0 victim 1 content 00 directions u
| escape <1;0r0r0/1/1> DYN2 cells 2 aggressor 0 victim 1 content 00 directions u
| escape <1;0r0r0/1/0> DYN2 cells 2 aggressor 0 victim 1 content 00 directions u
| escape <1;0r0r0/0/1> DYN2 cells 2 aggressor 0 victim 1 content 00 directions u
| escape <1;1w0w0/1/-> DYN2 cells 2 aggressor 0 victim 1 content 00 directions u
| escape <1;1w0w1/0/-> DYN2 cells 2 aggressor 0 victim 1 content 00 directions u
| escape <1;1w0r0/1/1> DYN2 cells 2 aggressor 0 victim 1 content 00 directions u
| escape <1;1w0r0/1/0> DYN2 cells 2 aggressor 0 victim 1 content 00 directions u
| escape <1;1w0r0/0/1> DYN2 cells 2 aggressor 0 victim 1 content 00 directions u
| escape <1;1w1w0/1/-> DYN2 cells 2 aggressor 0 victim 1 content 00 directions u
| escape <1;1w1w1/0/-> DYN2 cells 2 aggressor 0 victim 1 content 00 directions u
| escape <1;1w1r1/0/0> DYN2 cells 2 aggressor 0 victim 1 content 00 directions u
| escape <1;1w1r1/0/1> DYN2 cells 2 aggressor 0 victim 1 content 00 directions u
| escape <1;1w1r1/1/0> DYN2 cells 2 aggressor 0 victim 1 content 00 directions u
| escape <1;1r1w0/1/-> DYN2 cells 2 aggressor 0 victim 1 content 00 directions u
| escape <1;1r1w1/0/-> DYN2 cells 2 aggressor 0 victim 1 content 00 directions u
| escape <1;1r1r1/0/0> DYN2 cells 2 aggressor 0 victim 1 content 00 directions u
| escape <1;1r1r1/0/1> DYN2 cells 2 aggressor 0 victim 1 content 00 directions u
| escape <1;1r1r1/1/0> DYN2 cells 2 aggressor 0 victim 1 content 00 directions u
| class SF 2 covered 0
| class TF 2 covered 0
| class WDF 2 covered 0
| class RDF 2 covered 0
| class DRDF 2 covered 0
| class IRF 2 covered 0
| class CFst 4 covered 0
| class CFds 12 covered 0
| class CFtr 4 covered 0
| class CFwd 4 covered 0
| class CFrd 4 covered 0
| class CFdr 4 covered 0
| class CFir 4 covered 0
| class DYN1 30 covered 0
| class DYN2 96 covered 0
| total 174 covered 0 escapes 174

# A WORD TAKES THEM IN THE SAME ORDER
l = two
1 total 36 covered 0 escapes 36
r begins march {any(w0)}\nescape <0;0/1/-> CFst aggressor 0 victim 1 content 00 directions u\n
l = CFds
1 total 12 covered 0 escapes 12
r ==
| march {any(w0)}
| escape <0w0;0/1/-> CFds aggressor 0 victim 1 content 00 directions u
| escape <0w0;1/0/-> CFds aggressor 0 victim 1 content 00 directions u
| escape <0w1;0/1/-> CFds aggressor 0 victim 1 content 00 directions u
| escape <0w1;1/0/-> CFds aggressor 0 victim 1 content 00 directions u
| escape <1w0;0/1/-> CFds aggressor 0 victim 1 content 00 directions u
| escape <1w0;1/0/-> CFds aggressor 0 victim 1 content 00 directions u
| escape <1w1;0/1/-> CFds aggressor 0 victim 1 content 00 directions u
| escape <1w1;1/0/-> CFds aggressor 0 victim 1 content 00 directions u
| escape <0r0;0/1/-> CFds aggressor 0 victim 1 content 00 directions u
| escape <0r0;1/0/-> CFds aggressor 0 victim 1 content 00 directions u
| escape <1r1;0/1/-> CFds aggressor 0 victim 1 content 00 directions u
| escape <1r1;1/0/-> CFds aggressor 0 victim 1 content 00 directions u
| class CFds 12 covered 0
| total 12 covered 0 escapes 12
";

#[test]
fn orders(rt: HostRuntime) {
    are_right(&rt, first_wrong(rt.alloc(), ORDERS));
}
