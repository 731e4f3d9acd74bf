//! Texts of chip files, and what the reader says of them.

use crate::commands::first_wrong;
use crate::rows::are_right;

static CHIPS: &str = r"# REFUSED LINES

> show chip c
c =
15 chip C2
c =  \t\r\n# a comment\n
15 chip C2
c = chip
15 chip C2
c = chip\n
15 chip C1 line 1 byte 4
c = name c\n
15 chip C1 line 1 byte 0
c = \nchip 12
15 chip C7
c = chip 2\nno line\n
15 chip C7
c = chip 1\nunit 3 c.m
15 chip C2
c = chip 1\nunit 3
15 chip C2
c = chip 1\nunit 3 c.m\n
15 chip C1 line 2 byte 10
c = chip 1\nunit 3 c.m # m\n
15 chip C1 line 2 byte 11
c = chip 1\nunit 3 c.m#m x\n
15 chip C1 line 2 byte 10
c = chip 1\nunit 3 c.m m x\n
15 chip C1 line 2 byte 13
c = chip 1\nbudget 0000000001\n
15 chip C1 line 2 byte 16
c = chip 1\nname c\nbudget 5\nbits 1\n
15 chip C1 line 4 byte 1

# BEHIND THE LAST BYTE OF A FILE'S NAME: they go from ! to ~

c = chip 1\nunit 3 \x7f m\n
15 chip C1 line 2 byte 7
c = chip 1\nunit 3 ~\x7f m\n
15 chip C1 line 2 byte 8

# REFUSED CHIPS

c = chip 1\nname c\nchip 2\n
15 chip C3 line 3
c = chip 1\nbudget 0\nunit 1 m n\nunit 1 m n\nbudget 1\n
15 chip C3 line 5
c = chip 1\nname c\nname c
15 chip C3 line 3
c = chip 1
15 chip C4 name
c = chip 1\nname c\n
15 chip C4 budget
c = chip 1\nunit 1 m n\nname wire
15 chip C4 budget
c = chip 1\nbudget 0\nname c
15 chip C4 unit
c = chip 1\nbudget 1\nunit 1 m n\nname wire\n
15 chip C5 line 4
c = chip 1\nbudget 1\nunit 1 m n\nname c234567890123456789012345678901234567890123456789\n
15 chip C5 line 4
c = chip 1\nname c\nbudget 0\nunit 0 m n\n
15 chip C5 line 3
c = chip 1\nname c\nbudget 1000001\nunit 1 m n\n
15 chip C5 line 3
c = chip 1\nname c\nbudget 1\nunit 0 m n\n
15 chip C5 line 4
c = chip 1\nname c\nbudget 1000000\nunit 1000001 m n\n
15 chip C5 line 4
c = chip 1\nbudget 5\nname c\nunit 6 m n\n
15 chip C9 line 4
c = chip 1\nname c\nunit 5 m n\nunit 6 m n\nunit 7 m n\nbudget 5\n
15 chip C9 line 4
c = chip 1\nname c\nunit 3 m n # none\nunit 2 m n\nbudget 2
15 chip C9 line 3

# READ

c = # a chip\n chip\t1\r\nunit 3 c.m m16# shared\n\nbudget 5\nunit 000003 c.m  ../a=\x22b\x22 \nname ram_bist\nunit 2 !mats~ ~t2!
0 ..
said ==
| chip 1
| name ram_bist
| budget 5
| unit 3 c.m m16
| unit 3 c.m ../a=\x22b\x22
| unit 2 !mats~ ~t2!

# A CHIP HAS SIXTEEN UNITS

c = chip 1\nname c\nbudget 1\n\16{unit 1 m n\n\}
0 ..
said == chip 1\nname c\nbudget 1\n\16{unit 1 m n\n\}
c = chip 1\nname c\nbudget 1\n\17{unit 1 m n\n\}
15 chip C6

# TOO MANY UNITS COME BETWEEN RANGES AND WEIGHTS

c = chip 1\nname c\nbudget 1\n\16{unit 1 m n\n\}unit 2 m n\n
15 chip C6
c = chip 1\nname c\nbudget 1\n\16{unit 1 m n\n\}unit 0 m n\n
15 chip C5 line 20

# NAMES OF FILES HAVE 255 BYTES

c = chip 1\nname c\nbudget 1\nunit 1 \255{m\} n\n
0 ..
said == chip 1\nname c\nbudget 1\nunit 1 \255{m\} n\n
c = chip 1\nname c\nbudget 1\nunit 1 \256{m\} n\n
15 ..
";

#[test]
fn chips(rt: HostRuntime) {
    are_right(&rt, first_wrong(rt.alloc(), CHIPS));
}
