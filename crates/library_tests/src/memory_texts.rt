//! Texts of memory descriptions, and what the reader says of them.

use crate::commands::first_wrong;
use crate::questions;
use crate::rows::are_right;

static MEMORIES: &str = r"# REFUSED LINES

> show memory d
d =
4 memory D2
d =  \t\r\n# a comment\n
4 memory D2
d = memory
4 memory D2
d = memory\n
4 memory D1 line 1 byte 6
d = name b\n
4 memory D1 line 1 byte 0
d = memory 12
4 memory D11
d = memory 7\nno line\n
4 memory D11
d = memory 1\nname
4 memory D2
d = memory 1\nname\n
4 memory D1 line 2 byte 4
d = memory 1\nbackgrounds 00000000000000000\n
4 memory D1 line 2 byte 28

# REFUSED DESCRIPTIONS

d = memory 1\nname b\nmemory 1\n
4 memory D3 line 3
d = memory 1\nscramble a0 = p0\n\nscramble a00 = p1\n
4 memory D3 line 4
d = memory 1
4 memory D4 name
d = memory 1\nbits 1\nname b
4 memory D4 words
d = memory 1\nwords 2\nname b
4 memory D4 bits
d = memory 1\nbits 65\nwords 1\nname module\n
4 memory D5 line 2
d = memory 1\nname module\nwords 2\nbits 1\n
4 memory D5 line 2
d = memory 1\nname b23456789_123456789_123456789_123456789_123456789\nwords 2\nbits 1\n
4 memory D5 line 2
d = memory 1\nname n\nwords 1000000000\nbits 1\n
4 memory D1 line 3 byte 15
d = memory 1\nname n\nwords 999999999\nbits 1\n
4 memory D5 line 3
d = memory 1\nname b\nwords 65537\nbits 1\n
4 memory D5 line 3
d = memory 1\nname n\nwords 1\nbits 1\n
4 memory D5 line 3
d = memory 1\nname b\nwords 4\nbits 4\nbackgrounds 0 10\n
4 memory D5 line 5
d = memory 1\nname b\nwords 2\nbits 8\nbackgrounds aa\n
4 memory D8
d = memory 1\nname b\nwords 2\nbits 8\nbackgrounds 1 1 1 1 1 1 1 1 1\n
4 memory D9

# REFUSED SCRAMBLINGS

d = memory 1\nname s4\nwords 4\nbits 1\nscramble a0 = p0 ^ p1\n
4 memory D4 a1
d = memory 1\nname s4\nwords 4\nbits 1\nscramble a0 = p2 ^ p2\n
4 memory D5 line 5
d = memory 1\nname s4\nwords 4\nbits 1\nscramble a2 = p0\n
4 memory D5 line 5
d = memory 1\nname s4\nwords 4\nbits 1\nscramble a0 = p0\nscramble a1 = p0\n
4 memory D6 rows a0 a1
d = memory 1\nname s4\nwords 4\nbits 1\nscramble a0 = p0 ^ p0\nscramble a1 = p0\n
4 memory D6 rows a0
d = memory 1\nname s4\nwords 3\nbits 1\nscramble a0 = p0 ^ p1\nscramble a1 = p1\n
4 memory D7
# Which of two comes first.
d = memory 1\nname b\n
4 memory D4 words
d = memory 1\nname b\nwords 8\nbits 1\nscramble a2 = p0\n
4 memory D4 a0
d = memory 1\nname b\nmemory 2\nlatency 1\n
4 memory D1 line 4 byte 0
d = memory 1\nname b\nwords 2\nbits 1\nbackgrounds 2\n
4 memory D5 line 5
d = memory 1\nname module\nwords 1\n
4 memory D4 bits
d = memory 1\nname wire\nwords 3\nbits 1\nscramble a0 = p0\n
4 memory D5 line 2
d = memory 1\nname b\nwords 3\nbits 1\nscramble a9 = p0\n
4 memory D7
d = memory 1\nname b\nwords 4\nbits 1\nscramble a0 = p0 ^ p0\n
4 memory D4 a1
d = memory 1\nname b\nwords 4\nbits 1\nscramble a0 = p0\nscramble a1 = p0\nbackgrounds 1\n
4 memory D6 rows a0 a1
d = memory 1\nname b\nwords 4\nbits 1\nscramble a0 = p0\nscramble a1 = p0\nbackgrounds 0 1 0 1 0 1 0 1 0\n
4 memory D6 rows a0 a1

# PRINTED, AND READ AGAIN

d = memory 01\n words 8 # eight\nname buf8\nbits\t8\n
0 ..
said ==
| memory 1
| name buf8
| words 8
| bits 8
| backgrounds 00 aa cc f0
$shown = @said
d = $shown
0 ..
said == $shown
d = memory 1\nname s4\nwords 4\nbits 1\nscramble a1=p1^1#\nscramble a0 = p1 ^ p0 ^ 0\n
0 ..
said ==
| memory 1
| name s4
| words 4
| bits 1
| scramble a0 = p0 ^ p1
| scramble a1 = p1 ^ 1
| backgrounds 0
$shown = @said
d = $shown
0 ..
said == $shown
d = memory 1\nname n\nwords 3\nbits 5\nbackgrounds 1F 000 1f\n
0 ..
said ==
| memory 1
| name n
| words 3
| bits 5
| backgrounds 1f 00 1f
$shown = @said
d = $shown
0 ..
said == $shown

# REFUSED IN VERSION 2

d = memory 3\n
4 memory D11
d = memory 2\nlat
4 memory D2
d = memory 2\np\n
4 memory D1 line 2 byte 1
d = memory 2\nlx 1\n
4 memory D1 line 2 byte 1
d = memory 2\npx 1\n
4 memory D1 line 2 byte 1
d = memory 2\npolarity 00000000000000000\n
4 memory D1 line 2 byte 25
d = memory 2\nlatency 2\nlatency 2\n
4 memory D3 line 3
d = memory 2\npause 1\npolarity 0\npause 1\n
4 memory D3 line 4
d = memory 2\nname two\nwords 2\nbits 1\nlatency 5\n
4 memory D5 line 5
d = memory 2\nname two\nwords 2\nbits 1\nlatency 0\n
4 memory D5 line 5
d = memory 2\nname two\nwords 2\nbits 1\npause 0\n
4 memory D5 line 5
d = memory 2\nname two\npause 65536\nwords 2\nbits 1\n
4 memory D5 line 3
d = memory 2\nname two\nwords 2\nbits 1\npolarity 2\n
4 memory D5 line 5
d = memory 2\nname n\nwords 65536\nbits 64\nlatency 3\npause 155353\n
4 memory D5 line 6
d = memory 1\nname two\nwords 2\nbits 1\nlatency 1\n
4 memory D1 line 5 byte 0
d = memory 1\nname two\nwords 2\nbits 1\npause 1\n
4 memory D1 line 5 byte 0

# PRINTED IN VERSION 2, AND READ AGAIN

d = memory 2\nname two\nwords 2\nbits 1\nlatency 1\npolarity 0\npause 1\n
0 ..
said ==
| memory 1
| name two
| words 2
| bits 1
| backgrounds 0
$shown = @said
d = $shown
0 ..
said == $shown
d = memory 2\npolarity F\nlatency 3\nname n\nwords 3\nbits 8\nbackgrounds 0\n
0 ..
said ==
| memory 2
| name n
| words 3
| bits 8
| latency 3
| polarity 0f
| pause 1
| backgrounds 00
$shown = @said
d = $shown
0 ..
said == $shown
d = memory 2\npause 500 # cycles\nname n\nwords 2\nbits 1\nscramble a0 = p0 ^ 1\n
0 ..
said ==
| memory 2
| name n
| words 2
| bits 1
| latency 1
| polarity 0
| pause 500
| scramble a0 = p0 ^ 1
| backgrounds 0
$shown = @said
d = $shown
0 ..
said == $shown
d = memory 2\nname b23456789_123456789_123456789_123456789_12345678\nwords 65536\nbits 64\nlatency 4\npolarity FFFFFFFFFFFFFFFF\npause 65535\nbackgrounds FFFFFFFFFFFFFFFF 8000000000000000 ffffffff 0 aaaaaaaaaaaaaaaa CCCCCCCCCCCCCCCC 1 f0f0f0f0f0f0f0f0\n
0 ..
said ==
| memory 2
| name b23456789_123456789_123456789_123456789_12345678
| words 65536
| bits 64
| latency 4
| polarity ffffffffffffffff
| pause 65535
| backgrounds ffffffffffffffff 8000000000000000 00000000ffffffff 0000000000000000 aaaaaaaaaaaaaaaa cccccccccccccccc 0000000000000001 f0f0f0f0f0f0f0f0
$shown = @said
d = $shown
0 ..
said == $shown
";

#[test]
fn memories(rt: HostRuntime) {
    are_right(&rt, first_wrong(rt.alloc(), MEMORIES));
}

static TIMED: &str = r"# LATENCY, POLARITY AND PAUSE

timed 1 0 1: memory 2\nname two\nwords 2\nbits 1\nlatency 1\npolarity 0\npause 1\n
timed 3 15 1: memory 2\npolarity F\nlatency 3\nname n\nwords 3\nbits 8\nbackgrounds 0\n
timed 1 0 500: memory 2\npause 500 # cycles\nname n\nwords 2\nbits 1\nscramble a0 = p0 ^ 1\n
timed 4 18446744073709551615 65535: memory 2\nname b23456789_123456789_123456789_123456789_12345678\nwords 65536\nbits 64\nlatency 4\npolarity FFFFFFFFFFFFFFFF\npause 65535\nbackgrounds FFFFFFFFFFFFFFFF 8000000000000000 ffffffff 0 aaaaaaaaaaaaaaaa CCCCCCCCCCCCCCCC 1 f0f0f0f0f0f0f0f0\n
";

#[test]
fn latencies_polarities_and_pauses(rt: HostRuntime) {
    are_right(&rt, questions::first_wrong(rt.alloc(), TIMED));
}
