//! Modules, and what they do cycle by cycle.

use crate::given::all_hold;
use crate::module_answers::designed;
use crate::questions::first_wrong;
use crate::rows::are_right;
use crate::trees::name;
use std::alloc::Global;
use verilog_cycle::Design;
use verilog_read::read_module;
use verilog_tree::{Module, fits};

static RUNS: &str = r"# REGISTERS

# Both take the value from before the edge.
run 1 0; > 1 0; > 0 1; > 1 0: module m(input clk,output reg a,output reg b);always@(posedge clk)begin a<=b;b<=a;end endmodule
# The last set wins, also where the first is in a branch that is taken.
run 0; 1 > 0; 0 > 3; 0 > 2: module m(input clk,input s,output reg [1:0]q);always@(posedge clk)begin if(s)q<=2'h1;else q<=2'h2;if(s)q<=2'h3;end endmodule
# A register that no statement sets stays.
run 1; 0 > 1; 1 > 1; 1 > 0; 0 > 1: module m(input clk,input s,output reg q);always@(posedge clk)if(s)q<=(!q);endmodule
# The first arm with the label, and else the default.
run 0; 1 > 0; 2 > 5; 0 > 7; 0 > 5: module m(input clk,input [1:0]s,output reg [3:0]q);always@(posedge clk)case(s)2'h0,2'h1:q<=4'h5;2'h1:q<=4'h6;default:q<=4'h7;endcase endmodule
# An item behind its use as an output, and two blocks.
run 0 0; > 0; > 1; > 3; > 2; > 0: module m(input clk,output [1:0]y);reg p;reg q;assign y={p,q};always@(posedge clk)p<=q;always@(posedge clk)q<=(!p);endmodule
# A register breaks a loop.
run 0; > 1; > 0; > 1: module m(input clk,output y);reg q;assign y=(!q);always@(posedge clk)q<=y;endmodule

# VALUES

run ; f 4 > 0 0; f 3 > 8 1; 9 0 > 9 9: module m(input [3:0]a,input [3:0]b,output [3:0]y,output [3:0]z);assign y=(a<<b);assign z=(a>>b);endmodule
run ; f 1 > 0 e; 0 1 > 1 f; 8 8 > 0 0: module m(input [3:0]a,input [3:0]b,output [3:0]y,output [3:0]z);assign y=(a+b);assign z=(a-b);endmodule
run ; ffffffffffffffff > 0 1 0: module m(input [63:0]a,output [63:0]y,output z,output [63:0]w);assign y=(a+64'h1);assign z=(&a);assign w=(~a);endmodule
run ; a5 > 5a 2; 0 > 0 1; 1 > 10 6: module m(input [7:0]a,output [7:0]y,output [2:0]z);assign y={a[3:0],a[7],a[6:4]};assign z={(^a),(|a),(!a)};endmodule
run ; e > 0; f > 1; 0 > 0: module m(input [3:0]a,output z);assign z=(&a);endmodule
run ; c a > 8 e 6: module m(input [3:0]a,input [3:0]b,output [3:0]x,output [3:0]y,output [3:0]z);assign x=(a&b);assign y=(a|b);assign z=(a^b);endmodule
run ; 3 3 > 25 3; 0 3 > 1c 1; 3 0 > 13 1; 0 0 > 25 0: module m(input [3:0]a,input [3:0]b,output [5:0]y,output [1:0]z);assign y={(a==b),(a!=b),(a<b),(a<=b),(a>b),(a>=b)};assign z={(a&&b),(a||b)};endmodule
run ; 2 9 6 > 9 6; 4 9 6 > 9 9; 0 9 6 > 6 6: module m(input [3:0]c,input [3:0]a,input [3:0]b,output [3:0]y,output [3:0]z);assign y=(c?a:b);assign z=(c[2]?a:b);endmodule

# A TREE OF 321 LEVELS IS RUN: 256 operators that lean left, within 64 braces

run ; 1 1 > 1: module m(input a,input b,output y);assign y=\64{{\}a\256{&b\}\64{}\};endmodule
";

#[test]
fn runs(rt: HostRuntime) {
    are_right(&rt, first_wrong(rt.alloc(), RUNS));
}

fn three_nets(design: &Design, first: &str, second: &str, third: &str) -> bool {
    design.net_count() == 3
        && design.net(0) == first
        && design.net(1) == second
        && design.net(2) == third
}

fn has_its_ports(design: &Design) -> bool {
    design.inputs() == 1 && design.ports().len() == 4
}

fn has_its_register(design: &Design) -> bool {
    if design.register_count() != 1 {
        return false;
    }
    let (name, width) = design.register(0);
    name == "q" && width == 3
}

fn takes_an_edge(design: &mut Design) -> bool {
    if !design.inputs_fit(&[1]) {
        return false;
    }
    design.edge(&[1]);
    design.inputs_fit(&[1]) && design.outputs(&[1]) == [1, 5].as_slice()
}

fn refuses_wide_values(design: &Design) -> bool {
    !design.inputs_fit(&[2]) && !design.registers_fit(&[8])
}

static NETS: &[u8] =
    b"module m(input clk,input a,output y,output reg [2:0]q);wire b;wire c;assign y=c;assign c=b;assign b=a;always@(posedge clk)q<=3'h5;endmodule";

#[test]
fn nets(rt: HostRuntime) {
    let mut design = designed(rt.alloc(), NETS).expect(&rt, "a design");
    all_hold(
        &rt,
        &[
            three_nets(&design, "b", "c", "y"),
            has_its_ports(&design),
            has_its_register(&design),
            takes_an_edge(&mut design),
            refuses_wide_values(&design),
        ],
    );
}

/// Whether a module of this name can be printed.
fn fits_named(alloc: Global, text: &str) -> Option<bool> {
    let module = read_module(alloc, b"module m(input clk);endmodule").ok()?;
    let named = Module {
        name: name(text),
        ..module
    };
    Some(fits(&named))
}

#[test]
fn reserved_names(rt: HostRuntime) {
    all_hold(
        &rt,
        &[
            fits_named(rt.alloc(), "m") == Some(true),
            fits_named(rt.alloc(), "module") == Some(false),
        ],
    );
}
