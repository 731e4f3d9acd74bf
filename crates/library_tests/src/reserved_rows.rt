//! The reserved words of Verilog, by IEEE 1364-2005: none of them is a name.

use crate::questions::first_wrong;
use crate::rows::are_right;

static RESERVED: &str = r"# RESERVED
module L1 byte 13: module always(
module L1 byte 10: module and(
module L1 byte 13: module assign(
module L1 byte 16: module automatic(
module L1 byte 12: module begin(
module L1 byte 10: module buf(
module L1 byte 13: module bufif0(
module L1 byte 13: module bufif1(
module L1 byte 11: module case(
module L1 byte 12: module casex(
module L1 byte 12: module casez(
module L1 byte 11: module cell(
module L1 byte 11: module cmos(
module L1 byte 13: module config(
module L1 byte 15: module deassign(
module L1 byte 14: module default(
module L1 byte 15: module defparam(
module L1 byte 13: module design(
module L1 byte 14: module disable(
module L1 byte 11: module edge(
module L1 byte 11: module else(
module L1 byte 10: module end(
module L1 byte 14: module endcase(
module L1 byte 16: module endconfig(
module L1 byte 18: module endfunction(
module L1 byte 18: module endgenerate(
module L1 byte 16: module endmodule(
module L1 byte 19: module endprimitive(
module L1 byte 17: module endspecify(
module L1 byte 15: module endtable(
module L1 byte 14: module endtask(
module L1 byte 12: module event(
module L1 byte 10: module for(
module L1 byte 12: module force(
module L1 byte 14: module forever(
module L1 byte 11: module fork(
module L1 byte 15: module function(
module L1 byte 15: module generate(
module L1 byte 13: module genvar(
module L1 byte 13: module highz0(
module L1 byte 13: module highz1(
module L1 byte 9: module if(
module L1 byte 13: module ifnone(
module L1 byte 13: module incdir(
module L1 byte 14: module include(
module L1 byte 14: module initial(
module L1 byte 12: module inout(
module L1 byte 12: module input(
module L1 byte 15: module instance(
module L1 byte 14: module integer(
module L1 byte 11: module join(
module L1 byte 12: module large(
module L1 byte 14: module liblist(
module L1 byte 14: module library(
module L1 byte 17: module localparam(
module L1 byte 18: module macromodule(
module L1 byte 13: module medium(
module L1 byte 13: module module(
module L1 byte 11: module nand(
module L1 byte 14: module negedge(
module L1 byte 11: module nmos(
module L1 byte 10: module nor(
module L1 byte 22: module noshowcancelled(
module L1 byte 10: module not(
module L1 byte 13: module notif0(
module L1 byte 13: module notif1(
module L1 byte 9: module or(
module L1 byte 13: module output(
module L1 byte 16: module parameter(
module L1 byte 11: module pmos(
module L1 byte 14: module posedge(
module L1 byte 16: module primitive(
module L1 byte 12: module pull0(
module L1 byte 12: module pull1(
module L1 byte 15: module pulldown(
module L1 byte 13: module pullup(
module L1 byte 26: module pulsestyle_ondetect(
module L1 byte 25: module pulsestyle_onevent(
module L1 byte 12: module rcmos(
module L1 byte 11: module real(
module L1 byte 15: module realtime(
module L1 byte 10: module reg(
module L1 byte 14: module release(
module L1 byte 13: module repeat(
module L1 byte 12: module rnmos(
module L1 byte 12: module rpmos(
module L1 byte 12: module rtran(
module L1 byte 15: module rtranif0(
module L1 byte 15: module rtranif1(
module L1 byte 15: module scalared(
module L1 byte 20: module showcancelled(
module L1 byte 13: module signed(
module L1 byte 12: module small(
module L1 byte 14: module specify(
module L1 byte 16: module specparam(
module L1 byte 14: module strong0(
module L1 byte 14: module strong1(
module L1 byte 14: module supply0(
module L1 byte 14: module supply1(
module L1 byte 12: module table(
module L1 byte 11: module task(
module L1 byte 11: module time(
module L1 byte 11: module tran(
module L1 byte 14: module tranif0(
module L1 byte 14: module tranif1(
module L1 byte 10: module tri(
module L1 byte 11: module tri0(
module L1 byte 11: module tri1(
module L1 byte 13: module triand(
module L1 byte 12: module trior(
module L1 byte 13: module trireg(
module L1 byte 15: module unsigned(
module L1 byte 10: module use(
module L1 byte 12: module uwire(
module L1 byte 15: module vectored(
module L1 byte 11: module wait(
module L1 byte 11: module wand(
module L1 byte 12: module weak0(
module L1 byte 12: module weak1(
module L1 byte 12: module while(
module L1 byte 11: module wire(
module L1 byte 10: module wor(
module L1 byte 11: module xnor(
module L1 byte 10: module xor(
# NOT RESERVED: a letter more or less, or in upper case
module L2: module always1(
module L2: module modul(
module L2: module Wire(
module L2: module logic(
";

#[test]
fn reserved_words(rt: HostRuntime) {
    are_right(&rt, first_wrong(rt.alloc(), RESERVED));
}
