ghost use Rattle.rtl_layout.specs.Shows.{IsPlan};

use crate::element::Element;
use crate::row::Row;
use arrayvec::ArrayVec;
use verilog_tree::Name;

/// What a self-test module is made from: a march and a memory as plain numbers and tables.
#[derive(Drop)]
pub struct Plan {
    pub name: Name,
    pub elements: ArrayVec<Element, 64>,
    pub words: u32,
    pub bits: u8,
    pub backgrounds: ArrayVec<u64, 8>,
    /// Whether the address is the index itself.
    pub straight: bool,
    /// How the bits of the address come from the index, from the lowest bit up.
    pub rows: ArrayVec<Row, 16>,
    /// One less than the cycles from a command to its word.
    pub delay: u8,
    pub polarity: u64,
    /// The cycles of a pause.
    pub pause: u32,
    pub addr_width: u8,
    pub visit_width: u8,
    pub element_width: u8,
    pub oper_width: u8,
    pub back_width: u8,
    pub ghost is_plan: { IsPlan (record { name = name.bytes; elements = elements.items; words = words; bits = bits; backgrounds = backgrounds.items; straight = straight; rows = rows.items; delay = delay; polarity = polarity; pause = pause; addr_width = addr_width; visit_width = visit_width; element_width = element_width; oper_width = oper_width; back_width = back_width }) },
}
