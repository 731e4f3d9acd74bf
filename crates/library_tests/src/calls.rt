//! Calls of the libraries' functions, with answers that were found by hand. Those of reports, of texts, of Verilog and
//! of boxes are called elsewhere.

ghost use Rattle.std.specs.Prelude.{◌≡◌, None};

use crate::given::{
    MATS_PLUS, UP_UP_DOWN, all_hold, failed_transition, march_of, memory_of, one_cell_prim,
};
use crate::trees::name;
use array_sim::act_of;
use backgrounds::{log_set, separates, word_of};
use bist_bits::{Bits, all_ones, concat, parity, select, width_of};
use bist_text::{ByteSet, Cursor, Line, Lines, decimal, hex, put, put_decimal, put_hex};
use cell_machine::{Pair, Side, act, close};
use escape_array::{EscapeArray, least, replays};
use fault_core::{
    Act, Class, Places, Prim, class_of, close_cells, do_plainly, is_same_act, members, one_cell,
    step, two_cell,
};
use march_core::{March, MarchBuilder, MarchFault, Op, Order, address_of, is_down, is_wrong};
use memory_desc::Memory;
use pair_tracker::{Placement, Survivor, survivors};
use scrambler::{Dependence, Matrix, Scramble, invert};
use std::alloc::Global;
use verilog_tree::{BinOp, UnOp, binary_width, is_name, unary_width};
use word_march::{PortOp, WordOp, length, port_ops, word_ops};

/// `a`, `b` and byte 128.
const LETTERS: ByteSet = ByteSet {
    low: 0b11 << 97,
    high: 1,
};

/// Whether a cursor finds the letters behind a byte and two blanks, and then the end.
fn a_cursor_finds_letters() -> bool {
    let low = 1 << 32;
    let blank = ByteSet { low, high: 0 };
    let mut cursor = Cursor::new(b"#  ab");
    cursor.advance();
    cursor.skip(blank);
    cursor.place() == 3
        && cursor.peek() == Some(b'a')
        && cursor.take_while(LETTERS) == b"ab".as_slice()
        && cursor.peek().is_none()
}

/// Whether this line comes.
fn is_line(line: Option<Line<'_>>, number: usize, start: usize, text: &[u8], ended: bool) -> bool {
    match line {
        None => false,
        Some(line) => {
            line.number == number && line.start == start && line.ended == ended && line.text == text
        }
    }
}

/// Whether three lines come with their numbers and places, and then none.
fn lines_come_in_order() -> bool {
    let mut lines = Lines::new(b"a\n\nb");
    is_line(lines.next(), 1, 0, b"a", true)
        && is_line(lines.next(), 2, 2, b"", true)
        && is_line(lines.next(), 3, 3, b"b", false)
        && lines.next().is_none()
}

fn numbers_are_put(alloc: Global) -> bool {
    let mut out = Vec::new(alloc);
    let is_put = put_decimal(&mut out, 120).is_ok()
        & put(&mut out, b" ").is_ok()
        & put_hex(&mut out, 0xab, 4).is_ok();
    is_put && out.as_slice() == b"120 00ab".as_slice()
}

#[test]
fn bits(rt: HostRuntime) {
    let joined = concat(&Bits::new(2, 0b10), &Bits::new(1, 0b1));
    let claims = [
        joined.width() == 3,
        joined.value() == 0b101,
        select(&Bits::new(4, 0b1101), 2, 1) == Bits::new(2, 0b10),
        Bits::try_new(4, 16).is_none(),
        parity(7),
        width_of(0) == 1,
        width_of(8) == 4,
        all_ones(5) == 31,
    ];
    all_hold(&rt, &claims);
}

#[test]
fn texts(rt: HostRuntime) {
    let claims = [
        LETTERS.contains(b'b'),
        !LETTERS.contains(b'c'),
        LETTERS.contains(128),
        a_cursor_finds_letters(),
        lines_come_in_order(),
        decimal(b"0042") == Some(42),
        decimal(b"").is_none(),
        hex(b"fF") == Some(255),
        numbers_are_put(rt.alloc()),
    ];
    all_hold(&rt, &claims);
}

fn two_elements() -> Result<March, MarchFault> {
    let mut builder = MarchBuilder::new();
    let is_built = builder.element(Order::Any).is_ok()
        & builder.op(Op::W0).is_ok()
        & builder.element(Order::Up).is_ok()
        & builder.op(Op::R0).is_ok()
        & builder.op(Op::W1).is_ok();
    if !is_built {
        return Err(MarchFault::Empty);
    }
    builder.finish()
}

fn has_two_elements(march: &March) -> bool {
    march.len() == 2
        && march.order(1) == Order::Up
        && march.ops(1) == [Op::R0, Op::W1].as_slice()
        && march.total_ops() == 3
}

/// Whether its first element may go downward and its second may not.
fn fits_its_directions(march: &March) -> bool {
    march.fits_directions(0) && march.fits_directions(1 << 63) && !march.fits_directions(1 << 62)
}

#[test]
fn marches(rt: HostRuntime) {
    let march = two_elements().expect(&rt, "a march");
    let empty = MarchBuilder::new().finish();
    let claims = [
        matches!(empty, Err(MarchFault::Empty)),
        has_two_elements(&march),
        fits_its_directions(&march),
        is_down(UP_UP_DOWN, 2),
        address_of(true, 1, 4) == 2,
    ];
    all_hold(&rt, &claims);
}

#[test]
fn operations(rt: HostRuntime) {
    let claims = [
        Op::W1.written() == Some(true),
        Op::R0.expected() == Some(false),
        Op::W0.writes(),
        Op::R1.data_value(),
        act_of(Op::R1) == Act::Read,
        is_wrong(Op::R1, Some(false)),
        !is_same_act(Act::Write(true), Act::Write(false)),
    ];
    all_hold(&rt, &claims);
}

fn keeps_a_zero(prim: &Prim) -> bool {
    prim.agg().is_none()
        && !prim.vic().state
        && prim.vic().act == Some(Act::Write(true))
        && !prim.after()
        && prim.answer().is_none()
        && !prim.is_two_cell()
}

/// The classes of the last primitives of one cell and of two.
fn last_classes() -> Option<(Class, Class)> {
    let ones = one_cell();
    let twos = two_cell();
    Some((class_of(ones.last()?), class_of(twos.last()?)))
}

fn a_cell_keeps_its_zero(keeps_zero: &Prim) -> bool
    requires { keeps_zero.now.agg ≡ None }
{
    let places = Places { agg: None, vic: 1 };
    let mut cells = [false, false];
    let answer = step(keeps_zero, places, &mut cells, 1, Act::Write(true));
    answer.is_none() && cells == [false, false]
}

fn a_cell_loses_its_zero(loses_zero: &Prim) -> bool
    requires { loses_zero.now.agg ≡ None }
{
    let places = Places { agg: None, vic: 1 };
    let mut cells = [false, false];
    close_cells(loses_zero, places, &mut cells);
    let lost = cells == [false, true];
    let plain = do_plainly(&mut cells, 1, Act::Read) == Some(true);
    lost && plain && cells == [false, true]
}

#[test]
fn primitives(rt: HostRuntime) {
    let keeps_zero = failed_transition(&rt, false);
    let claims = [
        keeps_a_zero(&keeps_zero),
        class_of(&keeps_zero) == Class::TF,
        members(Class::CFds).len() == 12,
        last_classes() == Some((Class::IRF, Class::CFir)),
    ];
    all_hold(&rt, &claims);
}

#[test]
fn acts_on_cells(rt: HostRuntime) {
    let keeps_zero = failed_transition(&rt, false);
    let loses_zero = one_cell_prim(&rt, false, None, true);
    let zeros = Pair { a: false, v: false };
    let claims = [
        act(&keeps_zero, zeros, Side::V, Act::Write(true)) == (zeros, None),
        close(&loses_zero, zeros) == Pair { a: false, v: true },
        a_cell_keeps_its_zero(&keeps_zero),
        a_cell_loses_its_zero(&loses_zero),
    ];
    all_hold(&rt, &claims);
}

/// Whether a cell that keeps its one passes a march in this way alone.
fn survives_alone(march: &March, keeps_one: &Prim, survivor: Survivor) -> bool
    requires { keeps_one.now.agg ≡ None }
{
    let found = survivors(march, keeps_one, Placement::Alone, [false, false]);
    found.as_slice() == [survivor].as_slice()
}

/// Whether it is the escape of a cell that keeps its one from MATS+.
pub(crate) fn is_worked_escape(escape: &EscapeArray) -> bool {
    escape.agg.is_none()
        && escape.vic == 0
        && escape.content == [false, false]
        && escape.directions == UP_UP_DOWN
}

fn an_escape_is_found(march: &March, keeps_one: &Prim) -> bool {
    match least(march, keeps_one) {
        None => false,
        Some(escape) => is_worked_escape(&escape) && replays(march, &escape),
    }
}

/// Whether a march catches a cell that keeps its zero where it would be an escape.
#[tactic(auto, using(escape_array::proofs::Replaying::array_fits))]
fn catches_a_kept_zero(march: &March, keeps_zero: &Prim, directions: u64) -> bool
    requires { keeps_zero.now.agg ≡ None }
{
    let caught = EscapeArray {
        prim: *keeps_zero,
        agg: None,
        vic: 0,
        content: [false, false],
        directions,
    };
    march.fits_directions(directions)
        && least(march, keeps_zero).is_none()
        && !replays(march, &caught)
}

#[test]
fn arrays_of_two_cells(rt: HostRuntime) {
    let march = march_of(&rt, MATS_PLUS);
    let keeps_zero = failed_transition(&rt, false);
    let keeps_one = failed_transition(&rt, true);
    let pair = Pair { a: false, v: true };
    let directions = UP_UP_DOWN;
    let survivor = Survivor { pair, directions };
    all_hold(
        &rt,
        &[
            survives_alone(&march, &keeps_one, survivor),
            an_escape_is_found(&march, &keeps_one),
            catches_a_kept_zero(&march, &keeps_zero, directions),
        ],
    );
}

fn is_worked_scramble(scramble: &Scramble) -> bool {
    scramble.width() == 2
        && scramble.rows() == [0b11, 0b10].as_slice()
        && scramble.row(1) == 0b10
        && scramble.constant() == 0b01
}

fn moves_two_bits(scramble: &Scramble) -> bool {
    scramble.width() == 2
        && scramble.logical_of(0) == 1
        && scramble.physical_of(3) == 3
        && scramble.duplicate().logical_of(3) == 3
}

fn a_matrix_is_inverted() -> bool {
    let mut rows = [0; 16];
    rows[0] = 0b11;
    rows[1] = 0b10;
    let matrix = Matrix {
        width: 2,
        rows,
        constant: 0b01,
    };
    match invert(&matrix) {
        Ok(scramble) => is_worked_scramble(&scramble) && moves_two_bits(&scramble),
        Err(_) => false,
    }
}

fn like_rows_depend() -> bool {
    let matrix = Matrix {
        width: 2,
        rows: [1; 16],
        constant: 0b01,
    };
    matches!(invert(&matrix), Err(Dependence { rows: 0b11 }))
}

fn narrow_words_have_sets() -> bool {
    log_set(1).as_slice() == [0].as_slice()
        && log_set(5).as_slice() == [0x00, 0x0a, 0x0c, 0x10].as_slice()
        && log_set(8).as_slice() == [0x00, 0xaa, 0xcc, 0xf0].as_slice()
}

fn the_widest_word_has_a_set() -> bool {
    let widest = log_set(64);
    widest.len() == 7
        && widest.get(1) == Some(&0xaaaa_aaaa_aaaa_aaaa)
        && widest.last() == Some(&0xffff_ffff_0000_0000)
}

#[test]
fn scramblings(rt: HostRuntime) {
    let claims = [
        a_matrix_is_inverted(),
        like_rows_depend(),
        Scramble::identity(3).logical_of(5) == 5,
    ];
    all_hold(&rt, &claims);
}

#[test]
fn words_of_backgrounds(rt: HostRuntime) {
    let claims = [
        narrow_words_have_sets(),
        the_widest_word_has_a_set(),
        word_of(0x0a, true, 5) == 0x15,
        separates(&[0x00, 0x0a], 0, 1),
        !separates(&[0x00, 0x0a], 0, 2),
    ];
    all_hold(&rt, &claims);
}

/// Whether there are eight commands, and which is the third of them.
fn has_its_third_command(march: &March, memory: &Memory) -> bool {
    let (write, word) = (true, 1);
    let (index, addr) = (2, 3);
    length(march, memory) == 8
        && word_ops(march, memory).nth(2) == Some(WordOp { write, index, word })
        && port_ops(march, memory).nth(2) == Some(PortOp { write, addr, word })
}

#[test]
fn commands_of_a_memory(rt: HostRuntime) {
    let march = march_of(&rt, b"{any(w1);down(r1)}");
    let memory = memory_of(
        &rt,
        b"memory 1\nname s4\nwords 4\nbits 1\nscramble a0 = p0 ^ p1\nscramble a1 = p1\n",
    );
    all_hold(&rt, &[has_its_third_command(&march, &memory)]);
}

#[test]
fn names_and_operators(rt: HostRuntime) {
    let claims = [
        is_name(&name("buffer_1")),
        !is_name(&name("buf")),
        !is_name(&name("1st")),
        unary_width(UnOp::Invert, 4) == 4,
        unary_width(UnOp::Parity, 4) == 1,
        binary_width(BinOp::Shl, 4) == 4,
        binary_width(BinOp::Lt, 4) == 1,
    ];
    all_hold(&rt, &claims);
}
