//! Reports by each call that writes one, and the verdicts that they print. What `judge` writes is asked by its rows.

use crate::calls::is_worked_escape;
use crate::given::{MATS_PLUS, all_hold, failed_transition, march_of};
use bist_bits::NoMemory;
use coverage::{Verdict, judge, judge_all};
use dynamic_core::Item;
use fault_core::Prim;
use march_core::March;
use report::{count_covered, judge_items, write_judged, write_mixed, write_report};
use report_lines::total_text;
use std::alloc::Global;

/// Whether a cell that keeps its zero is caught, and one that keeps its one is the worked escape.
fn are_worked_verdicts(march: &March, keeps_zero: &Prim, keeps_one: &Prim) -> bool {
    let Verdict::Escape(escape) = judge(march, keeps_one) else {
        return false;
    };
    is_worked_escape(&escape) && matches!(judge(march, keeps_zero), Verdict::Covered)
}

static REPORT: &[u8] = b"march {any(w0);up(r0,w1);down(r1,w0)}
covered <0w1/0/-> TF
escape <1w0/1/-> TF aggressor none victim 0 content 00 directions uud
class TF 2 covered 1
total 2 covered 1 escapes 1
";

fn is_report(text: Result<Vec<u8>, NoMemory>) -> bool {
    match text {
        Ok(text) => text.as_slice() == REPORT,
        Err(_) => false,
    }
}

/// The report of primitives by their verdicts; nothing where one has none.
fn report_of(alloc: Global, march: &March, prims: &[Prim]) -> Result<Vec<u8>, NoMemory> {
    let verdicts = judge_all(alloc, march, prims)?;
    if verdicts.len() != prims.len() {
        return Ok(Vec::new(alloc));
    }
    write_report(alloc, march, None, prims, &verdicts)
}

/// The report of items that are judged first, where the march covers one of them.
fn judged_report(alloc: Global, march: &March, items: &[Item]) -> Result<Vec<u8>, NoMemory> {
    let judged = judge_items(alloc, march, items)?;
    if count_covered(&judged) != 1 {
        return Ok(Vec::new(alloc));
    }
    write_judged(alloc, march, None, &judged)
}

fn is_total(alloc: Global) -> bool {
    match total_text(alloc, 5, 3) {
        Ok(text) => text.as_slice() == b"total 5 covered 3 escapes 2\n".as_slice(),
        Err(_) => false,
    }
}

#[test]
fn reports(rt: HostRuntime) {
    let alloc = rt.alloc();
    let march = march_of(&rt, MATS_PLUS);
    let keeps_zero = failed_transition(&rt, false);
    let keeps_one = failed_transition(&rt, true);
    let prims = [keeps_zero, keeps_one];
    let items = [Item::Plain(keeps_zero), Item::Plain(keeps_one)];
    all_hold(
        &rt,
        &[
            are_worked_verdicts(&march, &keeps_zero, &keeps_one),
            is_report(report_of(alloc, &march, &prims)),
            is_report(judged_report(alloc, &march, &items)),
            is_report(write_mixed(alloc, &march, None, &items)),
            is_total(alloc),
        ],
    );
}
