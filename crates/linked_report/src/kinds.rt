//! The line of each kind.

ghost use Rattle.std.specs.Prelude.{◌≡◌, ◌≤◌, ◌++◌, ◌&&◌, OnOk, map, count_by};
ghost use Rattle.std.specs.List.{flat_map};
ghost use Rattle.linked_report.specs.Links.{is_link_covered};
ghost use Rattle.linked_report.specs.Report.{kind_text, kind_order, is_of_kind, kind_size, kind_line};
ghost use Rattle.linked_report.specs.inner.Counted.{is_covered_in, kind_covered, counted_line};

use crate::judged::{JudgedLink, is_covered};
use bist_bits::NoMemory;
use bist_text::put_between;
use linked_faults::{LinkKind, kind_of};
use report_lines::write_total;

/// The kinds in the order of the report.
const KINDS: [LinkKind; 5] = [
    LinkKind::LF1,
    LinkKind::LF2aa,
    LinkKind::LF2av,
    LinkKind::LF2va,
    LinkKind::LF3,
];

/// The printed name of a kind.
pub(crate) fn kind_name(kind: LinkKind) -> &'static [u8]
    ensures { result.now ≡ kind_text kind }
{
    match kind {
        LinkKind::LF1 => b"LF1",
        LinkKind::LF2aa => b"LF2aa",
        LinkKind::LF2av => b"LF2av",
        LinkKind::LF2va => b"LF2va",
        LinkKind::LF3 => b"LF3",
    }
}

/// Whether a link is of a kind: its own has the same name.
fn is_of_kind(judged: &JudgedLink, kind: LinkKind) -> bool
    ensures { result ≡ is_of_kind kind judged.now.link }
{
    kind_name(kind_of(&judged.link)) == kind_name(kind)
}

/// How many links are of a kind, and how many of these are covered.
#[derive(Clone, Copy)]
struct KindCounts {
    count: usize,
    covered: usize,
}

fn count_kind(kind: LinkKind, judged: &[JudgedLink]) -> KindCounts
    ensures count { result.count ≡ count_by (λ j. is_of_kind kind j.link) judged.now }
    ensures covered { result.covered ≡ kind_covered kind judged.now }
    ensures within { result.covered ≤ result.count }
{
    let mut count = 0;
    let mut covered = 0;
    for link in judged {
        count += usize::from(is_of_kind(link, kind));
        covered += usize::from(is_of_kind(link, kind) && is_covered(link));
    }
    KindCounts { count, covered }
}

/// Appends the line of a kind.
fn write_kind(out: &mut Vec<u8>, kind: LinkKind, judged: &[JudgedLink]) -> Result<(), NoMemory>
    ensures { OnOk result (out.new.items ≡ out.old.items ++ counted_line judged.now kind) }
{
    let counts = count_kind(kind, judged);
    put_between(out, b"kind ", kind_name(kind), b" ")?;
    write_total(out, counts.count, counts.covered)
}

/// Appends the line of each kind.
pub(crate) fn write_kinds(out: &mut Vec<u8>, judged: &[JudgedLink]) -> Result<(), NoMemory>
    ensures { OnOk result (out.new.items ≡ out.old.items ++ flat_map (counted_line judged.now) kind_order) }
{
    for kind in KINDS {
        write_kind(out, kind, judged)?;
    }
    Ok(())
}
