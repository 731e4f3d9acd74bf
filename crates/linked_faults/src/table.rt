//! The linked faults that the static primitives make.

ghost use Rattle.std.specs.Prelude.{◌≡◌, ◌++◌, IfOk, OnOk};
ghost use Rattle.linked_faults.specs.Kinds.{kind_of, AreLinks};
ghost use Rattle.linked_faults.specs.inner.Testing.{if_linked, linked_behind, linked_pairs};

use crate::link::Link;
use crate::linked::passes_test;
use bist_bits::NoMemory;
use fault_core::{Prim, one_cell, two_cell};
use std::alloc::Global;

/// The kinds of linked faults, by the cells that take part. Source: the literature on linked faults.
#[derive(Clone, Copy)]
pub enum LinkKind {
    /// Both have the victim alone.
    LF1,
    /// Both have one aggressor, which they share.
    LF2aa,
    /// The first alone has an aggressor.
    LF2av,
    /// The second alone has an aggressor.
    LF2va,
    /// Each has an aggressor of its own.
    LF3,
}

/// The kind of a linked fault.
pub fn kind_of(link: &Link) -> LinkKind
    ensures { result ≡ kind_of link.now }
{
    match (link.first.is_two_cell(), link.second.is_two_cell()) {
        (false, false) => LinkKind::LF1,
        (true, true) => {
            if link.is_shared {
                LinkKind::LF2aa
            } else {
                LinkKind::LF3
            }
        }
        (true, false) => LinkKind::LF2av,
        (false, true) => LinkKind::LF2va,
    }
}

/// Appends a link where the two are linked.
fn push_linked(links: &mut Vec<Link>, link: Link) -> Result<(), NoMemory>
    ensures { OnOk result (links.new.items ≡ links.old.items ++ if_linked link) }
{
    if passes_test(&link) && links.push(link).is_err() {
        return Err(NoMemory);
    }
    Ok(())
}

/// Appends those of a first primitive that are linked.
fn push_behind(
    links: &mut Vec<Link>,
    first: Prim,
    seconds: &[Prim],
    is_shared: bool,
) -> Result<(), NoMemory>
    ensures { OnOk result (links.new.items ≡ links.old.items ++ linked_behind is_shared seconds.now first) }
{
    for second in seconds {
        let link = Link {
            first,
            second: *second,
            is_shared,
        };
        push_linked(links, link)?;
    }
    Ok(())
}

/// Appends those of these primitives that are linked.
fn push_links(
    links: &mut Vec<Link>,
    firsts: &[Prim],
    seconds: &[Prim],
    is_shared: bool,
) -> Result<(), NoMemory>
    ensures { OnOk result (links.new.items ≡ links.old.items ++ linked_pairs firsts.now seconds.now is_shared) }
{
    for first in firsts {
        push_behind(links, *first, seconds, is_shared)?;
    }
    Ok(())
}

/// The linked faults of the static primitives: kind by kind, and in a kind by the first and then the second primitive.
/// The only refusal is want of memory.
pub fn links(alloc: Global) -> Result<Vec<Link>, NoMemory>
    ensures { IfOk result (λ links. AreLinks links.items) }
{
    let one = one_cell();
    let two = two_cell();
    let mut links = Vec::new(alloc);
    push_links(&mut links, &one, &one, false)?;
    push_links(&mut links, &two, &two, true)?;
    push_links(&mut links, &two, &one, false)?;
    push_links(&mut links, &one, &two, false)?;
    push_links(&mut links, &two, &two, false)?;
    Ok(links)
}
