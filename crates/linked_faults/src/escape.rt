ghost use Rattle.std.specs.Prelude.{◌≡◌, ◌<◌, ◌≤◌, ℕ, None, MatchOption, length};
ghost use Rattle.march_core.specs.March.{IsMarch};
ghost use Rattle.linked_faults.specs.Linking.{FitsLinkPlaces, IsLinked, NeverBoth, HaveSpots};
ghost use Rattle.linked_faults.specs.Alone.{AreAsOne};
ghost use Rattle.linked_faults.specs.Escapes.{three_number, IsVerdict, IsVerdictAt};
ghost use Rattle.linked_faults.specs.inner.Searching.{ordered_places, assigned_places, link_places_in, NoneBefore, NoneIn, IsLeastIn, IsFirstFound};

use crate::link::{Link, LinkPlaces};
use crate::three::{Cells, Three};
use march_core::March;
use pair_tracker::{DeadEnds, word_through};

/// An array of three cells with a linked fault, its content, and a direction word.
#[derive(Clone, Copy)]
pub struct LinkEscape {
    pub link: Link,
    pub spots: LinkPlaces,
    pub content: Three,
    /// Element `i` stands at bit `63-i`, with 1 for downward.
    pub directions: u64,
}

/// None exactly where the linked fault is caught at every three cells, in every array of at least three, from every
/// content and for every choice of directions. For each single size from 3 the verdict is the same. Else the least
/// array of three cells that passes. Where the two are linked, no act is both's, and each act and pause does what one of
/// the two does alone. All places that two primitives can have are those of some three cells.
pub fn least_linked_escape(march: &March, link: &Link) -> Option<LinkEscape>
    ensures verdict { IsVerdict march.now link.now result }
    ensures each_size { (size : ℕ) → 3 ≤ size → IsVerdictAt size march.now link.now result }
    ensures one_acts { IsLinked link.now → NeverBoth link.now }
    ensures as_one { IsLinked link.now → AreAsOne link.now }
    ensures places { HaveSpots link.now }
{
    march.known();
    least_found(march, link)
}

/// The least over all places.
fn least_found(march: &March, link: &Link) -> Option<LinkEscape>
    ensures { MatchOption result (NoneIn march.now link.now 6) (λ e. IsFirstFound march.now link.now e) }
{
    for order in 0..6 {
        if let Some(escape) = least_in(march, link, order) {
            return Some(escape);
        }
    }
    None
}

/// The least escape in one choice of places. The contents share what is found out of dead ends.
fn least_in(march: &March, link: &Link, order: u8) -> Option<LinkEscape>
    requires { order < 6 }
    ensures { MatchOption result (NoneBefore march.now link.now order 8) (λ e. IsLeastIn march.now link.now order e) }
{
    march.known();
    let spots = link_places_in(link, order);
    let cells = Cells { link, spots };
    let mut dead_ends = DeadEnds::unknown();
    for number in 0..8 {
        let content = content_of(number);
        if let Some(directions) = word_through(&cells, march, &mut dead_ends, content) {
            return Some(LinkEscape {
                link: *link,
                spots,
                content,
                directions,
            });
        }
    }
    None
}

/// Three cells in an order, as the places of the cells that take part, and then of the others.
fn ordered_places(order: u8) -> LinkPlaces
    requires { order < 6 }
    ensures spots { result ≡ ordered_places order }
    ensures fits { FitsLinkPlaces result 3 }
{
    match order {
        0 => LinkPlaces { a: 0, b: 1, v: 2 },
        1 => LinkPlaces { a: 0, b: 2, v: 1 },
        2 => LinkPlaces { a: 1, b: 0, v: 2 },
        3 => LinkPlaces { a: 1, b: 2, v: 0 },
        4 => LinkPlaces { a: 2, b: 0, v: 1 },
        _ => LinkPlaces { a: 2, b: 1, v: 0 },
    }
}

/// The cells that take part, in the places that are chosen for them.
fn assigned_places(has_first: bool, has_other: bool, chosen: LinkPlaces) -> LinkPlaces
    requires { FitsLinkPlaces chosen 3 }
    ensures spots { result ≡ assigned_places has_first has_other chosen }
    ensures fits { FitsLinkPlaces result 3 }
{
    match (has_first, has_other) {
        (true, true) => chosen,
        (true, false) => LinkPlaces {
            a: chosen.a,
            b: chosen.v,
            v: chosen.b,
        },
        (false, true) => LinkPlaces {
            a: chosen.v,
            b: chosen.a,
            v: chosen.b,
        },
        (false, false) => LinkPlaces {
            a: chosen.b,
            b: chosen.v,
            v: chosen.a,
        },
    }
}

/// The places of a link in their order.
fn link_places_in(link: &Link, order: u8) -> LinkPlaces
    requires { order < 6 }
    ensures spots { result ≡ link_places_in link.now order }
    ensures fits { FitsLinkPlaces result 3 }
{
    let has_other = link.second.is_two_cell() && !link.is_shared;
    assigned_places(link.first.is_two_cell(), has_other, ordered_places(order))
}

/// The content with this number.
fn content_of(number: u8) -> Three
    requires { number < 8 }
    ensures { three_number result ≡ number }
{
    let x = number >= 4;
    let rest = number % 4;
    Three {
        x,
        y: rest >= 2,
        z: rest % 2 == 1,
    }
}
