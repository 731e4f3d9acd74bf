ghost use Rattle.std.specs.Prelude.{◌≡◌};
ghost use Rattle.word_coupling.specs.inner.Searching.{end_from, ends_in, end_in, AreEnds, IsTable};

use crate::couple::run_march;
use crate::reading::Reading;
use cell_machine::Pair;
use fault_core::Prim;
use march_core::March;

/// Where a march leads in one background from each content of two bits, the aggressor's digit first; nowhere where a read is wrong.
#[derive(Clone, Copy)]
pub(crate) struct Ends {
    pub(crate) from_00: Option<Pair>,
    pub(crate) from_01: Option<Pair>,
    pub(crate) from_10: Option<Pair>,
    pub(crate) from_11: Option<Pair>,
}

/// The same for each two bits of a background.
#[derive(Clone, Copy)]
pub(crate) struct EndTable {
    pub(crate) in_00: Ends,
    pub(crate) in_01: Ends,
    pub(crate) in_10: Ends,
    pub(crate) in_11: Ends,
}

/// Where a march leads in a background that has these two bits.
fn ends_of(reading: Reading, prim: &Prim, march: &March, background: Pair) -> Ends
    ensures { AreEnds reading prim.now background march.now result }
{
    Ends {
        from_00: run_march(
            reading,
            prim,
            background,
            march,
            Pair { a: false, v: false },
        ),
        from_01: run_march(reading, prim, background, march, Pair { a: false, v: true }),
        from_10: run_march(reading, prim, background, march, Pair { a: true, v: false }),
        from_11: run_march(reading, prim, background, march, Pair { a: true, v: true }),
    }
}

/// Where a march leads in each background.
pub(crate) fn table_of(reading: Reading, prim: &Prim, march: &March) -> EndTable
    ensures { IsTable reading prim.now march.now result }
{
    EndTable {
        in_00: ends_of(reading, prim, march, Pair { a: false, v: false }),
        in_01: ends_of(reading, prim, march, Pair { a: false, v: true }),
        in_10: ends_of(reading, prim, march, Pair { a: true, v: false }),
        in_11: ends_of(reading, prim, march, Pair { a: true, v: true }),
    }
}

fn end_from(ends: &Ends, pair: Pair) -> Option<Pair>
    ensures { result ≡ end_from ends.now pair }
{
    match (pair.a, pair.v) {
        (false, false) => ends.from_00,
        (false, true) => ends.from_01,
        (true, false) => ends.from_10,
        (true, true) => ends.from_11,
    }
}

/// Where the march leads from a pair in a background that has these two bits.
pub(crate) fn end_in(table: &EndTable, background: Pair, pair: Pair) -> Option<Pair>
    ensures { result ≡ end_in table.now background pair }
{
    match (background.a, background.v) {
        (false, false) => end_from(&table.in_00, pair),
        (false, true) => end_from(&table.in_01, pair),
        (true, false) => end_from(&table.in_10, pair),
        (true, true) => end_from(&table.in_11, pair),
    }
}
