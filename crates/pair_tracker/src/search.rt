//! The least direction word that leads from a pair to an end that is wanted: at each element upward, unless no
//! choice leads on from there.
ghost use Rattle.std.specs.Prelude.{◌≡◌, ◌⊎◌, ◌<◌, ◌≤◌, ◌+◌, ◌^◌, ◌-◌, ◌∷◌, ℕ, Bool, List, false, true, None, Some};
ghost use Rattle.march_core.specs.Addresses.{direction_of};
ghost use Rattle.pair_tracker.specs.DeadEnds.{is_dead, StaysDead, AreDead, AreFrom};
ghost use Rattle.pair_tracker.specs.Ways.{Leading, word_by, word_behind};

/// What a search has found out: from which states before an element no choice of directions leads to its end. It has
/// up to eight states, by their numbers. Searches to the same end share it.
#[derive(Drop)]
pub struct DeadEnds {
    known: [bool; 512],
}

impl DeadEnds {
    /// Nothing is known.
    pub fn unknown() -> Self
        ensures { (i n : ℕ) → is_dead result i n ≡ false }
    {
        DeadEnds {
            known: [false; 512],
        }
    }

    /// Whether a state is known to lead nowhere.
    pub fn has(&self, element: usize, state: usize) -> bool
        requires element { element < 64 }
        requires state { state < 8 }
        ensures { result ≡ is_dead self.now element state }
    {
        self.known[8 * element + state]
    }

    /// Notes that a state leads nowhere.
    pub fn insert(&mut self, element: usize, state: usize)
        requires element { element < 64 }
        requires state { state < 8 }
        ensures only { (i n : ℕ) → n < 8 → is_dead self.new i n ≡ true → (is_dead self.old i n ≡ true) ⊎ ((i ≡ element) × (n ≡ state)) }
        ensures noted { is_dead self.new element state ≡ true }
        ensures kept { StaysDead self.old self.new }
    {
        self.known[8 * element + state] = true;
    }
}

/// Elements that each lead on from a state in one of two directions, and the ends that are wanted.
pub trait Ways {
    type State: Copy;

    ghost Holds: { Self → Type 0 };

    ghost Element: { Type 0 };

    ghost count: { Self → ℕ };

    ghost from: { Self → ℕ → List Element };

    ghost lead: { Self → Leading Self.State Element };

    ghost wanted: { Self → Self.State → Bool };

    ghost number: { Self.State → ℕ };

    /// How many elements there are.
    fn count(&self) -> usize
        requires { Holds self.now }
        ensures { result ≡ count self.now };

    /// Where an element leads in a direction.
    fn lead(&self, i: usize, start: Self::State, is_down: bool) -> Option<Self::State>
        requires holds { Holds self.now }
        requires there { i < count self.now }
        ensures { (e : Element) → from self.now i ≡ e ∷ from self.now (i + 1) → result ≡ lead self.now e start (direction_of is_down) };

    /// Whether a state is an end that is wanted.
    fn is_wanted(&self, end: Self::State) -> bool
        ensures { result ≡ wanted self.now end };

    /// The number of a state.
    fn number(&self, state: Self::State) -> usize
        ensures number { result ≡ number state }
        ensures below { result < 8 };

    ghost tells: { (q r : Self.State) → number q ≡ number r → q ≡ r };

    ghost few: { (q : Self.State) → number q < 8 };
}

/// What the bit of an element adds to a direction word.
pub fn weight_of(element: usize) -> u64
    requires { element < 64 }
    ensures { result ≡ 2 ^ (63 - element) }
{
    1 << (63 - element)
}

/// The least direction word of the elements from `i` on that leads from a state, where there is one, to an end that
/// is wanted.
pub fn word_from<W: Ways>(
    ways: &W,
    dead_ends: &mut DeadEnds,
    i: usize,
    start: Option<W::State>,
) -> Option<u64>
    requires holds { W.Holds ways.now }
    requires from { AreFrom (W.count ways.now) (W.from ways.now) }
    requires within { i ≤ W.count ways.now }
    requires dead { AreDead W.number (W.wanted ways.now) (W.lead ways.now) (W.from ways.now) dead_ends.old }
    ensures word { result ≡ word_behind (word_by (W.wanted ways.now) (W.lead ways.now) i (W.from ways.now i)) start }
    ensures dead { AreDead W.number (W.wanted ways.now) (W.lead ways.now) (W.from ways.now) dead_ends.new }
    ensures kept { StaysDead dead_ends.old dead_ends.new }
    ensures noted { result ≡ None → i < W.count ways.now → (q : W.State) → start ≡ Some q → is_dead dead_ends.new i (W.number q) ≡ true }
{
    let state = start?;
    if i >= ways.count() {
        return if ways.is_wanted(state) { Some(0) } else { None };
    }
    if dead_ends.has(i, ways.number(state)) {
        return None;
    }
    let up = ways.lead(i, state, false);
    if let Some(word) = word_from(ways, dead_ends, i + 1, up) {
        return Some(word);
    }
    let down = ways.lead(i, state, true);
    if let Some(word) = word_from(ways, dead_ends, i + 1, down) {
        return Some(weight_of(i) + word);
    }
    dead_ends.insert(i, ways.number(state));
    None
}
