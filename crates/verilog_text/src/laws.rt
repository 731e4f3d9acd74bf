//! Laws of the machine, each the contract of a function that does nothing.
ghost use Rattle.verilog_text.specs.Laws.{SameTexts, FullTexts, ReadsTexts, OneModule, FinishesExactly, ToldFaultsStand, ToldFaultsAreFirst, NoneStandsInATextThatIsRead, SpelledIsFormed, SpellsNothingElse, SpellsItFreely};

/// The ten rules of operators that bind by precedence and the flat form derive the same tokens, with the same trees.
pub fn same_texts()
    ensures { SameTexts }
{}

/// Full parentheses and the flat form with at most one operator in each parenthesis derive the same tokens, with the
/// same trees.
pub fn full_texts()
    ensures { FullTexts }
{}

/// The machine reads exactly the texts of either style within its limits, each to its one module.
pub fn reads_texts()
    ensures exactly { ReadsTexts }
    ensures one_module { OneModule }
{}

/// A module is read exactly where the text is one within all limits.
pub fn finished()
    ensures { FinishesExactly }
{}

/// A fault that the machine tells stands in the text.
pub fn told()
    ensures { ToldFaultsStand }
{}

/// Each refusal that stands in a text is the one that is told, or has a later byte; none stands in a text that is read.
pub fn first()
    ensures of_refused { ToldFaultsAreFirst }
    ensures of_read { NoneStandsInATextThatIsRead }
{}

/// What a text spells has the sizes of a formed module.
pub fn sized()
    ensures { SpelledIsFormed }
{}

/// A text in full parentheses has no other meaning where operators bind by precedence: it spells no other module there,
/// and its own where each of its expressions has at most 256 operators.
pub fn parentheses_mean_the_same()
    ensures no_other { SpellsNothingElse }
    ensures its_own { SpellsItFreely }
{}
