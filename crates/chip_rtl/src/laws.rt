//! Laws of the chip and of its text, each the contract of a function that does nothing.
ghost use Rattle.std.specs.Prelude.{◌≡◌, ℕ, List, true};
ghost use Rattle.std.specs.List.{list_all};
ghost use Rattle.verilog_tree.specs.Spells.{all_limits};
ghost use Rattle.verilog_emit.specs.Written.{is_text_byte};
ghost use Rattle.chip_rtl.specs.ChipTree.{ChipTree};
ghost use Rattle.chip_rtl.specs.ChipFile.{IsChipTextOf, PlansAreWritten};
ghost use Rattle.chip_rtl.specs.ChipGrammar.{ChipText};
ghost use Rattle.chip_rtl.specs.ChipLaws.{TopTests, TopIsLegal};
ghost use Rattle.chip_rtl.specs.PrintedLaws.{GeneratedFit};
ghost use Rattle.chip_rtl.specs.ReadingLaws.{NoTwoTexts};
ghost use Rattle.chip_rtl.specs.TextLaws.{NoTwoModules, NoTwoChips};

/// Under the top self-test modules are a test of all their memories, group by group and within the budget.
pub fn top_of_self_tests()
    ensures tests { TopTests }
    ensures legal { TopIsLegal }
{}

/// Where no tokens are two modules, none are two chips.
pub fn one_reading()
    ensures { NoTwoModules → NoTwoChips }
{}

/// No tokens are two modules, and no bytes are two chips.
pub fn one_chip_text()
    ensures modules { NoTwoModules }
    ensures chips { NoTwoTexts }
{}

/// The text of a chip is one by the grammar, which derives no other chip; and each byte of it is a line feed, a space or another
/// printable one, and no `/`.
pub fn chip_texts_are_of_one_chip()
    ensures derived { (bytes : List ℕ) (chip : ChipTree) → IsChipTextOf bytes chip → ChipText all_limits bytes chip }
    ensures no_other { (bytes : List ℕ) (chip other : ChipTree) → IsChipTextOf bytes chip → ChipText all_limits bytes other → other ≡ chip }
    ensures plain { (bytes : List ℕ) (chip : ChipTree) → IsChipTextOf bytes chip → list_all is_text_byte bytes ≡ true }
{}

/// The generated top of any plan can be printed, and behind the printed self-tests of the plan it makes a file that
/// is the text of one chip, which tests the memories.
pub fn plans_are_written()
    ensures fit { GeneratedFit }
    ensures written { PlansAreWritten }
{}
