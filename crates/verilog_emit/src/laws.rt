//! Laws of the text of a module, the contract of a function that does nothing.
ghost use Rattle.std.specs.Prelude.{◌≡◌, ◌==◌, ◌||◌, ℕ, List, true, false};
ghost use Rattle.std.specs.List.{list_all};
ghost use Rattle.verilog_tree.specs.Fits.{fits};
ghost use Rattle.verilog_tree.specs.Formed.{formed};
ghost use Rattle.verilog_tree.specs.Grammar.{Parenthesised};
ghost use Rattle.verilog_tree.specs.Plain.{ModuleTree};
ghost use Rattle.verilog_tree.specs.Spells.{Text, no_limits, Spells};
ghost use Rattle.verilog_tree.specs.Tokens.{is_space};
ghost use Rattle.verilog_emit.specs.Printed.{printed};
ghost use Rattle.verilog_emit.specs.Written.{IsTextOf, is_text_byte};

/// The text of a module is one in full parentheses by the grammar of the reader, within its limits and without them, and of no
/// other module, which is formed. Each module that fits has one, and each byte of it is a line feed, a blank or another
/// printable one, and no `/`: of the bytes that the reader takes for white space no others.
pub fn texts_are_of_one_module()
    ensures derived { (bytes : List ℕ) (tree : ModuleTree) → IsTextOf bytes tree → Text Parenthesised no_limits bytes tree }
    ensures spelt { (bytes : List ℕ) (tree : ModuleTree) → IsTextOf bytes tree → Spells bytes tree }
    ensures no_other { (bytes : List ℕ) (tree other : ModuleTree) → IsTextOf bytes tree
        → Text Parenthesised no_limits bytes other → other ≡ tree }
    ensures sized { (bytes : List ℕ) (tree : ModuleTree) → IsTextOf bytes tree → formed tree ≡ true }
    ensures one { (bytes : List ℕ) (tree other : ModuleTree) → IsTextOf bytes tree → IsTextOf bytes other → other ≡ tree }
    ensures some { (tree : ModuleTree) → fits tree ≡ true → IsTextOf (printed tree) tree }
    ensures plain { (bytes : List ℕ) (tree : ModuleTree) → IsTextOf bytes tree → list_all is_text_byte bytes ≡ true }
    ensures spaces { (c : ℕ) → is_text_byte c ≡ true → is_space c ≡ true → ((c == 32) || (c == 10)) ≡ true }
    ensures no_comment { is_text_byte 47 ≡ false }
{}
