//! The definitions, tried on small modules.
ghost use Rattle.std.specs.Prelude.{◌≡◌, true, None};
ghost use Rattle.verilog_tree.specs.Formed.{formed};
ghost use Rattle.verilog_tree.specs.Meaning.{Env, Settles, next};
ghost use Rattle.verilog_tree.specs.Rules.{Width, TwoBlocks, first_break};
ghost use Rattle.verilog_tree.specs.Spells.{Spells};
ghost use Rattle.verilog_tree.specs.Examples.{y, p, q, unequal_sum, shifted_out, swap, two_blocks, text, spelled};

/// Two registers exchange their values at an edge: each takes the value from before it.
pub fn registers_swap()
    ensures legal { first_break swap ≡ None }
    ensures first { (e : Env) → next swap e p ≡ e q }
    ensures second { (e : Env) → next swap e q ≡ e p }
{}

/// Widths of 4 and 3 in a sum are refused, and a register that two blocks set.
pub fn broken_rules()
    ensures widths { first_break unequal_sum ≡ Some (Width 4 3) }
    ensures blocks { first_break two_blocks ≡ Some (TwoBlocks p) }
{}

/// A shift by the width leaves nothing.
pub fn shift_by_the_width()
    ensures legal { first_break shifted_out ≡ None }
    ensures nothing { (regs ins e : Env) → Settles shifted_out regs ins e → e y ≡ 0 }
{}

/// A text spells its module, with white space, and parentheses that leave no trace.
pub fn text_spells()
    ensures { Spells text spelled }
{}
