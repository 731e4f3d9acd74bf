//! Laws of the meaning, each the contract of a function that does nothing.
ghost use Rattle.std.specs.Prelude.{◌≡◌, ℕ, ◌^◌, ◌<◌, List, true, None};
ghost use Rattle.verilog_tree.specs.Plain.{Expression, ModuleTree};
ghost use Rattle.verilog_tree.specs.Names.{declarations};
ghost use Rattle.verilog_tree.specs.Formed.{expression_formed, formed};
ghost use Rattle.verilog_tree.specs.Meaning.{Env, value, width};
ghost use Rattle.verilog_tree.specs.Rules.{expression_widths, first_break};
ghost use Rattle.verilog_tree.specs.Order.{Reordered, MeansTheSame};
ghost use Rattle.verilog_tree.specs.Wires.{Uses, Leads, Read, IsLoop, Falls, Starts, OneSettles};

/// The value of an expression is within its width, where the values of the names that it uses are.
#[tactic(auto, using(crate::proofs::Bounds::value_fits))]
pub fn values_within_widths()
    ensures { (w : List ℕ → ℕ) (e : Env) (x : Expression) → ((m : List ℕ) → Uses m x → e m < 2 ^ w m)
        → expression_formed x ≡ true → expression_widths w x ≡ None → value w e x < 2 ^ width w x }
{}

/// In a module that breaks no rule, exactly one environment settles where a rank of the names falls from
/// each wire to the names that its expression uses, whatever values within their widths the registers, and
/// the inputs but the clock, have.
pub fn one_environment_settles()
    ensures { (mo : ModuleTree) → formed mo ≡ true → first_break mo ≡ None → (rank : List ℕ → ℕ) → Falls rank mo.items
        → (regs ins : Env) → Starts mo regs ins → OneSettles mo regs ins }
{}

/// In a module that breaks no rule, what the expression of a wire or plain output uses is declared, and isn't the
/// clock.
#[tactic(auto, using(crate::proofs::ReadNames::reads_declared))]
pub fn what_is_read_is_declared()
    ensures { (mo : ModuleTree) → first_break mo ≡ None → (n m : List ℕ) → Leads mo.items n m → Read (declarations mo.ports mo.items) m }
{}

/// Where a rank falls along the wires, no wires form a loop.
pub fn no_loop_where_a_rank_falls()
    ensures { (mo : ModuleTree) (rank : List ℕ → ℕ) → Falls rank mo.items → (names : List (List ℕ)) → IsLoop mo names → ⊥ }
{}

/// The order of `assign` items and of `always` blocks does not matter: two modules that break no rule, and
/// differ only in it, settle alike, leave the same registers, and have the same histories.
pub fn order_does_not_matter()
    ensures { (one other : ModuleTree) → first_break one ≡ None → first_break other ≡ None → Reordered one other → MeansTheSame one other }
{}
