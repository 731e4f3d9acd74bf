//! Laws of the module, each the contract of a function that does nothing.
ghost use Rattle.std.specs.Prelude.{◌≡◌, ℕ, ◌<◌, ◌≤◌, ◌^◌, List, length, None, Some, true};
ghost use Rattle.verilog_tree.specs.Plain.{Expression};
ghost use Rattle.verilog_tree.specs.Meaning.{Env, value};
ghost use Rattle.verilog_tree.specs.Rules.{first_break};
ghost use Rattle.verilog_tree.specs.Formed.{formed};
ghost use Rattle.verilog_tree.specs.Fits.{fits};
ghost use Rattle.verilog_tree.specs.Words.{is_name};
ghost use Rattle.verilog_tree.specs.Wires.{Starts, OneSettles};
ghost use Rattle.verilog_text.specs.Operators.{few_operators};
ghost use Rattle.rtl_layout.specs.Plan.{Plan};
ghost use Rattle.rtl_layout.specs.Build.{pick, leaf};
ghost use Rattle.rtl_layout.specs.Layout.{self_test};
ghost use Rattle.rtl_layout.specs.Numbers.{NumbersAlways};
ghost use Rattle.rtl_layout.specs.Shows.{Ready, IsPlan, AnswersAlways};

/// A choice among leaves gives the leaf whose number the name holds.
pub fn choice_gives_its_leaf()
    ensures { (widths : List ℕ → ℕ) (e : Env) (n : List ℕ) (w : ℕ) (xs : List Expression) → length xs ≤ 2 ^ w
        → e n < length xs → value widths e (pick n w xs) ≡ value widths e (leaf xs (e n)) }
{}

/// The module of a plan breaks no rule and can be written as text, no expression of it has more than 256 operators, and in
/// each cycle exactly one environment settles.
pub fn module_breaks_no_rule()
    ensures legal { (p : Plan) → Ready p → first_break (self_test p) ≡ None }
    ensures sizes { (p : Plan) → Ready p → formed (self_test p) ≡ true }
    ensures text { (p : Plan) → Ready p → p.delay < 4 → p.element_width ≤ 16 → p.oper_width ≤ 16 → p.back_width ≤ 16
        → is_name p.name ≡ true → fits (self_test p) ≡ true }
    ensures few { (p : Plan) → IsPlan p → few_operators (Some 256) (self_test p) ≡ true }
    ensures settles { (p : Plan) → Ready p → (regs ins : Env) → Starts (self_test p) regs ins → OneSettles (self_test p) regs ins }
{}

/// In every history after a reset the ports answer for the controller.
pub fn module_is_a_controller()
    ensures { (p : Plan) → Ready p → AnswersAlways p }
{}

/// In the open run after a reset each output has a number, where `rdata` has one whenever it is compared.
pub fn open_run_shows_numbers()
    ensures { (p : Plan) → Ready p → NumbersAlways p }
{}
