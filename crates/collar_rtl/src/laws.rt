//! Laws of the interface, each the contract of a function that does nothing.
ghost use Rattle.std.specs.Prelude.{◌≡◌, ℕ, Bool, true, IsTrue, List, None};
ghost use Rattle.verilog_tree.specs.Formed.{formed};
ghost use Rattle.verilog_tree.specs.Meaning.{Env};
ghost use Rattle.verilog_tree.specs.Rules.{first_break};
ghost use Rattle.verilog_tree.specs.Wires.{OneSettles, Starts};
ghost use Rattle.macro_pins.specs.Pins.{Pins};
ghost use Rattle.collar_rtl.specs.Interface.{interface};
ghost use Rattle.macro_pins.specs.Macros.{PortMemory};
ghost use Rattle.collar_rtl.specs.Collared.{AlwaysPasses, Keeps, SeenInTest};

/// In use the chip has the macro, and in test the self-test sees the memory behind its pins, later by the registers, whatever
/// stood in the registers and in the macro before.
#[tactic(auto, using(crate::proofs::Equations::passes_through, crate::proofs::Seen::seen_in_test))]
pub fn collar_shows_the_macro()
    ensures in_use { AlwaysPasses }
    ensures in_test { (m : PortMemory (List ℕ × ℕ)) (good : List ℕ × ℕ → Bool) → Keeps m (λ s. IsTrue (good s)) → SeenInTest m (λ s. IsTrue (good s)) }
{}

/// In an interface that can be written and breaks no rule, exactly one environment settles in each cycle, whatever values
/// within their widths the registers and the inputs have.
pub fn interface_settles()
    ensures { (name : List ℕ) (p : Pins) (b a : ℕ) → formed (interface name p b a) ≡ true → first_break (interface name p b a) ≡ None
        → (regs ins : Env) → Starts (interface name p b a) regs ins → OneSettles (interface name p b a) regs ins }
{}
