//! Laws of the generator's modules, as `check` reads and judges them, and of those that are shown, each the contract of a function that
//! does nothing.
ghost use Rattle.std.specs.Prelude.{◌≡◌, true, List};
ghost use Rattle.verilog_tree.specs.Plain.{ModuleTree};
ghost use Rattle.verilog_tree.specs.Fits.{fits};
ghost use Rattle.verilog_tree.specs.Spells.{Spells, FreelySpells};
ghost use Rattle.verilog_emit.specs.Printed.{printed};
ghost use Rattle.march_core.specs.March.{MarchElement};
ghost use Rattle.memory_desc.specs.Descriptions.{Description};
ghost use Rattle.self_test.specs.SelfTest.{SelfTest};
ghost use Rattle.rtl_layout.specs.Plan.{Plan};
ghost use Rattle.rtl_layout.specs.Shows.{IsPlan};
ghost use Rattle.rtl_layout.specs.Layout as L;
ghost use Rattle.port_check.specs.declared.answer.PortAnswer.{PortAnswer};
ghost use Rattle.port_check.specs.declared.answer.PortAnswer.TheVariants.{Conforms};
ghost use Rattle.port_check.specs.Answers.{IsAnswer};
ghost use Rattle.word_march.specs.Commands.{cycle_count};

/// The module that the generator makes of a march and a memory conforms: the check of it has this answer and no other. (It is the layout of a
/// plan, by the clause `layout` of `generate`, and a self-test of them, by its clause `self_test`.)
pub fn generated_modules_conform()
    ensures { (march : List MarchElement) (d : Description) (p : Plan) → IsPlan p → SelfTest (L.self_test p) march d
        → IsAnswer (L.self_test p) march d (Conforms (cycle_count march d))
        × ((answer : PortAnswer) → IsAnswer (L.self_test p) march d answer → answer ≡ Conforms (cycle_count march d)) }
{}

/// The bytes that are written of it, read with operators that bind by precedence, are that module and no other. (They are the layout of its
/// text, by the clause `form` of `emit`.)
pub fn generated_texts_are_read()
    ensures its_own { (p : Plan) → IsPlan p → FreelySpells (printed (L.self_test p)) (L.self_test p) }
    ensures no_other { (p : Plan) → IsPlan p → (mo : ModuleTree) → FreelySpells (printed (L.self_test p)) mo → mo ≡ L.self_test p }
{}

/// The text that `show` says of a module spells that module, and read with operators that bind by precedence no other.
pub fn shown_modules_are_read()
    ensures its_own { (mo : ModuleTree) → fits mo ≡ true → Spells (printed mo) mo }
    ensures no_other { (mo : ModuleTree) → fits mo ≡ true → (other : ModuleTree) → FreelySpells (printed mo) other → other ≡ mo }
{}
