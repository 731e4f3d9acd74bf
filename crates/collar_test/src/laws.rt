//! The law of a self-test behind its collar.
ghost use Rattle.collar_test.specs.CollarTest.{CollarTests, JointSettles, QuietInUse};
ghost use Rattle.collar_test.specs.Tops.{TopConnects, TopShows};

/// Before a macro with the pins of a port a self-test behind its collar has cycles. In any history in which `test` rises it ends with `fail`
/// beside each fault that its march detects, and without beside a sound macro.
pub fn collar_tests()
    ensures { CollarTests }
{}

/// In use the self-test asks for nothing, and shows neither `done` nor `fail`.
pub fn quiet_in_use()
    ensures { QuietInUse }
{}

/// There is a joint cycle of a self-test and its interface, whatever their registers, the chip and the macro do.
pub fn joint_cycles_settle()
    ensures { JointSettles }
{}

/// The top of a collar connects equal names, each pin of the macro to the interface, and the clock to each clock.
pub fn top_connects()
    ensures { TopConnects }
{}

/// The cycles of the modules that the top of a collar places are those of a self-test behind its interface.
pub fn top_shows()
    ensures { TopShows }
{}
