ghost use Rattle.sequence_faults.specs.Agreeing.{AsStatic, AsDynamic};

/// Says that a primitive of one operation is caught as `array_sim` has it, and one of two as `dynamic_core` has it. It
/// does nothing.
pub fn agrees()
    ensures one { AsStatic }
    ensures two { AsDynamic }
{}
