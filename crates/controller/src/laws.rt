ghost use Rattle.controller.specs.Standing.{Successor, Start, Controlled};

/// One place after another: the slot of a place, and then what is left of the place behind it.
pub fn successor()
    ensures { Successor }
{}

/// At the first place all slots are left; the commands stand among them in their order, each where it should.
pub fn start()
    ensures { Start }
{}

/// From the reset on, whatever words return, the outputs meet the rule of the ports in each cycle.
pub fn controlled()
    ensures { Controlled }
{}
