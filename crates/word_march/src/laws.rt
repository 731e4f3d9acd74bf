ghost use Rattle.word_march.specs.Laws.{Met, Determined, Lasting, Unbroken, Examples};

/// The rule of the ports is one: in each cycle some ports meet it, whatever words return, and those that do agree on whether
/// they enable the memory, on the command where they do, on being done and on having failed. A failure stays.
pub fn port_rule()
    ensures met { Met }
    ensures determined { Determined }
    ensures lasting { Lasting }
{}

/// Without a pause each command stands right behind the one before it.
pub fn unbroken()
    ensures { Unbroken }
{}

/// Small runs: one write on two words, one with a pause, and one with a polarity.
pub fn examples()
    ensures { Examples }
{}
