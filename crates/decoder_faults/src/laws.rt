//! Laws of these faults, the contracts of functions that do nothing.
ghost use Rattle.decoder_faults.specs.Books.{AreOfBooks, OwnAreFirst, AreThere};
ghost use Rattle.decoder_faults.specs.Lines.{AreAllLines};
ghost use Rattle.decoder_faults.specs.TakenCells.{AreAsNoCell};

/// A march detects `TakenCell` exactly where it detects `NoCell` with the same answer: the two are told by reads of
/// address x, which reaches no cell in both.
pub fn taken_cells_are_as_none()
    ensures { AreAsNoCell }
{}

/// The faults are the four of the books: x reaches no cell, and no address cell x; both addresses reach cell y, and none cell x; x reaches
/// both cells, and both addresses cell y; x reaches no cell, and y both. Of two cells the first is the address's own. The decoder with a fault has it.
pub fn decoder_faults_are_of_books()
    ensures books { AreOfBooks }
    ensures own { OwnAreFirst }
    ensures there { AreThere }
{}

/// Where stuck lines are caught, each line is that tells two addresses of an array apart.
pub fn stuck_lines_are_all()
    ensures { AreAllLines }
{}
