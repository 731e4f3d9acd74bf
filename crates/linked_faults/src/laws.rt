//! Laws of these faults, the contracts of functions that do nothing.
ghost use Rattle.linked_faults.specs.Devices.{AreOneDevice};
ghost use Rattle.linked_faults.specs.Inversion.{AreInversions};
ghost use Rattle.linked_faults.specs.Linking.{IsLinked};

use crate::link::Link;

/// Two linked primitives are one device in either order: each act and each pause leaves the same, and a march detects both or neither.
pub fn both_orders_are_one_device(link: &Link)
    ensures { IsLinked link.now → AreOneDevice link.now }
{}

/// Inversion coupling, CFin, is the link of both primitives of CFds by one write of the aggressor: their runs are the same, act by act.
pub fn inversion_is_a_link()
    ensures { AreInversions }
{}
