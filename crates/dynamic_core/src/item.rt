ghost use Rattle.std.specs.Prelude.{◌≡◌};
ghost use Rattle.dynamic_core.specs.declared.item.Item.{Item};
ghost use Rattle.dynamic_core.specs.declared.item.Item.TheVariants.{Plain, Dyn};

use crate::primitive::DynPrim;
use fault_core::Prim;

/// A primitive of a list: one of at most one operation, or one of two.
#[derive(Clone, Copy)]
pub enum Item {
    Plain(Prim),
    Dyn(DynPrim),
}

/// A primitive of a kind, or of either.
pub(crate) trait Listed: Copy {
    ghost listed: { Self → Item };

    fn item(self) -> Item
        ensures { result ≡ listed self };
}

impl Listed for Item {
    ghost listed = { λ item. item };

    fn item(self) -> Item {
        self
    }
}

impl Listed for Prim {
    ghost listed = { Plain };

    fn item(self) -> Item {
        Item::Plain(self)
    }
}

impl Listed for DynPrim {
    ghost listed = { Dyn };

    fn item(self) -> Item {
        Item::Dyn(self)
    }
}
