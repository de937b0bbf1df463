//! What a tree hands out with a row.
ghost use Rattle.std.specs.Prelude.{◌≡◌};

use crate::node::Node;
use market_types::Row;
use std::marker::Model;

/// A row that was taken out of a tree, with the memory that carried it there: putting it back takes none.
#[derive(Drop)]
pub struct Taken {
    pub(crate) node: Box<Node>,
}

impl Model for Taken {
    ghost use Rattle.std.specs.Prelude.{◌≤◌};
    ghost use Rattle.market_types.specs.declared.row.Row.{Row};

    ghost Value = { Row };

    ghost view = { λ a. a.node.value.row };

    ghost invariant = { λ a. a.node.value.row.request ≤ 65535 };
}

impl Taken {
    /// The row.
    pub fn row(&self) -> Row
        ensures exact { result ≡ self.now }
    {
        self.node.row
    }
}
