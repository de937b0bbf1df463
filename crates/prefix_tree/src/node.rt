//! A node: its row, and the sums of the rows at and below it.
ghost use Rattle.std.specs.Prelude.{◌≡◌, ◌+◌, ◌^◌, ◌<◌, ◌≤◌};
ghost use Rattle.prefix_tree.specs.Nodes.{one_if};

use crate::side::Side;
use market_types::Row;

/// A row, its two sides, and the sums of all three. What a search reads comes first, and so lies close together.
#[cycle(side)]
#[derive(Drop)]
pub(crate) struct Node {
    pub(crate) row: Row,
    /// The sum of the requests of the newer rows alone, so that a way to the right touches no node on the left.
    pub(crate) newer: u32,
    /// The sum of all requests.
    pub(crate) sum: u32,
    /// How many of the rows are mandated.
    pub(crate) mandates: u32,
    /// How many rows.
    pub(crate) count: u32,
    /// The newer rows.
    pub(crate) left: Side,
    /// The older rows.
    pub(crate) right: Side,
    /// How many nodes the longest path from here down has.
    pub(crate) height: u32,
}

impl Node {
    /// A node with nothing below it.
    pub(crate) fn new(row: Row) -> Node
        ensures { result.row ≡ row }
    {
        let (sum, mandates) = (row.request, one_if(row.mandated));
        Node {
            row,
            newer: 0,
            sum,
            mandates,
            count: 1,
            left: Side::new(),
            right: Side::new(),
            height: 1,
        }
    }
}

/// One more visit. Nothing else counts one: it is called where a link is opened on a search path, and for a new node.
pub(crate) fn visit(visits: u32) -> u32
    requires { visits < 2 ^ 31 }
    ensures { result ≡ visits + 1 }
{
    visits + 1
}

/// How many mandated rows a row is.
pub(crate) fn one_if(mandated: bool) -> u32
    ensures exact { result ≡ one_if mandated }
    ensures at_most_one { result ≤ 1 }
{
    if mandated { 1 } else { 0 }
}
