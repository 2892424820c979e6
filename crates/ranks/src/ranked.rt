// A graph with its degrees and its rank order.
ghost use Rattle.ranks.specs.Ranks.{OrderOf};

use graph::Lent;

// The table of a graph with the list of its degrees, and a slice that holds its rank order: all that a walk goes by. Document 01, "Graph and ranks".
#[derive(Clone, Copy)]
pub struct Ranked<'a> {
    pub lent: Lent<'a>,
    pub order: &'a [u16],
    pub ghost ordered: { OrderOf lent.table.n lent.table.numbers.now order.now },
}
