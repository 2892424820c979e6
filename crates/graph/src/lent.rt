// A graph as page and set query are lent it.
ghost use Rattle.graph.specs.Held.{Lists};

use crate::table::Table;

// The table of a graph, and the list of its degrees beside it: document 02, C-12.
#[derive(Clone, Copy)]
pub struct Lent<'a> {
    pub table: Table<'a>,
    pub degrees: &'a [u16],
    pub ghost listed: { Lists table degrees.now },
}
