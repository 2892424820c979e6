// A degree, read off a list of degrees.
ghost use Rattle.std.specs.Prelude.{◌≡◌, ◌≤◌, ◌<◌, length};
ghost use Rattle.model.specs.Graph.{degree};
ghost use Rattle.graph.specs.Degrees.{ReadsDegree};
ghost use Rattle.graph.specs.Held.{graph_in};

use crate::lent::Lent;

// The degree of vertex v that a list of degrees holds. Reads one entry of the list.
pub fn degree_at(degrees: &[u16], v: usize) -> usize
    requires { (length degrees.now ≤ 1024) × (v < length degrees.now) }
    ensures { ReadsDegree (length degrees.now) degrees.now v result }
{
    usize::from(degrees[v])
}

impl Lent<'_> {
    // The degree of vertex v, read off the list.
    pub fn degree(&self, v: usize) -> usize
        requires { v < self.now.table.n }
        ensures { (result ≡ degree (graph_in self.now.table) v) × (result ≤ self.now.table.n) }
    {
        degree_at(self.degrees, v)
    }
}
