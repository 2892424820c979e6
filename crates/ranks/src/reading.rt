// The vertex at a rank, read off the slice that holds the rank order.
ghost use Rattle.std.specs.Prelude.{◌≡◌, ◌<◌, ◌≤◌};
ghost use Rattle.model.specs.Graph.{vertex_at};
ghost use Rattle.ranks.specs.Ranks.{OrderFits, ReadsVertex};
ghost use Rattle.ranks.specs.Held.{ranked_graph};

use crate::ranked::Ranked;

// The vertex at rank r of n in the order that the slice holds. Reads one entry of order.
pub fn vertex_at(order: &[u16], n: usize, r: usize) -> usize
    requires { OrderFits n order.now × (r < n) }
    ensures { ReadsVertex n order.now r result }
{
    usize::from(order[r])
}

impl Ranked<'_> {
    // The vertex at rank r. Reads one entry of the order.
    pub fn vertex_at(&self, r: usize) -> usize
        requires { r < self.now.lent.table.n }
        ensures { (result ≡ vertex_at (ranked_graph self.now) r) × (result < self.now.lent.table.n) }
    {
        vertex_at(self.order, self.lent.table.n, r)
    }
}
