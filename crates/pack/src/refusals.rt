// Whether two vertices are joined, as a byte table says it, and the refusals of its bytes, in the order of their numbers.
ghost use Rattle.std.specs.Prelude.{◌≡◌, ◌<◌};
ghost use Rattle.model.specs.Below.{any};
ghost use Rattle.model.specs.Calls.{looped, one_way, refuse_bytes};
ghost use Rattle.refusal.specs.Numbers.{fault};
ghost use Rattle.pack.specs.Bytes.{differ};
ghost use Rattle.pack.specs.Held.{graph_in};

use crate::bytes::ByteTable;
use graph::any_over;
use refusal::Refusal;

impl ByteTable<'_> {
    // Whether u and v are joined: document 01, "Graph and ranks", byte u × n + v is 1. Reads that byte.
    pub fn joined(&self, u: usize, v: usize) -> bool
        requires { (u < self.now.n) × (v < self.now.n) }
        ensures { result ≡ (graph_in self.now).joined u v }
    {
        self.bytes[u * self.n + v] == 1
    }

    // Whether some vertex is joined to itself. Reads the table's diagonal.
    fn has_loop(&self) -> bool
        ensures { result ≡ looped (graph_in self.now) }
    {
        (0..self.n).any(|u| self.joined(u, u))
    }

    // Whether u and some vertex below u are joined in one direction alone. Reads u's row and its column up to the diagonal.
    fn row_one_way(&self, u: usize) -> bool
        requires { u < self.now.n }
        ensures { result ≡ any u (differ (graph_in self.now) u) }
    {
        (0..u).any(|v| self.joined(u, v) != self.joined(v, u))
    }

    // Whether some two vertices are joined in one direction alone. Reads the table.
    fn has_one_way(&self) -> bool
        ensures { result ≡ one_way (graph_in self.now) }
    {
        (0..self.n).any(|u| self.row_one_way(u))
    }

    // The refusal of the table for its bytes, if it has one: 3 to 5 of document 01, "Turned back by the input", lowest number first. Reads the bytes.
    pub fn check(&self) -> Result<(), Refusal>
        ensures { fault result ≡ refuse_bytes self.now.n self.now.bytes.now }
    {
        if any_over(1, self.bytes) {
            return Err(Refusal::TableByte);
        }
        if self.has_loop() {
            return Err(Refusal::SelfJoined);
        }
        if self.has_one_way() {
            return Err(Refusal::OneWay);
        }
        Ok(())
    }
}
