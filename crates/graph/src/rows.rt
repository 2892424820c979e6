// What is read off a table: whether two vertices are joined, and degrees, which are counted in the rows.
ghost use Rattle.std.specs.Prelude.{◌≡◌, ◌≤◌, ◌<◌, length};
ghost use Rattle.model.specs.Graph.{row_length, degree, degree_list};
ghost use Rattle.theory.specs.Ones.{ones_of};
ghost use Rattle.graph.specs.Held.{graph_in};

use crate::table::Table;

// How many numbers a row of n bits takes: document 02, C-15, "ceil(n / 64) numbers of 64 bits".
pub fn row_length(n: usize) -> usize
    requires { n ≤ 1024 }
    ensures { result ≡ row_length n }
{
    (n + 63) / 64
}

// The ones in a row: document 02, C-15, those of each of its numbers. Reads the row once.
fn ones(row: &[u64]) -> usize
    requires { length row.now ≤ 16 }
    ensures { result ≡ ones_of row.now }
{
    let mut sum = 0;
    for number in row {
        sum += number.count_ones() as usize;
    }
    sum
}

impl Table<'_> {
    // Whether u and v are joined: document 02, C-15, "vertex v at bit v mod 64 of number v div 64" in the row of u. Reads one number of the table.
    pub fn joined(&self, u: usize, v: usize) -> bool
        requires { (u < self.now.n) × (v < self.now.n) }
        ensures { result ≡ (graph_in self.now).joined u v }
    {
        let number = self.numbers[u * self.width + v / 64];
        (number >> (v % 64)) % 2 == 1
    }

    // The degree of vertex u: document 01, "Graph and ranks", the ones in its row. Lends u's row, a part of the table, to `ones`.
    pub fn degree(&self, u: usize) -> usize
        requires { u < self.now.n }
        ensures { result ≡ degree (graph_in self.now) u }
    {
        let start = u * self.width;
        let end = start + self.width;
        ones(&self.numbers[start..end])
    }

    // Writes the degree of each vertex into the list, which has an entry for each. Reads the table.
    pub fn fill_degrees(&self, degrees: &mut [u16])
        requires { length degrees.old ≡ self.now.n }
        ensures { degrees.new ≡ degree_list (graph_in self.now) }
    {
        for (u, degree) in degrees.iter_mut().enumerate() {
            *degree = self.degree(u) as u16;
        }
    }
}
