// The call that packs a byte table.
ghost use Rattle.std.specs.Prelude.{◌≡◌, ◌*◌, ◌<◌, length};
ghost use Rattle.model.specs.Graph.{row_length, packed_number, packed_of};
ghost use Rattle.refusal.specs.Numbers.{fault};
ghost use Rattle.pack.specs.Held.{graph_in};
ghost use Rattle.pack.specs.Packing.{PackReplies};

use crate::bytes::ByteTable;
use graph::row_length;
use refusal::Refusal;

// "n at most 1,024".
const MOST_VERTICES: usize = 1024;

impl ByteTable<'_> {
    // Whether u is joined to v, which need not be a vertex. Reads one byte of the table, and none where it is not.
    fn joined_to(&self, u: usize, v: usize) -> bool
        requires { u < self.now.n }
        ensures { result ≡ (graph_in self.now).joined u v }
    {
        v < self.n && self.joined(u, v)
    }

    // Number j of the packed row of u: document 02, C-15, "vertex v at bit v mod 64 (weight 2 to that power) of number v div 64". Reads the row's bytes of
    // these 64 vertices.
    fn number(&self, u: usize, j: usize) -> u64
        requires { (u < self.now.n) × (j < row_length self.now.n) }
        ensures { result ≡ packed_number (graph_in self.now) u j }
    {
        let mut number = 0;
        for k in 0..64 {
            number |= u64::from(self.joined_to(u, 64 * j + k)) << k;
        }
        number
    }

    // Writes the packed table of the graph into the slice, which has its length, whatever it held. Reads the bytes.
    pub fn fill(&self, packed: &mut [u64])
        requires { length packed.old ≡ self.now.n * row_length self.now.n }
        ensures { packed.new ≡ packed_of (graph_in self.now) }
    {
        let length = row_length(self.n);
        for (i, number) in packed.iter_mut().enumerate() {
            *number = self.number(i / length, i % length);
        }
    }
}

// Writes the packed table of the graph on n vertices that a table of these bytes holds into the slice, whatever it held; or writes nothing and gives the
// refusal: 1 of n, 2 of both lengths, 3 to 5 of the bytes. Reads the bytes.
fn write_packed(bytes: &[u8], packed: &mut [u64], n: usize) -> Result<(), Refusal>
    ensures { PackReplies n bytes.now packed.old (fault result) packed.new }
{
    if MOST_VERTICES < n {
        return Err(Refusal::TooManyVertices);
    }
    if bytes.len() != n * n || packed.len() != n * row_length(n) {
        return Err(Refusal::TableLength);
    }
    let table = ByteTable { bytes, n };
    table.check()?;
    table.fill(packed);
    Ok(())
}

// Writes the packed table of the graph on n vertices that the byte table holds into the packed slice, whatever that held, and gives 0; or gives the
// refusal number and writes nothing: 1 where n is over 1,024, 2 where the byte table is not n × n or the packed slice not n × ceil(n / 64) long, 3 to 5 of
// the bytes, lowest number first. Reads the byte table.
pub fn pack(bytes: &[u8], packed: &mut [u64], n: usize) -> u32
    ensures { PackReplies n bytes.now packed.old result packed.new }
{
    write_packed(bytes, packed, n).err().map_or(0, u32::from)
}
