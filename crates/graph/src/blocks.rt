// Refusal 5 by blocks of 64 × 64 bits: those of one group of 64 vertices for another are transposed and compared with those of the other for the one.
ghost use Rattle.std.specs.Prelude.{◌≡◌, ◌+◌, ◌*◌, ◌<◌, length};
ghost use Rattle.model.specs.Below.{any, listed};
ghost use Rattle.model.specs.Graph.{row_length, packed_number};
ghost use Rattle.model.specs.Calls.{one_way};
ghost use Rattle.graph.specs.Held.{graph_in};
ghost use Rattle.graph.specs.Blocks.{Halves, Exchanged, Swapped, Transposed, block_one_way};

use crate::table::Table;

// Two rows a and b of a block after the second halves of the one and the first halves of the other have changed places.
fn exchanged(a: u64, b: u64, s: usize, mask: u64) -> (u64, u64)
    requires { Halves s mask }
    ensures { Exchanged s a b result.0 result.1 }
{
    let t = ((a >> s) ^ b) & mask;
    (a ^ (t << s), b ^ t)
}

// One round of the transposition: exchanges halves of s columns between the two rows of each pair, an upper one and the one s below it.
fn swap_round(block: &mut [u64], s: usize, mask: u64)
    requires { (length block.old ≡ 64) × Halves s mask }
    ensures { (length block.new ≡ 64) × Swapped s block.old block.new }
{
    for r in 0..64 {
        if r & s == 0 {
            let (upper, lower) = exchanged(block[r], block[r + s], s, mask);
            block[r] = upper;
            block[r + s] = lower;
        }
    }
}

// Transposes a block of 64 numbers, in halves of 32 rows and columns, then of 16, and so on.
fn transpose(block: &mut [u64])
    requires { length block.old ≡ 64 }
    ensures { Transposed block.old block.new }
{
    swap_round(block, 32, 0x0000_0000_FFFF_FFFF);
    swap_round(block, 16, 0x0000_FFFF_0000_FFFF);
    swap_round(block, 8, 0x00FF_00FF_00FF_00FF);
    swap_round(block, 4, 0x0F0F_0F0F_0F0F_0F0F);
    swap_round(block, 2, 0x3333_3333_3333_3333);
    swap_round(block, 1, 0x5555_5555_5555_5555);
}

impl Table<'_> {
    // Number j of the row of 64 × i + r, and 0 where that is no vertex. Reads it.
    fn number(&self, i: usize, r: usize, j: usize) -> u64
        requires { (i < row_length self.now.n) × (r < 64) × (j < row_length self.now.n) }
        ensures { result ≡ packed_number (graph_in self.now) (64 * i + r) j }
    {
        let u = 64 * i + r;
        if u < self.n {
            self.numbers[u * self.width + j]
        } else {
            0
        }
    }

    // Writes number j of each of the 64 rows from 64 × i on into the block.
    fn load_block(&self, i: usize, j: usize, block: &mut [u64])
        requires { (length block.old ≡ 64) × (i < row_length self.now.n) × (j < row_length self.now.n) }
        ensures { block.new ≡ listed 64 (λ r. packed_number (graph_in self.now) (64 * i + r) j) }
    {
        for (r, number) in block.iter_mut().enumerate() {
            *number = self.number(i, r, j);
        }
    }

    // Whether some of the 64 vertices from 64 × i on and some of those from 64 × j on are joined in one direction alone. Reads both blocks.
    fn block_one_way(&self, i: usize, j: usize) -> bool
        requires { (i < row_length self.now.n) × (j < row_length self.now.n) }
        ensures { result ≡ block_one_way (graph_in self.now) i j }
    {
        let mut block = [0u64; 64];
        self.load_block(i, j, &mut block);
        transpose(&mut block);
        block
            .iter()
            .enumerate()
            .any(|(r, number)| *number != self.number(j, r, i))
    }

    // The same of those from 64 × i on and any before them or among them.
    fn blocks_one_way(&self, i: usize) -> bool
        requires { i < row_length self.now.n }
        ensures { result ≡ any (i + 1) (block_one_way (graph_in self.now) i) }
    {
        (0..i + 1).any(|j| self.block_one_way(i, j))
    }

    // Whether some two vertices are joined in one direction alone. Reads the table.
    pub(crate) fn has_one_way(&self) -> bool
        ensures { result ≡ one_way (graph_in self.now) }
    {
        (0..self.width).any(|i| self.blocks_one_way(i))
    }
}
