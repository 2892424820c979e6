// The refusals of a table and of a list of degrees, in the order of their numbers.
ghost use Rattle.std.specs.Prelude.{◌≡◌, ◌+◌, ◌*◌, ◌^◌, not, ◌≤◌, ◌<◌, length, get_or, eqb, ltb, IfOk};
ghost use Rattle.model.specs.Below.{any};
ghost use Rattle.model.specs.Graph.{row_length, degree};
ghost use Rattle.model.specs.Calls.{over, bits_of, stray, looped};
ghost use Rattle.refusal.specs.Numbers.{fault};
ghost use Rattle.graph.specs.Table.{lent_table, lent};
ghost use Rattle.graph.specs.Held.{graph_in};
ghost use Rattle.graph.specs.Given.{TableOf, LentAs};

use crate::lent::Lent;
use crate::rows::row_length;
use crate::table::Table;
use refusal::Refusal;

// "n at most 1,024".
const MOST_VERTICES: usize = 1024;

// Whether some byte is over `most`. Reads the bytes up to the first that is.
pub fn any_over(most: u8, bytes: &[u8]) -> bool
    ensures { result ≡ over most bytes.now }
{
    bytes.iter().any(|byte| most < *byte)
}

// Whether some number of the row of u has a bit that is no vertex's. In memory a number has 64 bits, so that the last number alone can have one. Reads it.
fn row_stray(numbers: &[u64], n: usize, u: usize) -> bool
    requires { (n ≤ 1024) × (length numbers.now ≡ n * row_length n) × (u < n) }
    ensures { result ≡ any (row_length n) (λ j. not (ltb (get_or numbers.now (u * row_length n + j) 0) (2 ^ bits_of n j))) }
{
    let length = row_length(n);
    let most = u64::MAX >> (64 * length - n);
    most < numbers[u * length + (length - 1)]
}

// Whether some row has a bit that is no vertex's. Reads the last number of each row.
fn has_stray(numbers: &[u64], n: usize) -> bool
    requires { (n ≤ 1024) × (length numbers.now ≡ n * row_length n) }
    ensures { result ≡ stray n numbers.now }
{
    (0..n).any(|u| row_stray(numbers, n, u))
}

impl<'a> Table<'a> {
    // Whether some vertex is joined to itself. Reads the table's diagonal.
    fn has_loop(&self) -> bool
        ensures { result ≡ looped (graph_in self.now) }
    {
        (0..self.n).any(|u| self.joined(u, u))
    }

    // Whether some entry of a list of n degrees is not the degree of its vertex. Reads the rows and the list up to the first that is not.
    fn has_wrong_degree(&self, degrees: &[u16]) -> bool
        requires { length degrees.now ≡ self.now.n }
        ensures { result ≡ any self.now.n (λ v. not (eqb (get_or degrees.now v 0) (degree (graph_in self.now) v))) }
    {
        degrees
            .iter()
            .enumerate()
            .any(|(v, degree)| usize::from(*degree) != self.degree(v))
    }

    // The table of a graph on n vertices that numbers of any count and contents hold, for any n, or its refusal: 1, 2, 45, 4 and 5 of document 01, "Turned
    // back by the input", and document 02, C-15, in this order. Reads the numbers.
    pub fn new(numbers: &'a [u64], n: usize) -> Result<Self, Refusal>
        ensures refused { fault result ≡ (lent_table n numbers.now).fault }
        ensures held { IfOk result (TableOf n numbers.now) }
    {
        if MOST_VERTICES < n {
            return Err(Refusal::TooManyVertices);
        }
        let width = row_length(n);
        if numbers.len() != n * width {
            return Err(Refusal::TableLength);
        }
        if has_stray(numbers, n) {
            return Err(Refusal::StrayBit);
        }
        let table = Table { numbers, n, width };
        if table.has_loop() {
            return Err(Refusal::SelfJoined);
        }
        if table.has_one_way() {
            return Err(Refusal::OneWay);
        }
        Ok(table)
    }
}

impl<'a> Lent<'a> {
    // The graph on n vertices that is lent as a table and a list of degrees, of any lengths and contents, or its refusal: those of the table, then 42 of
    // document 02, C-12, a degree that is not its row's ones, or a list that is not n long. Reads the table and the list.
    pub fn new(numbers: &'a [u64], degrees: &'a [u16], n: usize) -> Result<Self, Refusal>
        ensures refused { fault result ≡ (lent n numbers.now degrees.now).fault }
        ensures held { IfOk result (LentAs n numbers.now degrees.now) }
    {
        let table = Table::new(numbers, n)?;
        if degrees.len() != n {
            return Err(Refusal::Degrees);
        }
        if table.has_wrong_degree(degrees) {
            return Err(Refusal::Degrees);
        }
        Ok(Lent { table, degrees })
    }
}
