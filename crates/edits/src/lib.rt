// Document 02, C-12: the two calls that join or part a pair of vertices, and the call that lists the degrees.
#![tactic(auto)]

ghost use Rattle.std.specs.Prelude.{◌≡◌, ◌*◌, true, false, ◌≤◌, ◌<◌, length, IfOk};
ghost use Rattle.model.specs.Graph.{row_length, with_bit, with_row_bit, with_bits};
ghost use Rattle.model.specs.Edits.{refuse_edit, recount};
ghost use Rattle.refusal.specs.Numbers.{fault};
ghost use Rattle.graph.specs.Table.{lent};
ghost use Rattle.graph.specs.Given.{LentAs};
ghost use Rattle.edits.specs.Edits.{CanMove, answer_of, EditReplies, ListReplies};

use graph::{Lent, Table, row_length};
use refusal::Refusal;

// An edit's answer: the refusal number, 0 where the edit is accepted; and 1 where it is accepted and the pair was so already, so that nothing changed.
#[repr(C)]
#[derive(Clone, Copy, Debug, PartialEq, Eq)]
pub struct EditAnswer {
    pub refusal: u32,
    pub unchanged: u32,
}

// An accepted edit tells whether the pair was so already.
impl From<Result<bool, Refusal>> for EditAnswer {
    ghost from_gives = { λ r a. a ≡ answer_of r };

    fn from(r: Result<bool, Refusal>) -> EditAnswer {
        match r {
            Ok(so) => EditAnswer {
                refusal: 0,
                unchanged: u32::from(so),
            },
            Err(refusal) => EditAnswer {
                refusal: u32::from(refusal),
                unchanged: 0,
            },
        }
    }
}

// The graph on n vertices that a table and a list of degrees hold, of any lengths and contents and for any n, or the refusal of an edit of its pair of u
// and v: 1, 2, 45, 4 and 5 of the table, 42 of the list, 43 where u or v is not below n, 44 where they are equal. Reads the table and the list.
fn lent_pair<'a>(
    table: &'a [u64],
    degrees: &'a [u16],
    n: usize,
    u: usize,
    v: usize,
) -> Result<Lent<'a>, Refusal>
    ensures refused { fault result ≡ refuse_edit (lent n table.now degrees.now) u v }
    ensures held { IfOk result (LentAs n table.now degrees.now) }
{
    let lent = Lent::new(table, degrees, n)?;
    if n <= u || n <= v {
        return Err(Refusal::PairRange);
    }
    if u == v {
        return Err(Refusal::PairEqual);
    }
    Ok(lent)
}

// The number x with bit k as `joins` says, and each other bit kept.
fn with_bit(x: u64, k: usize, joins: bool) -> u64
    requires { k < 64 }
    ensures { result ≡ with_bit joins k x }
{
    if joins { x | 1 << k } else { x & !(1 << k) }
}

// Makes the bit that the row of u has for v, in the table of a graph on n vertices, as `joins` says; each other bit of the table stays.
fn write_bit(table: &mut [u64], n: usize, u: usize, v: usize, joins: bool)
    requires { (n ≤ 1024) × (length table.old ≡ n * row_length n) × (u < n) × (v < n) }
    ensures { table.new ≡ with_row_bit joins n u v table.old }
{
    let place = u * row_length(n) + v / 64;
    table[place] = with_bit(table[place], v % 64, joins);
}

// Makes both bits of the pair of u and v, vertices of the graph on n vertices that the table holds, as `joins` says; each other bit of the table stays.
fn write_pair(table: &mut [u64], n: usize, u: usize, v: usize, joins: bool)
    requires { (n ≤ 1024) × (length table.old ≡ n * row_length n) × (u < n) × (v < n) }
    ensures { table.new ≡ with_bits joins n u v table.old }
{
    write_bit(table, n, u, v, joins);
    write_bit(table, n, v, u, joins);
}

// Makes the degree of w in the list one more where its pair is then joined, and one less where it is then parted; the other entries stay.
fn move_degree(degrees: &mut [u16], w: usize, joins: bool)
    requires { CanMove joins w degrees.old }
    ensures { degrees.new ≡ recount joins w degrees.old }
{
    if joins {
        degrees[w] += 1;
    } else {
        degrees[w] -= 1;
    }
}

// Joins the pair of u and v of the graph on n vertices where `joins` says so, and parts it otherwise: both its bits in the table, and its two degrees in
// the list. Tells whether the pair was so already; then, and where the edit is refused, it writes nothing. Past the refusals it reads one number of the
// table, and where the pair is not so yet one in each of its two rows and two degrees.
fn edit(
    table: &mut [u64],
    degrees: &mut [u16],
    n: usize,
    u: usize,
    v: usize,
    joins: bool,
) -> Result<bool, Refusal>
    ensures { EditReplies joins n table.old degrees.old u v (answer_of result) table.new degrees.new }
{
    let lent = lent_pair(table, degrees, n, u, v)?;
    if lent.table.joined(u, v) == joins {
        return Ok(true);
    }
    write_pair(table, n, u, v, joins);
    move_degree(degrees, v, joins);
    move_degree(degrees, u, joins);
    Ok(false)
}

// Joins the pair of u and v of the graph on n vertices that the table and the list of its degrees hold: both its bits are then 1 and its two degrees are
// one more, or all stays where the pair was joined. Writes no other bit and no other degree, and nothing where it is refused.
pub fn join(table: &mut [u64], degrees: &mut [u16], n: usize, u: usize, v: usize) -> EditAnswer
    ensures { EditReplies true n table.old degrees.old u v result table.new degrees.new }
{
    EditAnswer::from(edit(table, degrees, n, u, v, true))
}

// Parts the pair of u and v of the graph on n vertices that the table and the list of its degrees hold: both its bits are then 0 and its two degrees are
// one less, or all stays where the pair was parted. Writes no other bit and no other degree, and nothing where it is refused.
pub fn part(table: &mut [u64], degrees: &mut [u16], n: usize, u: usize, v: usize) -> EditAnswer
    ensures { EditReplies false n table.old degrees.old u v result table.new degrees.new }
{
    EditAnswer::from(edit(table, degrees, n, u, v, false))
}

// Writes the degrees of the graph on n vertices that a table of these numbers holds into the list, whatever the list held; or writes nothing and gives the
// refusal: 1, 2, 45, 4 and 5 of the table, and 42 where the list is not n long. Reads the numbers.
fn write_degrees(numbers: &[u64], degrees: &mut [u16], n: usize) -> Result<(), Refusal>
    ensures { ListReplies n numbers.now degrees.old (fault result) degrees.new }
{
    let table = Table::new(numbers, n)?;
    if degrees.len() != n {
        return Err(Refusal::Degrees);
    }
    table.fill_degrees(degrees);
    Ok(())
}

// Writes the degrees of the graph on n vertices that the table holds into the list, whatever the list held, and gives 0; or gives the refusal number and
// writes nothing: 1, 2, 45, 4 and 5 of the table, and 42 where the list is not n long. Reads the table.
pub fn list_degrees(table: &[u64], degrees: &mut [u16], n: usize) -> u32
    ensures { ListReplies n table.now degrees.old result degrees.new }
{
    write_degrees(table, degrees, n).err().map_or(0, u32::from)
}
