// The calls of the library under the names that C and Rust link. Each hands its arguments on and repeats the promise of what it calls.
#![tactic(auto)]

ghost use Rattle.std.specs.Prelude.{true, false};
ghost use Rattle.model.specs.Groups.{settings};
ghost use Rattle.graph.specs.Table.{lent};
ghost use Rattle.dimacs.specs.Reply.{ReadsAs};
ghost use Rattle.edits.specs.Edits.{EditReplies, ListReplies};
ghost use Rattle.pack.specs.Packing.{PackReplies};
ghost use Rattle.page.specs.Call.{PageCalled};
ghost use Rattle.query.specs.Query.{Answers};

use dimacs::TextAnswer;
use edits::EditAnswer;
use query::SetAnswer;
use rounds::PageAnswer;

// The page call.
pub fn isolated_page(
    table: &[u64],
    degrees: &[u16],
    position: &mut [u8],
    output: &mut [u16],
    work: &mut [u16],
    n: usize,
    notion: u32,
    kind: u32,
    c: u32,
    budget: u32,
) -> PageAnswer
    ensures { PageCalled (lent n table.now degrees.now) (settings notion kind c) budget position.old output.old work.old
        result position.new output.new work.new }
{
    page::page(
        table, degrees, position, output, work, n, notion, kind, c, budget,
    )
}

// The set query.
pub fn isolated_set_query(
    table: &[u64],
    degrees: &[u16],
    set: &[u8],
    work: &mut [u16],
    n: usize,
    notion: u32,
    kind: u32,
    c: u32,
) -> SetAnswer
    ensures { Answers (lent n table.now degrees.now) set.now work.old work.new notion kind c result }
{
    query::set_query(table, degrees, set, work, n, notion, kind, c)
}

// The text reader.
pub fn isolated_read_text(text: &[u8], table: &mut [u8]) -> TextAnswer
    ensures { ReadsAs text.now table.old table.new result }
{
    dimacs::read_text(text, table)
}

// The edit that joins a pair.
pub fn isolated_join(
    table: &mut [u64],
    degrees: &mut [u16],
    n: usize,
    u: usize,
    v: usize,
) -> EditAnswer
    ensures { EditReplies true n table.old degrees.old u v result table.new degrees.new }
{
    edits::join(table, degrees, n, u, v)
}

// The edit that parts a pair.
pub fn isolated_part(
    table: &mut [u64],
    degrees: &mut [u16],
    n: usize,
    u: usize,
    v: usize,
) -> EditAnswer
    ensures { EditReplies false n table.old degrees.old u v result table.new degrees.new }
{
    edits::part(table, degrees, n, u, v)
}

// The list of the degrees.
pub fn isolated_degrees(table: &[u64], degrees: &mut [u16], n: usize) -> u32
    ensures { ListReplies n table.now degrees.old result degrees.new }
{
    edits::list_degrees(table, degrees, n)
}

// The packed table of a byte table.
pub fn isolated_pack(bytes: &[u8], packed: &mut [u64], n: usize) -> u32
    ensures { PackReplies n bytes.now packed.old result packed.new }
{
    pack::pack(bytes, packed, n)
}
