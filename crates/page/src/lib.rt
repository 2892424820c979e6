// The page call: what it is handed is tested, and then the walk goes on from the position it holds, with its groups put into the output.
#![tactic(auto)]

ghost use Rattle.std.specs.Prelude.{◌≡◌, length, IfOk};
ghost use Rattle.model.specs.Groups.{settings};
ghost use Rattle.model.specs.Walk.{page};
ghost use Rattle.model.specs.Listing.{rules};
ghost use Rattle.model.specs.Calls.{reply_of, refuse_page};
ghost use Rattle.refusal.specs.Numbers.{fault};
ghost use Rattle.graph.specs.Table.{lent};
ghost use Rattle.ranks.specs.Held.{ranked_graph};
ghost use Rattle.isolation.specs.Numbers.{settings_of, settings_in};
ghost use Rattle.rounds.specs.Answer.{accepted, answer_of, PageReplies};
ghost use Rattle.page.specs.Call.{PageCalled};
ghost use Rattle.page.specs.Accepted.{Accepted, CallAccepted};

use input::lent_input;
use isolation::{Criterion, Settings};
use position::open;
use ranks::Ranked;
use refusal::Refusal;
use rounds::{Page, PageAnswer, run};
use state::State;

// The walk of an accepted call: the state goes on from `memory` in the work slice, and then the rounds are made. Reads the ranked table and the memory;
// writes the position, the output and the work slice.
pub fn walk_on(
    g: &Ranked,
    q: Criterion,
    opened: State,
    budget: u32,
    memory: &[u16],
    position: &mut [u8],
    output: &mut [u16],
    work: &mut [u16],
) -> Page
    requires { Accepted (ranked_graph g.now) q position.old (length work.old) memory.now opened }
    ensures { PageReplies (accepted result) position.new output.new
        (reply_of 0 (page (rules (ranked_graph g.now) (settings_in q)) budget (length output.old) position.old)
        position.old output.old) }
{
    let first = opened.go_on(g, position, memory, work);
    run(g, q, first, budget, position, output, work)
}

// The ranked graph, the criterion and the state of a page call with a work slice of `work` entries, or its refusal: the state is that of the position with its
// last decided rank opened. Reads the table, the degrees and the position, and writes `order` and `memory` alone: where the call is accepted they then hold the
// graph's rank order, and the state's parts.
// Document 01, "Turned back by the state": 21 to 23 are tested after 1, 2, 45, 4, 5, 42 and 6 to 10.
pub fn page_refusal<'a>(
    table: &'a [u64],
    degrees: &'a [u16],
    n: usize,
    s: Settings,
    position: &[u8],
    work: usize,
    order: &'a mut [u16],
    memory: &mut [u16],
) -> Result<(Ranked<'a>, Criterion, State), Refusal>
    requires { (length order.old ≡ 1024) × (length memory.old ≡ 8192) }
    ensures refused { fault result ≡ refuse_page (lent n table.now degrees.now) (settings_of s) position.now work }
    ensures accepted { IfOk result (CallAccepted n table.now degrees.now s position.now work memory.new) }
{
    let (lent, q) = lent_input(table, degrees, n, s, position.len(), work)?;
    let ranked = Ranked::new(lent, order);
    let opened = open(&ranked, q, position, memory)?;
    Ok((ranked, q, opened))
}

// The page call with its settings, or its refusal. The state of the position with its last decided rank opened is built in memory of its own, so that
// nothing that is lent is written before all refusals have passed.
fn page_or_refusal(
    table: &[u64],
    degrees: &[u16],
    position: &mut [u8],
    output: &mut [u16],
    work: &mut [u16],
    n: usize,
    s: Settings,
    budget: u32,
) -> Result<Page, Refusal>
    ensures { PageCalled (lent n table.now degrees.now) (settings_of s) budget position.old output.old work.old
        (answer_of result) position.new output.new work.new }
{
    let mut order = [0u16; 1024];
    let mut memory = [0u16; 8192];
    let (ranked, q, opened) = page_refusal(
        table,
        degrees,
        n,
        s,
        position,
        work.len(),
        &mut order,
        &mut memory,
    )?;
    Ok(walk_on(&ranked, q, opened, budget, &memory, position, output, work))
}

// The page call, of any arguments: table, the degrees of its graph, position, output, a work slice, n, the settings and the budget. It reads
// the table and the degrees. A refused call leaves the position, the output and the work slice as they were; an accepted one walks on from the
// position, at most as many steps as the budget has, and puts the groups that it passes into the output.
pub fn page(
    table: &[u64],
    degrees: &[u16],
    position: &mut [u8],
    output: &mut [u16],
    work: &mut [u16],
    n: usize,
    notion: u32,
    kind: u32,
    c: u32,
    budget: u32,
) -> PageAnswer
    ensures { PageCalled (lent n table.now degrees.now) (settings notion kind c) budget position.old output.old work.old
        result position.new output.new work.new }
{
    let s = Settings {
        notion,
        kind,
        factor: c,
    };
    let made = page_or_refusal(table, degrees, position, output, work, n, s, budget);
    PageAnswer::from(made)
}
