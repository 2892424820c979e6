// The rounds of a page: the loop that writes groups and makes steps until the walk is finished, the budget is spent or the output is full.
#![tactic(auto)]

ghost use Rattle.std.specs.Prelude.{◌≡◌, length};
ghost use Rattle.model.specs.Walk.{page};
ghost use Rattle.model.specs.Listing.{rules};
ghost use Rattle.model.specs.Calls.{reply_of};
ghost use Rattle.ranks.specs.Held.{ranked_graph};
ghost use Rattle.isolation.specs.Numbers.{settings_in};
ghost use Rattle.walk.specs.Walk.{Walking};
ghost use Rattle.rounds.specs.Answer.{stop_number, wanted_at, accepted, answer_of, PageReplies};

use emit::{Full, emit};
use isolation::Criterion;
use ranks::Ranked;
use refusal::Refusal;
use state::State;
use walk::step;

// Why a page stopped, document 01, "A page", points 1 to 3: the walk is finished, the budget is spent, or the output has no room for the next group.
#[derive(Clone, Copy, Debug, PartialEq, Eq)]
pub enum Stop {
    Finished,
    Spent,
    Full(Full),
}

impl Stop {
    // The entries that the next group wants: its size + 3 at Full, document 02, C-14, else 0.
    fn wanted(self) -> usize
        ensures { result ≡ wanted_at self }
    {
        match self {
            Stop::Full(full) => full.wanted,
            _ => 0,
        }
    }
}

// The numbers of document 01, "A page".
impl From<Stop> for u32 {
    ghost from_gives = { λ s n. n ≡ stop_number s };

    fn from(stop: Stop) -> u32 {
        match stop {
            Stop::Finished => 1,
            Stop::Spent => 2,
            Stop::Full(_) => 3,
        }
    }
}

// What a page did: why it stopped, the groups it put out, the steps it made, and the entries of the output that are used.
#[derive(Clone, Copy, Debug, PartialEq, Eq)]
pub struct Page {
    pub stop: Stop,
    pub groups: u32,
    pub steps: u32,
    pub used: usize,
}

// The answer of a page call: its refusal number, 0 where it is accepted, and what it did.
// Document 01, "A page": the answer holds refusal number 0, the stop, groups, entries used, steps, and the entries wanted, which are size + 3 at Full
// (document 02, C-14), else 0.
#[repr(C)]
#[derive(Clone, Copy, Debug, Default, PartialEq, Eq)]
pub struct PageAnswer {
    pub refusal: u32,
    pub stop: u32,
    pub groups: u32,
    pub steps: u32,
    pub used: usize,
    pub wanted: usize,
}

// Of a call that is accepted the answer tells what its page did. Of a refused one, document 01, "Turned back by the input": all other numbers in the answer
// are 0.
impl From<Result<Page, Refusal>> for PageAnswer {
    ghost from_gives = { λ made answer. answer ≡ answer_of made };

    fn from(made: Result<Page, Refusal>) -> PageAnswer {
        match made {
            Ok(page) => PageAnswer {
                refusal: 0,
                stop: u32::from(page.stop),
                groups: page.groups,
                steps: page.steps,
                used: page.used,
                wanted: page.stop.wanted(),
            },
            Err(refusal) => PageAnswer {
                refusal: u32::from(refusal),
                ..PageAnswer::default()
            },
        }
    }
}

// A page from the position that the state and the work slice stand for, accepted by all tests: rounds of one step each, until one stops.
// Document 01, "A page", points 1 to 5 in this order: finished, spent, full, the group is put out, one step.
pub fn run(
    g: &Ranked,
    q: Criterion,
    first: State,
    budget: u32,
    position: &mut [u8],
    output: &mut [u16],
    work: &mut [u16],
) -> Page
    requires { Walking (ranked_graph g.now) (settings_in q) position.old work.old first }
    ensures { PageReplies (accepted result) position.new output.new
        (reply_of 0 (page (rules (ranked_graph g.now) (settings_in q)) budget (length output.old) position.old)
        position.old output.old) }
{
    let mut s = first;
    let mut steps: u32 = 0;
    let mut groups: u32 = 0;
    let mut used: usize = 0;
    let stop = loop {
        if s.finished(g.lent.table.n) {
            break Stop::Finished;
        }
        if steps == budget {
            break Stop::Spent;
        }
        match emit(s, q, g, work, output, used) {
            Ok(None) => {}
            Ok(Some(end)) => {
                used = end;
                groups += 1;
            }
            Err(full) => break Stop::Full(full),
        }
        s = step(s, g, q, position, work);
        steps += 1;
    };
    Page {
        stop,
        groups,
        steps,
        used,
    }
}
