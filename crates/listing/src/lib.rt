// The listing of a graph: page after page until one says Finished or a write fails, each printed and written at once.
#![tactic(auto)]

pub mod totals;

ghost use Rattle.std.specs.Prelude.{◌≡◌, ◌*◌, ◌≤◌, length, take};
ghost use Rattle.theory.specs.Printed.{printed};
ghost use Rattle.graph.specs.Held.{graph_in};
ghost use Rattle.isolation.specs.Numbers.{settings_of};
ghost use Rattle.rounds.specs.Answer.{PageReplies};
ghost use Rattle.listing.specs.List.{turn_reply, ListBegins, Ran};

use crate::totals::Totals;
use graph::Lent;
use isolation::Settings;
use print::Printer;
use rounds::{PageAnswer, Stop};
use std::io;

// Writes the lines that are printed of a page's used entries to standard output. No contract can speak of what a write does: what is handed to it is required.
fn write_page(rt: &impl Print, lines: &[u8], page: &PageAnswer, output: &[u16]) -> io::Result<()>
    requires { lines.now ≡ printed (take page.now.used output.now) }
{
    rt.write_all(lines)
}

// Prints a page's used entries by way of the buffer.
fn print_page(
    rt: &impl Print,
    page: &PageAnswer,
    output: &[u16],
    bytes: &mut [u8],
) -> io::Result<()>
    requires used { page.now.used ≤ length output.now }
    requires room { 6 * length output.now ≤ length bytes.old }
{
    let mut printer = Printer::new(bytes);
    printer.put_entries(&output[..page.used]);
    write_page(rt, printer.filled(), page, output)
}

// One page with the largest budget.
fn one_page(
    lent: &Lent,
    settings: Settings,
    position: &mut [u8],
    output: &mut [u16],
    work: &mut [u16],
) -> PageAnswer
    ensures { PageReplies result position.new output.new
        (turn_reply lent.now (settings_of settings) position.old output.old (length work.old)) }
{
    page::page(
        lent.table.numbers,
        lent.degrees,
        position,
        output,
        work,
        lent.table.n,
        settings.notion,
        settings.kind,
        settings.factor,
        u32::MAX,
    )
}

// Lists all groups of a graph from the fresh position on, and answers the totals of the whole list. At the first write that fails it ends, and answers
// the totals of the list that is cut there. Each page makes a step, so this ends.
pub fn list_all(
    rt: &impl Print,
    lent: &Lent,
    settings: Settings,
    position: &mut [u8],
    output: &mut [u16],
    work: &mut [u16],
    bytes: &mut [u8],
) -> Result<Totals, Totals>
    requires { ListBegins lent.now (settings_of settings) position.old output.old work.old bytes.old }
    ensures { Ran (graph_in lent.now.table) (settings_of settings) result }
{
    let mut totals = Totals {
        groups: 0,
        steps: 0,
    };
    loop {
        let page = one_page(lent, settings, position, output, work);
        totals.add(&page);
        if print_page(rt, &page, output, bytes).is_err() {
            return Err(totals);
        }
        if page.stop == u32::from(Stop::Finished) {
            return Ok(totals);
        }
    }
}
