// The program: it reads its words and its text, decides, and prints a refusal or all groups and the totals.
ghost use Rattle.std.specs.Prelude.{◌≡◌, ◌≤◌, length, replicate};
ghost use Rattle.model.specs.Graph.{by_table};
ghost use Rattle.model.specs.Calls.{refuse_table};
ghost use Rattle.isolation.specs.Numbers.{settings_of};
ghost use Rattle.listing.specs.List.{Ran};
ghost use Rattle.request.specs.Verdict.{Fine};
ghost use Rattle.ending.specs.Ending.{last_line};
ghost use Rattle.cli.specs.Printing.{ListedBy, Answers, Responds};

use crate::reading::read_wanted;
use ending::{Outcome, Unlisted, outcome_of, put_last_line, put_outcome_line};
use graph::{Lent, Table, row_length};
use listing::list_all;
use listing::totals::Totals;
use pack::ByteTable;
use print::Printer;
use request::verdict::{Listing, Verdict, decide};
use request::words::Arguments;
use std::env::{Env, FillError};
use std::fs::{self, File, Files};
use std::io;
use std::io::Write;
use std::os::unix::fs::MetadataExt;

// How many entries the output of a page has, and how many bytes are printed of them at most.
const OUTPUT: usize = 8192;

const PRINTED: usize = 6 * OUTPUT;

// Prints "one line a group" of a graph of at most 256 vertices, which a table of bytes holds. Memory: the packed table of 256 rows of four numbers, a degree
// and a position byte for each vertex, the output of a page, and the work slice of 256 vertices.
fn list_graph(
    rt: &impl Print,
    table: &[u8],
    listing: Listing,
    bytes: &mut [u8; PRINTED],
) -> Result<Totals, Totals>
    requires { refuse_table listing.vertices table.now ≡ 0 }
    ensures { Ran (by_table listing.vertices table.now) (settings_of listing.settings) result }
{
    let n = listing.vertices;
    let mut packed = [0u64; 1024];
    let mut degrees = [0u16; 256];
    let mut position = [0u8; 256];
    let mut output = [0u16; OUTPUT];
    let mut work = [0u16; 2048];
    let width = row_length(n);
    let length = n * width;
    let packed = &mut packed[..length];
    ByteTable { bytes: table, n }.fill(packed);
    let table = Table {
        numbers: packed,
        n,
        width,
    };
    let degrees = &mut degrees[..n];
    table.fill_degrees(degrees);
    let lent = Lent { table, degrees };
    list_all(
        rt,
        &lent,
        listing.settings,
        &mut position[..n],
        &mut output,
        &mut work,
        bytes,
    )
}

// Prints the groups where there is a graph to list. A refusal lists nothing.
fn list(
    rt: &impl Print,
    verdict: Verdict,
    table: &[u8],
    bytes: &mut [u8; PRINTED],
) -> Result<Totals, Unlisted>
    requires { Fine verdict table.now }
    ensures { ListedBy verdict table.now result }
{
    let listing = verdict?;
    let n = listing.vertices;
    list_graph(rt, &table[..n * n], listing, bytes).map_err(|_| Unlisted::Cut)
}

// Writes the last line of what is printed. What is handed to the write is required, since no contract can speak of what a write does.
fn write_last(rt: &impl Print, line: &[u8], listed: Result<Totals, Unlisted>) -> io::Result<()>
    requires { line.now ≡ last_line listed }
{
    rt.write_all(line)
}

// Prints what a verdict asks for: the groups, and then the last line, by way of a buffer.
fn answer(rt: &impl Print, verdict: Verdict, table: &[u8], bytes: &mut [u8; PRINTED]) -> Outcome
    requires { Fine verdict table.now }
    ensures { Answers verdict table.now result }
{
    let listed = list(rt, verdict, table, bytes);
    let mut printer = Printer::new(bytes);
    put_last_line(listed, &mut printer);
    let written = write_last(rt, printer.filled(), listed);
    outcome_of(listed, written.is_ok())
}

// Decides by the words and the text, and prints what the verdict asks for. The table is all 0 before, and the buffer may hold anything.
fn respond(
    rt: &impl Print,
    words: &Arguments,
    text: &[u8],
    table: &mut [u8],
    bytes: &mut [u8; PRINTED],
) -> Outcome
    requires { table.old ≡ replicate 65536 0 }
    ensures { Responds words.now text.now table.new result }
{
    let verdict = decide(words, text, table);
    answer(rt, verdict, table, bytes)
}

// An argument, as it stands at the start of a buffer: where it is not there or does not fit, the empty one.
fn argument<'a>(rt: &impl Env, place: usize, buffer: &'a mut [u8]) -> &'a [u8]
    ensures { length result.now ≤ length buffer.old }
{
    let end = rt.arg(place, buffer).unwrap_or(0);
    &buffer[..end]
}

// How many arguments there are, the program's own name among them. One that doesn't fit the buffer counts like any other.
fn argument_count(rt: &impl Env) -> usize {
    let mut buffer = [0u8; 8];
    (0..usize::MAX)
        .take_while(|place| !matches!(rt.arg(*place, &mut buffer), Err(FillError::NotPresent)))
        .count()
}

// The program: words first, then 41, then the text, of which one byte more than is allowed tells that it is too long. A word that is longer than
// its buffer is no number, and neither is the empty one that stands for it here. A text that can't be read is neither listed nor refused.
pub fn program(rt: &(impl Env + Input + Print)) -> Outcome {
    let mut first = [0u8; 8];
    let mut second = [0u8; 8];
    let mut third = [0u8; 8];
    let mut text = [0u8; 65537];
    let mut table = [0u8; 65536];
    let words = Arguments {
        first: argument(rt, 1, &mut first),
        second: argument(rt, 2, &mut second),
        third: argument(rt, 3, &mut third),
        count: argument_count(rt).saturating_sub(1),
    };
    let Ok(text) = read_wanted(rt, words.wants_text(), &mut text) else {
        return Outcome::Unread;
    };
    let mut bytes = [0u8; PRINTED];
    respond(rt, &words, text, &mut table, &mut bytes)
}

// Tells an outcome on a descriptor of its own, for whoever started the program with one. Where it can't be told, nothing more is done.
pub fn tell<R: Files + Alloc>(rt: &R, descriptor: i32, outcome: Outcome) {
    let mut bytes = [0u8; 40];
    let mut printer = Printer::new(&mut bytes);
    put_outcome_line(outcome, &mut printer);
    let _ = write_to(rt, descriptor, printer.filled());
}

// Writes to a descriptor that the program was started with, where it may be written to: of the name that the system gives it the mode says so. It is opened
// anew under that name, and then written at its end, so that nothing is lost of a file that has something already. It is opened for reading too, since a
// pipe that nobody reads is then opened at once.
fn write_to<R: Files + Alloc>(rt: &R, descriptor: i32, bytes: &[u8]) -> io::Result<()> {
    let name = format!(in rt.alloc(); "/proc/self/fd/{descriptor}")?;
    if fs::symlink_metadata(rt, &name)?.mode() & 0o200 == 0 {
        return Ok(());
    }
    let mut file = File::options().read(true).append(true).open(rt, &name)?;
    file.write_all(bytes)
}
