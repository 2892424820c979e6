// How the program ends: its last line, and what it tells of itself to those who ask.
#![tactic(auto)]

ghost use Rattle.std.specs.Prelude.{◌≡◌};
ghost use Rattle.refusal.specs.Numbers.{number};
ghost use Rattle.print.specs.Put.{Room, Puts};
ghost use Rattle.ending.specs.declared.Unlisted.TheVariants.{TurnedBack};
ghost use Rattle.ending.specs.Ending.{last_line, outcome_of, outcome_line};

use dimacs::Refused;
use listing::totals::Totals;
use print::Printer;

// Why there is no whole list: the words or the text were refused, with the number and the line of the refusal, or the list was cut at a write that failed.
#[derive(Clone, Copy)]
pub enum Unlisted {
    TurnedBack(u32, usize),
    Cut,
}

impl From<Refused> for Unlisted {
    ghost from_gives = { λ refused unlisted. unlisted ≡ TurnedBack (number refused.refusal) refused.line };

    fn from(refused: Refused) -> Unlisted {
        Unlisted::TurnedBack(refused.refusal.into(), refused.line)
    }
}

// An `end` line was printed and all was written; a refusal was printed, by its number and its line; a write failed, and nothing was written after it; the text
// could not be read, and nothing was printed. Any number can be told, also one that no refusal has.
#[derive(Clone, Copy)]
pub enum Outcome {
    Ended,
    TurnedBack(u32, usize),
    Cut,
    Unread,
}

// Puts the last line of what is printed: `refused NUMBER LINE`, or `end GROUPS STEPS` where the list is whole. A list that was cut has no last line.
pub fn put_last_line(listed: Result<Totals, Unlisted>, printer: &mut Printer)
    requires { Room printer.old 40 }
    ensures { Puts printer.old (last_line listed) printer.new }
{
    match listed {
        Ok(totals) => printer.put_end_line(totals.groups, totals.steps),
        Err(Unlisted::TurnedBack(number, line)) => printer.put_refused_line(number, line),
        Err(Unlisted::Cut) => {}
    }
}

// What the program tells of itself: by its list, and whether its last line was written.
pub fn outcome_of(listed: Result<Totals, Unlisted>, written: bool) -> Outcome
    ensures { result ≡ outcome_of listed written }
{
    if !written {
        return Outcome::Cut;
    }
    match listed {
        Ok(_) => Outcome::Ended,
        Err(Unlisted::TurnedBack(number, line)) => Outcome::TurnedBack(number, line),
        Err(Unlisted::Cut) => Outcome::Cut,
    }
}

// Puts the line that tells an outcome: `end`, `refused NUMBER LINE`, `cut` or `unread`.
pub fn put_outcome_line(outcome: Outcome, printer: &mut Printer)
    requires { Room printer.old 40 }
    ensures { Puts printer.old (outcome_line outcome) printer.new }
{
    match outcome {
        Outcome::Ended => printer.put(b"end\n"),
        Outcome::TurnedBack(number, line) => printer.put_refused_line(number, line),
        Outcome::Cut => printer.put(b"cut\n"),
        Outcome::Unread => printer.put(b"unread\n"),
    }
}
