// One line of the text: what it says, or its refusal, in document 01's order.
#![tactic(auto)]

pub mod reader;
pub mod said;

ghost use Rattle.std.specs.Prelude.{◌≡◌, ◌<◌, false, [], ◌∷◌, length, take, IfSome};
ghost use Rattle.model.specs.Text.{p_line, line_step};
ghost use Rattle.lines.specs.Said.{passed_of};
ghost use Rattle.lines.specs.Line.{StartsWith, reading_of, room_of, edge_step, ProblemRead, CanCountOne, LineRead, FirstLine, EdgeFirst};

pub use crate::reader::Reader;
use crate::said::Progress;
pub use crate::said::Said;
use refusal::Refusal;

// An e line in form that byte 10 ends: its U, V and length.
#[derive(Clone, Copy)]
struct EdgeLine {
    u: usize,
    v: usize,
    length: usize,
}

// What came of the first line of a text, and its length.
#[derive(Drop)]
pub struct Passage {
    pub outcome: Result<(), Refusal>,
    pub length: usize,
}

// The most vertices that a p line may state.
const MOST_VERTICES: usize = 1024;

// N and M of a p line in form, which "starts with the six bytes `p edge`"; a space and the two numbers follow them.
fn problem_numbers(line: &[u8]) -> Option<(usize, usize)>
    requires { StartsWith (112 ∷ 32 ∷ []) line.now }
    ensures { ProblemRead line.now result }
{
    let fields = line.strip_prefix(b"p edge")?.strip_prefix(b" ")?;
    number::two_numbers(fields)
}

// An e line in form, if one comes first: its end is met as its numbers are read, so that nothing is searched for. `None` says nothing of the line.
fn first_edge(text: &[u8]) -> Option<EdgeLine>
    ensures { IfSome result (EdgeFirst text.now) }
{
    let [b'e', b' ', fields @ ..] = text else {
        return None;
    };
    let u = number::ended(fields, b' ')?;
    let v = number::ended(&fields[u.count + 1..], b'\n')?;
    Some(EdgeLine {
        u: u.value,
        v: v.value,
        length: u.count + v.count + 3,
    })
}

impl Reader<'_> {
    // A p line's numbers: 35 N over 1,024; 40 table under N × N.
    fn problem(&mut self, n: usize, m: usize) -> Result<(), Refusal>
        requires nothing_passed { passed_of self.old.said ≡ false }
        requires six_digits { m < 1000000 }
        ensures same_reference { self.new.table.ghost_name ≡ self.old.table.ghost_name }
        ensures line_read { LineRead (p_line (room_of self.old) n m) self.old self.new result }
    {
        if MOST_VERTICES < n {
            return Err(Refusal::TextVertices);
        }
        let area = n * n;
        if self.table.len() < area {
            return Err(Refusal::TableRoom);
        }
        self.table[0..area].fill(0);
        self.said = Progress::Passed(Said {
            vertices: n,
            stated: m,
            edges: 0,
        });
        Ok(())
    }

    // An e line's numbers: 33 no p line before it; 36 U or V out of range; 37 U = V. The line counts and its pair is joined, also where the pair stood
    // before.
    #[tactic(auto, using(crate::proofs::Steps::before_p_line, crate::proofs::Steps::out_of_range))]
    fn edge(&mut self, u: usize, v: usize) -> Result<(), Refusal>
        requires can_count { CanCountOne self.old }
        ensures same_reference { self.new.table.ghost_name ≡ self.old.table.ghost_name }
        ensures line_read { LineRead (edge_step (reading_of self.old) u v) self.old self.new result }
    {
        let Progress::Passed(mut said) = self.said else {
            return Err(Refusal::NoProblemLine);
        };
        let n = said.vertices;
        if u == 0 || n < u || v == 0 || n < v {
            return Err(Refusal::EdgeRange);
        }
        if u == v {
            return Err(Refusal::EdgeLoop);
        }
        let there = (u - 1) * n + (v - 1);
        let back = (v - 1) * n + (u - 1);
        self.table[there] = 1;
        self.table[back] = 1;
        said.edges += 1;
        self.said = Progress::Passed(said);
        Ok(())
    }

    // A p line, which starts with p and a space: 34 a second p line; 32 another fault of form; then its numbers.
    #[tactic(auto, using(crate::proofs::Steps::second_p_line))]
    fn problem_line(&mut self, line: &[u8]) -> Result<(), Refusal>
        requires starts { StartsWith (112 ∷ 32 ∷ []) line.now }
        ensures same_reference { self.new.table.ghost_name ≡ self.old.table.ghost_name }
        ensures line_read { LineRead (line_step (room_of self.old) (reading_of self.old) line.now) self.old self.new result }
    {
        let Progress::Before(_) = self.said else {
            return Err(Refusal::SecondProblemLine);
        };
        let (n, m) = problem_numbers(line).ok_or(Refusal::Form)?;
        self.problem(n, m)
    }

    // An e line, by what follows its e and its space: 33 no p line before it; 32 another fault of form; then its numbers.
    fn edge_line(&mut self, fields: &[u8]) -> Result<(), Refusal>
        requires can_count { CanCountOne self.old }
        ensures same_reference { self.new.table.ghost_name ≡ self.old.table.ghost_name }
        ensures line_read { LineRead (line_step (room_of self.old) (reading_of self.old) (101 ∷ 32 ∷ fields.now)) self.old self.new result }
    {
        let Progress::Passed(_) = self.said else {
            return Err(Refusal::NoProblemLine);
        };
        let (u, v) = number::two_numbers(fields).ok_or(Refusal::Form)?;
        self.edge(u, v)
    }

    // One line, by its first letter, which a space follows: 31 for any other line but `c` alone. "`c` alone, `c` with a space and any bytes" are comments.
    #[tactic(auto, using(crate::proofs::Steps::faulty, crate::proofs::Steps::unchanged, crate::proofs::Lines::line_other, crate::proofs::Lines::comment_alone, crate::proofs::Lines::comment_spaced))]
    fn read_line(&mut self, line: &[u8]) -> Result<(), Refusal>
        requires can_count { CanCountOne self.old }
        ensures same_reference { self.new.table.ghost_name ≡ self.old.table.ghost_name }
        ensures line_read { LineRead (line_step (room_of self.old) (reading_of self.old) line.now) self.old self.new result }
    {
        match line {
            [b'c'] | [b'c', b' ', ..] => Ok(()),
            [b'p', b' ', ..] => self.problem_line(line),
            [b'e', b' ', fields @ ..] => self.edge_line(fields),
            _ => Err(Refusal::FirstLetter),
        }
    }

    // Reads the first line of a text. Most lines are e lines in form, and only another one is searched for its end.
    pub fn read_first(&mut self, text: &[u8]) -> Passage
        requires some_text { 0 < length text.now }
        requires can_count { CanCountOne self.old }
        ensures same_reference { self.new.table.ghost_name ≡ self.old.table.ghost_name }
        ensures first_line { FirstLine text.now result.length }
        ensures line_read { LineRead (line_step (room_of self.old) (reading_of self.old) (take result.length text.now)) self.old self.new result.outcome }
    {
        if let Some(EdgeLine { u, v, length }) = first_edge(text) {
            let outcome = self.edge(u, v);
            return Passage { outcome, length };
        }
        let length = number::scan::find(text, b'\n');
        let outcome = self.read_line(&text[..length]);
        Passage { outcome, length }
    }
}
