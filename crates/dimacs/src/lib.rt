// The text reader of document 01: an edge text becomes the table of a graph, line by line, in place.
#![tactic(auto)]

ghost use Rattle.std.specs.Prelude.{◌≡◌, ◌++◌, replicate, drop};
ghost use Rattle.model.specs.Text.{read_text};
ghost use Rattle.lines.specs.Said.{area_of};
ghost use Rattle.lines.specs.Line.{reading_of, start};
ghost use Rattle.dimacs.specs.Reply.{answer_of, text_reply, cleared_reply, ReadsAs};

use lines::Reader;
use lines::said::{Counts, Progress, Said};
use refusal::Refusal;

// What a call answers: 0, N, M and 0, or the refusal's number, zeros and the line.
#[repr(C)]
#[derive(Clone, Copy, Debug, PartialEq, Eq)]
pub struct TextAnswer {
    pub refusal: u32,
    pub vertices: u32,
    pub edges: u32, // M, the count of e lines
    pub line: usize,
}

// A refusal, and the line that it is of: 0 where it is of no line of the text.
#[derive(Clone, Copy, Debug, PartialEq, Eq)]
pub struct Refused {
    pub refusal: Refusal,
    pub line: usize,
}

impl From<Refusal> for Refused {
    ghost from_gives = { λ refusal refused. refused ≡ record { refusal = refusal; line = 0 } };

    fn from(refusal: Refusal) -> Refused {
        Refused { refusal, line: 0 }
    }
}

impl From<Result<Said, Refused>> for TextAnswer {
    ghost from_gives = { λ read answer. answer ≡ answer_of read };

    fn from(read: Result<Said, Refused>) -> TextAnswer {
        match read {
            Ok(s) => TextAnswer {
                refusal: 0,
                vertices: s.vertices as u32,
                edges: s.stated as u32,
                line: 0,
            },
            Err(refused) => TextAnswer {
                refusal: refused.refusal.into(),
                vertices: 0,
                edges: 0,
                line: refused.line,
            },
        }
    }
}

// Reads the lines of a text, once, from the first to the last, up to a refusal, which is of its line. At the end: 33 no p line, 39 M differs, both with
// the line count plus 1.
fn read_lines(text: &[u8], reader: &mut Reader) -> Result<Said, Refused>
    requires { reading_of reader.old ≡ start }
    ensures same_reference { reader.new.table.ghost_name ≡ reader.old.table.ghost_name }
    ensures lines_read { cleared_reply result reader.new ≡ read_text text.now reader.old.table.now }
{
    let mut at: usize = 0;
    let mut line: usize = 1;
    while at < text.len() {
        let first = reader.read_first(&text[at..]);
        first.outcome.map_err(|refusal| Refused { refusal, line })?;
        at += first.length + 1;
        line += 1;
    }
    let Progress::Passed(s) = reader.said else {
        return Err(Refused {
            refusal: Refusal::NoProblemLine,
            line,
        });
    };
    if s.edges != s.stated {
        return Err(Refused {
            refusal: Refusal::EdgeCount,
            line,
        });
    }
    Ok(s)
}

// Clears the first N × N bytes of the table, with the N that was read: none before a p line.
fn clear(reader: &mut Reader)
    ensures same_reference { reader.new.table.ghost_name ≡ reader.old.table.ghost_name }
    ensures cleared { reader.new.table.now ≡ replicate (area_of reader.old.said) 0 ++ drop (area_of reader.old.said) reader.old.table.now }
{
    let n = match reader.said {
        Progress::Passed(s) => s.vertices,
        Progress::Before(_) => 0,
    };
    reader.table[0..n * n].fill(0);
}

// Reads a text into the table: what its lines say, or the refusal. What this gives, and every byte of the table slice afterwards, are what `read_text` of
// document 01 gives for the text and the slice; nothing is copied. Refused: "The table is unchanged if no p line passed, else its first N × N bytes, with
// that line's N, are 0."
pub fn read(text: &[u8], table: &mut [u8]) -> Result<Said, Refused>
    ensures { text_reply result table.new ≡ read_text text.now table.old }
{
    let mut reader = Reader {
        table,
        said: Progress::Before(Counts {
            stated: 0,
            edges: 0,
        }),
    };
    let read = read_lines(text, &mut reader);
    if read.is_err() {
        clear(&mut reader);
    }
    read
}

// The text reader as C calls it. Refused: "N and M are then 0."
pub fn read_text(text: &[u8], table: &mut [u8]) -> TextAnswer
    ensures { ReadsAs text.now table.old table.new result }
{
    read(text, table).into()
}
