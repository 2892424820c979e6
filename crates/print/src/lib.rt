// The printed bytes: numbers in decimal, a line for each group, the end line and the refusal line, each put into a buffer.
#![tactic(auto)]

ghost use Rattle.std.specs.Prelude.{◌≡◌, ◌+◌, ◌*◌, ◌≤◌, length, take};
ghost use Rattle.model.specs.Program.{numeral, end_line, refused_line};
ghost use Rattle.theory.specs.Printed.{printed};
ghost use Rattle.print.specs.Put.{Room, Puts, EntryPut, line};

use itoa::Buffer;

// A buffer, and where its next byte goes.
#[derive(Drop)]
pub struct Printer<'a> {
    pub bytes: &'a mut [u8],
    pub at: usize,
}

// What is still to come of the record at hand: so many of its two entries that tell the outgoing edges, and so many vertices.
#[derive(Clone, Copy)]
struct ToCome {
    edge_entries: usize,
    vertices: usize,
}

impl<'a> Printer<'a> {
    // A printer that has put nothing yet: its next byte goes to the buffer's start.
    pub fn new(bytes: &'a mut [u8]) -> Printer<'a>
        ensures same_reference { result.bytes.ghost_name ≡ bytes.entry.ghost_name }
        ensures bytes { result.bytes.now ≡ bytes.old }
        ensures start { result.at ≡ 0 }
    {
        Printer { bytes, at: 0 }
    }

    // The buffer up to where the next byte goes: what was put, where it was put from the buffer's start on.
    pub fn filled(&self) -> &[u8]
        requires { self.now.at ≤ length self.now.bytes.now }
        ensures { result.now ≡ take self.now.at self.now.bytes.now }
    {
        &self.bytes[..self.at]
    }

    // Puts the bytes of a word.
    pub fn put(&mut self, word: &[u8])
        requires { Room self.old (length word.now) }
        ensures { Puts self.old word.now self.new }
    {
        let end = self.at + word.len();
        self.bytes[self.at..end].copy_from_slice(word);
        self.at = end;
    }

    // Puts the decimal digits of k.
    pub fn put_number(&mut self, k: usize)
        requires { Room self.old (length (numeral k)) }
        ensures { Puts self.old (numeral k) self.new }
    {
        self.put(Buffer::new().format(k).as_bytes());
    }

    // Puts what is printed of one output entry: "one line a group, vertices plus 1". With nothing to come of the record at hand it is the size of the next
    // record; of the two entries after a size nothing is printed. Answers what is to come after it.
    fn put_entry(&mut self, to_come: ToCome, entry: u16) -> ToCome
        requires { Room self.old 6 }
        ensures { EntryPut self.old to_come entry self.new result }
    {
        if 0 < to_come.edge_entries {
            return ToCome {
                edge_entries: to_come.edge_entries - 1,
                ..to_come
            };
        }
        if to_come.vertices == 0 {
            if entry == 0 {
                self.put(b"\n");
            }
            return ToCome {
                edge_entries: 2,
                vertices: usize::from(entry),
            };
        }
        self.put_number(usize::from(entry) + 1);
        self.put(if to_come.vertices == 1 { b"\n" } else { b" " });
        ToCome {
            vertices: to_come.vertices - 1,
            ..to_come
        }
    }

    // Puts what is printed of a page's output entries. An entry takes 6 bytes at most.
    pub fn put_entries(&mut self, entries: &[u16])
        requires { Room self.old (6 * length entries.now) }
        ensures { Puts self.old (printed entries.now) self.new }
    {
        let mut to_come = ToCome {
            edge_entries: 0,
            vertices: 0,
        };
        for entry in entries {
            to_come = self.put_entry(to_come, *entry);
        }
    }

    // Puts a word, two numbers parted by one space, and byte 10.
    fn put_line(&mut self, word: &[u8], a: usize, b: usize)
        requires { Room self.old (length word.now + length (numeral a) + length (numeral b) + 2) }
        ensures { Puts self.old (line word.now a b) self.new }
    {
        self.put(word);
        self.put_number(a);
        self.put(b" ");
        self.put_number(b);
        self.put(b"\n");
    }

    // Puts `end GROUPS STEPS`.
    pub fn put_end_line(&mut self, groups: u32, steps: u32)
        requires { Room self.old 26 }
        ensures { Puts self.old (end_line groups steps) self.new }
    {
        self.put_line(b"end ", groups as usize, steps as usize);
    }

    // Puts `refused NUMBER LINE`.
    pub fn put_refused_line(&mut self, number: u32, line: usize)
        requires { Room self.old 40 }
        ensures { Puts self.old (refused_line number line) self.new }
    {
        self.put_line(b"refused ", number as usize, line);
    }
}
