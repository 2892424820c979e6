// The group writer: a group's record goes right after the output entries already used.
ghost use Rattle.std.specs.Prelude.{◌≡◌, ◌++◌, ◌+◌, ◌≤◌, ◌<◌, length, take, drop};
ghost use Rattle.model.specs.Listing.{record_with, record_length};

// The entries that the record of a group of k vertices takes. Document 02, C-14: "A group takes size + 3 entries".
pub fn record_length(k: usize) -> usize
    requires { k ≤ 1024 }
    ensures { result ≡ record_length k }
{
    k + 3
}

// Writes the record of a group of these vertices, at most 1,024, with so many outgoing edges, at the start of out. Each entry of it fits 16 bits. The rest
// of out keeps its contents.
// Document 02, C-14: "The record is now size, outgoing edges div 65,536, the rest, then the vertices."
fn write_group(out: &mut [u16], edges: usize, vertices: &[u16])
    requires room { record_length (length vertices.now) ≤ length out.old }
    requires vertices { length vertices.now ≤ 1024 }
    requires edges { edges < 4294967296 }
    ensures { out.new ≡ record_with edges vertices.now ++ drop (record_length (length vertices.now)) out.old }
{
    let k = vertices.len();
    out[0] = k as u16;
    out[1] = (edges / 65_536) as u16;
    out[2] = (edges % 65_536) as u16;
    for (i, vertex) in vertices.iter().enumerate() {
        out[3 + i] = *vertex;
    }
}

// Writes the record of a group into the output right after its first `used` entries, and nothing else of it: lends the unused part of the output to
// `write_group`.
// Document 01, "A page", point 4: the group goes right after the entries already used.
pub fn put_group(output: &mut [u16], used: usize, edges: usize, vertices: &[u16])
    requires room { used + record_length (length vertices.now) ≤ length output.old }
    requires vertices { length vertices.now ≤ 1024 }
    requires edges { edges < 4294967296 }
    ensures { output.new
        ≡ take used output.old ++ record_with edges vertices.now ++ drop (used + record_length (length vertices.now)) output.old }
{
    let start = used;
    write_group(&mut output[start..], edges, vertices);
}
