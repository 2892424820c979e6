// What the program does with its words and its text: a refusal, or a graph to list.
ghost use Rattle.std.specs.Prelude.{◌≡◌, replicate, ltb};
ghost use Rattle.model.specs.Calls.{refuse_settings};
ghost use Rattle.isolation.specs.Numbers.{settings_of};
ghost use Rattle.request.specs.Verdict.{Judged, Decides};

pub use crate::listing::Listing;
use crate::words::Arguments;
use dimacs::Refused;
use isolation::Settings;
use refusal::Refusal;

// What the program does: it lists a graph, or prints a refusal and its line.
pub type Verdict = Result<Listing, Refused>;

// 41: whether a text of this length is too long, "at most 65,536 bytes".
pub fn text_too_long(length: usize) -> bool
    ensures { result ≡ ltb 65536 length }
{
    65536 < length
}

// Reads a text into the program's "table of 65,536 bytes", all 0: 41 where it is too long, then the reader's refusal.
fn judge(settings: Settings, text: &[u8], table: &mut [u8]) -> Verdict
    requires settings_pass { refuse_settings (settings_of settings) ≡ 0 }
    requires table_clear { table.old ≡ replicate 65536 0 }
    ensures { Judged (settings_of settings) text.now table.new result }
{
    if text_too_long(text.len()) {
        return Err(Refusal::TextLength.into());
    }
    let said = dimacs::read(text, table)?;
    Ok(Listing {
        settings,
        vertices: said.vertices,
    })
}

// The program's verdict on its words and its text: words first, then 41, then the text. The table, all 0 before, holds the graph's table where one is
// to be listed.
pub fn decide(words: &Arguments<'_>, text: &[u8], table: &mut [u8]) -> Verdict
    requires { table.old ≡ replicate 65536 0 }
    ensures { Decides words.now text.now table.new result }
{
    let settings = words.settings()?;
    judge(settings, text, table)
}
