// The program's words: notion, kind and factor.
ghost use Rattle.model.specs.Text.{number_of};
ghost use Rattle.request.specs.Words.{NumberIn, WordsRead, TextWanted};

use isolation::Settings;
use refusal::Refusal;

// The program's words as the kit hands them over: how many there are, and the first three. With another count these may be anything.
#[derive(Clone, Copy)]
pub struct Arguments<'a> {
    pub count: usize,
    pub first: &'a [u8],
    pub second: &'a [u8],
    pub third: &'a [u8],
}

// Notion, kind and factor.
const WORDS: usize = 3;

// The number that a word is: 32 where it has not the form of one.
fn number_in(word: &[u8]) -> Result<u32, Refusal>
    ensures { NumberIn (number_of word.now) result }
{
    let n = number::number(word).ok_or(Refusal::Form)?;
    Ok(n as u32)
}

impl Arguments<'_> {
    // The settings of three words, or their refusal: 32 their count and the form of a number, then 6, 7, 8.
    pub fn settings(&self) -> Result<Settings, Refusal>
        ensures { WordsRead self.now result }
    {
        if self.count != WORDS {
            return Err(Refusal::Form);
        }
        let notion = number_in(self.first)?;
        let kind = number_in(self.second)?;
        let factor = number_in(self.third)?;
        let s = Settings {
            notion,
            kind,
            factor,
        };
        s.check()?;
        Ok(s)
    }

    // Whether the text decides: the words pass. Where they are refused nothing is read.
    pub fn wants_text(&self) -> bool
        ensures { TextWanted self.now result }
    {
        self.settings().is_ok()
    }
}
