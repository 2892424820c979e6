// Fields and numbers of document 01, in the lines of the text and in the program's words.
#![tactic(auto)]

pub mod scan;

ghost use Rattle.std.specs.Prelude.{IfSome};
ghost use Rattle.model.specs.Text.{number_of};
ghost use Rattle.number.specs.Field.{FirstDigit, DigitsLead, NumberLeads, NumberEnds, NumberRead, PairRead};

// The number that some bytes start with: its value and the count of its digits.
#[derive(Clone, Copy)]
pub struct Lead {
    pub value: usize,
    pub count: usize,
}

// "A number is 1 to 6 digits, decimal": the digits that some bytes start with, 6 at most. Inlined, and of six turns at most, so that a text is read without a
// wait for the count of each number's digits; this and the two below take most of a line's time.
#[inline(always)]
fn digits(bytes: &[u8]) -> Lead
    requires { FirstDigit bytes.now }
    ensures { DigitsLead bytes.now result }
{
    let mut value = 0;
    for i in 0..6 {
        let Some(&byte) = bytes.get(i) else {
            return Lead { value, count: i };
        };
        match byte {
            b'0'..=b'9' => value = value * 10 + usize::from(byte - b'0'),
            _ => return Lead { value, count: i },
        }
    }
    Lead { value, count: 6 }
}

// The number that some bytes start with, "without leading zero except 0 itself".
#[inline(always)]
fn leading(bytes: &[u8]) -> Option<Lead>
    ensures { NumberLeads bytes.now result }
{
    match bytes {
        [b'0', ..] => Some(Lead { value: 0, count: 1 }),
        [b'1'..=b'9', ..] => Some(digits(bytes)),
        _ => None,
    }
}

// The number that some bytes start with and that byte b ends. `None` says nothing of them.
#[inline(always)]
pub fn ended(bytes: &[u8], b: u8) -> Option<Lead>
    ensures { IfSome result (λ lead. NumberEnds bytes.now b lead) }
{
    let lead = leading(bytes)?;
    let end = *bytes.get(lead.count)?;
    (end == b).then_some(lead)
}

// The number of a field: "1 to 6 digits".
pub fn number(field: &[u8]) -> Option<usize>
    ensures { NumberRead (number_of field.now) result }
{
    let lead = leading(field)?;
    (lead.count == field.len()).then_some(lead.value)
}

// "Fields are parted by one space": two numbers, as N and M or U and V.
pub fn two_numbers(part: &[u8]) -> Option<(usize, usize)>
    ensures { PairRead part.now result }
{
    let end = part.iter().position(|x| *x == b' ')?;
    let a = number(&part[..end])?;
    let b = number(&part[end + 1..])?;
    Some((a, b))
}
