// Lines read: which are in place, and what they say.
ghost use Rattle.std.specs.Prelude.{◌≡◌};
ghost use Rattle.text.specs.Entries.{call_in, entry_in, entry_of, figures_in, steps_in, unless_zero, word_in};
ghost use Rattle.text.specs.Numbers.{whole};
ghost use Rattle.text.specs.declared.entry.Entry.TheVariants.{Question};

use crate::number::{field, last_field, last_signed_field};
use crate::stage::Stage;
use member_check::Figures;
use trial::Call;

// What a line says. A question asks for all that Q answers.
#[derive(Clone, Copy)]
pub enum Entry {
    Member(Figures),
    Reading(i16),
    Call(Call),
    Question,
}

const MOST_BYTES: usize = 80;

fn unless_zero(value: u64) -> Option<u64>
    ensures { result ≡ unless_zero value }
{
    (value != 0).then_some(value)
}

fn read_figures(fields: &[u8]) -> Option<Figures>
    ensures { result ≡ figures_in fields.now }
{
    let (section_factor, rest) = field(fields)?;
    let (seconds, rest) = field(rest)?;
    let (yield_strength, rest) = field(rest)?;
    let (cold_strength, rest) = field(rest)?;
    let buckling_load = last_field(rest)?;
    Some(Figures {
        section_factor,
        seconds,
        yield_strength,
        cold_strength,
        buckling_load: unless_zero(buckling_load),
    })
}

fn read_word(fields: &[u8]) -> Option<i16>
    ensures { result ≡ word_in fields.now }
{
    i16::try_from(last_signed_field(fields)?).ok()
}

fn read_steps(fields: &[u8]) -> Option<usize>
    ensures { result ≡ steps_in fields.now }
{
    // A `usize` has no `From` of 32 bits.
    let steps = u32::try_from(last_field(fields)?).ok()?;
    Some(steps as usize)
}

fn read_question(fields: &[u8]) -> Option<Entry>
    ensures { result ≡ whole Question fields.now }
{
    match fields {
        [] => Some(Entry::Question),
        _ => None,
    }
}

// A line that makes a call or asks. The letter against literals is a form that the project keeps.
fn read_call(letter: char, fields: &[u8]) -> Option<Entry>
    ensures { result ≡ call_in letter fields.now }
{
    match letter {
        'L' => Some(Entry::Call(Call::Load(last_field(fields)?))),
        'H' => Some(Entry::Call(Call::Heat(read_steps(fields)?))),
        'B' => Some(Entry::Call(Call::Back(read_steps(fields)?))),
        'Q' => read_question(fields),
        _ => None,
    }
}

// A line that is in place, by its letter. Plain stages, and in each the letter, are a form that the project keeps.
fn in_place(stage: Stage, letter: char, fields: &[u8]) -> Option<Entry>
    ensures { result ≡ entry_in stage letter fields.now }
{
    match stage {
        Stage::MemberAwaited => match letter {
            'M' => Some(Entry::Member(read_figures(fields)?)),
            _ => None,
        },
        Stage::Readings => match letter {
            'R' => Some(Entry::Reading(read_word(fields)?)),
            _ => read_call(letter, fields),
        },
        Stage::Open => read_call(letter, fields),
    }
}

// What a line says, if it is in place and in form.
pub fn read_entry(stage: Stage, line: &[u8]) -> Option<Entry>
    ensures { result ≡ entry_of stage line.now }
{
    match line {
        [letter, fields @ ..] if line.len() <= MOST_BYTES => in_place(
            stage,
            char::from(*letter),
            fields,
        ),
        _ => None,
    }
}
