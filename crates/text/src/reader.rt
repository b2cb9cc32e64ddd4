//! Reading a policy text.
ghost use Rattle.std.specs.Prelude.{◌≡◌, ◌+◌, ◌-◌, ◌^◌, ◌<◌, ◌≤◌, length, slice_index};
ghost use Rattle.text.specs.Bytes.{byte_class};
ghost use Rattle.text.specs.Items.{FirstItem};
ghost use Rattle.text.specs.Reads.{Answer, Grammatical};
ghost use Rattle.text.specs.Steps.{answered};
ghost use Rattle.text.specs.Text.{token, on_token, ending, item_lines, item_size, read_text, run};
ghost use Rattle.text.specs.View.{made_of};

use crate::class::Class;
use crate::state::State;
use packet::{Bounded, Fault, ReaderCause, TextPlace};
use policy::{Node, Policy};

impl State {
    /// One item of the text, by the class of its first byte.
    fn take(&mut self, class: Class, item: &[u8]) -> Result<(), ReaderCause>
        ensures { on_token self.old (token class item.now) ≡ answered result self.new }
    {
        match class {
            Class::Opening => self.open(),
            Class::Closing => self.close(),
            Class::Space => Ok(()),
            Class::LineEnd => self.line_end(),
            Class::Letter | Class::Digit | Class::Point | Class::Stroke => self.word(item),
            Class::Other => Err(ReaderCause::Byte),
        }
    }

    /// The nodes, at the end of the text; none where it has no form.
    fn finish(self) -> Result<Option<Bounded<Node, 64>>, ReaderCause>
        ensures { ending self ≡ made_of result }
    {
        if self.brackets.len() > 0 {
            return Err(ReaderCause::Word);
        }
        Ok(self.joins.then_some(self.nodes))
    }
}

/// How many bytes at the front stand in a word.
fn word_len(text: &[u8]) -> usize
    ensures { result ≡ run text.now }
{
    text.iter()
        .take_while(|byte| Class::from(**byte).stands_in_word())
        .count()
}

/// How many bytes the first item has, by the class of its first byte.
#[tactic(auto, using(crate::proofs::Runs::run_within))]
fn item_len(class: Class, text: &[u8]) -> usize
    requires { (0 < length text.now) × (class ≡ byte_class (slice_index text.now 0)) }
    ensures is { result ≡ item_size text.now }
    ensures within { result ≤ length text.now }
{
    if class.stands_in_word() {
        word_len(text)
    } else {
        1
    }
}

/// The first item of a text, with the class of its first byte; none where there is no byte.
fn first_item(text: &[u8]) -> Option<(Class, &[u8])>
    ensures { FirstItem text.now result }
{
    let class = Class::from(*text.first()?);
    Some((class, &text[..item_len(class, text)]))
}

/// The place after an item that begins there.
fn past(place: TextPlace, item: &[u8]) -> TextPlace
    requires some { 0 < length item.now }
    requires lines_fit { place.line < 2 ^ 64 - 1 }
    requires bytes_fit { place.byte + length item.now < 2 ^ 64 }
    ensures { result ≡ record { line = place.line + item_lines item.now; byte = place.byte + length item.now } }
{
    TextPlace {
        line: if item[0] == b'\n' {
            place.line + 1
        } else {
            place.line
        },
        byte: place.byte + item.len(),
    }
}

/// The nodes of a policy text, none where it has no form, or its first fault.
fn nodes_of(text: &[u8]) -> Result<Option<Bounded<Node, 64>>, Fault>
    ensures { made_of result ≡ read_text text.now }
{
    let mut state = State::new();
    let mut place = TextPlace { line: 1, byte: 0 };
    // Not over `chunk_by`: it would class a byte twice, and one of no word once more when it is taken.
    while let Some((class, item)) = first_item(&text[place.byte..]) {
        state
            .take(class, item)
            .map_err(|cause| Fault::Reader { cause, place })?;
        place = past(place, item);
    }
    state
        .finish()
        .map_err(|cause| Fault::Reader { cause, place })
}

/// Reads a policy text into a place, or refuses it with its first fault and leaves the place as it was.
pub fn read(place: &mut Policy, text: &[u8]) -> Result<(), Fault>
    ensures answer { Answer text.now result place.old place.new }
    ensures grammar { Grammatical text.now result place.new }
{
    let nodes = nodes_of(text)?;
    *place = match nodes {
        Some(nodes) => Policy::from_nodes(nodes).unwrap(),
        None => Policy::empty(),
    };
    Ok(())
}
