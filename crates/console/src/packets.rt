ghost use Rattle.packet.specs.Packets.{number};
ghost use Rattle.std.specs.Result.{MatchResult};
ghost use Rattle.console.specs.Typed.{Adds, AddsNone, Describes, Refuses};

use crate::failure::{Failure, told};
use packet::Packet;
use std::alloc::Global;
use text::{field_of, value_of};

/// The numbers of a packet that is being typed, each once it has been given.
#[derive(Clone, Copy, PartialEq, Eq, Debug)]
struct Typed {
    numbers: [Option<u64>; 8],
}

impl Typed {
    /// One word FIELD=V more.
    fn add(&mut self, heap: Global, word: &str) -> Result<(), Failure>
        ensures { MatchResult result (λ _. Adds word.now self.old self.new) (AddsNone word.now self.old) }
    {
        let (name, value) = word.split_once('=').ok_or_else(|| {
            told(format!(in heap; "yarnbrick: a packet is given by words FIELD=V, not '{word}'"))
        })?;
        let field = field_of(name.as_bytes()).ok_or_else(|| {
            told(format!(in heap; "yarnbrick: a packet has no field '{name}'"))
        })?;
        let number = value_of(field, value.as_bytes()).ok_or_else(|| {
            told(format!(in heap; "yarnbrick: '{value}' is no value of {name}"))
        })?;
        let place = field.place();
        if self.numbers[place].is_some() {
            return Err(told(format!(in heap; "yarnbrick: {name} is given twice")));
        }
        self.numbers[place] = Some(number);
        Ok(())
    }
}

/// The packet that words FIELD=V describe; fields left out are 0.
pub fn packet_of(heap: Global, words: &str) -> Result<Packet, Failure>
    ensures { MatchResult result (λ p. Describes words.now (number p)) (Refuses words.now) }
{
    let mut typed = Typed { numbers: [None; 8] };
    for word in words.split_whitespace() {
        typed.add(heap, word)?;
    }
    let numbers = typed.numbers.map(|number| number.unwrap_or(0));
    Packet::new(&numbers).map_err(|fault| told(format!(in heap; "{fault}")))
}
