ghost use Rattle.std.specs.Prelude.{◌≡◌, ℕ, [], ◌∷◌, ◌++◌, length, vec_items, IfOk, string_bytes, OnOk};
ghost use Rattle.packet.specs.Telling.{told};
ghost use Rattle.console.specs.Texts.{FileAt, LastBegun, Tells, beside, ended, ends_line, file_name, in_file, line_ends, starts_of, text_of};

use crate::failure::Failure;
use packet::{Fault, TextPlace};
use std::alloc::{AllocError, Global};

/// A policy file.
#[derive(Debug, Drop)]
struct File {
    name: String,
    /// The byte of the whole text at which the file begins.
    start: usize,
}

/// Policy files read as one text, in the order given.
// No `Model`: clauses see its text alone, or its files; a view of both would be these two fields.
#[derive(Debug, Drop)]
pub struct Sources {
    files: Vec<File>,
    text: Vec<u8>,
}

impl Sources {
    /// No files.
    pub fn new(heap: Global) -> Sources
        ensures text { text_of result ≡ [] }
        ensures files { vec_items result.files ≡ [] }
    {
        Sources {
            files: Vec::new(heap),
            text: Vec::new(heap),
        }
    }

    /// One file more; where its last line has no end, it gets one.
    pub fn add(&mut self, name: String, content: &[u8]) -> Result<(), Failure>
        ensures text { OnOk result (text_of self.new ≡ text_of self.old ++ ended content.now) }
        ensures file { OnOk result (vec_items self.new.files ≡ vec_items self.old.files ++ record { name = name; start = length (text_of self.old) } ∷ []) }
    {
        let start = self.text.len();
        self.files.push(File { name, start })?;
        self.text.extend_from_slice(content)?;
        if !has_line_end(content) {
            self.text.push(b'\n')?;
        }
        Ok(())
    }

    /// The whole text.
    pub fn text(&self) -> &[u8]
        ensures { result.now ≡ text_of self.now }
    {
        self.text.as_slice()
    }

    /// A fault in one line: a reader's with the file that it is in, and its place there.
    pub fn tell(&self, heap: Global, fault: &Fault) -> Result<String, AllocError>
        ensures { IfOk result (λ line. Tells self.now fault.now (string_bytes line)) }
    {
        match fault {
            Fault::Reader { cause, place } => {
                let file = self.file_of(place);
                let local = Fault::Reader {
                    cause: *cause,
                    place: self.in_file(file, place),
                };
                self.tell_in_file(heap, file, &local, place)
            }
            _ => format!(in heap; "{fault}"),
        }
    }

    /// A fault as told in a file, with the file's name; where there are several, with its place in the whole text.
    fn tell_in_file(
        &self,
        heap: Global,
        file: Option<&File>,
        local: &Fault,
        whole: &TextPlace,
    ) -> Result<String, AllocError>
        ensures { IfOk result (λ line. (k : ℕ) → FileAt self.now k file.entry → string_bytes line ≡ told local.now ++ beside self.now k whole.now) }
    {
        let name = file.map_or("no file", |file| file.name.as_str());
        if self.files.len() == 1 {
            return format!(in heap; "{local} ({name})");
        }
        format!(in heap; "{local} ({name}; {whole} of the whole text)")
    }

    /// The file that a place is in: the last that begins there or before, else the first.
    fn file_of(&self, place: &TextPlace) -> Option<&File>
        ensures { (k : ℕ) × LastBegun (starts_of self.now) place.now.byte k × FileAt self.now k result }
    {
        self.files
            .iter()
            .rfind(|file| file.start <= place.byte)
            .or(self.files.first())
    }

    /// A place counted in a file.
    fn in_file(&self, file: Option<&File>, place: &TextPlace) -> TextPlace
        ensures { (k : ℕ) → FileAt self.now k file.entry → result ≡ in_file self.now k place.now }
    {
        let start = file.map_or(0, |file| file.start);
        let text = self.text();
        let before = text.get(..start).unwrap_or(text);
        TextPlace {
            line: place.line.saturating_sub(line_ends(before)),
            byte: place.byte.saturating_sub(start),
        }
    }
}

/// Whether the last line of a file has its end; a file without bytes wants none.
fn has_line_end(content: &[u8]) -> bool
    ensures { result ≡ ends_line content.now }
{
    content.last().is_none_or(|byte| *byte == b'\n')
}

/// How many line ends there are.
fn line_ends(content: &[u8]) -> usize
    ensures { result ≡ line_ends content.now }
{
    content.iter().filter(|byte| **byte == b'\n').count()
}
