//! The names that the lines of a text define.

ghost use Rattle.std.specs.Prelude.{◌≡◌, ◌≤◌, [], fold, length, map, true, OnOk, IfOk};
ghost use Rattle.std.specs.List.{list_all, flat_map};
ghost use Rattle.surf_text.specs.Cuts.{words_of};
ghost use Rattle.surf_text.specs.Lines.{lines_of};
ghost use Rattle.species.specs.Texts.{with_text};
ghost use Rattle.circuit_text.specs.Names.{is_name};
ghost use Rattle.circuit_text.specs.Lines.{sort_of};
ghost use Rattle.circuit_text.specs.Circuits.{defines};

use crate::reader::sure_name;
use crate::sort::{Sort, sort_line};
use species::Texts;
use std::alloc::Global;
use surf_kinds::NoMemory;
use surf_text::{Cursor, Words};

fn add_words(all: &mut Texts, text: &[u8]) -> Result<(), NoMemory>
    requires { list_all is_name (words_of text.now) ≡ true }
    ensures { OnOk result (all.new ≡ fold with_text all.old (words_of text.now)) }
{
    let mut words = Words::new(text);
    while let Some(word) = words.next_word() {
        match all.add(sure_name(word)) {
            Ok(()) => {}
            Err(error) => return Err(error),
        }
    }
    Ok(())
}

fn add_line(all: &mut Texts, line: &[u8]) -> Result<(), NoMemory>
    ensures { OnOk result (all.new ≡ fold with_text all.old (defines (sort_of line.now))) }
{
    match sort_line(line) {
        Sort::Inputs(names) => add_words(all, names),
        Sort::One { name, .. } => all.add(name),
        Sort::Two { name, .. } => all.add(name),
        Sort::Blank | Sort::Outputs(_) | Sort::Formless => Ok(()),
    }
}

/// The names that the well-formed lines of a text define, each once.
pub(crate) fn defined_names(alloc: Global, text: &[u8]) -> Result<Texts, NoMemory>
    requires size { length text.now ≤ 67108864 }
    ensures { IfOk result (λ all. all ≡ fold with_text [] (flat_map defines (map sort_of (lines_of text.now)))) }
{
    let mut all = Texts::new(alloc);
    let mut cursor = Cursor::new(text);
    while let Some(line) = cursor.next_line() {
        match add_line(&mut all, line.bytes) {
            Ok(()) => {}
            Err(error) => return Err(error),
        }
    }
    Ok(all)
}
