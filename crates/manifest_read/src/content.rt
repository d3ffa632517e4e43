//! The content of the lines that were read.

ghost use Rattle.std.specs.Prelude.{◌≡◌, ◌<◌, ◌+◌, ◌^◌, ◌&&◌, ◌==◌, not, nat_lt, IfOk, if◌then◌else◌};
ghost use Rattle.surf_text.specs.Cuts.{words_of};
ghost use Rattle.manifest_read.specs.Manifest.{SettingEntry, RuleEntry, RowEntry, ColourEntry, entry_at, is_ragged, manifest_by};
ghost use Rattle.lattice.specs.Shape.{IsSize};
ghost use Rattle.manifest_read.specs.Sorts.{Plain};
ghost use Rattle.manifest_read.specs.Views.{content_so_far, Enters, entered, start_content, text_at, form_at, Fills, cells_collected};

use crate::collected::Collected;
use crate::fault::ManifestKind;
use crate::manifest::{LineList, Manifest};
use crate::names::{count_words, is_name};
use crate::rules::read_rule;
use crate::section::{Opened, Section};
use crate::settings::{SettingList, setting_parts, value_fault};
use crate::text::Text;
use lattice::Lattice;
use species::NameError;
use std::alloc::Global;
use surf_kinds::NoMemory;
use surf_text::Words;

const MOST_RULES: usize = 4096;

const MOST_SITES: usize = 1_048_576;

/// Why a line was refused.
#[derive(Clone, Copy, Debug, PartialEq, Eq)]
pub(crate) enum Refusal {
    Kind(ManifestKind),
    /// Memory ran out.
    Memory,
}

/// The content of the lines that were read.
#[derive(Drop)]
pub(crate) struct ContentBuilder {
    pub(crate) settings: SettingList,
    pub(crate) collected: Collected,
    pub(crate) rows: usize,
    /// The number of names in a row.
    pub(crate) cols: usize,
    /// The lines of the colour section, where that was there.
    pub(crate) colours: Option<LineList>,
}

/// Whether a row of so many names is not as long as the first one.
fn is_ragged(rows: usize, cols: usize, count: usize) -> bool
    ensures { result ≡ is_ragged rows cols count }
{
    rows > 0 && count != cols
}

/// Whether there are too many sites with those of one more row.
fn is_too_wide(sites: usize, count: usize) -> bool
    ensures { result ≡ nat_lt 1048576 (sites + count) }
{
    count > MOST_SITES || sites > MOST_SITES - count
}

/// How many names a row has, by the first one.
fn row_width(rows: usize, cols: usize, count: usize) -> usize
    ensures { result ≡ (if rows == 0 then count else cols) }
{
    if rows == 0 { count } else { cols }
}

/// Takes the names of a row.
fn take_cells(collected: &mut Collected, text: &str) -> Result<(), Refusal>
    ensures { Fills result collected.new (cells_collected (words_of text.now) collected.old) }
{
    let mut words = Words::new(text);
    while let Some(word) = words.next_word() {
        if !is_name(word) {
            return Err(Refusal::Kind(ManifestKind::BadName));
        }
        match collected.cell(word) {
            Ok(()) => {}
            Err(NameError::TooMany) => return Err(Refusal::Kind(ManifestKind::TooManySpecies)),
            Err(NameError::Memory) => return Err(Refusal::Memory),
        }
    }
    Ok(())
}

impl ContentBuilder {
    /// Nothing.
    pub(crate) fn new(alloc: Global) -> ContentBuilder
        ensures { content_so_far result ≡ start_content }
    {
        ContentBuilder {
            settings: SettingList::new(alloc),
            collected: Collected::new(alloc),
            rows: 0,
            cols: 0,
            colours: None,
        }
    }

    fn setting(&mut self, alloc: Global, text: &str) -> Result<(), Refusal>
        ensures entered { Enters result (content_so_far self.new) (entered (content_so_far self.old) (SettingEntry text.now)) }
    {
        let Some((name, value)) = setting_parts(text) else {
            return Err(Refusal::Kind(ManifestKind::BadSetting));
        };
        if self.settings.has(name) {
            return Err(Refusal::Kind(ManifestKind::SettingTwice));
        }
        if let Some(kind) = value_fault(name, value) {
            return Err(Refusal::Kind(kind));
        }
        match self.settings.add(alloc, name, value) {
            Ok(()) => Ok(()),
            Err(_) => Err(Refusal::Memory),
        }
    }

    fn rule(&mut self, text: &str) -> Result<(), Refusal>
        ensures entered { Enters result (content_so_far self.new) (entered (content_so_far self.old) (RuleEntry text.now)) }
    {
        let rule = match read_rule(text) {
            Ok(rule) => rule,
            Err(kind) => return Err(Refusal::Kind(kind)),
        };
        if self.collected.rule_count() >= MOST_RULES {
            return Err(Refusal::Kind(ManifestKind::TooManyRules));
        }
        match self.collected.rule(&rule) {
            Ok(()) => Ok(()),
            Err(NameError::TooMany) => Err(Refusal::Kind(ManifestKind::TooManySpecies)),
            Err(NameError::Memory) => Err(Refusal::Memory),
        }
    }

    fn row(&mut self, text: &str) -> Result<(), Refusal>
        requires { self.old.rows < 2 ^ 63 }
        ensures entered { Enters result (content_so_far self.new) (entered (content_so_far self.old) (RowEntry (words_of text.now))) }
    {
        let count = count_words(text);
        if is_ragged(self.rows, self.cols, count) {
            return Err(Refusal::Kind(ManifestKind::RaggedRow));
        }
        if is_too_wide(self.collected.cell_count(), count) {
            return Err(Refusal::Kind(ManifestKind::TooManySites));
        }
        match take_cells(&mut self.collected, text) {
            Ok(()) => {}
            Err(refusal) => return Err(refusal),
        }
        self.cols = row_width(self.rows, self.cols, count);
        self.rows += 1;
        Ok(())
    }

    fn colour(&mut self, alloc: Global, text: &str) -> Result<(), Refusal>
        ensures entered { Enters result (content_so_far self.new) (entered (content_so_far self.old) (ColourEntry text.now)) }
    {
        let Ok(line) = Text::new(alloc, text) else {
            return Err(Refusal::Memory);
        };
        if let Some(lines) = &mut self.colours {
            let Ok(()) = lines.push(line) else {
                return Err(Refusal::Memory);
            };
        }
        Ok(())
    }

    /// Takes the text of a line that is not empty.
    fn enter_text(
        &mut self,
        alloc: Global,
        within: Option<Opened>,
        text: &str,
    ) -> Result<(), Refusal>
        requires { self.old.rows < 2 ^ 63 }
        ensures entered { Enters result (content_so_far self.new) (entered (content_so_far self.old) (form_at within text.now)) }
    {
        let Some(opened) = within else {
            return self.setting(alloc, text);
        };
        match opened.section {
            Section::Rules => self.rule(text),
            Section::Surface => self.row(text),
            Section::Colours => self.colour(alloc, text),
        }
    }

    /// Takes a line that is no section line.
    pub(crate) fn enter(
        &mut self,
        alloc: Global,
        within: Option<Opened>,
        bare: &str,
        whole: &str,
    ) -> Result<(), Refusal>
        requires { self.old.rows < 2 ^ 63 }
        ensures entered { Enters result (content_so_far self.new) (entered (content_so_far self.old) (entry_at within (Plain bare.now whole.now))) }
    {
        let text = entry_text(within, bare, whole);
        if text.is_empty() {
            return Ok(());
        }
        self.enter_text(alloc, within, text)
    }
}

/// The text of an entry: comments are not removed in the colour section.
fn entry_text<'a>(within: Option<Opened>, bare: &'a str, whole: &'a str) -> &'a str
    ensures { result.now ≡ text_at within bare.now whole.now }
{
    match within {
        Some(opened) if opened.section == Section::Colours => whole,
        _ => bare,
    }
}

/// The manifest with the content of all lines.
pub(crate) fn finished(alloc: Global, content: ContentBuilder) -> Result<Manifest, NoMemory>
    requires { IsSize content.rows content.cols }
    ensures { IfOk result (λ m. m ≡ manifest_by (content_so_far content)) }
{
    let values = content.settings.values();
    let numbered = content.collected.numbered(alloc)?;
    let rows = content.rows as u32;
    let cols = content.cols as u32;
    let Ok(lattice) = Lattice::new(values.kind, rows, cols, values.wrap) else {
        unreachable!()
    };
    Ok(Manifest {
        seed: values.seed,
        until: values.until,
        lattice,
        others: values.others,
        names: numbered.names,
        rules: numbered.rules,
        cells: numbered.cells,
        colours: content.colours,
    })
}
