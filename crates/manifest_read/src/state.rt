//! The state of the reader of a manifest.

ghost use Rattle.std.specs.Prelude.{◌≡◌, ◌<◌, ◌+◌, ◌^◌, Err};
ghost use Rattle.manifest_read.specs.declared.fault.ManifestError.TheVariants.{Fault};
ghost use Rattle.manifest_read.specs.Manifest.{fault};
ghost use Rattle.manifest_read.specs.Sorts.{Starts, Ends, Plain};
ghost use Rattle.manifest_read.specs.Steps.{start, was_seen, by_sort, next, ended};
ghost use Rattle.manifest_read.specs.Views.{reader_state, Takes, Gives, IsShaped};

use crate::content::{ContentBuilder, Refusal, finished};
use crate::fault::{ManifestError, ManifestFault, ManifestKind};
use crate::manifest::{LineList, Manifest};
use crate::section::{Opened, Section};
use crate::sort::{Sort, sort_line};
use std::alloc::Global;

/// The state of the reader after the lines that it read.
#[derive(Drop)]
pub(crate) struct State {
    pub(crate) lines: u64,
    pub(crate) within: Option<Opened>,
    pub(crate) rules_seen: bool,
    pub(crate) surface_seen: bool,
    pub(crate) content: ContentBuilder,
}

fn refuse<T>(kind: ManifestKind, at: u64) -> Result<T, ManifestError>
    ensures { result ≡ Err (Fault (fault kind at)) }
{
    Err(ManifestError::Fault(ManifestFault { kind, at }))
}

impl State {
    /// Before the first line.
    pub(crate) fn new(alloc: Global) -> State
        ensures { reader_state result ≡ start }
    {
        State {
            lines: 0,
            within: None,
            rules_seen: false,
            surface_seen: false,
            content: ContentBuilder::new(alloc),
        }
    }

    fn was_seen(&self, section: Section) -> bool
        ensures { result ≡ was_seen (reader_state self.now) section }
    {
        match section {
            Section::Rules => self.rules_seen,
            Section::Surface => self.surface_seen,
            Section::Colours => self.content.colours.is_some(),
        }
    }

    /// Takes the start of a section.
    fn begin(&mut self, alloc: Global, section: Section) -> Result<(), ManifestError>
        ensures outcome { Takes result (reader_state self.new) (by_sort self.old.lines (reader_state self.old) (Starts section)) }
    {
        if let Some(opened) = self.within {
            return refuse(ManifestKind::SectionOpen, opened.line);
        }
        if self.was_seen(section) {
            return refuse(ManifestKind::SectionTwice, self.lines);
        }
        self.within = Some(Opened {
            section,
            line: self.lines,
        });
        match section {
            Section::Rules => self.rules_seen = true,
            Section::Surface => self.surface_seen = true,
            Section::Colours => self.content.colours = Some(LineList::new(alloc)),
        }
        Ok(())
    }

    /// Takes the end of a section.
    fn finish(&mut self, section: Section) -> Result<(), ManifestError>
        ensures outcome { Takes result (reader_state self.new) (by_sort self.old.lines (reader_state self.old) (Ends section)) }
    {
        let Some(opened) = self.within else {
            return refuse(ManifestKind::UnknownSection, self.lines);
        };
        if opened.section != section {
            return refuse(ManifestKind::UnknownSection, self.lines);
        }
        if section == Section::Surface && self.content.rows == 0 {
            return refuse(ManifestKind::NoSites, self.lines);
        }
        self.within = None;
        Ok(())
    }

    /// Takes a line that is no section line.
    fn plain(&mut self, alloc: Global, bare: &str, whole: &str) -> Result<(), ManifestError>
        requires { self.old.content.rows < 2 ^ 63 }
        ensures outcome { Takes result (reader_state self.new) (by_sort self.old.lines (reader_state self.old) (Plain bare.now whole.now)) }
    {
        match self.content.enter(alloc, self.within, bare, whole) {
            Ok(()) => Ok(()),
            Err(Refusal::Kind(kind)) => refuse(kind, self.lines),
            Err(Refusal::Memory) => Err(ManifestError::Memory),
        }
    }

    /// Takes the next line.
    pub(crate) fn take(&mut self, alloc: Global, line: &str) -> Result<(), ManifestError>
        requires lines { self.old.lines + 1 < 2 ^ 64 }
        requires rows { self.old.content.rows < 2 ^ 63 }
        ensures outcome { Takes result (reader_state self.new) (next (reader_state self.old) line.now) }
    {
        self.lines += 1;
        match sort_line(line) {
            Sort::Starts(section) => self.begin(alloc, section),
            Sort::Ends(section) => self.finish(section),
            Sort::Unknown => refuse(ManifestKind::UnknownSection, self.lines),
            Sort::Plain { bare, whole } => self.plain(alloc, bare, whole),
        }
    }

    /// The manifest of all the lines.
    pub(crate) fn end(self, alloc: Global) -> Result<Manifest, ManifestError>
        requires lines { self.lines + 1 < 2 ^ 64 }
        requires shape { IsShaped (reader_state self) }
        ensures { Gives result (ended (reader_state self)) }
    {
        if let Some(opened) = self.within {
            return refuse(ManifestKind::SectionOpen, opened.line);
        }
        if !self.surface_seen {
            return refuse(ManifestKind::SectionMissing, self.lines + 1);
        }
        match finished(alloc, self.content) {
            Ok(manifest) => Ok(manifest),
            Err(_) => Err(ManifestError::Memory),
        }
    }
}
