//! The settings that were read, and their values.

ghost use Rattle.std.specs.Prelude.{◌≡◌, ◌++◌, ◌∷◌, [], false, map, filter, OnOk};
ghost use Rattle.std.specs.List.{list_any};
ghost use Rattle.std.specs.Option.{option_map};
ghost use Rattle.std.specs.Str.{bytes_eq};
ghost use Rattle.manifest_read.specs.Seen.{setting_by};
ghost use Rattle.manifest_read.specs.Settings.{setting_of, is_seed, is_duration, is_lattice, is_wrap, kind_text, bool_text, kind_of, wrap_of, seed_in, duration_in, kind_in, wrap_in, is_other, setting_values, value_fault};

use crate::fault::ManifestKind;
use crate::items::Items;
use crate::manifest::Settings;
use crate::text::{Setting, Text};
use lattice::Kind;
use rates::read_duration;
use species::Texts;
use std::alloc::Global;
use std::marker::Model;
use surf_kinds::NoMemory;
use surf_text::{cut_text, read_u64, trim_text};

/// In ticks, where there is no duration: 100 units of a million ticks.
const DURATION: u64 = 100_000_000;

/// The name and the value of a setting; `None` where there is no name.
pub(crate) fn setting_parts(text: &str) -> Option<(&str, &str)>
    ensures { option_map setting_by result ≡ setting_of text.now }
{
    let (name, value) = cut_text(text, b'=')?;
    let name = trim_text(name);
    if name.is_empty() {
        return None;
    }
    Some((name, trim_text(value)))
}

fn is_seed(name: &str) -> bool
    ensures { result ≡ is_seed name.now }
{
    name == "rng_seed"
}

fn is_duration(name: &str) -> bool
    ensures { result ≡ is_duration name.now }
{
    name == "max_duration"
}

fn is_lattice(name: &str) -> bool
    ensures { result ≡ is_lattice name.now }
{
    name == "lattice"
}

fn is_wrap(name: &str) -> bool
    ensures { result ≡ is_wrap name.now }
{
    name == "wrap"
}

/// How a manifest spells a kind of lattice.
pub fn kind_name(kind: Kind) -> &'static str
    ensures { result.now ≡ kind_text kind }
{
    match kind {
        Kind::Square => "square",
        Kind::Hex => "hex",
    }
}

/// How a manifest spells a truth value; `True` and `False` are read too.
pub fn bool_name(value: bool) -> &'static str
    ensures { result.now ≡ bool_text value }
{
    if value { "true" } else { "false" }
}

fn read_kind(value: &str) -> Option<Kind>
    ensures { result ≡ kind_of value.now }
{
    if value == kind_name(Kind::Square) {
        Some(Kind::Square)
    } else if value == kind_name(Kind::Hex) {
        Some(Kind::Hex)
    } else {
        None
    }
}

fn read_wrap(value: &str) -> Option<bool>
    ensures { result ≡ wrap_of value.now }
{
    if value == bool_name(true) || value == "True" {
        Some(true)
    } else if value == bool_name(false) || value == "False" {
        Some(false)
    } else {
        None
    }
}

/// What is wrong with the value of a setting with a meaning.
pub(crate) fn value_fault(name: &str, value: &str) -> Option<ManifestKind>
    ensures { result ≡ value_fault (record { name = name.now; value = value.now }) }
{
    if is_seed(name) && read_u64(value.as_bytes()).is_none() {
        Some(ManifestKind::BadSeed)
    } else if is_duration(name) && read_duration(value.as_bytes()).is_none() {
        Some(ManifestKind::BadDuration)
    } else if is_lattice(name) && read_kind(value).is_none() {
        Some(ManifestKind::BadLattice)
    } else if is_wrap(name) && read_wrap(value).is_none() {
        Some(ManifestKind::BadWrap)
    } else {
        None
    }
}

fn seed_in(setting: &Setting) -> Option<u64>
    ensures { result ≡ seed_in setting.now }
{
    if is_seed(setting.name.as_str()) {
        read_u64(setting.value.as_str().as_bytes())
    } else {
        None
    }
}

fn duration_in(setting: &Setting) -> Option<u64>
    ensures { result ≡ duration_in setting.now }
{
    if is_duration(setting.name.as_str()) {
        read_duration(setting.value.as_str().as_bytes())
    } else {
        None
    }
}

fn kind_in(setting: &Setting) -> Option<Kind>
    ensures { result ≡ kind_in setting.now }
{
    if is_lattice(setting.name.as_str()) {
        read_kind(setting.value.as_str())
    } else {
        None
    }
}

fn wrap_in(setting: &Setting) -> Option<bool>
    ensures { result ≡ wrap_in setting.now }
{
    if is_wrap(setting.name.as_str()) {
        read_wrap(setting.value.as_str())
    } else {
        None
    }
}

fn is_other(setting: &Setting) -> bool
    ensures { result ≡ is_other setting.now }
{
    let name = setting.name.as_str();
    !(is_seed(name) || is_duration(name) || is_lattice(name) || is_wrap(name))
}

/// The settings without a meaning.
fn others_of(settings: Vec<Setting>) -> Settings
    ensures { result ≡ filter is_other settings.items }
{
    let mut others = settings;
    others.retain(|setting| is_other(setting));
    Items::of(others)
}

/// The values of settings.
#[derive(Drop)]
pub(crate) struct SettingValues {
    pub(crate) seed: u64,
    pub(crate) until: u64,
    pub(crate) kind: Kind,
    pub(crate) wrap: bool,
    pub(crate) others: Settings,
}

/// The settings so far, in their order.
#[derive(Drop)]
pub(crate) struct SettingList {
    names: Texts,
    items: Vec<Setting>,
}

impl Model for SettingList {
    ghost use Rattle.std.specs.Prelude.{List, map, ◌≡◌};
    ghost use Rattle.manifest_read.specs.declared.text.Setting.{Setting};

    ghost Value = { List Setting };

    ghost view = { λ s. s.items.items };

    ghost invariant = { λ s. s.names ≡ map (λ x. x.name) s.items.items };
}

impl SettingList {
    pub(crate) fn new(alloc: Global) -> SettingList
        ensures { result ≡ [] }
    {
        SettingList {
            names: Texts::new(alloc),
            items: Vec::new(alloc),
        }
    }

    /// Whether a setting of this name is there.
    pub(crate) fn has(&self, name: &str) -> bool
        ensures { result ≡ list_any (bytes_eq name.now) (map (λ s. s.name) self.now) }
    {
        self.names.has(name)
    }

    /// Puts a setting last.
    pub(crate) fn add(&mut self, alloc: Global, name: &str, value: &str) -> Result<(), NoMemory>
        requires { list_any (bytes_eq name.now) (map (λ s. s.name) self.old) ≡ false }
        ensures { OnOk result (self.new ≡ self.old ++ record { name = name.now; value = value.now } ∷ []) }
    {
        let setting = Setting {
            name: Text::new(alloc, name)?,
            value: Text::new(alloc, value)?,
        };
        // So that the names stay those of the settings whatever fails.
        self.items.reserve(1)?;
        self.names.add(name)?;
        let Ok(()) = self.items.push(setting) else {
            unreachable!()
        };
        Ok(())
    }

    /// The values of the settings.
    pub(crate) fn values(self) -> SettingValues
        ensures { record { seed = result.seed; until = result.until; kind = result.kind; wrap = result.wrap; others = result.others } ≡ setting_values self }
    {
        let mut seed = 0;
        let mut until = DURATION;
        let mut kind = Kind::Square;
        let mut wrap = false;
        for setting in &self.items {
            seed = seed_in(setting).unwrap_or(seed);
            until = duration_in(setting).unwrap_or(until);
            kind = kind_in(setting).unwrap_or(kind);
            wrap = wrap_in(setting).unwrap_or(wrap);
        }
        SettingValues {
            seed,
            until,
            kind,
            wrap,
            others: others_of(self.items),
        }
    }
}
