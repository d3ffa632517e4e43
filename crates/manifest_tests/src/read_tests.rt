//! Manifests as they are read, and their faults.

use crate::texts::DEMO;
use lattice::Kind;
use manifest_read::{
    Manifest, ManifestError, ManifestFault, ManifestKind, Setting, Settings, Text, read_manifest,
};
use std::alloc::Global;
use std::process::Abort;
use std::test::Fail;
use surf_kinds::{Rate, Rule, SpeciesId};

/// A value that workers may share and hand on.
fn shared<T: Send + Sync>(value: T) -> T {
    value
}

/// The fault of a text.
fn fault_of(alloc: Global, text: &[u8]) -> Option<ManifestFault> {
    if text.len() > 1_000_000 {
        return None;
    }
    match read_manifest(alloc, text) {
        Err(ManifestError::Fault(fault)) => Some(fault),
        _ => None,
    }
}

fn at(kind: ManifestKind, at: u64) -> Option<ManifestFault> {
    Some(ManifestFault { kind, at })
}

/// Sees the settings and the names of a manifest.
fn sees_settings<R: Abort>(rt: &R, read: &Manifest) {
    assert_eq!(rt; read.seed, 7);
    assert_eq!(rt; read.until, 2_500_000);
    assert!(rt; read.lattice.kind() == Kind::Square);
    assert!(rt; !read.lattice.wrap());
    assert_eq!(rt; read.lattice.rows(), 2);
    assert_eq!(rt; read.lattice.cols(), 2);
    let others = read.others.as_slice();
    assert_eq!(rt; others.len(), 2);
    assert_eq!(rt; others[0].name.as_str(), "pixels_per_node");
    assert_eq!(rt; others[0].value.as_str(), "50");
    assert_eq!(rt; others[1].name.as_str(), "fps");
    assert_eq!(rt; others[1].value.as_str(), "60");
    assert_eq!(rt; read.names.count(), 3);
    for (name, number) in [("A", 0), ("B", 1), ("C", 2)] {
        assert_eq!(rt; read.names.find(name), Some(SpeciesId(number)));
    }
}

/// Sees the rules, the rows and the colours of a manifest.
#[tactic(auto, using(surf_kinds::proofs::Fractions::whole_reduced, surf_kinds::proofs::Fractions::one_over_reduced))]
fn sees_sections<R: Abort>(rt: &R, read: &Manifest) -> Result<(), Fail> {
    let [a, b, c] = [SpeciesId(0), SpeciesId(1), SpeciesId(2)];
    let two = Rule::Two {
        rate: Rate { p: 1, q: 1 },
        a,
        b,
        c: b,
        d: a,
    };
    let one = Rule::One {
        rate: Rate { p: 1, q: 4 },
        a: c,
        c: a,
    };
    assert_eq!(rt; read.rules.as_slice(), [two, one].as_slice());
    assert_eq!(rt; read.cells.as_slice(), [a, b, c, a].as_slice());
    let colours = read.colours.as_ref().ok_or("no colours")?.as_slice();
    assert_eq!(rt; colours.len(), 1);
    assert_eq!(rt; colours[0].as_str(), "A: (255, 0, 0)");
    Ok(())
}

#[test]
fn a_manifest_is_read_whole(rt: HostRuntime) -> Result<(), Fail> {
    let read = shared(read_manifest(rt.alloc(), DEMO)?);
    sees_settings(&rt, &read);
    sees_sections(&rt, &read)
}

/// Sees a manifest whose cells stand before its rules.
fn sees_cells_first<R: Abort>(rt: &R, read: &Manifest) -> Result<(), Fail> {
    assert!(rt; read.lattice.kind() == Kind::Hex);
    assert!(rt; read.lattice.wrap());
    assert_eq!(rt; read.until, 100_000_000);
    for (name, number) in [("A", 0), ("C", 1), ("B", 2)] {
        assert_eq!(rt; read.names.find(name), Some(SpeciesId(number)));
    }
    assert_eq!(rt;
        read.cells.as_slice(),
        [SpeciesId(2), SpeciesId(0)].as_slice()
    );
    let others = read.others.as_slice();
    assert_eq!(rt; others.len(), 1);
    assert_eq!(rt; others[0].name.as_str(), "empty");
    assert_eq!(rt; others[0].value.as_str(), "");
    let colours = read.colours.as_ref().ok_or("no colours")?.as_slice();
    assert_eq!(rt; colours.len(), 1);
    assert_eq!(rt; colours[0].as_str(), "# B: red");
    Ok(())
}

#[test]
fn names_are_numbered_by_the_rules_first(rt: HostRuntime) -> Result<(), Fail> {
    let text =
        b"\xef\xbb\xbflattice = hex\r\nwrap = True\r\nempty =\r\n!START_INIT_STATE\r\nB A\r\n!END_INIT_STATE\r\n!START_COLORMAP\r\n\r\n # B: red \r\n!END_COLORMAP\r\n!START_TRANSITION_RULES\r\nA -> C # decay\r\n!END_TRANSITION_RULES";
    let read = read_manifest(rt.alloc(), text)?;
    sees_cells_first(&rt, &read)
}

#[test]
fn faults_of_sections_are_found(rt: HostRuntime) {
    for (text, kind, line) in [
        ("", ManifestKind::SectionMissing, 1),
        ("!INCLUDE x", ManifestKind::UnknownSection, 1),
        ("!END_INIT_STATE", ManifestKind::UnknownSection, 1),
        ("!START_INIT_STATE\nA", ManifestKind::SectionOpen, 1),
        (
            "\n!START_INIT_STATE\n!START_COLORMAP",
            ManifestKind::SectionOpen,
            2,
        ),
        (
            "!START_INIT_STATE\n!END_INIT_STATE",
            ManifestKind::NoSites,
            2,
        ),
        (
            "!START_COLORMAP\n!END_COLORMAP\n!START_COLORMAP",
            ManifestKind::SectionTwice,
            3,
        ),
    ] {
        assert_eq!(rt; fault_of(rt.alloc(), text.as_bytes()), at(kind, line));
    }
}

#[test]
fn faults_of_settings_are_found(rt: HostRuntime) {
    for (text, kind, line) in [
        ("a = 1\nwrap", ManifestKind::BadSetting, 2),
        (" = 5", ManifestKind::BadSetting, 1),
        ("wrap = true\nwrap = true", ManifestKind::SettingTwice, 2),
        ("wrap = true\nwrap = yes", ManifestKind::SettingTwice, 2),
        ("rng_seed = -1", ManifestKind::BadSeed, 1),
        ("rng_seed = 18446744073709551616", ManifestKind::BadSeed, 1),
        ("max_duration = 1000000001", ManifestKind::BadDuration, 1),
        ("lattice = triangle", ManifestKind::BadLattice, 1),
        ("wrap = yes", ManifestKind::BadWrap, 1),
        ("wrap =", ManifestKind::BadWrap, 1),
    ] {
        assert_eq!(rt; fault_of(rt.alloc(), text.as_bytes()), at(kind, line));
    }
}

#[test]
fn faults_of_rules_and_rows_are_found(rt: HostRuntime) {
    for (text, kind, line) in [
        (
            "!START_TRANSITION_RULES\n(1000000000",
            ManifestKind::BadRate,
            2,
        ),
        (
            "!START_TRANSITION_RULES\n(1000000000) A + B ->",
            ManifestKind::BadRule,
            2,
        ),
        (
            "!START_TRANSITION_RULES\n(1000000000) A + B -> A",
            ManifestKind::BadArity,
            2,
        ),
        (
            "!START_TRANSITION_RULES\n(1000000000) A + B -> A + C",
            ManifestKind::SectionOpen,
            1,
        ),
        (
            "!START_TRANSITION_RULES\nA -> B\n!END_TRANSITION_RULE",
            ManifestKind::UnknownSection,
            3,
        ),
        (
            "!START_TRANSITION_RULES\nA -> B\n!END_TRANSITION_RULES",
            ManifestKind::SectionMissing,
            4,
        ),
        (
            "!START_TRANSITION_RULES\nA -> B\n!END_TRANSITION_RULES\n!START_INIT_STATE\nB A B",
            ManifestKind::SectionOpen,
            4,
        ),
        (
            "!START_INIT_STATE\nA B\nA B\nA\n!END_INIT_STATE",
            ManifestKind::RaggedRow,
            4,
        ),
        ("!START_INIT_STATE\nA (B", ManifestKind::BadName, 2),
        ("!START_INIT_STATE\nA B\nA->B", ManifestKind::RaggedRow, 3),
    ] {
        assert_eq!(rt; fault_of(rt.alloc(), text.as_bytes()), at(kind, line));
    }
}

#[test]
fn bytes_before_a_bad_one_are_counted(rt: HostRuntime) {
    for (text, count) in [
        (b"\xff".as_slice(), 0),
        (b"\xef\xbb\xbfa\xff".as_slice(), 4),
        (b"!INCLUDE x\n\xff".as_slice(), 11),
    ] {
        assert_eq!(rt;
            fault_of(rt.alloc(), text),
            at(ManifestKind::NotUtf8, count)
        );
    }
}

#[test]
fn no_more_than_4096_rules_and_names_are_read(rt: HostRuntime) -> Result<(), Fail> {
    let alloc = rt.alloc();
    let mut rules = b"!START_TRANSITION_RULES\n".to_vec(alloc)?;
    for _ in 0..4096 {
        rules.extend_from_slice(b"A -> B\n")?;
    }
    assert_eq!(rt; fault_of(alloc, &rules), at(ManifestKind::SectionOpen, 1));
    rules.extend_from_slice(b"A -> B\n")?;
    assert_eq!(rt;
        fault_of(alloc, &rules),
        at(ManifestKind::TooManyRules, 4098)
    );
    let mut row = b"!START_INIT_STATE\n".to_vec(alloc)?;
    for number in 0..4097 {
        row.extend_from_slice(format!(in alloc; "{number} ")?.as_bytes())?;
    }
    assert_eq!(rt; fault_of(alloc, &row), at(ManifestKind::TooManySpecies, 2));
    Ok(())
}

#[test]
fn lists_and_texts_have_what_was_put_in(rt: HostRuntime) -> Result<(), Fail> {
    let alloc = rt.alloc();
    let mut settings = Settings::new(alloc);
    settings.push(Setting {
        name: Text::new(alloc, "pixels_per_node")?,
        value: Text::new(alloc, "5")?,
    })?;
    let items = settings.as_slice();
    assert_eq!(rt; items.len(), 1);
    assert_eq!(rt; items[0].name.as_str(), "pixels_per_node");
    assert_eq!(rt; items[0].value.as_str(), "5");
    Ok(())
}
