use super::*;
use std::test::Fail;
use surf_kinds::SpeciesId;

/// Hands a value on whose type may be sent to other threads and shared between them.
fn shared<T: Send + Sync>(value: T) -> T {
    value
}

#[test]
fn names_are_numbered(rt: HostRuntime) -> Result<(), Fail> {
    let mut names = shared(Names::new(rt.alloc()));
    assert_eq!(rt; names.count(), 0);
    for (name, number) in [("A", 0), ("BB", 1), ("A", 0), ("a", 2), ("é", 3), ("BB", 1)] {
        assert_eq!(rt; names.intern(name), Ok(SpeciesId(number)));
    }
    for (name, number) in [
        ("A", Some(SpeciesId(0))),
        ("é", Some(SpeciesId(3))),
        ("B", None),
    ] {
        assert_eq!(rt; names.find(name), number);
    }
    assert_eq!(rt; names.count(), 4);
    Ok(())
}

#[test]
fn texts_are_numbered(rt: HostRuntime) -> Result<(), Fail> {
    let mut texts = shared(Texts::new(rt.alloc()));
    for text in ["rng_seed", "é", "rng_seed"] {
        texts.add(text)?;
    }
    assert_eq!(rt; texts.count(), 2);
    assert!(rt; texts.has("rng_seed"));
    assert!(rt; !texts.has("rng"));
    assert_eq!(rt; texts.find("é"), Some(1));
    assert_eq!(rt; texts.find("e"), None);
    assert_eq!(rt; texts.text(1), "é");
    Ok(())
}
