//! The names of the species of a compiled manifest.

ghost use Rattle.std.specs.Prelude.{◌≡◌, ◌≤◌, map, fold, length, IfOk, Bool, if◌then◌else◌};
ghost use Rattle.species.specs.Names.{with_name};
ghost use Rattle.crn_compile.specs.Names.{all_names, rule_names};

use species::Names;
use std::alloc::Global;
use surf_kinds::NoMemory;

/// These names, by first appearance.
fn intern_all(names: &mut Names, texts: &[&str]) -> Result<(), NoMemory>
    ensures { IfOk result (λ u. names.new ≡ fold with_name names.old (map (λ x. x.now) texts.now)) }
{
    for text in texts {
        let Ok(_) = names.intern(text) else {
            return Err(NoMemory);
        };
    }
    Ok(())
}

/// The names of the species in the rules, in their order.
fn rule_names(alloc: Global) -> Result<Names, NoMemory>
    ensures { IfOk result (λ n. n ≡ rule_names) }
{
    let table = [
        "W0", "w", "W1", "v", "V0", "V1", "p", "P0", "P1", "q", "Q0", "Q1", "cxx", "c0x", "cx0",
        "c00", "cx1", "c01", "c1x", "c10", "c11", "gANDxx", "gAND0x", "gAND1x", "gANDx0", "G0",
        "gANDx1", "G1", "gORxx", "gOR0x", "gOR1x", "gORx0", "gORx1", "gXORxx", "gXOR0x", "gXOR1x",
        "gXORx0", "gXORx1", "gNANDxx", "gNAND0x", "gNAND1x", "gNANDx0", "gNANDx1", "gNORxx",
        "gNOR0x", "gNOR1x", "gNORx0", "gNORx1", "gXNORxx", "gXNOR0x", "gXNOR1x", "gXNORx0",
        "gXNORx1", "gNOT", "gBUF",
    ];
    let mut names = Names::new(alloc);
    match intern_all(&mut names, &table) {
        Ok(()) => Ok(names),
        Err(error) => Err(error),
    }
}

/// The name of the inert species too.
fn add_inert(names: &mut Names) -> Result<(), NoMemory>
    requires { names.old ≡ rule_names }
    ensures { IfOk result (λ u. names.new ≡ all_names) }
{
    match names.intern(".") {
        Ok(_) => Ok(()),
        Err(_) => Err(NoMemory),
    }
}

/// The names of the species, where it is wanted with that of the inert species.
pub(crate) fn names_of(alloc: Global, inert: bool) -> Result<Names, NoMemory>
    ensures { IfOk result (λ n. n ≡ (if inert then all_names else rule_names)) }
{
    let mut names = rule_names(alloc)?;
    if !inert {
        return Ok(names);
    }
    add_inert(&mut names)?;
    Ok(names)
}
