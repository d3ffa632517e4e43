//! The regions behind the least next key catch up.
ghost use Rattle.std.specs.Prelude.{◌≡◌, ◌<◌, ℕ, true, false, OnOk, OnErr};
ghost use Rattle.surf_kinds.specs.Keys.{◌is_below◌, ◌is_upto◌};
ghost use Rattle.warp_core.specs.World.{IsWorld, end_key};
ghost use Rattle.warp_core.specs.Cores.{Core, IsConsistent};
ghost use Rattle.warp_core.specs.Settling.{ArePast, IsLeastNext, IsSettling, IsSettled, IsUnderWay};
ghost use Rattle.warp_core.specs.SettlingLoops.{IsPassing, IsFinishing};

use crate::deliver::deliver_all;
use crate::machine::Machine;
use surf_kinds::{Key, NoMemory};

/// The least next key of all regions.
pub fn least_next<M: Machine>(m: &M, n: u32) -> Key
    requires inside { (n ≡ (M.world m.now).regions) × (0 < n) }
    requires good { IsConsistent (M.world m.now) (M.core m.now) }
    ensures { IsLeastNext (M.world m.now) (M.core m.now) n result }
{
    let mut least = m.next_key(0);
    for i in 1..n {
        let here = m.next_key(i);
        if here.is_before(least) {
            least = here;
        }
    }
    least
}

/// Whether some region is at or behind the key.
pub fn some_behind<M: Machine>(m: &M, n: u32, key: Key) -> bool
    requires inside { n ≡ (M.world m.now).regions }
    ensures some { result ≡ true → (i : ℕ) × (i < n) × (((M.core m.now).part i).clock is_upto key) }
    ensures none { result ≡ false → ArePast (M.core m.now) key n }
{
    for i in 0..n {
        if !key.is_before(m.clock(i)) {
            return true;
        }
    }
    false
}

/// One step of each region that is at or behind the key.
pub fn pass<M: Machine>(m: &mut M, n: u32, key: Key) -> Result<(), NoMemory>
    requires inside { n ≡ (M.world m.old).regions }
    requires world { IsWorld (M.world m.old) }
    requires early { key is_below end_key (M.world m.old) }
    requires first { IsPassing (M.world m.old) (M.core m.old) (M.core m.old) key 0 }
    ensures world { M.world m.new ≡ M.world m.old }
    ensures rest { M.rest m.new ≡ M.rest m.old }
    ensures passed { OnOk result (IsPassing (M.world m.old) (M.core m.old) (M.core m.new) key n) }
    ensures under_way { IsUnderWay (M.world m.old) (M.core m.old) (M.core m.new) }
{
    for i in 0..n {
        if !key.is_before(m.clock(i)) {
            m.step_one(i)?;
        }
    }
    Ok(())
}

/// Where nothing is left, brings every clock to the end.
pub fn finish<M: Machine>(m: &mut M, n: u32) -> Result<(), NoMemory>
    requires inside { n ≡ (M.world m.old).regions }
    requires world { IsWorld (M.world m.old) }
    requires first { (old : Core) → (M.core m.old).horizon ≡ old.horizon → IsFinishing (M.world m.old) old (M.core m.old) 0 }
    ensures world { M.world m.new ≡ M.world m.old }
    ensures rest { M.rest m.new ≡ M.rest m.old }
    ensures finished { OnOk result ((old : Core) → (M.core m.old).horizon ≡ old.horizon → IsFinishing (M.world m.old) old (M.core m.new) n) }
    ensures under_way { IsUnderWay (M.world m.old) (M.core m.old) (M.core m.new) }
{
    for i in 0..n {
        if m.clock(i).is_before(m.end()) {
            m.step_one(i)?;
        }
    }
    Ok(())
}

/// Delivers every message; then the regions at or behind the least next key catch up.
pub fn settle<M: Machine>(m: &mut M) -> Result<(), NoMemory>
    requires world { IsWorld (M.world m.old) }
    requires good { IsConsistent (M.world m.old) (M.core m.old) }
    ensures world { M.world m.new ≡ M.world m.old }
    ensures rest { M.rest m.new ≡ M.rest m.old }
    ensures settled { OnOk result (IsSettled (M.world m.old) (M.core m.old) (M.core m.new)) }
    ensures under_way { IsUnderWay (M.world m.old) (M.core m.old) (M.core m.new) }
{
    deliver_all(m)?;
    let n = m.regions();
    let key = least_next(m, n);
    if !key.is_before(m.end()) {
        finish(m, n)?;
        return Ok(());
    }
    while some_behind(m, n, key) {
        pass(m, n, key)?;
        deliver_all(m)?;
    }
    Ok(())
}
