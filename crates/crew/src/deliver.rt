//! Delivers every message.
ghost use Rattle.std.specs.Prelude.{◌≡◌, ◌≢◌, ◌<◌, ℕ, true, false, Some, OnOk, OnErr, IfOk};
ghost use Rattle.warp_core.specs.Cores.{IsConsistent};
ghost use Rattle.warp_core.specs.Settling.{TakesTo, AreEmpty};
ghost use Rattle.warp_core.specs.SettlingLoops.{Swept, OneEmpty, RowEmpty, RowsEmpty};
ghost use Rattle.crew.specs.Crews.{ToEmpty};

use crate::machine::Machine;
use surf_kinds::NoMemory;

/// Every message of one channel.
pub fn drain<M: Machine>(m: &mut M, from: u32, to: u32) -> Result<bool, NoMemory>
    requires inside { (from < (M.world m.old).regions) × (to < (M.world m.old).regions) × (from ≢ to) }
    requires good { IsConsistent (M.world m.old) (M.core m.old) }
    ensures world { M.world m.new ≡ M.world m.old }
    ensures rest { M.rest m.new ≡ M.rest m.old }
    ensures takes { TakesTo (M.world m.old) (M.core m.old) (M.core m.new) }
    ensures swept { IfOk result (λ moved. Swept (M.world m.old) (M.core m.old) (M.core m.new) moved (OneEmpty from to)) }
{
    let mut moved = false;
    while m.deliver(from, to)? {
        moved = true;
    }
    Ok(moved)
}

/// Every message of the channel to another region, where there is one.
fn drain_to<M: Machine>(m: &mut M, from: u32, to: Option<u32>) -> Result<bool, NoMemory>
    requires from { from < (M.world m.old).regions }
    requires to { (i : ℕ) → to ≡ Some i → (i < (M.world m.old).regions) × (from ≢ i) }
    requires good { IsConsistent (M.world m.old) (M.core m.old) }
    ensures world { M.world m.new ≡ M.world m.old }
    ensures rest { M.rest m.new ≡ M.rest m.old }
    ensures takes { TakesTo (M.world m.old) (M.core m.old) (M.core m.new) }
    ensures swept { IfOk result (λ moved. Swept (M.world m.old) (M.core m.old) (M.core m.new) moved (ToEmpty from to)) }
{
    match to {
        Some(to) => drain(m, from, to),
        None => Ok(false),
    }
}

/// Every message of each channel of a sender: those to its neighbours, since the others are empty.
pub fn sweep_from<M: Machine>(m: &mut M, from: u32, n: u32) -> Result<bool, NoMemory>
    requires inside { (n ≡ (M.world m.old).regions) × (from < n) }
    requires good { IsConsistent (M.world m.old) (M.core m.old) }
    ensures world { M.world m.new ≡ M.world m.old }
    ensures rest { M.rest m.new ≡ M.rest m.old }
    ensures takes { TakesTo (M.world m.old) (M.core m.old) (M.core m.new) }
    ensures swept { IfOk result (λ moved. Swept (M.world m.old) (M.core m.old) (M.core m.new) moved (RowEmpty from n)) }
{
    let neighbours = m.neighbours(from);
    let first = drain_to(m, from, neighbours.first)?;
    let second = drain_to(m, from, neighbours.second)?;
    Ok(first || second)
}

/// Every message that is there, or is put meanwhile into a channel that comes later.
pub fn sweep<M: Machine>(m: &mut M, n: u32) -> Result<bool, NoMemory>
    requires inside { n ≡ (M.world m.old).regions }
    requires good { IsConsistent (M.world m.old) (M.core m.old) }
    ensures world { M.world m.new ≡ M.world m.old }
    ensures rest { M.rest m.new ≡ M.rest m.old }
    ensures takes { TakesTo (M.world m.old) (M.core m.old) (M.core m.new) }
    ensures swept { IfOk result (λ moved. Swept (M.world m.old) (M.core m.old) (M.core m.new) moved (RowsEmpty (M.world m.old) n)) }
{
    let mut moved = false;
    for from in 0..n {
        if sweep_from(m, from, n)? {
            moved = true;
        }
    }
    Ok(moved)
}

/// Every message, until all channels are empty.
pub fn deliver_all<M: Machine>(m: &mut M) -> Result<(), NoMemory>
    requires good { IsConsistent (M.world m.old) (M.core m.old) }
    ensures world { M.world m.new ≡ M.world m.old }
    ensures rest { M.rest m.new ≡ M.rest m.old }
    ensures takes { TakesTo (M.world m.old) (M.core m.old) (M.core m.new) }
    ensures empty { OnOk result (AreEmpty (M.world m.new) (M.core m.new)) }
{
    let n = m.regions();
    let mut moved = true;
    while moved {
        moved = sweep(m, n)?;
    }
    Ok(())
}
