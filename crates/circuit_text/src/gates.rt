//! The gates among nets.

ghost use Rattle.std.specs.Prelude.{◌≡◌, ◌≤◌, length, IfOk};
ghost use Rattle.circuit_text.specs.Values.{gates_of};

use crate::kinds::Net;
use std::alloc::Global;
use surf_kinds::NoMemory;

/// The numbers of the nets that are gates.
pub(crate) fn gates_of(alloc: Global, nets: &[Net]) -> Result<Vec<u32>, NoMemory>
    requires { length nets.now ≤ 65536 }
    ensures { IfOk result (λ v. v.items ≡ gates_of nets.now) }
{
    let mut gates = Vec::new(alloc);
    let mut number = 0;
    for net in nets {
        if let Net::Gate { .. } = net {
            gates.push(number)?;
        }
        number += 1;
    }
    Ok(gates)
}
