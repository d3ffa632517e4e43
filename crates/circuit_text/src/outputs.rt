//! The numbers of the nets that are outputs.

ghost use Rattle.std.specs.Prelude.{◌≡◌, ◌≤◌, ◌<◌, ℕ, length, map, get_or, IfOk, true};
ghost use Rattle.std.specs.List.{list_all};
ghost use Rattle.species.specs.Texts.{is_in, index_of};

use species::Texts;
use std::alloc::Global;
use surf_kinds::NoMemory;

/// The number of a name that is in the list.
fn number_of(names: &Texts, name: &str) -> u32
    requires few { length names.now ≤ 65536 }
    requires known { is_in names.now name.now ≡ true }
    ensures number { result ≡ index_of names.now name.now }
    ensures within { result < length names.now }
{
    match names.find(name) {
        Some(index) => index as u32,
        None => unreachable!(),
    }
}

/// The numbers of the names of outputs, in their order.
pub(crate) fn numbers_of(
    alloc: Global,
    names: &Texts,
    outputs: &[&str],
) -> Result<Vec<u32>, NoMemory>
    requires few { length names.now ≤ 65536 }
    requires known { list_all (is_in names.now) (map (λ x. x.now) outputs.now) ≡ true }
    ensures count { IfOk result (λ v. length v.items ≡ length outputs.now) }
    ensures numbers { IfOk result (λ v. v.items ≡ map (index_of names.now) (map (λ x. x.now) outputs.now)) }
    ensures within { IfOk result (λ v. (i : ℕ) → i < length v.items → get_or v.items i 0 < length names.now) }
{
    let mut numbers = Vec::new(alloc);
    for name in outputs {
        numbers.push(number_of(names, name))?;
    }
    Ok(numbers)
}
