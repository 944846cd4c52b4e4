//! Sets of handles: a driver is found in such a set without a walk over all of it.
ghost use Rattle.std.specs.Prelude.{◌≡◌, ◌++◌, ◌∷◌, [], not, filter, map, IfOk, OnOk, if◌then◌else◌};
ghost use Rattle.std.specs.Ordering.{nat_cmp};
ghost use Rattle.std.specs.BTreeSet.{contains};
ghost use Rattle.driver_model.specs.Connect.{unmarked};
ghost use Rattle.driver_model.specs.OrderLaws.{is_among as is_among_value};
ghost use Rattle.driver_model.specs.declared.binding.BindingBlock.{BindingBlock as BlockValue};
ghost use Rattle.bind_plan.specs.HandleSet.{AreHandlesOf, IsSetOf};

use driver_model::BindingBlock;
use fw_types::OutOfMemory;
use std::alloc::Global;
use std::collections::BTreeSet;

/// The set of some numbers.
fn set_of(alloc: Global, numbers: &[u64]) -> Result<BTreeSet<u64>, OutOfMemory>
    ensures { IfOk result (λ set. IsSetOf numbers.now set) }
{
    let mut set = BTreeSet::new(alloc);
    for number in numbers {
        set.insert(*number)?;
    }
    Ok(set)
}

/// The drivers of a list whose handles are not in a set, in their order.
fn drivers_outside(
    alloc: Global,
    blocks: &[BindingBlock],
    handles: &BTreeSet<u64>,
) -> Result<Vec<BindingBlock>, OutOfMemory>
    ensures { IfOk result (λ others. others.items ≡
        filter (λ (block : BlockValue). not (contains nat_cmp handles.now block.handle)) blocks.now) }
{
    let mut others = Vec::with_capacity(alloc, blocks.len())?;
    for block in blocks {
        if !handles.contains(&block.handle.get()) {
            others.push(*block)?;
        }
    }
    Ok(others)
}

/// The drivers of a list whose handles are not among these, in their order.
#[tactic(auto, using(crate::proofs::HandleSets::outside_is_unmarked))]
pub fn drivers_without(
    alloc: Global,
    blocks: &[BindingBlock],
    handles: &[u64],
) -> Result<Vec<BindingBlock>, OutOfMemory>
    ensures { IfOk result (λ others. others.items ≡ unmarked handles.now blocks.now) }
{
    let set = set_of(alloc, handles)?;
    drivers_outside(alloc, blocks, &set)
}

/// Puts a driver after others if its handle is not in the set of their handles, and adds its handle
/// to the set.
pub fn add_unseen(
    drivers: &mut Vec<BindingBlock>,
    handles: &mut BTreeSet<u64>,
    block: &BindingBlock,
) -> Result<(), OutOfMemory>
    requires { AreHandlesOf drivers.old.items handles.old }
    ensures drivers { OnOk result (drivers.new.items ≡ drivers.old.items ++
        (if is_among_value drivers.old.items block.now then [] else block.now ∷ [])) }
    ensures handles { OnOk result (AreHandlesOf drivers.new.items handles.new) }
{
    if handles.insert(block.handle.get())? {
        drivers.push(*block)?;
    }
    Ok(())
}
