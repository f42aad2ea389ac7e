//! The plans of leaves.

ghost use Rattle.std.specs.Prelude.{◌≡◌, ◌<◌, ◌≤◌, ◌∷◌, List, Some, IfOk, length, drop};
ghost use Rattle.dap_model.specs.Cutting.{AreWithin};
ghost use Rattle.hyperslab_plan.specs.Picked.{count_of};
ghost use Rattle.netcdf_source.specs.Layouts.{element_sizes};
ghost use Rattle.netcdf_source.specs.Mapping.{leaf_variable};
ghost use Rattle.netcdf_source.specs.declared.header.Variable.{Variable};
ghost use Rattle.dap_types.specs.declared.slabs.Slab.{Slab};
ghost use Rattle.join_source.specs.Wanted.{IsOverOwn, IsOwnPlan};

use dap_types::{BaseType, List, Memory, Slab};
use hyperslab_plan::Plan;
use netcdf_source::Header;
use std::alloc::Global;

/// The hyperslabs with another first one.
pub fn with_first(alloc: Global, first: Slab, slabs: &[Slab]) -> Result<List<Slab>, Memory>
    requires { 1 ≤ length slabs.now }
    ensures { IfOk result (λ own. own ≡ first ∷ drop 1 slabs.now) }
{
    let mut own = List::with_capacity(alloc, slabs.len())?;
    own.push(first)?;
    for slab in &slabs[1..] {
        own.push(*slab)?;
    }
    Ok(own)
}

/// The plan for what hyperslabs pick of a leaf of a file.
pub fn plan_of(alloc: Global, header: &Header, leaf: u32, slabs: &[Slab]) -> Result<Plan, Memory>
    requires leaf { (v : Variable) × (leaf_variable header.now.contents leaf ≡ Some v) × AreWithin slabs.now (element_sizes header.now.contents v) }
    requires few { count_of slabs.now ≤ 2147483647 }
    ensures plan { IfOk result (λ plan. IsOwnPlan header.now leaf slabs.now plan) }
{
    let Some(layout) = header.layout(leaf) else {
        unreachable!();
    };
    let Some(base) = header.base(leaf) else {
        unreachable!();
    };
    Plan::new(alloc, layout, base, slabs)
}

/// The plan for what hyperslabs pick of a record variable of a file.
pub fn record_plan(
    alloc: Global,
    header: &Header,
    leaf: u32,
    slabs: &[Slab],
) -> Result<Plan, Memory>
    requires { (first : Slab) × (rest : List Slab) × (slabs.now ≡ first ∷ rest) × IsOverOwn header.now leaf first rest }
    ensures { IfOk result (λ plan. IsOwnPlan header.now leaf slabs.now plan) }
{
    if !header.is_record(leaf) {
        unreachable!();
    }
    plan_of(alloc, header, leaf, slabs)
}
