//! What a dataset is stored as, or the first cause why it is not.

ghost use Rattle.std.specs.Prelude.{◌≡◌, ◌+◌, ◌<◌, ◌≤◌, ◌^◌, ◌++◌, ◌∷◌, [], List, not, true, false, map, filter, find, drop, length, sum_by, IfOk, IfErr, OnOk, Option, None, Some, option_map};
ghost use Rattle.std.specs.List.{list_any};
ghost use Rattle.dap_types.specs.Model.{count};
ghost use Rattle.std.specs.Option.{option_or};
ghost use Rattle.netcdf_writer.specs.Variables.{Variable, is_empty_dim, room_in_record};
ghost use Rattle.netcdf_writer.specs.inner.Planned.{TopMember, Dimension, is_second};
ghost use Rattle.netcdf_writer.specs.inner.Tables.{top_view, top_views, variable_view, variable_views};
ghost use Rattle.netcdf_writer.specs.inner.Planned.{AreMaps, AreTops, IsPlanned, AddsRecords, Plans, StepsBeside, StepsTo, clash_in, new_in, own_of};

use crate::causes::why_alone;
use crate::dims::Dims;
use crate::lent::{Lent, dim_name, push};
use crate::same::is_same;
use crate::sizes::room_in_record;
use crate::stored::{Stop, Why};
use crate::table::Table;
use crate::tops::Top;
use dap_types::{Dim, Memory};
use std::alloc::Global;

/// The most bytes of a record.
const MOST_RECORD: u64 = 1 << 30;

/// The dimension of size 0 that some variables are over, and their bytes in a record.
#[derive(Clone, Copy, Debug)]
pub struct Record<'a> {
    dim: Option<&'a Dim>,
    bytes: u64,
}

/// The variables of some top members.
#[derive(Drop)]
pub struct Plan<'a> {
    pub variables: Vec<Lent<'a>>,
    pub dims: Dims<'a>,
    maps: Table<Lent<'a>>,
    record: Record<'a>,
}

/// The top members by their names.
fn by_name<'a>(alloc: Global, tops: &[Top<'a>]) -> Result<Table<Top<'a>>, Memory>
    ensures { IfOk result (λ names. AreTops names (top_views tops.now)) }
{
    let mut names = Table::new(alloc);
    for top in tops {
        names.add(alloc, top.decl.name().bytes(), *top)?;
    }
    Ok(names)
}

/// Whether a map is stored: no top array and no earlier map has its name.
#[tactic(auto, unfolding(crate::specs::inner::Planned::new_in))]
fn is_new<'a>(names: &Table<Top<'a>>, maps: &Table<Lent<'a>>, map: &Lent<'a>) -> bool
    ensures { result ≡ new_in names.now maps.now (variable_view map.now) }
{
    let name = map.name.bytes();
    let is_array = match names.get(name) {
        Some(top) => top.is_array(),
        None => false,
    };
    !is_array && maps.get(name).is_none()
}

/// Whether a map has the name of what it is not.
#[tactic(auto, unfolding(crate::specs::inner::Planned::clash_in))]
fn clashes<'a>(names: &Table<Top<'a>>, maps: &Table<Lent<'a>>, map: &Lent<'a>) -> bool
    ensures { result ≡ clash_in names.now maps.now (variable_view map.now) }
{
    let name = map.name.bytes();
    if let Some(top) = names.get(name) {
        if top.is_other_than(map) {
            return true;
        }
    }
    match maps.get(name) {
        Some(other) => !is_same(map, other),
        None => false,
    }
}

fn any_clashes<'a>(names: &Table<Top<'a>>, maps: &Table<Lent<'a>>, own: &[Lent<'a>]) -> bool
    ensures { result ≡ list_any (λ m. clash_in names.now maps.now (variable_view m)) own.now }
{
    own.iter().any(|map| clashes(names, maps, map))
}

/// The variables of a top member: its maps that are new, and itself.
fn stored<'a>(
    alloc: Global,
    names: &Table<Top<'a>>,
    maps: &Table<Lent<'a>>,
    own: &[Lent<'a>],
    top: &Top<'a>,
) -> Result<Vec<Lent<'a>>, Memory>
    ensures { IfOk result (λ vs. variable_views vs.items ≡ filter (new_in names.now maps.now) (variable_views own.now) ++ own_of (top_view top.now)) }
{
    let mut out = new_maps(alloc, names, maps, own)?;
    top.push_own(&mut out)?;
    Ok(out)
}

/// Appends a map that is new.
#[tactic(auto, using(crate::proofs::Listing::keeping))]
fn push_new<'a>(
    out: &mut Vec<Lent<'a>>,
    names: &Table<Top<'a>>,
    maps: &Table<Lent<'a>>,
    map: &Lent<'a>,
) -> Result<(), Memory>
    ensures { OnOk result (variable_views out.new.items ≡ variable_views out.old.items ++ filter (new_in names.now maps.now) (variable_view map.now ∷ [])) }
{
    if is_new(names, maps, map) {
        return push(out, *map);
    }
    Ok(())
}

fn new_maps<'a>(
    alloc: Global,
    names: &Table<Top<'a>>,
    maps: &Table<Lent<'a>>,
    own: &[Lent<'a>],
) -> Result<Vec<Lent<'a>>, Memory>
    ensures { IfOk result (λ vs. variable_views vs.items ≡ filter (new_in names.now maps.now) (variable_views own.now)) }
{
    let mut out = Vec::new(alloc);
    for map in own {
        push_new(&mut out, names, maps, map)?;
    }
    Ok(out)
}

/// Whether a dimension of size 0 is not the first of its variable.
fn is_inner_record(dims: &[Dim]) -> bool
    ensures { result ≡ list_any is_empty_dim (drop 1 dims.now) }
{
    dims.iter().skip(1).any(|dim| dim.size == 0)
}

/// Whether one of some dimensions has size 0 and another name than that one.
#[tactic(auto, using(crate::proofs::Dimensions::second_none))]
fn is_second(own: Option<&Dim>, dims: &[Dim]) -> bool
    ensures { result ≡ is_second (option_map (λ d. d.now) own.entry) dims.now }
{
    match own {
        Some(own) => dims
            .iter()
            .any(|dim| dim.size == 0 && dim_name(own) != dim_name(dim)),
        None => false,
    }
}

/// The first of some dimensions that has size 0.
fn first_record(dims: &[Dim]) -> Option<&Dim>
    ensures { option_map (λ d. d.now) result ≡ find is_empty_dim dims.now }
{
    dims.iter().find(|dim| dim.size == 0)
}

/// The first dimension of size 0, where that one is the first of those before.
fn first_of<'a>(own: Option<&'a Dim>, dims: &'a [Dim]) -> Option<&'a Dim>
    ensures { option_map (λ d. d.now) result ≡ option_or (option_map (λ d. d.now) own.entry) (find is_empty_dim dims.now) }
{
    match own {
        Some(own) => Some(own),
        None => first_record(dims),
    }
}

impl<'a> Record<'a> {
    /// Adds a variable. False says that it cannot have the record dimension.
    fn add(&mut self, variable: &Lent<'a>) -> bool
        ensures { AddsRecords self.old self.new (variable_view variable.now ∷ []) result }
    {
        if is_inner_record(variable.dims) {
            return false;
        }
        if is_second(self.dim, variable.dims) {
            return false;
        }
        self.dim = first_of(self.dim, variable.dims);
        self.bytes = self.bytes.saturating_add(room_in_record(variable));
        self.bytes <= MOST_RECORD
    }

    /// Adds some variables in order. False says that one cannot have the record dimension.
    fn add_all(&mut self, variables: &[Lent<'a>]) -> bool
        ensures { AddsRecords self.old self.new (variable_views variables.now) result }
    {
        for variable in variables {
            if !self.add(variable) {
                return false;
            }
        }
        true
    }
}

/// Adds maps by their names.
fn add_maps<'a>(alloc: Global, maps: &mut Table<Lent<'a>>, own: &[Lent<'a>]) -> Result<(), Memory>
    ensures { (earlier : List Variable) → AreMaps maps.old earlier → OnOk result (AreMaps maps.new (earlier ++ variable_views own.now)) }
{
    for map in own {
        maps.add(alloc, map.name.bytes(), *map)?;
    }
    Ok(())
}

fn append<'a>(out: &mut Vec<Lent<'a>>, more: &[Lent<'a>]) -> Result<(), Memory>
    ensures { OnOk result (variable_views out.new.items ≡ variable_views out.old.items ++ variable_views more.now) }
{
    for variable in more {
        push(out, *variable)?;
    }
    Ok(())
}

impl<'a> Plan<'a> {
    fn new(alloc: Global) -> Plan<'a>
        ensures { (all : List TopMember) → IsPlanned result all [] }
    {
        Plan {
            variables: Vec::new(alloc),
            dims: Dims::new(alloc),
            maps: Table::new(alloc),
            record: Record {
                dim: None,
                bytes: 0,
            },
        }
    }

    /// Adds the variables of a top member, or says why they are not stored.
    fn add_variables(
        &mut self,
        alloc: Global,
        names: &Table<Top<'a>>,
        top: &Top<'a>,
    ) -> Result<Option<Why>, Memory>
        ensures { (all earlier : List TopMember) → AreTops names.now all → IsPlanned self.old all earlier → IfOk result (λ why. StepsBeside self.new all earlier (top_view top.now) why) }
    {
        let maps = top.maps(alloc)?;
        let own = stored(alloc, names, &self.maps, &maps, top)?;
        if any_clashes(names, &self.maps, &maps) {
            return Ok(Some(Why::Clash));
        }
        if !self.dims.add_all(alloc, &own)? {
            return Ok(Some(Why::Clash));
        }
        if !self.record.add_all(&own) {
            return Ok(Some(Why::Zero));
        }
        add_maps(alloc, &mut self.maps, &maps)?;
        append(&mut self.variables, &own)?;
        Ok(None)
    }

    /// Adds a top member, or says why it is not stored.
    fn add(
        &mut self,
        alloc: Global,
        names: &Table<Top<'a>>,
        top: &Top<'a>,
    ) -> Result<Option<Why>, Memory>
        ensures { (all earlier : List TopMember) → AreTops names.now all → IsPlanned self.old all earlier → IfOk result (λ why. StepsTo self.new all earlier (top_view top.now) why) }
    {
        match why_alone(alloc, top.decl)? {
            Some(why) => Ok(Some(why)),
            None => self.add_variables(alloc, names, top),
        }
    }
}

/// What top members are stored as, or the first that is not.
pub fn planned<'a>(alloc: Global, tops: &[Top<'a>]) -> Result<Plan<'a>, Stop>
    requires { 1 + sum_by (λ top. count top.0) (top_views tops.now) < 2 ^ 32 }
    ensures { Plans (top_views tops.now) result }
{
    let names = by_name(alloc, tops)?;
    let mut plan = Plan::new(alloc);
    let mut number = 1;
    for top in tops {
        if let Some(why) = plan.add(alloc, &names, top)? {
            return Err(Stop::Unsavable {
                member: number as u32,
                why,
            });
        }
        number += top.count();
    }
    Ok(plan)
}
