ghost use Rattle.std.specs.Prelude.{◌≡◌, ◌+◌, ◌<◌, ◌≤◌, ◌^◌, ◌++◌, [], map, length, false, true, OnErr, OnOk, sum_by, IfErr, List};
ghost use Rattle.std.specs.Io.KnownBytes.{Appends};
ghost use Rattle.dap_types.specs.Limits.{most_written};
ghost use Rattle.dap_types.specs.Model.{count};
ghost use Rattle.dap_types.specs.View.{dataset_view, tree_view};
ghost use Rattle.dap_outside.specs.Causes.{HasCause, Rose};
ghost use Rattle.dap_outside.specs.Streams.{AppendsFront};
ghost use Rattle.netcdf_writer.specs.File.{data_bytes};
ghost use Rattle.netcdf_writer.specs.Outcomes.{IsOfMemory, OnWriteFault};
ghost use Rattle.netcdf_writer.specs.Saved.{IsSmall, Stores, trees_in};
ghost use Rattle.netcdf_writer.specs.Variables.{fixed_bytes};
ghost use Rattle.netcdf_writer.specs.inner.Parts.{AreFilled};
ghost use Rattle.netcdf_writer.specs.inner.Planned.{IsPlanned, TopMember};
ghost use Rattle.netcdf_writer.specs.inner.Tables.{variable_view, variable_views};
ghost use Rattle.netcdf_writer.specs.inner.Writing.{WritesPlanned};

use crate::Stored;
use crate::header::{fixed_bytes, header};
use crate::lent::Lent;
use crate::plan::{Plan, planned};
use crate::stored::Stop;
use crate::tops::tops_of;
use crate::values::put_parts;
use dap_outside::{Buffer, Failed, Sink};
use std::alloc::Global;
use xdr_decode::Filled;

/// Puts a header and the values behind it.
fn send<O: Sink>(
    buffer: &mut Buffer,
    out: &mut O,
    header: &[u8],
    variables: &[Lent<'_>],
) -> Result<(), Failed>
    requires filled { AreFilled (variable_views variables.now) }
    requires empty { buffer.old.bytes.items ≡ [] }
    ensures ok { OnOk result (Appends (O.written out.old) (O.written out.new) (header.now ++ data_bytes (variable_views variables.now))) }
    ensures err { OnErr result (AppendsFront (O.written out.old) (O.written out.new) (header.now ++ data_bytes (variable_views variables.now))) }
    ensures cause { HasCause (O.put_faults out.old) (O.put_faults out.new) result }
    ensures beside { O.beside_writing out.new ≡ O.beside_writing out.old }
{
    buffer.put(out, header)?;
    put_parts(buffer, out, variables)?;
    buffer.flush(out)
}

/// Puts the file of a plan.
fn write_planned<O: Sink>(alloc: Global, plan: &Plan<'_>, out: &mut O) -> Stored
    requires planned { (tops : List TopMember) × IsPlanned plan.now tops tops }
    requires filled { AreFilled (variable_views plan.now.variables.items) }
    requires few { fixed_bytes (variable_views plan.now.variables.items) ≤ most_written }
    ensures writes { WritesPlanned (variable_views plan.now.variables.items) (O.written out.old) (O.written out.new) result }
    ensures write_fault { OnWriteFault (Rose (O.put_faults out.old) (O.put_faults out.new)) result }
    ensures later { O.put_faults out.old ≤ O.put_faults out.new }
    ensures kept { ¬ (result ≡ Stored.WriteFault) → O.put_faults out.new ≡ O.put_faults out.old }
    ensures beside { O.beside_writing out.new ≡ O.beside_writing out.old }
{
    let variables = plan.variables.as_slice();
    let Ok(found) = header(alloc, &plan.dims, variables) else {
        return Stored::Memory;
    };
    let Some(head) = found else {
        return Stored::HeaderTooLong;
    };
    let header = head.as_slice();
    let mut buffer = Buffer::new();
    match send(&mut buffer, out, header, variables) {
        Ok(()) => Stored::Written {
            bytes: header.len() as u64 + fixed_bytes(variables),
        },
        Err(Failed) => Stored::WriteFault,
    }
}

/// Saves a dataset that is in memory as a netCDF classic file (netCDF classic format specification):
/// its top members in order, each Grid as its array and maps that are coordinate variables. The dataset is
/// well formed, the values fit it, and their XDR has at most 16,777,216 bytes. `Unsavable`
/// says which member is the first that cannot be stored, and why; `HeaderTooLong` comes where the
/// header would have more than 1,048,576 bytes. `WriteFault` comes only where the count of the sink
/// rose, and then a front of the file was put; `Memory` where memory is wanted, and in place of any other
/// answer but `WriteFault`. Nothing was put but on `Written` and `WriteFault`.
pub fn write_cdf<O: Sink>(alloc: Global, filled: &Filled, out: &mut O) -> Stored
    requires { IsSmall (dataset_view filled.now.dataset) (trees_in filled.now) }
    ensures stores { Stores (dataset_view filled.now.dataset) (trees_in filled.now) (O.written out.old) (O.written out.new) result }
    ensures answers { IsOfMemory result }
    ensures write_fault { OnWriteFault (Rose (O.put_faults out.old) (O.put_faults out.new)) result }
    ensures later { O.put_faults out.old ≤ O.put_faults out.new }
    ensures kept { ¬ (result ≡ Stored.WriteFault) → O.put_faults out.new ≡ O.put_faults out.old }
    ensures beside { O.beside_writing out.new ≡ O.beside_writing out.old }
{
    let Ok(tops) = tops_of(alloc, filled.dataset.members.items(), filled.values.items()) else {
        return Stored::Memory;
    };
    match planned(alloc, &tops) {
        Ok(plan) => write_planned(alloc, &plan, out),
        Err(Stop::Unsavable { member, why }) => Stored::Unsavable { member, why },
        Err(Stop::Memory) => Stored::Memory,
    }
}
