ghost use Rattle.std.specs.Prelude.{◌≡◌, ◌+◌, ◌^◌, ◌<◌, ◌≤◌, length, nat_lt, IfOk, IsTrue};
ghost use Rattle.std.specs.List.{list_all};
ghost use Rattle.hyperslab_plan.specs.Numbers.{HasSize};
ghost use Rattle.hyperslab_plan.specs.Picked.{count_of, highest};
ghost use Rattle.hyperslab_plan.specs.Plans.{total_of};

use crate::tests::expecting::expect;
use dap_types::{BaseType, Layout, List, Memory, Slab};
use hyperslab_plan::{Batch, Plan};
use std::alloc::Global;
use std::fmt::Write;
use std::marker::{Send, Sync};
use std::process::Abort;
use std::test::Fail;

fn slab(start: u32, stride: u32, count: u32) -> Slab
    ensures start { result.start ≡ start }
    ensures stride { result.stride ≡ stride }
    ensures count { result.count ≡ count }
{
    Slab {
        start,
        stride,
        count,
    }
}

fn list_of(alloc: Global, items: &[u64]) -> Result<List<u64>, Memory>
    ensures { IfOk result (λ list. list ≡ items.now) }
{
    let mut list = List::new(alloc);
    for &item in items {
        list.push(item)?;
    }
    Ok(list)
}

/// The plan of an array whose first element stands at `at`.
fn plan(
    alloc: Global,
    base: BaseType,
    size: u32,
    at: u64,
    steps: &[u64],
    slabs: &[Slab],
) -> Result<Plan, Memory>
    requires one_each { length slabs.now ≡ length steps.now }
    requires strided { IsTrue (list_all (λ s. nat_lt 0 s.stride) slabs.now) }
    requires below { at + highest slabs.now steps.now < 2 ^ 63 }
    requires few { count_of slabs.now ≤ 2147483647 }
    requires sized { 0 < size }
    requires small { size ≤ 65536 }
    requires typed { HasSize base size }
    ensures { IfOk result (λ plan. total_of plan ≡ count_of slabs.now) }
{
    let layout = Layout {
        base: at,
        steps: list_of(alloc, steps)?,
        size,
    };
    Plan::new(alloc, &layout, base, slabs)
}

/// For each batch from position 0 on its elements, its reads, and of its first elements the place
/// in the file and in the raw bytes.
fn shown(alloc: Global, plan: &Plan) -> Result<String, Fail> {
    let mut text = String::new(alloc);
    let mut first: u64 = 0;
    for _ in 0..9 {
        if first >= plan.total() {
            break;
        }
        let batch = plan.batch(first);
        write!(text, "{}+{}:", batch.first, batch.count)?;
        for k in 0..batch.runs {
            let run = plan.run(&batch, k);
            write!(text, " {}+{}", run.at, run.len)?;
        }
        for j in 0..batch.count.min(6) {
            let at = plan.offset(first + u64::from(j));
            write!(text, " {}@{}", at, plan.place(&batch, j))?;
        }
        write!(text, ";")?;
        first += u64::from(batch.count);
    }
    Ok(text)
}

/// The batches of a plan are these.
fn expect_shown<R: Abort>(rt: &R, alloc: Global, plan: &Plan, text: &str) -> Result<(), Fail> {
    expect(rt, shown(alloc, plan)?.as_str(), text);
    Ok(())
}

/// A text without dimensions, and elements as long as a batch.
#[test]
fn batches_of_texts(rt: HostRuntime) -> Result<(), Fail> {
    let alloc = rt.alloc();
    let text = plan(alloc, BaseType::Text, 10, 40, &[], &[])?;
    expect_shown(&rt, alloc, &text, "0+1: 40+10 40@0;")?;
    let long = plan(
        alloc,
        BaseType::Text,
        65_536,
        0,
        &[65_536],
        &[slab(0, 1, 2)],
    )?;
    let batches = "0+1: 0+65536 0@0;1+1: 65536+65536 65536@0;";
    expect_shown(&rt, alloc, &long, batches)
}

/// Nothing, by counts whose product is too large before its end.
#[test]
fn batches_of_nothing(rt: HostRuntime) -> Result<(), Fail> {
    let alloc = rt.alloc();
    let slabs = [slab(0, 1, u32::MAX), slab(0, 1, 0)];
    let none = plan(alloc, BaseType::Float32, 4, 0, &[1, 1], &slabs)?;
    expect_shown(&rt, alloc, &none, "")
}

/// The gaps are read where they are short, and not where they are longer.
#[test]
fn batches_with_gaps(rt: HostRuntime) -> Result<(), Fail> {
    let alloc = rt.alloc();
    let near = plan(alloc, BaseType::Float64, 8, 16, &[8], &[slab(0, 512, 3)])?;
    expect_shown(&rt, alloc, &near, "0+3: 16+8200 16@0 4112@4096 8208@8192;")?;
    let far = plan(alloc, BaseType::Float64, 8, 16, &[8], &[slab(0, 513, 3)])?;
    let batches = "0+3: 16+8 4120+8 8224+8 16@0 4120@8 8224@16;";
    expect_shown(&rt, alloc, &far, batches)
}

/// Rows end to end.
#[test]
fn batches_of_dense_rows(rt: HostRuntime) -> Result<(), Fail> {
    let alloc = rt.alloc();
    let slabs = [slab(0, 1, 10), slab(0, 1, 10)];
    let dense = plan(alloc, BaseType::Int16, 2, 7, &[20, 2], &slabs)?;
    assert!(rt; dense.is_dense());
    let batches = "0+100: 7+200 7@0 9@2 11@4 13@6 15@8 17@10;";
    expect_shown(&rt, alloc, &dense, batches)
}

/// Every second one of records of four numbers, without its first number.
#[test]
fn batches_of_records(rt: HostRuntime) -> Result<(), Fail> {
    let alloc = rt.alloc();
    let slabs = [slab(0, 2, 2), slab(1, 1, 3)];
    let records = plan(alloc, BaseType::Int32, 4, 100, &[16, 4], &slabs)?;
    let batches = "0+6: 104+12 136+12 104@0 108@4 112@8 136@12 140@16 144@20;";
    expect_shown(&rt, alloc, &records, batches)
}

#[test]
fn three_dimensions(rt: HostRuntime) -> Result<(), Fail> {
    let alloc = rt.alloc();
    let slabs = [slab(0, 1, 2), slab(1, 1, 2), slab(0, 2, 2)];
    let cube = plan(alloc, BaseType::Int16, 2, 100, &[24, 8, 2], &slabs)?;
    let batches = "0+8: 108+6 116+6 132+6 140+6 108@0 112@4 116@6 120@10 132@12 136@16;";
    expect_shown(&rt, alloc, &cube, batches)
}

#[test]
fn most_dimensions(rt: HostRuntime) -> Result<(), Fail> {
    let one = Slab {
        start: 1,
        stride: 1,
        count: 1,
    };
    let mut slabs = [one; 32];
    slabs[0] = Slab {
        start: 0,
        stride: 1,
        count: 2,
    };
    slabs[31] = Slab {
        start: 0,
        stride: 1,
        count: 3,
    };
    let mut steps = [10; 32];
    steps[0] = 500;
    steps[31] = 4;
    let deep = plan(rt.alloc(), BaseType::Float32, 4, 0, &steps, &slabs)?;
    let batches = "0+6: 300+12 800+12 300@0 304@4 308@8 800@12 804@16 808@20;";
    expect_shown(&rt, rt.alloc(), &deep, batches)
}

/// Rows of 20,000 numbers of 4 bytes, 100,000 apart: batches of 16,384, and at the end of a row what
/// is left of it.
#[test]
fn long_rows(rt: HostRuntime) -> Result<(), Fail> {
    let slabs = [slab(0, 1, 2), slab(0, 1, 20_000)];
    let plan = plan(rt.alloc(), BaseType::UInt32, 4, 0, &[100_000, 4], &slabs)?;
    let mut first: u64 = 0;
    for (count, at, len) in [
        (16_384, 0, 65_536),
        (3_616, 65_536, 14_464),
        (16_384, 100_000, 65_536),
        (3_616, 165_536, 14_464),
    ] {
        assert!(rt; first < plan.total());
        let batch = plan.batch(first);
        expect(&rt, batch.count, count);
        assert!(rt; batch.runs == 1);
        let run = plan.run(&batch, 0);
        expect(&rt, run.at, at);
        expect(&rt, run.len, len);
        first += u64::from(count);
    }
    expect(&rt, first, plan.total());
    Ok(())
}

/// The most elements: 2,147,483,647 in a row.
#[test]
fn most_elements_of_a_row(rt: HostRuntime) -> Result<(), Fail> {
    let slabs = [slab(0, 1, 2_147_483_647)];
    let row = plan(rt.alloc(), BaseType::Float64, 8, 0, &[8], &slabs)?;
    expect(&rt, row.total(), 2_147_483_647);
    assert!(rt; row.total() > 2_147_483_646);
    expect(&rt, row.offset(2_147_483_646), 17_179_869_168);
    expect(&rt, row.batch(2_147_483_646).count, 1);
    Ok(())
}

/// As nearly as many in 30 dimensions of two indexes.
#[test]
fn most_elements_of_many_dimensions(rt: HostRuntime) -> Result<(), Fail> {
    let two = Slab {
        start: 0,
        stride: 1,
        count: 2,
    };
    let many = plan(rt.alloc(), BaseType::Byte, 1, 9, &[7; 30], &[two; 30])?;
    expect(&rt, many.total(), 1_073_741_824);
    assert!(rt; many.total() > 1_073_741_823);
    expect(&rt, many.offset(1_073_741_823), 219);
    Ok(())
}

fn crosses<T: Send + Sync>(_value: &T) {}

/// Workers may share a plan and a batch.
fn plans_cross_threads(plan: &Plan, batch: &Batch) {
    crosses(plan);
    crosses(batch);
}
