ghost use Rattle.std.specs.Prelude.{◌≡◌, ◌+◌, ◌*◌, ◌^◌, ◌<◌, ◌≤◌, [], ◌∷◌, All, IfOk, IsTrue};
ghost use Rattle.hyperslab_plan.specs.Numbers.{is_number, HasSize};
ghost use Rattle.hyperslab_plan.specs.Picked.{count_of, highest};
ghost use Rattle.hyperslab_plan.specs.Plans.{base_in};

use crate::tests::expecting::expect;
use dap_types::{BaseType, Layout, List, Memory, Slab};
use hyperslab_plan::Plan;
use slab_fill::{Gate, NoGate, fill};
use std::alloc::Global;
use std::process::Abort;
use std::sync::atomic::{AtomicBool, Ordering};
use std::test::Fail;
use std::thread::Threads;
use worker_gates::Meeting;

/// The elements that two hyperslabs pick out of an array that stands at the front of its file.
fn plan(
    alloc: Global,
    base: BaseType,
    size: u32,
    steps: (u64, u64),
    slabs: &[Slab; 2],
) -> Result<Plan, Memory>
    requires strided { All (λ s. 0 < s.stride) slabs.now }
    requires below { highest slabs.now (steps.0 ∷ steps.1 ∷ []) < 2 ^ 63 }
    requires few { count_of slabs.now ≤ 2147483647 }
    requires sized { 0 < size }
    requires small { size ≤ 65536 }
    requires typed { HasSize base size }
    ensures { IfOk result (λ plan. base_in plan ≡ base) }
{
    let mut list = List::new(alloc);
    list.push(steps.0)?;
    list.push(steps.1)?;
    let layout = Layout {
        base: 0,
        steps: list,
        size,
    };
    Plan::new(alloc, &layout, base, slabs)
}

/// Fills `out` with the first batch.
fn fill_first<R: Threads + Abort + Sync, G: Gate>(
    rt: &R,
    plan: &Plan,
    raw: &[u8],
    out: &mut [u8],
    workers: u32,
    gate: &G,
)
    requires { IsTrue (is_number (base_in plan.now)) }
{
    assert!(rt; plan.total() > 0);
    let batch = plan.batch(0);
    assert!(rt; raw.len() == batch.raw_len as usize);
    assert!(rt; out.len() == batch.count as usize * plan.width() as usize);
    assert!(rt; workers >= 1 && workers <= 64);
    fill(rt, plan, &batch, raw, out, workers, gate);
}

/// Two rows of three elements, every second one of a row.
const APART: [Slab; 2] = [
    Slab {
        start: 0,
        stride: 1,
        count: 2,
    },
    Slab {
        start: 0,
        stride: 2,
        count: 3,
    },
];

/// Two rows of three elements, end to end.
const DENSE: [Slab; 2] = [
    Slab {
        start: 0,
        stride: 1,
        count: 2,
    },
    Slab {
        start: 0,
        stride: 1,
        count: 3,
    },
];

/// However many workers there are, they write these bytes.
fn expect_filled<R: Threads + Abort + Sync>(
    rt: &R,
    alloc: Global,
    plan: &Plan,
    raw: &[u8],
    expected: &[u8],
) -> Result<(), Fail>
    requires { IsTrue (is_number (base_in plan.now)) }
{
    for workers in [1, 2, 7, 64] {
        let mut out = vec![in alloc; 3u8; expected.len()]?;
        fill_first(rt, plan, raw, &mut out, workers, &NoGate);
        expect(rt, out.as_slice(), expected);
    }
    Ok(())
}

/// Six numbers of 2 bytes as XDR, with and without a sign.
const SIGNED: [u8; 24] = [
    0, 0, 0, 1, 0xff, 0xff, 0xff, 0xfe, 0xff, 0xff, 0x80, 0, 0, 0, 0x7f, 0xff, 0, 0, 0, 0, 0xff,
    0xff, 0xff, 0xff,
];

const UNSIGNED: [u8; 24] = [
    0, 0, 0, 1, 0, 0, 0xff, 0xfe, 0, 0, 0x80, 0, 0, 0, 0x7f, 0xff, 0, 0, 0, 0, 0, 0, 0xff, 0xff,
];

#[test]
fn elements_apart(rt: HostRuntime) -> Result<(), Fail> {
    let alloc = rt.alloc();
    let bytes = [1u8, 9, 2, 9, 0xff, 0x80, 9, 0, 9, 7];
    let shorts = [
        0u8, 1, 9, 9, 0xff, 0xfe, 9, 9, 0x80, 0, 0x7f, 0xff, 9, 9, 0, 0, 9, 9, 0xff, 0xff,
    ];
    let words = [
        1u8, 2, 3, 4, 9, 9, 9, 9, 5, 6, 7, 8, 9, 9, 9, 9, 10, 11, 12, 13, 14, 15, 16, 17, 9, 9, 9,
        9, 18, 19, 20, 21, 9, 9, 9, 9, 22, 23, 24, 25,
    ];
    let byte_plan = plan(alloc, BaseType::Byte, 1, (100, 1), &APART)?;
    expect_filled(&rt, alloc, &byte_plan, &bytes, &[1, 2, 0xff, 0x80, 0, 7])?;
    let signed_plan = plan(alloc, BaseType::Int16, 2, (100, 2), &APART)?;
    expect_filled(&rt, alloc, &signed_plan, &shorts, &SIGNED)?;
    let unsigned_plan = plan(alloc, BaseType::UInt16, 2, (100, 2), &APART)?;
    expect_filled(&rt, alloc, &unsigned_plan, &shorts, &UNSIGNED)?;
    let word_plan = plan(alloc, BaseType::Int32, 4, (100, 4), &APART)?;
    expect_filled(
        &rt,
        alloc,
        &word_plan,
        &words,
        &[
            1, 2, 3, 4, 5, 6, 7, 8, 10, 11, 12, 13, 14, 15, 16, 17, 18, 19, 20, 21, 22, 23, 24, 25,
        ],
    )
}

#[test]
fn doubles_apart(rt: HostRuntime) -> Result<(), Fail> {
    let alloc = rt.alloc();
    let doubles = [
        1u8, 2, 3, 4, 5, 6, 7, 8, 99, 99, 99, 99, 99, 99, 99, 99, 9, 10, 11, 12, 13, 14, 15, 16,
        99, 99, 99, 99, 99, 99, 99, 99, 17, 18, 19, 20, 21, 22, 23, 24, 25, 26, 27, 28, 29, 30, 31,
        32, 99, 99, 99, 99, 99, 99, 99, 99, 33, 34, 35, 36, 37, 38, 39, 40, 99, 99, 99, 99, 99, 99,
        99, 99, 41, 42, 43, 44, 45, 46, 47, 48,
    ];
    let double_plan = plan(alloc, BaseType::Float64, 8, (100, 8), &APART)?;
    expect_filled(
        &rt,
        alloc,
        &double_plan,
        &doubles,
        &[
            1, 2, 3, 4, 5, 6, 7, 8, 9, 10, 11, 12, 13, 14, 15, 16, 17, 18, 19, 20, 21, 22, 23, 24,
            25, 26, 27, 28, 29, 30, 31, 32, 33, 34, 35, 36, 37, 38, 39, 40, 41, 42, 43, 44, 45, 46,
            47, 48,
        ],
    )
}

#[test]
fn elements_end_to_end(rt: HostRuntime) -> Result<(), Fail> {
    let alloc = rt.alloc();
    let shorts = [0u8, 1, 0xff, 0xfe, 0x80, 0, 0x7f, 0xff, 0, 0, 0xff, 0xff];
    let doubles = [
        1u8, 2, 3, 4, 5, 6, 7, 8, 9, 10, 11, 12, 13, 14, 15, 16, 17, 18, 19, 20, 21, 22, 23, 24,
        25, 26, 27, 28, 29, 30, 31, 32, 33, 34, 35, 36, 37, 38, 39, 40, 41, 42, 43, 44, 45, 46, 47,
        48,
    ];
    let byte_plan = plan(alloc, BaseType::Byte, 1, (3, 1), &DENSE)?;
    let bytes = [1u8, 2, 0xff, 0x80, 0, 7];
    expect_filled(&rt, alloc, &byte_plan, &bytes, &bytes)?;
    let signed_plan = plan(alloc, BaseType::Int16, 2, (6, 2), &DENSE)?;
    expect_filled(&rt, alloc, &signed_plan, &shorts, &SIGNED)?;
    let unsigned_plan = plan(alloc, BaseType::UInt16, 2, (6, 2), &DENSE)?;
    expect_filled(&rt, alloc, &unsigned_plan, &shorts, &UNSIGNED)?;
    let word_plan = plan(alloc, BaseType::Float32, 4, (12, 4), &DENSE)?;
    expect_filled(&rt, alloc, &word_plan, &doubles[..24], &doubles[..24])?;
    let double_plan = plan(alloc, BaseType::Float64, 8, (24, 8), &DENSE)?;
    expect_filled(&rt, alloc, &double_plan, &doubles, &doubles)
}

/// Two rows of a hundred elements.
const HUNDREDS: [Slab; 2] = [
    Slab {
        start: 0,
        stride: 1,
        count: 2,
    },
    Slab {
        start: 0,
        stride: 1,
        count: 100,
    },
];

/// Parts that are long enough for loops which go many elements at a time: the numbers with the high
/// bytes 56 to 255 and the low byte 7, those from 128 on negative.
#[test]
fn long_parts(rt: HostRuntime) -> Result<(), Fail> {
    let alloc = rt.alloc();
    let mut shorts = Vec::new(alloc);
    let mut signed = Vec::new(alloc);
    let mut unsigned = Vec::new(alloc);
    for high in 56..=255u8 {
        let sign = if high < 128 { 0 } else { 0xff };
        shorts.extend_from_slice(&[high, 7])?;
        signed.extend_from_slice(&[sign, sign, high, 7])?;
        unsigned.extend_from_slice(&[0, 0, high, 7])?;
    }
    let signed_plan = plan(alloc, BaseType::Int16, 2, (200, 2), &HUNDREDS)?;
    expect_filled(&rt, alloc, &signed_plan, &shorts, &signed)?;
    let unsigned_plan = plan(alloc, BaseType::UInt16, 2, (200, 2), &HUNDREDS)?;
    expect_filled(&rt, alloc, &unsigned_plan, &shorts, &unsigned)?;
    let word_plan = plan(alloc, BaseType::UInt32, 4, (400, 4), &HUNDREDS)?;
    expect_filled(&rt, alloc, &word_plan, &unsigned, &unsigned)
}

/// The machine has to give the process a second thread.
#[test]
fn two_workers_meet(rt: HostRuntime) -> Result<(), Fail> {
    let bytes = [1u8, 9, 2, 9, 3, 4, 9, 5, 9, 6];
    let plan = plan(rt.alloc(), BaseType::Byte, 1, (100, 1), &APART)?;
    let mut met = false;
    for _ in 0..8 {
        if !met {
            let gate = Meeting::new();
            let mut out = [0u8; 6];
            fill_first(&rt, &plan, &bytes, &mut out, 2, &gate);
            met = gate.both_met();
        }
    }
    assert!(rt; met, "two workers met");
    Ok(())
}

/// Which of the workers of a job came, each to its own part, to which nothing was written.
#[derive(Drop)]
struct Seen {
    /// The bytes of a part.
    len: usize,
    came: Vec<AtomicBool>,
}

impl Seen {
    /// Nobody came yet.
    fn new(alloc: Global, workers: usize, len: usize) -> Result<Seen, Fail> {
        let mut came = Vec::new(alloc);
        for _ in 0..workers {
            came.push(AtomicBool::new(false))?;
        }
        Ok(Seen { len, came })
    }

    /// How many came.
    fn count(&self) -> usize {
        let mut count: usize = 0;
        for came in &self.came {
            if came.load(Ordering::SeqCst) {
                count = count.saturating_add(1);
            }
        }
        count
    }
}

impl Gate for Seen {
    fn enter(&self, _worker: u32) {}

    fn enter_with(&self, worker: u32, part: &[u8]) {
        if is_untouched(worker as usize, self.len, part)
            && let Some(came) = self.came.get(worker as usize)
        {
            came.store(true, Ordering::SeqCst);
        }
    }
}

/// Whether the bytes of a worker's part are still those of `numbered`.
fn is_untouched(worker: usize, len: usize, part: &[u8]) -> bool {
    if part.len() != len {
        return false;
    }
    let mut place = worker.saturating_mul(len);
    for &byte in part {
        if usize::from(byte) != place {
            return false;
        }
        place = place.saturating_add(1);
    }
    true
}

/// Bytes that are each their place.
fn numbered(alloc: Global, len: u8) -> Result<Vec<u8>, Fail> {
    let mut bytes = Vec::new(alloc);
    for place in 0..len {
        bytes.push(place)?;
    }
    Ok(bytes)
}

/// Two rows of 64 elements.
const BOTH: [Slab; 2] = [
    Slab {
        start: 0,
        stride: 1,
        count: 2,
    },
    Slab {
        start: 0,
        stride: 1,
        count: 64,
    },
];

/// Up to 64 workers for 128 elements: each gets its part, as long as the others', before it is
/// written.
#[test]
fn numbers_of_workers(rt: HostRuntime) -> Result<(), Fail> {
    let alloc = rt.alloc();
    let raw = vec![in alloc; 200u8; 128]?;
    let plan = plan(alloc, BaseType::Byte, 1, (64, 1), &BOTH)?;
    for (workers, len) in [(1, 128), (2, 64), (4, 32), (16, 8), (32, 4), (64, 2)] {
        let seen = Seen::new(alloc, workers as usize, len)?;
        let mut out = numbered(alloc, 128)?;
        fill_first(&rt, &plan, &raw, &mut out, workers, &seen);
        expect(&rt, seen.count(), workers as usize);
        expect(&rt, out.as_slice(), raw.as_slice());
    }
    Ok(())
}

/// Four workers for six elements: three get two each.
#[test]
fn more_workers_than_parts(rt: HostRuntime) -> Result<(), Fail> {
    let bytes = [10u8, 9, 20, 9, 30, 40, 9, 50, 9, 60];
    let plan = plan(rt.alloc(), BaseType::Byte, 1, (100, 1), &APART)?;
    let seen = Seen::new(rt.alloc(), 4, 2)?;
    let mut out = [0u8, 1, 2, 3, 4, 5];
    fill_first(&rt, &plan, &bytes, &mut out, 4, &seen);
    expect(&rt, seen.count(), 3);
    Ok(())
}
