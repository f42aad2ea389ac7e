use crate::tests::expecting::expect;
use constraint_parse::{
    Clause, Constant, Constraint, Item, Number, Op, ParseRefusal, RawSlab, Step, parse,
};
use dap_types::Id;
use std::alloc::{AllocError, Global};
use std::process::Abort;
use std::test::Fail;

fn put_number(alloc: Global, out: &mut Vec<u8>, number: &Number) -> Result<(), AllocError> {
    match number {
        Number::Small(value) => out.extend_from_slice(format!(in alloc; "{value}")?.as_bytes()),
        Number::Big => out.extend_from_slice(b"big"),
    }
}

fn put_part(alloc: Global, out: &mut Vec<u8>, part: &Option<Number>) -> Result<(), AllocError> {
    out.extend_from_slice(b";")?;
    match part {
        Some(number) => put_number(alloc, out, number),
        None => Ok(()),
    }
}

fn put_slab(alloc: Global, out: &mut Vec<u8>, slab: &RawSlab) -> Result<(), AllocError> {
    out.extend_from_slice(b"[")?;
    put_number(alloc, out, &slab.first)?;
    put_part(alloc, out, &slab.middle)?;
    put_part(alloc, out, &slab.last)?;
    out.extend_from_slice(b"]")
}

fn put_step(alloc: Global, out: &mut Vec<u8>, step: &Step) -> Result<(), AllocError> {
    out.extend_from_slice(b"/")?;
    out.extend_from_slice(step.name.bytes())?;
    for slab in step.slabs.items() {
        put_slab(alloc, out, slab)?;
    }
    Ok(())
}

fn put_steps(alloc: Global, out: &mut Vec<u8>, steps: &[Step]) -> Result<(), AllocError> {
    for step in steps {
        put_step(alloc, out, step)?;
    }
    Ok(())
}

fn put_item(alloc: Global, out: &mut Vec<u8>, item: &Item) -> Result<(), AllocError> {
    out.extend_from_slice(b" ")?;
    match item {
        Item::Path(steps) => put_steps(alloc, out, steps.items()),
        Item::Call => out.extend_from_slice(b"call"),
    }
}

fn operator_name(op: Op) -> &'static [u8] {
    match op {
        Op::Equal => b" eq",
        Op::NotEqual => b" ne",
        Op::Less => b" lt",
        Op::LessEqual => b" le",
        Op::Greater => b" gt",
        Op::GreaterEqual => b" ge",
    }
}

fn put_constant(alloc: Global, out: &mut Vec<u8>, constant: &Constant) -> Result<(), AllocError> {
    out.extend_from_slice(b" ")?;
    match constant {
        Constant::Whole(number) => put_number(alloc, out, number),
        Constant::Text(bytes) => {
            out.extend_from_slice(b"<")?;
            out.extend_from_slice(bytes.bytes())?;
            out.extend_from_slice(b">")
        }
        Constant::Other => out.extend_from_slice(b"other"),
    }
}

fn put_path(out: &mut Vec<u8>, path: &[Id]) -> Result<(), AllocError> {
    for name in path {
        out.extend_from_slice(b"/")?;
        out.extend_from_slice(name.bytes())?;
    }
    Ok(())
}

fn put_constants(alloc: Global, out: &mut Vec<u8>, all: &[Constant]) -> Result<(), AllocError> {
    for constant in all {
        put_constant(alloc, out, constant)?;
    }
    Ok(())
}

fn put_clause(alloc: Global, out: &mut Vec<u8>, clause: &Clause) -> Result<(), AllocError> {
    out.extend_from_slice(b" &")?;
    match clause {
        Clause::Compare { path, op, values } => {
            put_path(out, path.items())?;
            out.extend_from_slice(operator_name(*op))?;
            put_constants(alloc, out, values.items())
        }
        Clause::Match => out.extend_from_slice(b"match"),
        Clause::Call => out.extend_from_slice(b"call"),
    }
}

fn put_constraint(
    alloc: Global,
    out: &mut Vec<u8>,
    constraint: &Constraint,
) -> Result<(), AllocError> {
    for item in constraint.items.items() {
        put_item(alloc, out, item)?;
    }
    for clause in constraint.clauses.items() {
        put_clause(alloc, out, clause)?;
    }
    Ok(())
}

fn put_refusal(alloc: Global, out: &mut Vec<u8>, refusal: ParseRefusal) -> Result<(), AllocError> {
    match refusal {
        ParseRefusal::Syntax { place } => {
            out.extend_from_slice(format!(in alloc; "{place}")?.as_bytes())
        }
        ParseRefusal::Memory => out.extend_from_slice(b"memory"),
    }
}

/// A constraint in a form that tells its parts apart, or the place of the fault.
fn shown(alloc: Global, text: &[u8]) -> Result<Vec<u8>, AllocError> {
    let mut out = Vec::new(alloc);
    match parse(alloc, text) {
        Ok(constraint) => put_constraint(alloc, &mut out, &constraint)?,
        Err(refusal) => put_refusal(alloc, &mut out, refusal)?,
    }
    Ok(out)
}

/// The text is read so.
fn expect_shown<R: Abort>(rt: &R, alloc: Global, text: &[u8], form: &[u8]) -> Result<(), Fail> {
    expect(rt, shown(alloc, text)?.as_slice(), form);
    Ok(())
}

/// The texts are read so.
fn expect_all<R: Abort>(rt: &R, alloc: Global, rows: &[(&[u8], &[u8])]) -> Result<(), Fail> {
    for (text, form) in rows {
        expect_shown(rt, alloc, text, form)?;
    }
    Ok(())
}

/// Texts, and what is read of them.
const READ: [(&[u8], &[u8]); 36] = [
    (b"", b""),
    (b" \t", b""),
    (b"a.b[1]&c.d!={1,-2}", b" /a/b[1;;] &/c/d ne 1 -2"),
    (b"v[1][2:3][4:5:6]", b" /v[1;;][2;;3][4;5;6]"),
    (
        b" a . b [ 1 : 2 ] , c & d <= 5 ",
        b" /a/b[1;;2] /c &/d le 5",
    ),
    (b"v[170141183460469231731687303715884105728]", b" /v[big;;]"),
    (
        b"v[0:170141183460469231731687303715884105727]",
        b" /v[0;;170141183460469231731687303715884105727]",
    ),
    (
        b"v[0000000000000000000000000000000000000000000007]",
        b" /v[7;;]",
    ),
    (b"mean(v)", b" call"),
    (b"a,f ( [b,{\"& ) ,c.d", b" /a call /c/d"),
    (b"f()", b" call"),
    (b"&f(a,b)", b" &call"),
    (b"a%2eb%zz", b" /a%2Eb%25zz"),
    (b"%,a%4,b'\xff", b" /%25 /a%254 /b%27%FF"),
    (b"+-*/_", b" /+-*/_"),
    (b"&a=~\"x\"", b" &match"),
    (b"&a=~{1,2}", b" &match"),
    (
        b"&a=1&b<2&c>3&d>=4&e<=5&f!=6",
        b" &/a eq 1 &/b lt 2 &/c gt 3 &/d ge 4 &/e le 5 &/f ne 6",
    ),
    (b"& a . b = { \"x\" , y }", b" &/a/b eq <x> other"),
    (b"&a=\"\"", b" &/a eq <>"),
    (b"&a=\"x\\\"y\\\\z\\n&,\"", b" &/a eq <x\"y\\z\\n&,>"),
    (b"&a=+5", b" &/a eq 5"),
    (b"&a=-0", b" &/a eq 0"),
    (
        b"&a=-170141183460469231731687303715884105728",
        b" &/a eq -170141183460469231731687303715884105728",
    ),
    (
        b"&a=-170141183460469231731687303715884105729",
        b" &/a eq big",
    ),
    (
        b"&a=+170141183460469231731687303715884105728",
        b" &/a eq big",
    ),
    (
        b"&a={-00000000000000000000000000000000000000000000001}",
        b" &/a eq -1",
    ),
    (b"&a=a.b:c", b" &/a eq other"),
    (b"&a=1.5", b" &/a eq other"),
    (b"&a=12:30", b" &/a eq other"),
    (b"&a=+", b" &/a eq other"),
    (b"&a=--1", b" &/a eq other"),
    (b"&a=.", b" &/a eq other"),
    (b"&a=-1x", b" &/a eq other"),
    (b"1[2]&3=4", b" /1[2;;] &/3 eq 4"),
    (b"a[1].b", b" /a[1;;]/b"),
];

#[test]
fn texts_are_read(rt: HostRuntime) -> Result<(), Fail> {
    expect_all(&rt, rt.alloc(), &READ)
}

/// Texts, and the places of their faults.
const FAULTS: [(&[u8], &[u8]); 48] = [
    (b"v[0:2", b"5"),
    (b"v]", b"1"),
    (b"v,", b"2"),
    (b",v", b"0"),
    (b"v,,w", b"2"),
    (b".v", b"0"),
    (b"v.", b"2"),
    (b"v..w", b"2"),
    (b" a b", b"3"),
    (b"v[]", b"2"),
    (b"v[-1]", b"2"),
    (b"v[0x1]", b"3"),
    (b"v[1 2]", b"4"),
    (b"v[1:]", b"4"),
    (b"v[1:2:3:4]", b"7"),
    (b"v[0:2]]", b"6"),
    (b"v[1]w", b"4"),
    (b"a(b", b"3"),
    (b"a(b(c))", b"3"),
    (b"a(b)c", b"4"),
    (b"a[1](b)", b"4"),
    (b"a.b(c)", b"3"),
    (b"a;b", b"1"),
    (b"a\x7fb", b"1"),
    (b"a\n", b"1"),
    (b"a=1", b"1"),
    (b"&", b"1"),
    (b"&a", b"2"),
    (b"&=1", b"1"),
    (b"&a=", b"3"),
    (b"&a&b=1", b"2"),
    (b"&a=1&", b"5"),
    (b"&a=1 2", b"5"),
    (b"&a=1,b", b"4"),
    (b"&a==1", b"3"),
    (b"&a< =1", b"4"),
    (b"&a! =1", b"3"),
    (b"&a!1", b"3"),
    (b"&a= ~1", b"4"),
    (b"&a=\"x", b"5"),
    (b"&a=\"x\\", b"6"),
    (b"&a=\"x\\\"", b"7"),
    (b"&a=\"x\"y", b"6"),
    (b"&a={}", b"4"),
    (b"&a={1,}", b"6"),
    (b"&a={1}2", b"6"),
    (b"&a.b(c)", b"4"),
    (b"&f(a)=1", b"5"),
];

#[test]
fn faults_are_placed(rt: HostRuntime) -> Result<(), Fail> {
    expect_all(&rt, rt.alloc(), &FAULTS)
}

/// The text between the ends, with so many copies of a part in the middle.
fn repeated(alloc: Global, front: &[u8], part: &[u8], back: &[u8]) -> Result<Vec<u8>, AllocError> {
    let mut text = Vec::new(alloc);
    text.extend_from_slice(front)?;
    for _ in 0..2000 {
        text.extend_from_slice(part)?;
    }
    text.extend_from_slice(back)?;
    Ok(text)
}

/// How many steps the items have, and how many slabs.
fn counts_of_items(items: &[Item]) -> (usize, usize) {
    let mut steps = 0usize;
    let mut slabs = 0usize;
    for item in items {
        if let Item::Path(path) = item {
            steps = steps.saturating_add(path.items().len());
            for step in path.items() {
                slabs = slabs.saturating_add(step.slabs.items().len());
            }
        }
    }
    (steps, slabs)
}

/// How many steps the clauses have, and how many values.
fn counts_of_clauses(clauses: &[Clause]) -> (usize, usize) {
    let mut steps = 0usize;
    let mut constants = 0usize;
    for clause in clauses {
        if let Clause::Compare {
            path,
            op: _,
            values,
        } = clause
        {
            steps = steps.saturating_add(path.items().len());
            constants = constants.saturating_add(values.items().len());
        }
    }
    (steps, constants)
}

/// How many items and clauses a constraint has, and how many steps, slabs and values in them.
fn counts_of(constraint: &Constraint) -> [usize; 5] {
    let items = constraint.items.items();
    let clauses = constraint.clauses.items();
    let (steps, slabs) = counts_of_items(items);
    let (compared, constants) = counts_of_clauses(clauses);
    [
        items.len(),
        clauses.len(),
        steps.saturating_add(compared),
        slabs,
        constants,
    ]
}

fn counts(alloc: Global, text: &[u8]) -> Result<[usize; 5], ParseRefusal> {
    let constraint = parse(alloc, text)?;
    Ok(counts_of(&constraint))
}

/// A text with many copies of a part has these counts.
fn expect_counts<R: Abort>(
    rt: &R,
    alloc: Global,
    text: (&[u8], &[u8], &[u8]),
    expected: [usize; 5],
) -> Result<(), Fail> {
    let (front, part, back) = text;
    let text = repeated(alloc, front, part, back)?;
    expect(rt, counts(alloc, &text)?, expected);
    Ok(())
}

/// What stands before many copies of a part, the part, what stands behind them, and the counts.
const LONG: [(&[u8], &[u8], &[u8], [usize; 5]); 8] = [
    (b"v", b",s.v[0:1:9][3]", b"", [2001, 0, 4001, 4000, 0]),
    (b"v", b"[0]", b"", [1, 0, 1, 2000, 0]),
    (b"v", b".v", b"", [1, 0, 2001, 0, 0]),
    (b"v", b"v", b"[7]", [1, 0, 1, 1, 0]),
    (b"f(", b"v", b")", [1, 0, 0, 0, 0]),
    (b"v", b"&s.v={1,\"x\",-2}", b"", [1, 2000, 4001, 0, 6000]),
    (b"&v={1", b",1", b"}", [0, 1, 1, 0, 2001]),
    (b"&v=\"", b"\\\"", b"\"", [0, 1, 1, 0, 1]),
];

// With ample memory no length of any part wants more.
#[test]
fn long_texts_are_read(rt: HostRuntime) -> Result<(), Fail> {
    for (front, part, back, expected) in &LONG {
        expect_counts(&rt, rt.alloc(), (front, part, back), *expected)?;
    }
    Ok(())
}
