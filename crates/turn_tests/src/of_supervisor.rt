//! The calls of `supervisor`: turns in many orders.
use crate::units::{first_turn, outputs, whole_texts};
use m2_base::{Head, Output, ProcCode};
use std::alloc::{AllocError, Global};
use std::test::Fail;
use task_state::Turn;

/// A procedure stands before the variable that it names.
const NAMED_BEFORE: &str =
    "MODULE A; PROCEDURE P; BEGIN v := 1 END P; VAR v: INTEGER; BEGIN P END A.";

/// Procedures in one another, and names that are found in each of the scopes round them.
const NESTED: &str = "MODULE A; IMPORT B; FROM B IMPORT T, n; TYPE R = RECORD f: T END; \
    PROCEDURE P(VAR r: R; c: CHAR); VAR x: ARRAY [0..n] OF T; \
    PROCEDURE Q(i: CARDINAL); PROCEDURE S; BEGIN x[i] := w; Q(i) END S; BEGIN r.f := x[i]; S; B.Put(i) END Q; \
    BEGIN Q(l) END P; VAR w: T; r: R; l: CARDINAL; \
    PROCEDURE U; BEGIN P(r, \"a\"); V END U; PROCEDURE V; BEGIN INC(l); w := r.f END V; BEGIN U; V END A.";

/// What it imports, and what this imports.
const IMPORTED: &str =
    "DEFINITION MODULE B; IMPORT C; CONST n = C.m; TYPE T = [0..n]; PROCEDURE Put(i: CARDINAL); END B.";

const FIRST: &str = "DEFINITION MODULE C; CONST m = 9; END C.";

/// What the module leaves: it calls P and returns.
const CALLS_P: [u8; 10] = *b"\x2a\x01\0\0\0\0\0\0\0\x2e";

/// What P leaves: v becomes 1, and it returns.
const SETS_V: [u8; 20] = *b"\x03\0\0\0\0\0\0\0\0\x01\x01\0\0\0\0\0\0\0\x06\x2e";

/// Constants of types that are imported: a procedure has a name of its own for one, and two are declared again.
const BRINGING: &str = "MODULE A; FROM B IMPORT Color, Warm; FROM C IMPORT two, Few; \
    PROCEDURE P(c: Color): Color; VAR red: Color; BEGIN red := green; RETURN red END P; \
    PROCEDURE Q; CONST k = ORD(two); VAR a: ARRAY Color OF CHAR; w: Warm; \
    BEGIN a[red] := CHR(k); w := P(blue); x := blue END Q; \
    VAR one: CHAR; x: Color; BEGIN Q; x := one END A.";

/// What it imports, and what both import.
const HANDING_ON: &str =
    "DEFINITION MODULE B; FROM C IMPORT Color; TYPE Warm = [red..green]; Mine = (blue, grey); END B.";

const COLORS: &str =
    "DEFINITION MODULE C; TYPE Color = (red, green, blue); Few = (one, two); END C.";

/// A procedure that names what stands behind it in the module, and one that names its own variable alone.
const PARKING: &str =
    "MODULE A; PROCEDURE P; BEGIN v := 1 END P; PROCEDURE Q; VAR a: INTEGER; BEGIN a := 1 END Q; \
    VAR v: INTEGER; BEGIN P END A.";

/// In so many orders.
const ORDERS: u32 = 200;

fn is_same_code(a: &ProcCode, b: &ProcCode) -> bool {
    a.outer == b.outer
        && a.params == b.params
        && a.result == b.result
        && a.locals == b.locals
        && a.high == b.high
        && a.bytes == b.bytes
        && a.code == b.code
}

fn is_same(a: &Output, b: &Output) -> bool {
    a.stream == b.stream
        && a.fault == b.fault
        && a.diags == b.diags
        && a.answers == b.answers
        && a.cells == b.cells
        && a.headings == b.headings
        && is_same_code(&a.code, &b.code)
}

fn are_same(these: &[Output], those: &[Output]) -> bool {
    these.len() == those.len() && these.iter().zip(those).all(|(a, b)| is_same(a, b))
}

/// Twenty numbers of streams by a fixed rule, and of none.
fn order_by(alloc: Global, rule: u32) -> Result<Vec<u32>, AllocError> {
    let mut order = Vec::new(alloc);
    for turn in 0..20u32 {
        let mixed = rule.wrapping_mul(turn.wrapping_add(7919));
        order.push((mixed ^ turn.wrapping_mul(turn).wrapping_mul(101)) % 10)?;
    }
    Ok(order)
}

/// Whether these are the outputs of a module that calls P, and of P.
fn are_of_named_before(outputs: &[Output]) -> bool {
    match outputs {
        [module, procedure] => {
            module.stream == 1
                && module.cells == 1
                && module.code.code.as_slice() == CALLS_P.as_slice()
                && procedure.stream == 2
                && procedure.cells == 0
                && procedure.code.code.as_slice() == SETS_V.as_slice()
        }
        _ => false,
    }
}

/// What is found of one unit in each of these orders: the code of its two blocks.
#[test]
fn makes_the_turns_that_it_is_told(rt: HostRuntime) -> Result<(), Fail> {
    let alloc = rt.alloc();
    let texts = whole_texts(alloc, &[("A.mod", NAMED_BEFORE)]).ok_or("no unit")?;
    for order in [[].as_slice(), [2, 1, 2].as_slice(), [2, 2, 2].as_slice()] {
        let outputs = outputs(alloc, &texts, order).ok_or("no outputs")?;
        assert!(rt; are_of_named_before(&outputs));
    }
    Ok(())
}

/// How many diagnostics there are.
fn diags_in(outputs: &[Output]) -> usize {
    let mut count: usize = 0;
    for output in outputs {
        count = count.saturating_add(output.diags.len());
    }
    count
}

/// What is found of a unit's streams in many orders.
#[derive(Drop)]
struct Found {
    /// Whether they leave the same in each.
    same: bool,
    streams: usize,
    diags: usize,
}

fn in_every_order(alloc: Global, files: &[(&str, &str)]) -> Result<Found, Fail> {
    let texts = whole_texts(alloc, files).ok_or("no unit")?;
    let first = outputs(alloc, &texts, [].as_slice()).ok_or("no outputs")?;
    let mut same = true;
    for rule in 0..ORDERS {
        let order = order_by(alloc, rule)?;
        let outputs = outputs(alloc, &texts, &order).ok_or("no outputs")?;
        same = same && are_same(&first, &outputs);
    }
    Ok(Found {
        same,
        streams: first.len(),
        diags: diags_in(&first),
    })
}

#[test]
fn leaves_the_same_in_every_order(rt: HostRuntime) -> Result<(), Fail> {
    let files = [("A.mod", NESTED), ("B.def", IMPORTED), ("C.def", FIRST)];
    let found = in_every_order(rt.alloc(), &files)?;
    assert!(rt; found.same && found.streams == 8 && found.diags == 0);
    Ok(())
}

#[test]
fn brings_the_same_in_every_order(rt: HostRuntime) -> Result<(), Fail> {
    let files = [
        ("A.mod", BRINGING),
        ("B.def", HANDING_ON),
        ("C.def", COLORS),
    ];
    let found = in_every_order(rt.alloc(), &files)?;
    assert!(rt; found.same && found.streams == 5 && found.diags == 3);
    Ok(())
}

#[test]
fn waits_for_the_module_or_for_none(rt: HostRuntime) -> Result<(), Fail> {
    let alloc = rt.alloc();
    let texts = whole_texts(alloc, &[("A.mod", PARKING)]).ok_or("no unit")?;
    let head = Head {
        scope: 1,
        count: 0,
        complete: false,
    };
    assert!(rt; first_turn(alloc, &texts, 1) == Some(Turn::Parked(head)));
    assert!(rt; first_turn(alloc, &texts, 2) == Some(Turn::Done));
    Ok(())
}
