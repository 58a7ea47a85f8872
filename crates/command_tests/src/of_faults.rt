//! Commands with a call that fails, of the shelf, the sink or the source.
use crate::scenes::{Fails, Scene};
use m2_io::{NoGate, Source};
use std::alloc::Global;
use std::sync::Wait;
use std::test::Fail;
use std::thread::Threads;

/// Each begins with the text of a module A and with an input. Its other lines are commands, with the number of a call
/// that fails: then come the status, what is printed, what is left of the input, and how much of an object is put.
/// What doesn't compile works on the object of A too.
const CASES: [&str; 6] = [
    "MODULE A; END A.\n\
    x\n\
    compile A, shelf 1: 4 [] [x] 0\n\
    compile A, shelf 2: 5 [] [x] 10\n\
    compile A, shelf 3: 0 [] [x] 94\n\
    compile A, write 1: 0 [] [x] 94\n\
    compile B, write 1: 5 [] [x] 0\n\
    compile, write 1: 5 [] [x] 0\n\
    help, write 1: 5 [] [x] 0\n\
    dump A, write 1: 5 [] [x] 0\n\
    dump A, shelf 1: 4 [] [x] 0\n\
    run A, shelf 1: 4 [] [x] 0\n\
    run A, write 1: 0 [] [x] 0\n\
    run Z, write 1: 5 [] [x] 0\n\
    run Z, write 2: 5 [n] [x] 0\n\
    run Z, write 3: 5 [no] [x] 0\n\
    run Z, write 4: 5 [no ] [x] 0\n\
    run Z, write 5: 5 [no o] [x] 0\n\
    run Z, write 6: 5 [no ob] [x] 0\n\
    run Z, write 7: 5 [no obj] [x] 0\n\
    run Z, write 8: 5 [no obje] [x] 0\n\
    run Z, write 9: 5 [no objec] [x] 0\n\
    run Z, write 10: 5 [no object] [x] 0\n\
    run Z, write 11: 5 [no object ] [x] 0\n\
    run Z, write 12: 5 [no object Z] [x] 0\n\
    run Z, write 13: 5 [no object Z.] [x] 0\n\
    run Z, write 14: 5 [no object Z.m] [x] 0\n\
    run Z, write 15: 5 [no object Z.m2] [x] 0\n\
    run Z, write 16: 5 [no object Z.m2o] [x] 0\n",
    "IMPORT\n\
    x\n\
    compile A, write 1: 5 [] [x] 0\n\
    compile A, write 8: 5 [A.mod:1] [x] 0\n",
    "MODULE A; IMPORT X; END A.\n\
    x\n\
    compile A, shelf 1: 4 [] [x] 0\n\
    compile A, shelf 2: 4 [] [x] 0\n\
    compile A, write 1: 5 [] [x] 0\n\
    compile A, write 8: 5 [A.mod:1] [x] 0\n",
    "MODULE A; FROM InOut IMPORT Read, Write; VAR c: CHAR; BEGIN Write('?'); Read(c); Write(c); Write('!') END A.\n\
    xy\n\
    run A, write 9: 0 [?x!] [y] 0\n\
    run A, read 1: 4 [?] [xy] 0\n\
    run A, write 1: 5 [] [xy] 0\n\
    run A, write 2: 5 [?] [y] 0\n\
    run A, write 3: 5 [?x] [y] 0\n",
    "MODULE A; FROM InOut IMPORT ReadInt, WriteInt, Done; VAR x, s: INTEGER; \
    BEGIN ReadInt(x); WHILE Done DO s := s + x; ReadInt(x) END; WriteInt(s, 0) END A.\n\
    4 -9 xyz\n\
    run A, read 1: 4 [] [4 -9 xyz] 0\n\
    run A, read 2: 4 [] [ -9 xyz] 0\n\
    run A, read 3: 4 [] [-9 xyz] 0\n\
    run A, read 4: 4 [] [9 xyz] 0\n\
    run A, read 5: 4 [] [ xyz] 0\n\
    run A, read 6: 4 [] [xyz] 0\n\
    run A, read 8: 0 [-5] [yz] 0\n",
    "MODULE A; FROM InOut IMPORT Write; VAR x: CARDINAL; BEGIN Write('a'); x := 1 DIV x; Write('b') END A.\n\
    x\n\
    run A, write 1: 5 [] [x] 0\n\
    run A, write 2: 5 [a] [x] 0\n\
    dump A, write 8: 5 [module ] [x] 0\n",
];

/// The calls of this kind that fail.
fn fails_of(alloc: Global, fault: &str, kind: &str) -> Result<Vec<u32>, Fail> {
    let mut calls = Vec::new(alloc);
    if let Some((of, number)) = fault.split_once(' ')
        && of == kind
    {
        calls.push(number.parse()?)?;
    }
    Ok(calls)
}

/// The object of a module A.
fn object_of<R: AllocGlobal + Threads + Wait + Sync>(rt: &R, text: &str) -> Result<Vec<u8>, Fail> {
    let alloc = rt.alloc();
    let mut scene = Scene::new(alloc, text, None, "", Fails::none(alloc))?;
    let _status = scene.status(rt, "compile A", &NoGate)?;
    Ok(scene.shelf.file("A.m2o").ok_or("no object")?.to_vec(alloc)?)
}

/// A scene for a command that fails so.
fn scene_of<R: AllocGlobal + Threads + Wait + Sync>(
    rt: &R,
    text: &str,
    input: &str,
    compiles: bool,
    fault: &str,
) -> Result<Scene, Fail> {
    let alloc = rt.alloc();
    let fails = Fails {
        shelf: fails_of(alloc, fault, "shelf")?,
        write: fails_of(alloc, fault, "write")?,
        read: fails_of(alloc, fault, "read")?,
    };
    let object = if compiles {
        None
    } else {
        Some(object_of(rt, text)?)
    };
    Scene::new(alloc, text, object, input, fails)
}

/// What a command leaves.
fn left_by<R: AllocGlobal + Threads + Wait + Sync>(
    rt: &R,
    text: &str,
    input: &str,
    command: &str,
) -> Result<String, Fail> {
    let alloc = rt.alloc();
    let (words, fault) = command.split_once(", ").ok_or("no fault")?;
    let mut scene = scene_of(rt, text, input, words.starts_with("compile"), fault)?;
    let before = scene.object_len();
    let status = scene.status(rt, words, &NoGate)?;
    let put = scene.object_len().saturating_sub(before);
    let printed = str::from_utf8(scene.print.sink().bytes())?;
    let mut rest = [0u8; 16];
    let count = scene.keys.read(&mut rest)?;
    let left = str::from_utf8(rest.get(..count).unwrap_or(b""))?;
    Ok(format!(in alloc; "{status} [{printed}] [{left}] {put}")?)
}

/// The first line of the commands of a case that doesn't leave what it should.
fn differing<R: AllocGlobal + Threads + Wait + Sync>(
    rt: &R,
    case: &'static str,
) -> Result<Option<&'static str>, Fail> {
    let (text, rest) = case.split_once('\n').ok_or("no text")?;
    let (input, lines) = rest.split_once('\n').ok_or("no input")?;
    for line in lines.lines() {
        let (command, wanted) = line.split_once(": ").ok_or("no answer")?;
        if left_by(rt, text, input, command)?.as_str() != wanted {
            return Ok(Some(line));
        }
    }
    Ok(None)
}

#[test]
fn each_call_may_fail(rt: HostRuntime) -> Result<(), Fail> {
    for case in CASES {
        let line = differing(&rt, case)?;
        assert!(rt; line.is_none(), "{}", line.unwrap_or(""));
    }
    Ok(())
}
