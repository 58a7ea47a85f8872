//! From objects to the code that is executed.
ghost use Rattle.std.specs.Prelude.{◌≡◌, ◌+◌, ◌<◌, ◌≤◌, ◌++◌, ◌^◌, ◌==◌, ℕ, List, length, map, IfOk, OnOk, slice_get};
ghost use Rattle.std.specs.Prelude.{Some, None, if◌then◌else◌};
ghost use Rattle.code_form.specs.declared.instr.Instr.{Instr as InstrData};
ghost use Rattle.code_form.specs.Valid.{AreInstrs};
ghost use Rattle.object_file.specs.Programs.{IsProgram};
ghost use Rattle.m2_base.specs.declared.outputs.ProcCode.{ProcCode as ProcData};
ghost use Rattle.object_file.specs.Views.{procedure_of};
ghost use Rattle.stack_machine.specs.Loading.{IsLoaded, op_by, data_in, data_of, count_of, owners_of, bodies_of};
ghost use Rattle.stack_machine.specs.Loading.{number_of};
ghost use Rattle.stack_machine.specs.Sites.{IsScene, IsOn, spot_of, site_in, GrowsBlock, GrowsObject, GrowsAll};
ghost use Rattle.stack_machine.specs.Sites.{HasLayout, at_object};
ghost use Rattle.stack_machine.specs.State.{program_of};

use crate::code::{Code, Origin, Routine};
use crate::decoding::instrs;
use crate::layout::{Layout, variables};
use crate::op::Op;
use crate::ops::{Scene, Site, number, op_of};
use crate::owners::{Owner, owners};
use crate::placed::Placed;
use m2_base::ProcCode;
use object_file::Object;
use std::alloc::{AllocError, Global};

/// No memory holds more procedures.
const MOST_PROCEDURES: usize = 1 << 59;

/// The procedures so far.
#[derive(Drop)]
pub(crate) struct Listing {
    pub(crate) ops: Vec<Op>,
    pub(crate) origins: Vec<Origin>,
    pub(crate) routines: Vec<Routine>,
}

/// An object of a program.
#[derive(Clone, Copy)]
pub(crate) struct Home<'a> {
    /// Its number in running order.
    module: u32,
    object: &'a Object,
    /// Who has what its imports name.
    named: &'a [Owner],
}

/// The number of each object's body, and how many procedures there are.
#[derive(Drop)]
struct Bodies {
    bodies: Vec<usize>,
    count: usize,
}

fn procedures_in(object: &Object) -> usize
    ensures { result ≡ length object.now.procedures }
{
    object.procedures().len()
}

fn number_bodies(alloc: Global, objects: &[Object]) -> Result<Bodies, AllocError>
    ensures bodies { IfOk result (λ b. b.bodies.items ≡ bodies_of objects.now) }
    ensures count { IfOk result (λ b. b.count ≡ count_of objects.now) }
    ensures few { IfOk result (λ b. b.count < 2 ^ 60) }
{
    let mut bodies = Vec::new(alloc);
    let mut count = 0;
    for object in objects {
        bodies.push(count)?;
        let more = procedures_in(object);
        if more > MOST_PROCEDURES - count {
            return Err(AllocError);
        }
        count += more;
    }
    Ok(Bodies { bodies, count })
}

fn place_behind(ops: &[Op]) -> usize
    ensures is { result ≡ length ops.now }
    ensures few { result < 2 ^ 60 }
{
    ops.len()
}

fn push_ops(ops: &mut Vec<Op>, scene: &Scene, site: &Site) -> Result<(), AllocError>
    requires scene { IsScene scene.now }
    requires site { IsOn site.now }
    ensures { OnOk result (ops.new.items ≡ ops.old.items
        ++ map (λ s. op_by scene.now.objects.now (site_in site.now) s s.instr) (map spot_of site.now.all.now)) }
{
    for from in site.all {
        ops.push(op_of(scene, site, from))?;
    }
    Ok(())
}

fn push_origins(
    origins: &mut Vec<Origin>,
    m: u32,
    procedure: u32,
    all: &[Placed],
) -> Result<(), AllocError>
    ensures { OnOk result (origins.new.items ≡ origins.old.items
        ++ map (λ s. record { «module» = m; procedure = procedure; offset = s.at }) (map spot_of all.now)) }
{
    for placed in all {
        origins.push(Origin {
            module: m,
            procedure,
            offset: placed.at as u32,
        })?;
    }
    Ok(())
}

fn outer_of(scene: &Scene, m: u32, outer: u32) -> Option<usize>
    requires { IsScene scene.now }
    ensures { result ≡ (if outer == 0 then None else Some (number_of scene.now.objects.now m outer)) }
{
    if outer == 0 {
        None
    } else {
        Some(number(scene, m as usize, outer))
    }
}

/// Adds a procedure of an object, with its data in a cell.
fn add_procedure(
    listing: &mut Listing,
    alloc: Global,
    scene: &Scene,
    home: &Home,
    k: u32,
    text: usize,
    procedure: &ProcCode,
) -> Result<(), AllocError>
    requires scene { IsScene scene.now }
    requires named { home.now.named.now ≡ owners_of scene.now.objects.now home.now.object.now }
    requires text { text < 2 ^ 60 }
    requires short { length procedure.now.code.items < 2 ^ 32 }
    requires instrs { (is : List InstrData) × AreInstrs procedure.now.code.items is }
    ensures { OnOk result (GrowsBlock scene.now.objects.now home.now.«module» home.now.object.now k text
        (procedure_of procedure.now) listing.old listing.new) }
{
    let all = instrs(alloc, &procedure.code)?;
    let start = place_behind(&listing.ops);
    listing.routines.push(Routine {
        entry: start,
        params: procedure.params as usize,
        result: procedure.result as usize,
        locals: procedure.locals as usize,
        high: procedure.high as usize,
        outer: outer_of(scene, home.module, procedure.outer),
    })?;
    let site = Site {
        module: home.module as usize,
        named: home.named,
        text,
        start,
        all: &all,
    };
    push_ops(&mut listing.ops, scene, &site)?;
    push_origins(&mut listing.origins, home.module, k, &all)
}

/// Adds the procedures of an object, and gives the cell behind their data.
fn add_procedures(
    listing: &mut Listing,
    alloc: Global,
    scene: &Scene,
    home: &Home,
    text: usize,
    procedures: &[ProcCode],
) -> Result<usize, AllocError>
    requires scene { IsScene scene.now }
    requires named { home.now.named.now ≡ owners_of scene.now.objects.now home.now.object.now }
    requires text { text + data_in (map procedure_of procedures.now) < 2 ^ 60 }
    requires few { length procedures.now < 2 ^ 32 }
    requires sound { (k : ℕ) (p : ProcData) → slice_get procedures.now k ≡ Some p
        → (length p.code.items < 2 ^ 32) × ((is : List InstrData) × AreInstrs p.code.items is) }
    ensures grows { OnOk result (GrowsObject scene.now.objects.now home.now.«module» home.now.object.now text
        (map procedure_of procedures.now) listing.old listing.new) }
    ensures text { IfOk result (λ t. t ≡ text + data_in (map procedure_of procedures.now)) }
{
    let mut at = text;
    for k in 0..procedures.len() {
        let procedure = &procedures[k];
        add_procedure(listing, alloc, scene, home, k as u32, at, procedure)?;
        at += procedure.bytes.len();
    }
    Ok(at)
}

/// Adds an object, and gives the cell behind its data.
fn add_object(
    listing: &mut Listing,
    alloc: Global,
    scene: &Scene,
    m: usize,
    text: usize,
) -> Result<usize, AllocError>
    requires scene { IsScene scene.now }
    requires program { IsProgram scene.now.objects.now }
    requires within { m < length scene.now.objects.now }
    requires text { text + data_in (at_object scene.now.objects.now m).procedures < 2 ^ 60 }
    ensures grows { OnOk result (GrowsObject scene.now.objects.now m (at_object scene.now.objects.now m) text
        (at_object scene.now.objects.now m).procedures listing.old listing.new) }
    ensures text { IfOk result (λ t. t ≡ text + data_in (at_object scene.now.objects.now m).procedures) }
{
    let object = &scene.objects[m];
    let named = owners(alloc, scene.objects, object.imports())?;
    let home = Home {
        module: m as u32,
        object,
        named: &named,
    };
    add_procedures(listing, alloc, scene, &home, text, object.procedures())
}

/// Adds all objects.
fn add_objects(
    listing: &mut Listing,
    alloc: Global,
    scene: &Scene,
    text: usize,
) -> Result<(), AllocError>
    requires scene { IsScene scene.now }
    requires program { IsProgram scene.now.objects.now }
    requires text { text + data_of scene.now.objects.now < 2 ^ 60 }
    ensures { OnOk result (GrowsAll scene.now.objects.now text scene.now.objects.now listing.old listing.new) }
{
    let mut at = text;
    for m in 0..scene.objects.len() {
        at = add_object(listing, alloc, scene, m, at)?;
    }
    Ok(())
}

/// The code of a program.
pub(crate) fn load(alloc: Global, objects: &[Object], layout: &Layout) -> Result<Code, AllocError>
    requires program { IsProgram objects.now }
    requires layout { HasLayout layout.now objects.now }
    requires room { layout.now.frames < 2 ^ 32 }
    ensures loaded { IfOk result (λ code. IsLoaded objects.now (program_of code)) }
    ensures short { IfOk result (λ code. length code.ops.items < 2 ^ 62) }
{
    let variables = variables(alloc, layout.variables, objects)?;
    let bodies = number_bodies(alloc, objects)?;
    let scene = Scene {
        objects,
        variables: &variables,
        bodies: &bodies.bodies,
        count: bodies.count,
    };
    let mut listing = Listing {
        ops: Vec::new(alloc),
        origins: Vec::new(alloc),
        routines: Vec::new(alloc),
    };
    add_objects(&mut listing, alloc, &scene, layout.texts)?;
    place_behind(&listing.ops);
    Ok(Code {
        ops: listing.ops,
        origins: listing.origins,
        routines: listing.routines,
        bodies: bodies.bodies,
        frames_at: layout.frames,
        has_in_out: layout.has_in_out,
    })
}
