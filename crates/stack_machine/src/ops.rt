//! The operations of instructions.
ghost use Rattle.std.specs.Prelude.{◌≡◌, ◌<◌, ◌+◌, ◌^◌, map, length, slice_get};
ghost use Rattle.std.specs.List.{slice_index_or};
ghost use Rattle.stack_machine.specs.InOut.{services};
ghost use Rattle.stack_machine.specs.Loading.{cell_of, number_of, exported_in, heading_of, heading_value, value_of};
ghost use Rattle.stack_machine.specs.Loading.{service_of, call_of, kind_of, trap_of, target_of, op_by};
ghost use Rattle.stack_machine.specs.Sites.{IsScene, IsOn, spot_of, site_in};

use crate::act::SERVICES;
use crate::decoding::landing;
use crate::op::{Kind, Op};
use crate::owners::{Owner, named};
use crate::placed::Placed;
use crate::trap::Trap;
use code_form::Instr;
use object_file::Object;

/// What the operations of a program are made from.
#[derive(Clone, Copy)]
pub(crate) struct Scene<'a> {
    pub(crate) objects: &'a [Object],
    /// The first variable of each object.
    pub(crate) variables: &'a [usize],
    /// The number of each object's body.
    pub(crate) bodies: &'a [usize],
    /// How many procedures there are.
    pub(crate) count: usize,
}

/// Where an instruction stands.
#[derive(Clone, Copy)]
pub(crate) struct Site<'a> {
    /// The number of its object.
    pub(crate) module: usize,
    /// Who has what that object's imports name.
    pub(crate) named: &'a [Owner],
    /// The first cell of its procedure's data.
    pub(crate) text: usize,
    /// The first place of its procedure.
    pub(crate) start: usize,
    /// The instructions of its procedure.
    pub(crate) all: &'a [Placed],
}

fn entry(table: &[usize], x: usize) -> usize
    ensures { result ≡ slice_index_or table.now x 0 }
{
    match table.get(x) {
        Some(n) => *n,
        None => 0,
    }
}

/// A cell of InOut or of an object.
fn cell(scene: &Scene, owner: Owner, o: u32) -> usize
    requires { IsScene scene.now }
    ensures is { result ≡ cell_of scene.now.objects.now owner o }
    ensures small { result < 2 ^ 61 }
{
    match owner {
        Owner::InOut => 1 + o as usize,
        Owner::Object(x) => entry(scene.variables, x) + o as usize,
    }
}

/// The number of an object's procedure among all.
pub(crate) fn number(scene: &Scene, m: usize, k: u32) -> usize
    requires { IsScene scene.now }
    ensures is { result ≡ number_of scene.now.objects.now m k }
    ensures small { result < 2 ^ 61 }
{
    entry(scene.bodies, m) + k as usize
}

fn exported(object: &Object, k: u32) -> u32
    ensures { result ≡ exported_in (Some object.now) k }
{
    match object.exports().get(k as usize) {
        Some(export) => export.0,
        None => 0,
    }
}

/// The procedure of an object's heading.
fn heading(scene: &Scene, x: usize, k: u32) -> usize
    requires { IsScene scene.now }
    ensures is { result ≡ heading_of scene.now.objects.now x k }
    ensures small { result < 2 ^ 61 }
{
    let own = match scene.objects.get(x) {
        Some(object) => exported(object, k),
        None => 0,
    };
    number(scene, x, own)
}

/// A heading as a value.
fn heading_as_value(scene: &Scene, owner: Owner, k: u32) -> usize
    requires { IsScene scene.now }
    ensures is { result ≡ heading_value scene.now.objects.now owner k }
    ensures small { result < 2 ^ 62 }
{
    match owner {
        Owner::InOut => 1 + scene.count + k as usize,
        Owner::Object(x) => 1 + heading(scene, x, k),
    }
}

/// A procedure as a value.
fn value(scene: &Scene, m: usize, owners: &[Owner], i: u32, k: u32) -> usize
    requires { IsScene scene.now }
    ensures is { result ≡ value_of scene.now.objects.now m owners.now i k }
    ensures small { result < 2 ^ 62 }
{
    if i == 0 {
        1 + number(scene, m, k)
    } else {
        heading_as_value(scene, named(m, owners, i), k)
    }
}

/// A call of InOut's procedure with this heading.
fn service(k: u32) -> Op
    ensures { result ≡ service_of (slice_get services k) }
{
    match SERVICES.get(k as usize) {
        Some(service) => Op::CallService(*service),
        None => Op::Halt,
    }
}

/// A call of a heading.
fn call(scene: &Scene, owner: Owner, k: u32) -> Op
    requires { IsScene scene.now }
    ensures { result ≡ call_of scene.now.objects.now owner k }
{
    match owner {
        Owner::InOut => service(k),
        Owner::Object(x) => Op::Call(heading(scene, x, k), 0),
    }
}

fn kind(flag: u8) -> Kind
    ensures { result ≡ kind_of flag }
{
    if flag == 0 {
        Kind::Integer
    } else {
        Kind::Cardinal
    }
}

fn trap(code: u8) -> Trap
    ensures { result ≡ trap_of code }
{
    if code == 7 { Trap::Result } else { Trap::Case }
}

/// Where an instruction jumps to.
fn target(site: &Site, from: &Placed, distance: i32) -> usize
    requires { IsOn site.now }
    ensures { result ≡ target_of (site_in site.now) (spot_of from.now) distance }
{
    site.start + landing(site.all, from.end, distance)
}

macro_rules! operation {
    (($instr:expr) same { $($same:ident $(($($x:ident),*))?;)* } other { $($pattern:pat => $op:expr;)* }) => {
        match $instr {
            $(Instr::$same $(($($x),*))? => Op::$same $(($($x),*))?,)*
            $($pattern => $op,)*
        }
    };
}

/// The operation of an instruction.
#[tactic(auto)]
pub(crate) fn op_of(scene: &Scene, site: &Site, from: &Placed) -> Op
    requires scene { IsScene scene.now }
    requires site { IsOn site.now }
    ensures { result ≡ op_by scene.now.objects.now (site_in site.now) (spot_of from.now) from.now.instr }
{
    operation!((from.instr)
        same {
            Push(v); Local(h, o); Load; Store; Move(n); Dup; Offset(n); Index(low, n, size); IndexOpen(size);
            Check(low, high); Nil; Neg; Abs; Not; Eq; Ne; Lt; Le; Gt; Ge; Union; Diff; Inter; SymDiff; Subset;
            Superset; In; Bit; Span; More(c); CallVar(n, r); Return; New(n); OpenCopy(o, size); Halt; Cap;
        }
        other {
            Instr::Global(i, o) => Op::Push(cell(scene, named(site.module, site.named, i), o) as i64);
            Instr::Str(o) => Op::Push((site.text + o as usize) as i64);
            Instr::Proc(i, k) => Op::Push(value(scene, site.module, site.named, i, k) as i64);
            Instr::Add(b) => Op::Add(kind(b));
            Instr::Sub(b) => Op::Sub(kind(b));
            Instr::Mul(b) => Op::Mul(kind(b));
            Instr::Div(b) => Op::Div(kind(b));
            Instr::Mod(b) => Op::Mod(kind(b));
            Instr::Jump(j) => Op::Jump(target(site, from, j));
            Instr::JumpFalse(j) => Op::JumpFalse(target(site, from, j));
            Instr::AndJump(j) => Op::AndJump(target(site, from, j));
            Instr::OrJump(j) => Op::OrJump(target(site, from, j));
            Instr::Call(k, h) => Op::Call(number(scene, site.module, k), h);
            Instr::CallX(i, k) => call(scene, named(site.module, site.named, i), k);
            Instr::Trap(c) => Op::Trap(trap(c));
        }
    )
}
