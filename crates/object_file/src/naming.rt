//! What the operands of instructions name.
ghost use Rattle.std.specs.Prelude.{◌≡◌, ◌<◌, ◌==◌, map, slice_get};
ghost use Rattle.std.specs.Option.{option_map};
ghost use Rattle.code_form.specs.Heights.{step_among};
ghost use Rattle.code_form.specs.Valid.{import_of as spec_import, when_there, procedure_or, heading_or, headings_or};
ghost use Rattle.code_form.specs.Valid.{outer_of as spec_outer, linked as spec_linked, has_heading as spec_heading};
ghost use Rattle.code_form.specs.Valid.{has_cell as spec_cell, is_value as spec_value, can_call as spec_call};
ghost use Rattle.code_form.specs.Valid.{has_local as spec_local, names_what_is_there as spec_names, callees_of};
ghost use Rattle.object_file.specs.Links.{AreLinksOf};
ghost use Rattle.object_file.specs.Views.{heading_of, import_of, procedure_of, world_in};

use crate::links::Links;
use crate::parts::{ImportNote, Parts};
use code_form::{Effect, Instr};
use m2_base::ProcCode;

fn import_at(parts: &Parts, index: usize) -> Option<&ImportNote>
    ensures { option_map (λ i. import_of i.now) result ≡ slice_get (map import_of parts.now.imports.items) index }
{
    parts.imports.get(index)
}

/// The import m, from 1.
fn import(parts: &Parts, m: u32) -> Option<&ImportNote>
    ensures { option_map (λ i. import_of i.now) result ≡ spec_import (world_in parts.now) m }
{
    if m == 0 {
        return None;
    }
    import_at(parts, m as usize - 1)
}

fn procedure(parts: &Parts, k: u32) -> Option<&ProcCode>
    ensures { option_map (λ p. procedure_of p.now) result ≡ slice_get (map procedure_of parts.now.procedures.items) k }
{
    parts.procedures.get(k as usize)
}

/// The outer procedure, 0 at module level.
pub(crate) fn outer_of(parts: &Parts, k: u32) -> u32
    ensures { result ≡ spec_outer (world_in parts.now) k }
{
    match procedure(parts, k) {
        Some(p) => p.outer,
        None => 0,
    }
}

fn has_heading(parts: &Parts, m: u32, k: u32) -> bool
    ensures { result ≡ spec_heading (world_in parts.now) m k }
{
    match import(parts, m) {
        Some(i) => (k as usize) < i.headings.len(),
        None => false,
    }
}

fn has_import_cell(parts: &Parts, m: u32, o: u32) -> bool
    requires { 0 < m }
    ensures { result ≡ spec_cell (world_in parts.now) m o }
{
    match import(parts, m) {
        Some(i) => o < i.cells,
        None => false,
    }
}

fn has_cell(parts: &Parts, m: u32, o: u32) -> bool
    ensures { result ≡ spec_cell (world_in parts.now) m o }
{
    if m == 0 {
        o < parts.cells
    } else {
        has_import_cell(parts, m, o)
    }
}

fn is_own_value(parts: &Parts, k: u32) -> bool
    ensures { result ≡ spec_value (world_in parts.now) 0 k }
{
    match procedure(parts, k) {
        Some(p) => 1 <= k && p.outer == 0,
        None => false,
    }
}

/// A procedure that can be a value.
fn is_value(parts: &Parts, m: u32, k: u32) -> bool
    ensures { result ≡ spec_value (world_in parts.now) m k }
{
    if m == 0 {
        is_own_value(parts, k)
    } else {
        has_heading(parts, m, k)
    }
}

/// The links lead to the outer procedure.
fn reaches(parts: &Parts, links: &Links, from: u32, h: u32, outer: u32) -> bool
    requires { AreLinksOf (world_in parts.now) links.now }
    ensures { result ≡ when_there (spec_linked (world_in parts.now) h from) (λ q. q == outer) }
{
    match links.linked(parts, h, from) {
        Some(q) => q == outer,
        None => false,
    }
}

fn can_call(parts: &Parts, links: &Links, from: u32, p: u32, h: u32) -> bool
    requires { AreLinksOf (world_in parts.now) links.now }
    ensures { result ≡ spec_call (world_in parts.now) from p h }
{
    match procedure(parts, p) {
        Some(callee) => {
            1 <= p
                && (if callee.outer == 0 {
                    h == 0
                } else {
                    reaches(parts, links, from, h, callee.outer)
                })
        }
        None => false,
    }
}

fn has_local(parts: &Parts, links: &Links, from: u32, h: u32, o: u32) -> bool
    requires { AreLinksOf (world_in parts.now) links.now }
    ensures { result ≡ spec_local (world_in parts.now) from h o }
{
    match links.linked(parts, h, from) {
        Some(q) => {
            match procedure(parts, q) {
                Some(p) => o < p.locals,
                None => false,
            }
        }
        None => false,
    }
}

/// What the operands of an instruction in the code of procedure k name is there.
#[inline(always)]
pub(crate) fn names_what_is_there(
    parts: &Parts,
    links: &Links,
    k: u32,
    own: &ProcCode,
    instr: &Instr,
) -> bool
    requires { AreLinksOf (world_in parts.now) links.now }
    ensures { result ≡ spec_names (world_in parts.now) k (procedure_of own.now) instr.now }
{
    match *instr {
        Instr::Local(h, o) => has_local(parts, links, k, h, o),
        Instr::Global(m, o) => has_cell(parts, m, o),
        Instr::Str(o) => (o as usize) < own.bytes.len(),
        Instr::Call(p, h) => can_call(parts, links, k, p, h),
        Instr::CallX(m, heading) => has_heading(parts, m, heading),
        Instr::CallVar(_, r) => r <= 1,
        Instr::Proc(m, q) => is_value(parts, m, q),
        Instr::OpenCopy(o, _) => o as u64 + 1 < own.locals as u64,
        _ => true,
    }
}

/// What a call of an own procedure takes and leaves.
fn own_callee(parts: &Parts, p: u32) -> (u64, u64)
    ensures { record { params = result.0; result = result.1 }
        ≡ procedure_or (slice_get (map procedure_of parts.now.procedures.items) p) }
{
    match procedure(parts, p) {
        Some(callee) => (callee.params as u64, callee.result as u64),
        None => (0, 0),
    }
}

fn heading(headings: &[(u32, u32)], k: u32) -> (u64, u64)
    ensures { record { params = result.0; result = result.1 }
        ≡ heading_or (slice_get (map heading_of headings.now) k) }
{
    match headings.get(k as usize) {
        Some((params, cells)) => (*params as u64, *cells as u64),
        None => (0, 0),
    }
}

/// What a call of a heading takes and leaves.
fn import_callee(parts: &Parts, m: u32, k: u32) -> (u64, u64)
    ensures { record { params = result.0; result = result.1 }
        ≡ heading_or (slice_get (headings_or (spec_import (world_in parts.now) m)) k) }
{
    match import(parts, m) {
        Some(i) => heading(&i.headings, k),
        None => (0, 0),
    }
}

/// What an instruction takes and leaves.
#[inline(always)]
pub(crate) fn step(parts: &Parts, own: &ProcCode, instr: &Instr) -> (u64, u64)
    ensures { record { instr = instr.now; takes = result.0; leaves = result.1 }
        ≡ step_among (callees_of (world_in parts.now) (procedure_of own.now)) instr.now }
{
    match instr.effect() {
        Effect::Changes(takes, leaves) => (takes, leaves),
        Effect::CallsOwn(p) => own_callee(parts, p),
        Effect::CallsImport(m, k) => import_callee(parts, m, k),
        Effect::GivesResult => (own.result as u64, 0),
    }
}
