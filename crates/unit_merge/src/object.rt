//! The object of a unit.
ghost use Rattle.std.specs.Prelude.{◌≡◌, ◌^◌, ◌<◌, ◌+◌, ◌==◌, [], map, option_map, position, IfOk};
ghost use Rattle.definition_keys.specs.Keys.{unit_keys as spec_unit_keys};
ghost use Rattle.m2_base.specs.Finished.{own_scope};
ghost use Rattle.m2_base.specs.Lists.{Each};
ghost use Rattle.m2_base.specs.Units.{Front, TextOf};
ghost use Rattle.object_file.specs.Views.{contents_of, procedure_of};
ghost use Rattle.stream_split.specs.Fronts.{AreFronts};
ghost use Rattle.unit_merge.specs.Merging.{CanBeMerged, HaveNoFaults};
ghost use Rattle.unit_merge.specs.Objects.{HaveLowHeights, HaveTheirNumbers, contents_from};
ghost use Rattle.unit_merge.specs.Outputs.{output_diags};

use crate::exports::own_part;
use crate::imports::other_imports;
use definition_keys::unit_keys;
use m2_base::{Memory, Output, ProcCode, Texts};
use object_file::{Object, Parts};
use std::alloc::Global;

/// Where this text stands in the order.
fn place_in(order: &[u32], text: u32) -> Option<usize>
    ensures { result ≡ position (λ k. k == text) order.now }
{
    order.iter().position(|k| *k == text)
}

/// Where the own definition stands among the definition modules of a unit.
fn own_place(texts: &Texts) -> Option<usize>
    ensures { option_map (λ n. n + 1) result ≡ own_scope texts.now }
{
    match texts.own {
        Some(own) => place_in(&texts.order, own),
        None => None,
    }
}

/// The code of each output. It is moved, and none of it is copied.
fn procedures_of(alloc: Global, outputs: Vec<Output>) -> Result<Vec<ProcCode>, Memory>
    ensures codes { IfOk result
        (λ procedures. map procedure_of procedures.items ≡ map (λ o. procedure_of o.code) outputs.items) }
    ensures heights { IfOk result (λ _. Each (λ o. o.code.high < 2 ^ 32) outputs.items) }
{
    let mut procedures = Vec::with_capacity(alloc, outputs.len())?;
    for output in outputs {
        let code = output.code;
        let _high = code.high;
        procedures.push(code)?;
    }
    Ok(procedures)
}

/// What the object of a unit says, by the outputs of its streams.
fn unit_parts(alloc: Global, texts: &Texts, outputs: Vec<Output>) -> Result<Parts, Memory>
    requires { CanBeMerged texts.now outputs.items }
    ensures contents { (front : TextOf → Front) → AreFronts front texts.now → IfOk result
        (λ parts. contents_of parts ≡ contents_from (spec_unit_keys front texts.now) texts.now outputs.items) }
    ensures numbers { IfOk result (λ _. HaveTheirNumbers texts.now) }
    ensures heights { IfOk result (λ _. HaveLowHeights texts.now outputs.items) }
{
    let keys = unit_keys(alloc, texts)?;
    let own = own_place(texts);
    let mut definitions = outputs;
    let mains = definitions.split_off(texts.order.len())?;
    let main = &mains[0];
    let part = own_part(alloc, own, &keys, &definitions, &main.headings)?;
    let cells = main.cells;
    let imports = other_imports(alloc, &texts.names, &keys, &definitions, own)?;
    let name = texts.names.bytes(texts.main().name).to_vec(alloc)?;
    let procedures = procedures_of(alloc, mains)?;
    Ok(Parts {
        version: 2,
        name,
        key: part.key,
        cells,
        own_cells: part.cells,
        exports: part.exports,
        imports,
        procedures,
    })
}

/// The object of a unit without faults and diagnostics, by the outputs of its streams.
pub(crate) fn unit_object(
    alloc: Global,
    texts: &Texts,
    outputs: Vec<Output>,
) -> Result<Object, Memory>
    requires mergeable { CanBeMerged texts.now outputs.items }
    requires faultless { HaveNoFaults texts.now }
    requires none { output_diags outputs.items ≡ [] }
    ensures { (front : TextOf → Front) → AreFronts front texts.now
        → IfOk result (λ object. object ≡ contents_from (spec_unit_keys front texts.now) texts.now outputs.items) }
{
    let parts = unit_parts(alloc, texts, outputs)?;
    Ok(Object::build(parts))
}
