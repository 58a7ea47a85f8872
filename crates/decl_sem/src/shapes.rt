//! The rows that each part of a declaration makes, by the syntax alone.
ghost use Rattle.std.specs.Prelude.{◌≡◌, [], ◌∷◌, ◌++◌, ◌+◌, ◌<◌, ◌^◌, flat_map, length, map, option_map, IfOk, OnOk};
ghost use Rattle.m2_base.specs.Statics.Items.{decl_item, heading_item, import_item, type_item, proc_item};
ghost use Rattle.m2_base.specs.Statics.Layouts.{names_of_item};
ghost use Rattle.m2_base.specs.Statics.Shapes.{Shape as PlainShape, named, nameless, open_shapes, formal_shapes};
ghost use Rattle.m2_base.specs.Statics.Shapes.{tag_shapes, type_shapes, field_shapes, fields_shapes, arm_shapes};
ghost use Rattle.m2_base.specs.Statics.Shapes.{own_section_shapes, section_shapes, item_shapes};
ghost use Rattle.m2_base.specs.Trees.{field_lists};
ghost use Rattle.decl_sem.specs.Shapes.{arrays_of, shape_view};
ghost use Rattle.m2_base.specs.Views.{type_view, field_list_view, variant_arm_view, section_view, heading_view};
ghost use Rattle.m2_base.specs.Views.{decl_view};

use crate::kinds;
use m2_base::{
    Decl, FieldList, Formal, Heading, Ident, Memory, Named, Qual, Section, TypeExpr, TypeForm,
    VariantArm,
};
use std::alloc::Global;
use std::marker::Model;

/// A row's name (0: none), kind and token.
#[derive(Clone, Copy)]
struct Shape {
    name: u32,
    kind: u8,
    at: u32,
}

/// The shapes of rows, in the order of the rows.
#[derive(Drop)]
pub(crate) struct Shapes {
    list: Vec<Shape>,
}

impl Model for Shapes {
    ghost use Rattle.std.specs.Prelude.{List, map};
    ghost use Rattle.m2_base.specs.Statics.Shapes.{Shape as PlainShape};
    ghost use Rattle.decl_sem.specs.Shapes.{shape_view};

    ghost Value = { List PlainShape };

    ghost view = { λ s. map shape_view s.list.items };
}

impl Shapes {
    /// None yet.
    pub(crate) fn new(alloc: Global) -> Shapes
        ensures { result ≡ [] }
    {
        Shapes {
            list: Vec::new(alloc),
        }
    }

    /// One more.
    fn put(&mut self, name: u32, kind: u8, at: u32) -> Result<(), Memory>
        ensures { OnOk result (self.new ≡ self.old ++ record { name = name; kind = kind; at = at } ∷ []) }
    {
        self.list.push(Shape { name, kind, at })?;
        Ok(())
    }

    /// How many there are.
    pub(crate) fn count(&self) -> usize
        ensures { result ≡ length self.now }
    {
        self.list.len()
    }

    /// Adds the names among them, where they are an item's and the first has this ordinal.
    pub(crate) fn name_in(
        &self,
        names: &mut Vec<Named>,
        item: u32,
        first: u32,
    ) -> Result<(), Memory>
        requires { first + length self.now < 2 ^ 32 }
        ensures { OnOk result (names.new.items ≡ names.old.items ++ names_of_item item first self.now) }
    {
        name_all(names, item, first, &self.list)
    }
}

/// Adds the names among shapes.
#[tactic(auto, using(std::proofs::lemmas::Grind::common_steps, crate::proofs::Namings::naming))]
fn name_all(names: &mut Vec<Named>, item: u32, first: u32, shapes: &[Shape]) -> Result<(), Memory>
    requires { first + length shapes.now < 2 ^ 32 }
    ensures { OnOk result (names.new.items ≡ names.old.items ++ names_of_item item first (map shape_view shapes.now)) }
{
    for (position, shape) in shapes.iter().enumerate() {
        if shape.name != 0 {
            names.push(Named {
                name: shape.name,
                ordinal: first + position as u32,
                kind: shape.kind,
                at: shape.at,
                item,
            })?;
        }
    }
    Ok(())
}

/// A row without a name.
fn put_nameless(shapes: &mut Shapes, kind: u8, at: u32) -> Result<(), Memory>
    ensures { OnOk result (shapes.new ≡ shapes.old ++ nameless kind at ∷ []) }
{
    shapes.put(0, kind, at)
}

/// A row of each of these names.
fn put_names(shapes: &mut Shapes, kind: u8, names: &[Ident]) -> Result<(), Memory>
    ensures { OnOk result (shapes.new ≡ shapes.old ++ map (named kind) names.now) }
{
    for name in names {
        shapes.put(name.name, kind, name.at)?;
    }
    Ok(())
}

/// A nameless row for each of these names.
fn put_for_names(shapes: &mut Shapes, kind: u8, names: &[Ident]) -> Result<(), Memory>
    ensures { OnOk result (shapes.new ≡ shapes.old ++ map (λ i. nameless kind i.at) names.now) }
{
    for name in names {
        put_nameless(shapes, kind, name.at)?;
    }
    Ok(())
}

/// An open array has a row of its own.
fn put_open(shapes: &mut Shapes, is_open: bool, of: &Qual) -> Result<(), Memory>
    ensures { OnOk result (shapes.new ≡ shapes.old ++ open_shapes is_open of.now) }
{
    if is_open {
        put_nameless(shapes, kinds::OPEN_ARRAY, of.first.at)
    } else {
        Ok(())
    }
}

/// The parameters of a procedure type.
fn put_formals(shapes: &mut Shapes, formals: &[Formal]) -> Result<(), Memory>
    ensures { OnOk result (shapes.new ≡ shapes.old ++ flat_map formal_shapes formals.now) }
{
    for formal in formals {
        put_open(shapes, formal.is_open, &formal.of)?;
        put_nameless(shapes, kinds::PARAM, formal.of.first.at)?;
    }
    Ok(())
}

/// A tag with a name is a field.
fn put_tag(shapes: &mut Shapes, tag: &Option<Ident>) -> Result<(), Memory>
    ensures { OnOk result (shapes.new ≡ shapes.old ++ tag_shapes tag.now) }
{
    match tag {
        Some(name) => put_nameless(shapes, kinds::FIELD, name.at),
        None => Ok(()),
    }
}

/// One array for each index type.
#[tactic(auto, using(std::proofs::lemmas::Grind::common_steps, crate::proofs::TypeShapes::of_arrays))]
fn put_arrays(shapes: &mut Shapes, at: u32, index: &[TypeExpr]) -> Result<(), Memory>
    ensures { OnOk result (shapes.new ≡ shapes.old ++ arrays_of at index.now) }
{
    for _inner in index {
        put_nameless(shapes, kinds::ARRAY, at)?;
    }
    Ok(())
}

/// The rows of a type.
#[cycle(types)]
#[tactic(auto, using(std::proofs::lemmas::Grind::common_steps, crate::proofs::TypeShapes::of_types))]
fn put_type(shapes: &mut Shapes, typ: &TypeExpr) -> Result<(), Memory>
    ensures { OnOk result (shapes.new ≡ shapes.old ++ type_shapes (type_view typ.now)) }
{
    match &typ.form {
        TypeForm::Named(_) => Ok(()),
        TypeForm::Enum(names) => {
            put_nameless(shapes, kinds::ENUM, typ.at)?;
            put_names(shapes, kinds::CONST, names)
        }
        TypeForm::Sub { .. } => put_nameless(shapes, kinds::SUBRANGE, typ.at),
        TypeForm::Array { index, of } => {
            put_types(shapes, index)?;
            put_type(shapes, of)?;
            put_arrays(shapes, typ.at, index)
        }
        TypeForm::Rec(fields) => {
            put_fields(shapes, fields)?;
            put_nameless(shapes, kinds::RECORD, typ.at)
        }
        TypeForm::Set(of) => {
            put_type(shapes, of)?;
            put_nameless(shapes, kinds::SET, typ.at)
        }
        TypeForm::Pointer(of) => {
            put_type(shapes, of)?;
            put_nameless(shapes, kinds::POINTER, typ.at)
        }
        TypeForm::Proc { formals, .. } => {
            put_formals(shapes, formals)?;
            put_nameless(shapes, kinds::PROC_TYPE, typ.at)
        }
    }
}

/// The rows of index types.
#[cycle(types)]
fn put_types(shapes: &mut Shapes, types: &[TypeExpr]) -> Result<(), Memory>
    ensures { OnOk result (shapes.new ≡ shapes.old ++ flat_map (λ t. type_shapes (type_view t)) types.now) }
{
    for typ in types {
        put_type(shapes, typ)?;
    }
    Ok(())
}

/// The rows of a record's fields.
#[cycle(types)]
fn put_fields(shapes: &mut Shapes, fields: &[FieldList]) -> Result<(), Memory>
    ensures { OnOk result (shapes.new ≡ shapes.old ++ flat_map (λ f. field_shapes (field_list_view f)) fields.now) }
{
    for list in fields {
        put_field_list(shapes, list)?;
    }
    Ok(())
}

/// The type's rows, then a field for each name; of a variant part the tag, the variants and what stands after ELSE.
#[cycle(types)]
#[tactic(auto, using(std::proofs::lemmas::Grind::common_steps, crate::proofs::TypeShapes::of_fields))]
fn put_field_list(shapes: &mut Shapes, list: &FieldList) -> Result<(), Memory>
    ensures { OnOk result (shapes.new ≡ shapes.old ++ field_shapes (field_list_view list.now)) }
{
    match list {
        FieldList::Plain { names, typ } => {
            put_type(shapes, typ)?;
            put_for_names(shapes, kinds::FIELD, names)
        }
        FieldList::Cases {
            tag,
            arms,
            other,
            ..
        } => {
            put_tag(shapes, tag)?;
            put_arms(shapes, arms)?;
            put_fields(shapes, other)
        }
    }
}

/// The rows of variants.
#[cycle(types)]
#[tactic(auto, using(std::proofs::lemmas::Grind::common_steps, crate::proofs::TypeShapes::of_fields))]
fn put_arms(shapes: &mut Shapes, arms: &[VariantArm]) -> Result<(), Memory>
    ensures { OnOk result (shapes.new ≡ shapes.old ++ flat_map (λ a. arm_shapes (variant_arm_view a)) arms.now) }
{
    for arm in arms {
        put_fields(shapes, &arm.fields)?;
    }
    Ok(())
}

/// How many rows a record's fields have.
#[tactic(auto, using(crate::proofs::TypeShapes::of_lists))]
pub(crate) fn count_fields(alloc: Global, fields: &[FieldList]) -> Result<usize, Memory>
    ensures { IfOk result (λ count. count ≡ length (fields_shapes (field_lists (map field_list_view fields.now)))) }
{
    let mut shapes = Shapes::new(alloc);
    put_fields(&mut shapes, fields)?;
    Ok(shapes.count())
}

/// The variables of a heading's parameters, in the procedure's own scope.
fn put_own_sections(shapes: &mut Shapes, sections: &[Section]) -> Result<(), Memory>
    ensures { OnOk result
        (shapes.new ≡ shapes.old ++ flat_map (λ s. own_section_shapes (section_view s)) sections.now) }
{
    for section in sections {
        put_open(shapes, section.is_open, &section.of)?;
        put_names(shapes, kinds::VAR, &section.names)?;
    }
    Ok(())
}

/// Parameters of one type, in the scope round the procedure.
fn put_section(shapes: &mut Shapes, section: &Section) -> Result<(), Memory>
    ensures { OnOk result (shapes.new ≡ shapes.old ++ section_shapes (section_view section.now)) }
{
    put_open(shapes, section.is_open, &section.of)?;
    put_for_names(shapes, kinds::PARAM, &section.names)
}

/// The parameters of a heading, in the scope round the procedure.
fn put_sections(shapes: &mut Shapes, sections: &[Section]) -> Result<(), Memory>
    ensures { OnOk result (shapes.new ≡ shapes.old ++ flat_map (λ s. section_shapes (section_view s)) sections.now) }
{
    for section in sections {
        put_section(shapes, section)?;
    }
    Ok(())
}

/// The rows of the heading of a block.
#[tactic(auto, using(std::proofs::lemmas::Grind::common_steps, crate::proofs::ItemShapes::of_items))]
pub(crate) fn put_heading(shapes: &mut Shapes, heading: &Heading) -> Result<(), Memory>
    ensures { OnOk result (shapes.new ≡ shapes.old ++ item_shapes (heading_item (heading_view heading.now))) }
{
    put_own_sections(shapes, &heading.sections)
}

/// The row of a name of an import.
pub(crate) fn put_import(
    shapes: &mut Shapes,
    from: &Option<Ident>,
    name: &Ident,
) -> Result<(), Memory>
    ensures { OnOk result (shapes.new ≡ shapes.old ++ item_shapes (import_item from.now name.now)) }
{
    let kind = match from {
        Some(_) => kinds::ALIAS,
        None => kinds::MODULE,
    };
    shapes.put(name.name, kind, name.at)
}

/// The rows of a type and its name; an opaque type has a row of its own.
fn put_type_item(shapes: &mut Shapes, name: &Ident, typ: &Option<TypeExpr>) -> Result<(), Memory>
    ensures { OnOk result
        (shapes.new ≡ shapes.old ++ item_shapes (type_item name.now (option_map type_view typ.now))) }
{
    match typ {
        Some(typ) => put_type(shapes, typ)?,
        None => put_nameless(shapes, kinds::OPAQUE, name.at)?,
    }
    shapes.put(name.name, kinds::TYPE_NAME, name.at)
}

/// The rows of a procedure's heading in the scope round it.
#[tactic(auto, using(std::proofs::lemmas::Grind::common_steps, crate::proofs::ItemShapes::of_items))]
fn put_procedure(shapes: &mut Shapes, heading: &Heading) -> Result<(), Memory>
    ensures { OnOk result (shapes.new ≡ shapes.old ++ item_shapes (proc_item (heading_view heading.now) 0)) }
{
    put_sections(shapes, &heading.sections)?;
    put_nameless(shapes, kinds::PROC_TYPE, heading.name.at)?;
    shapes.put(heading.name.name, kinds::PROC, heading.name.at)
}

/// The rows of a declaration: those of its types first, then those of its names.
pub(crate) fn put_declaration(shapes: &mut Shapes, declaration: &Decl) -> Result<(), Memory>
    ensures { OnOk result (shapes.new ≡ shapes.old ++ item_shapes (decl_item (decl_view declaration.now))) }
{
    match declaration {
        Decl::Const { name, .. } => shapes.put(name.name, kinds::CONST, name.at),
        Decl::Types { name, typ } => put_type_item(shapes, name, typ),
        Decl::Vars { names, typ } => {
            put_type(shapes, typ)?;
            put_names(shapes, kinds::VAR, names)
        }
        Decl::Proc { heading, .. } => put_procedure(shapes, heading),
    }
}
