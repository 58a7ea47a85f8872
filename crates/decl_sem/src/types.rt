//! The rows of a type expression.
ghost use Rattle.std.specs.Prelude.{[], length, map, ◌≤◌, ◌+◌};
ghost use Rattle.m2_base.specs.Statics.Cells.{most_cells};
ghost use Rattle.m2_base.specs.Statics.Makes.{only_gives};
ghost use Rattle.m2_base.specs.Statics.Shapes.{arms_shapes, field_shapes, fields_shapes, form_shapes, type_shapes};
ghost use Rattle.m2_base.specs.Statics.Shapes.{types_shapes};
ghost use Rattle.m2_base.specs.Statics.TypeNames.{type_of_qual as spec_type_of};
ghost use Rattle.m2_base.specs.Statics.TypeRows.{arms_rows, field_list_rows, fields_rows, form_rows, index_rows};
ghost use Rattle.m2_base.specs.Statics.TypeRows.{type_rows};
ghost use Rattle.m2_base.specs.Trees.{array_type, field_lists, record_type, type_exprs, variant_arms};
ghost use Rattle.m2_base.specs.Views.{field_list_view, type_view, variant_arm_view};
ghost use Rattle.decl_sem.specs.ArrayRows.{AreIndexes, index_row, listed};
ghost use Rattle.decl_sem.specs.Pieces.{Declares, IsBehind, IsMaking};
ghost use Rattle.decl_sem.specs.Making.{next_ordinal};
ghost use Rattle.decl_sem.specs.Records.{AreVariants, IsOffset, IsOwner, behind_tag_rows, behind_tag_shapes};
ghost use Rattle.m2_base.specs.Statics.ReadTrees.{AreReadArms, AreReadFields, AreReadTypes, IsReadField, IsReadQual};
ghost use Rattle.m2_base.specs.Statics.ReadTrees.{IsReadType};

use crate::arrays::{checked_index, put_arrays};
use crate::enumerations::make_enumeration;
use crate::fields::put_fields;
use crate::making::{Made, next_row};
use crate::names::{small_place, type_of_qual};
use crate::procedure_types::proc_in;
use crate::records::{Variants, begin_variants, labels_in, put_record};
use crate::sets::make_set;
use crate::shapes::count_fields;
use crate::subranges::subrange_in;
use crate::targets::{pointer_row, target_in};
use case_labels::{Coverage, Covered};
use m2_base::{Ask, FieldList, Memory, Place, Qual, Scopes, Site, TypeExpr, TypeForm, VariantArm};
use std::alloc::Global;

/// The type that a name leads to. It makes no row.
pub(crate) fn name_in<S: Scopes>(
    scopes: &mut S,
    site: &Site,
    qual: Qual,
    made: &mut Made,
) -> Result<Ask<Place>, Memory>
    requires making { IsMaking (S.state scopes.old).frame site.now made.old [] }
    requires read { IsReadQual site.now.texts.now.names qual }
    ensures { Declares (S.state scopes.old) (S.state scopes.new) made.old made.new site.now result [] IsBehind
        (λ c. only_gives (spec_type_of c qual)) }
{
    let named = analysed!(type_of_qual(scopes, site, qual, &mut made.notes));
    let of = small_place(named);
    Ok(Ask::Known(of))
}

/// Makes the rows of a type expression. The value is the type that it is; a part in error is of the type of those.
#[cycle(types)]
pub(crate) fn type_in<S: Scopes>(
    alloc: Global,
    scopes: &mut S,
    site: &Site,
    typ: &TypeExpr,
    made: &mut Made,
) -> Result<Ask<Place>, Memory>
    requires making { IsMaking (S.state scopes.old).frame site.now made.old (type_shapes (type_view typ.now)) }
    requires read { IsReadType site.now.texts.now.names (type_view typ.now) }
    ensures { Declares (S.state scopes.old) (S.state scopes.new) made.old made.new site.now result
        (type_shapes (type_view typ.now)) IsBehind (λ c. type_rows c (type_view typ.now)) }
{
    match &typ.form {
        TypeForm::Named(qual) => name_in(scopes, site, *qual, made),
        TypeForm::Enum(names) => {
            let of = put!(make_enumeration(site, made, typ.at, names));
            Ok(Ask::Known(of))
        }
        TypeForm::Sub { base, low, high } => {
            subrange_in(scopes, site, typ.at, *base, low, high, made)
        }
        TypeForm::Set(of) => {
            let base = analysed!(type_in(alloc, scopes, site, of, made));
            make_set(scopes, site, typ.at, of.at, base, made)
        }
        TypeForm::Pointer(of) => match analysed!(target_in(scopes, site, of, made)) {
            Some(target) => pointer_row(scopes, site, typ.at, target, made),
            None => {
                let target = analysed!(type_in(alloc, scopes, site, of, made));
                pointer_row(scopes, site, typ.at, target, made)
            }
        },
        TypeForm::Proc {
            formals,
            result: outcome,
        } => proc_in(scopes, site, typ.at, formals, *outcome, made),
        TypeForm::Array { index, of } => array_in(alloc, scopes, site, typ.at, index, of, made),
        TypeForm::Rec(fields) => record_in(alloc, scopes, site, typ.at, fields, made),
    }
}

/// The rows of an index type. The value is the type, or that of parts in error.
#[cycle(types)]
fn index_in<S: Scopes>(
    alloc: Global,
    scopes: &mut S,
    site: &Site,
    typ: &TypeExpr,
    made: &mut Made,
) -> Result<Ask<Place>, Memory>
    requires making { IsMaking (S.state scopes.old).frame site.now made.old (type_shapes (type_view typ.now)) }
    requires read { IsReadType site.now.texts.now.names (type_view typ.now) }
    ensures { Declares (S.state scopes.old) (S.state scopes.new) made.old made.new site.now result
        (type_shapes (type_view typ.now)) IsBehind (λ c. index_row c (type_view typ.now)) }
{
    let of = analysed!(type_in(alloc, scopes, site, typ, made));
    checked_index(scopes, site, typ.at, of, made)
}

/// The rows of index types, in order.
#[cycle(types)]
fn indexes_in<S: Scopes>(
    alloc: Global,
    scopes: &mut S,
    site: &Site,
    types: &[TypeExpr],
    made: &mut Made,
) -> Result<Ask<Vec<Place>>, Memory>
    requires making { IsMaking (S.state scopes.old).frame site.now made.old
        (types_shapes (type_exprs (map type_view types.now))) }
    requires read { AreReadTypes site.now.texts.now.names (type_exprs (map type_view types.now)) }
    ensures { Declares (S.state scopes.old) (S.state scopes.new) made.old made.new site.now (listed result)
        (types_shapes (type_exprs (map type_view types.now))) (AreIndexes (length types.now))
        (λ c. index_rows c (type_exprs (map type_view types.now))) }
{
    let mut indexes = Vec::new(alloc);
    for typ in types {
        let index = analysed!(index_in(alloc, scopes, site, typ, made));
        indexes.push(index)?;
    }
    Ok(Ask::Known(indexes))
}

/// The rows of an array: those of its index types, of its elements, and then one for each index type.
#[cycle(types)]
fn array_in<S: Scopes>(
    alloc: Global,
    scopes: &mut S,
    site: &Site,
    at: u32,
    index: &[TypeExpr],
    of: &TypeExpr,
    made: &mut Made,
) -> Result<Ask<Place>, Memory>
    requires making { IsMaking (S.state scopes.old).frame site.now made.old
        (form_shapes at (array_type (type_exprs (map type_view index.now)) (type_view of.now))) }
    requires indexes { AreReadTypes site.now.texts.now.names (type_exprs (map type_view index.now)) }
    requires of { IsReadType site.now.texts.now.names (type_view of.now) }
    ensures { Declares (S.state scopes.old) (S.state scopes.new) made.old made.new site.now result
        (form_shapes at (array_type (type_exprs (map type_view index.now)) (type_view of.now))) IsBehind
        (λ c. form_rows c at (array_type (type_exprs (map type_view index.now)) (type_view of.now))) }
{
    let indexes = analysed!(indexes_in(alloc, scopes, site, index, made));
    let elem = analysed!(type_in(alloc, scopes, site, of, made));
    put_arrays(scopes, site, at, &indexes, elem, made)
}

/// Makes the rows of a record: its fields, then its own.
#[cycle(types)]
fn record_in<S: Scopes>(
    alloc: Global,
    scopes: &mut S,
    site: &Site,
    at: u32,
    fields: &[FieldList],
    made: &mut Made,
) -> Result<Ask<Place>, Memory>
    requires making { IsMaking (S.state scopes.old).frame site.now made.old
        (form_shapes at (record_type (field_lists (map field_list_view fields.now)))) }
    requires read { AreReadFields site.now.texts.now.names (field_lists (map field_list_view fields.now)) }
    ensures { Declares (S.state scopes.old) (S.state scopes.new) made.old made.new site.now result
        (form_shapes at (record_type (field_lists (map field_list_view fields.now)))) IsBehind
        (λ c. form_rows c at (record_type (field_lists (map field_list_view fields.now)))) }
{
    let first = next_row(made);
    let rows = put!(count_fields(alloc, fields));
    let own = first + rows as u32;
    let end = analysed!(fields_in(alloc, scopes, site, own, 0, fields, made));
    let row = put!(put_record(site, at, first, end, made));
    Ok(Ask::Known(row))
}

/// Makes the rows of fields from this offset on, of the record whose row has this ordinal. The value is the offset
/// behind them.
#[cycle(types)]
fn fields_in<S: Scopes>(
    alloc: Global,
    scopes: &mut S,
    site: &Site,
    own: u32,
    offset: u32,
    fields: &[FieldList],
    made: &mut Made,
) -> Result<Ask<u32>, Memory>
    requires making { IsMaking (S.state scopes.old).frame site.now made.old
        (fields_shapes (field_lists (map field_list_view fields.now))) }
    requires owner { IsOwner site.now made.old (fields_shapes (field_lists (map field_list_view fields.now))) own }
    requires offset { offset ≤ most_cells + 1 }
    requires read { AreReadFields site.now.texts.now.names (field_lists (map field_list_view fields.now)) }
    ensures { Declares (S.state scopes.old) (S.state scopes.new) made.old made.new site.now result
        (fields_shapes (field_lists (map field_list_view fields.now))) IsOffset
        (λ c. fields_rows c own offset (field_lists (map field_list_view fields.now))) }
{
    let mut end = offset;
    for list in fields {
        end = analysed!(field_list_in(alloc, scopes, site, own, end, list, made));
    }
    Ok(Ask::Known(end))
}

/// Makes the rows of fields of one type, or of a variant part.
#[cycle(types)]
fn field_list_in<S: Scopes>(
    alloc: Global,
    scopes: &mut S,
    site: &Site,
    own: u32,
    offset: u32,
    list: &FieldList,
    made: &mut Made,
) -> Result<Ask<u32>, Memory>
    requires making { IsMaking (S.state scopes.old).frame site.now made.old (field_shapes (field_list_view list.now)) }
    requires owner { IsOwner site.now made.old (field_shapes (field_list_view list.now)) own }
    requires offset { offset ≤ most_cells + 1 }
    requires read { IsReadField site.now.texts.now.names (field_list_view list.now) }
    ensures { Declares (S.state scopes.old) (S.state scopes.new) made.old made.new site.now result
        (field_shapes (field_list_view list.now)) IsOffset
        (λ c. field_list_rows c own offset (field_list_view list.now)) }
{
    match list {
        FieldList::Plain { names, typ } => {
            let of = analysed!(type_in(alloc, scopes, site, typ, made));
            put_fields(scopes, site, made, own, of, offset, names)
        }
        FieldList::Cases {
            tag,
            of,
            arms,
            other,
        } => {
            let variants = analysed!(begin_variants(scopes, site, own, offset, *tag, *of, made));
            variants_in(alloc, scopes, site, variants, arms, other, made)
        }
    }
}

/// Makes the rows of the variants behind a tag, and of what stands after ELSE.
/// The value is the greatest offset behind one.
#[cycle(types)]
fn variants_in<S: Scopes>(
    alloc: Global,
    scopes: &mut S,
    site: &Site,
    variants: Variants,
    arms: &[VariantArm],
    other: &[FieldList],
    made: &mut Made,
) -> Result<Ask<u32>, Memory>
    requires making { IsMaking (S.state scopes.old).frame site.now made.old (behind_tag_shapes
        (variant_arms (map variant_arm_view arms.now)) (field_lists (map field_list_view other.now))) }
    requires owner { IsOwner site.now made.old (behind_tag_shapes (variant_arms (map variant_arm_view arms.now))
        (field_lists (map field_list_view other.now))) variants.own }
    requires variants { AreVariants (S.state scopes.old).frame (next_ordinal made.old) variants }
    requires arms { AreReadArms site.now.texts.now.names (variant_arms (map variant_arm_view arms.now)) }
    requires other { AreReadFields site.now.texts.now.names (field_lists (map field_list_view other.now)) }
    ensures { Declares (S.state scopes.old) (S.state scopes.new) made.old made.new site.now result
        (behind_tag_shapes (variant_arms (map variant_arm_view arms.now))
        (field_lists (map field_list_view other.now))) IsOffset (λ c. behind_tag_rows c variants
        (variant_arms (map variant_arm_view arms.now)) (field_lists (map field_list_view other.now))) }
{
    let Variants { own, offset, .. } = variants;
    let end = analysed!(arms_in(alloc, scopes, site, variants, arms, made));
    let last = analysed!(fields_in(alloc, scopes, site, own, offset, other, made));
    Ok(Ask::Known(end.max(last)))
}

/// Makes the rows of variants, each of which begins at the same offset. The value is the greatest offset behind one.
#[cycle(types)]
fn arms_in<S: Scopes>(
    alloc: Global,
    scopes: &mut S,
    site: &Site,
    variants: Variants,
    arms: &[VariantArm],
    made: &mut Made,
) -> Result<Ask<u32>, Memory>
    requires making { IsMaking (S.state scopes.old).frame site.now made.old
        (arms_shapes (variant_arms (map variant_arm_view arms.now))) }
    requires owner { IsOwner site.now made.old (arms_shapes (variant_arms (map variant_arm_view arms.now)))
        variants.own }
    requires variants { AreVariants (S.state scopes.old).frame (next_ordinal made.old) variants }
    requires read { AreReadArms site.now.texts.now.names (variant_arms (map variant_arm_view arms.now)) }
    ensures { Declares (S.state scopes.old) (S.state scopes.new) made.old made.new site.now result
        (arms_shapes (variant_arms (map variant_arm_view arms.now))) IsOffset (λ c. arms_rows c variants.own
        variants.offset variants.tag [] variants.offset (variant_arms (map variant_arm_view arms.now))) }
{
    let Variants { own, offset, tag } = variants;
    let mut covered = Covered::new(alloc);
    let mut end = offset;
    for arm in arms {
        let coverage = Coverage { of: tag, covered };
        covered = analysed!(labels_in(scopes, site, coverage, &arm.labels, made));
        let after = analysed!(fields_in(alloc, scopes, site, own, offset, &arm.fields, made));
        end = end.max(after);
    }
    Ok(Ask::Known(end))
}
