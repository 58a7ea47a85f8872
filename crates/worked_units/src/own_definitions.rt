//! Implementation modules with their definitions: what the static rules note of them, each the contract of a function
//! that does nothing.
ghost use Rattle.std.specs.Prelude.{◌≡◌, ◌∷◌, []};
ghost use Rattle.m2_base.specs.Statics.UnitNotes.{declaration_diags};
ghost use Rattle.m2_base.specs.Statics.UnitRows.{unit_rows};
ghost use Rattle.m2_base.specs.Tables.{rows_at};
ghost use Rattle.worked_units.specs.OwnDefinitions.{at, both_wrong, given_as_pointer, given_as_procedure};
ghost use Rattle.worked_units.specs.OwnDefinitions.{given_as_record, given_as_scalar, given_as_variable};
ghost use Rattle.worked_units.specs.OwnDefinitions.{heading_as_variable, heading_left_out, no_result_given};
ghost use Rattle.worked_units.specs.OwnDefinitions.{none_given, one_more, opaque_parameter, other_mode, other_name};
ghost use Rattle.worked_units.specs.OwnDefinitions.{other_result, other_type, type_by_another_name, type_left_out};
ghost use Rattle.worked_units.specs.OwnDefinitions.{variable_again, variable_row};

/// An opaque type is implemented by a scalar, a set or a pointer that the module declares under its name.
pub fn opaque_types()
    ensures left_out { declaration_diags type_left_out ≡ at 2 64 ∷ [] }
    ensures scalar { declaration_diags given_as_scalar ≡ [] }
    ensures pointer { declaration_diags given_as_pointer ≡ [] }
    ensures structure { declaration_diags given_as_record ≡ at 2 64 ∷ [] }
    ensures procedure { declaration_diags given_as_procedure ≡ at 2 64 ∷ [] }
    ensures variable { declaration_diags given_as_variable ≡ at 2 64 ∷ [] }
{}

/// A heading is implemented by a procedure with the same modes, types and result.
pub fn headings()
    ensures left_out { declaration_diags heading_left_out ≡ at 2 64 ∷ [] }
    ensures variable { declaration_diags heading_as_variable ≡ at 2 64 ∷ [] }
    ensures name { declaration_diags other_name ≡ [] }
    ensures by_ref { declaration_diags other_mode ≡ at 20 65 ∷ [] }
    ensures more { declaration_diags one_more ≡ at 20 65 ∷ [] }
    ensures none { declaration_diags none_given ≡ at 20 65 ∷ [] }
    ensures typ { declaration_diags other_type ≡ at 20 65 ∷ [] }
    ensures alias { declaration_diags type_by_another_name ≡ [] }
    ensures result { declaration_diags other_result ≡ at 20 65 ∷ [] }
    ensures without { declaration_diags no_result_given ≡ at 20 65 ∷ [] }
{}

/// In the module its opaque types are the types that it declares, and each wrong heading and what is missing is told.
pub fn both()
    ensures same { declaration_diags (opaque_parameter 3) ≡ [] }
    ensures own { declaration_diags (opaque_parameter 29) ≡ [] }
    ensures other { declaration_diags (opaque_parameter 1) ≡ at 20 65 ∷ [] }
    ensures wrong { declaration_diags both_wrong ≡ at 20 65 ∷ at 2 64 ∷ [] }
{}

/// A variable of the definition may be declared again: it is another, behind those of the definition.
pub fn variables()
    ensures noted { declaration_diags variable_again ≡ [] }
    ensures rows { rows_at (unit_rows variable_again) 2 ≡ variable_row ∷ [] }
{}
