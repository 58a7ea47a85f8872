//! What the row of a procedure says.
ghost use Rattle.std.specs.Prelude.{◌≡◌, filter, length};
ghost use Rattle.m2_base.specs.Statics.Contexts.{Context};
ghost use Rattle.m2_base.specs.Statics.Makes.{own_rows};
ghost use Rattle.m2_base.specs.Statics.ProcedureRows.{is_proc, proc_number as spec_number, proc_scope as spec_scope};

use m2_base::StreamKind;

/// The scope of a procedure; a heading in a definition has none.
pub(crate) fn proc_scope(kind: StreamKind, stream: u32) -> u32
    ensures { result ≡ spec_scope kind stream }
{
    match kind {
        StreamKind::Definition => 0,
        _ => stream,
    }
}

/// A heading in a definition is numbered by those before it. Elsewhere a procedure's number is its scope less the
/// module's.
pub(crate) fn proc_number(kind: StreamKind, stream: u32, home: u32, procedures: u32) -> u32
    ensures { (c : Context) → c.scene.block.home ≡ home → length (filter is_proc (own_rows c)) ≡ procedures
        → spec_number c kind stream ≡ result }
{
    match kind {
        StreamKind::Definition => procedures,
        _ => stream.saturating_sub(home),
    }
}
