//! The rule of the table, and what each kind of step tells its seat.
ghost use Rattle.scope_table.specs.Plays.{cell_loaded, cell_put, head_loaded, row_loaded, word_put, rows_shown};
ghost use Rattle.scope_table.specs.Plays.{is_sealed, look_noted, first_right, other_rights, note_of, same_view};
ghost use Rattle.scope_table.specs.Plays.{told_of, spent, with_rights, once_each};

use crate::view::{About, View};
use atomic_table::{Join, Play, Split, TableRule};
use std::marker::{Brand, PhantomData};

pub struct Law;

impl TableRule<(), View, About> for Law {
    ghost use Rattle.scope_table.specs.Rule.{IsKept, first_view};

    ghost holds = { λ about s. IsKept about s };

    ghost first = { λ about. first_view about };
}

pub(crate) struct LoadHead;

impl Play<(), View> for LoadHead {
    ghost then = { head_loaded };
}

pub(crate) struct LoadRow;

impl Play<(), View> for LoadRow {
    ghost then = { row_loaded };
}

pub(crate) struct LoadCell;

impl Play<(), View> for LoadCell {
    ghost then = { cell_loaded };
}

pub(crate) struct PutCell;

impl Play<(), View> for PutCell {
    ghost then = { cell_put };
}

pub(crate) struct PutWord;

impl Play<(), View> for PutWord {
    ghost then = { word_put };
}

pub(crate) struct Show;

impl Play<(), View> for Show {
    ghost then = { rows_shown };
}

pub(crate) struct Seal;

impl Play<(), View> for Seal {
    ghost then = { is_sealed };
}

/// The look that a seat notes. Each call picks it.
pub trait Noted {
    ghost use Rattle.scope_table.specs.declared.view.Look.{Look};

    ghost look: { Look };
}

impl Noted for Brand {
    ghost use Rattle.std.specs.Prelude.{[]};
    ghost use Rattle.m2_base.specs.declared.replies.Reply.TheVariants.{Absent};

    ghost look = { record { at = 0; name = 0; chain = []; heads = []; reply = Absent } };
}

pub(crate) struct NoteLook<J> {
    of: PhantomData<J>,
}

impl<J: Noted> Play<(), View> for NoteLook<J> {
    ghost then = { look_noted J.look };
}

pub(crate) struct OneRight;

impl Split<View> for OneRight {
    ghost left = { other_rights };

    ghost right = { first_right };
}

pub(crate) struct Note;

impl Split<View> for Note {
    ghost left = { same_view };

    ghost right = { note_of };
}

/// Which table it is, for a view that is spent. Each call picks it.
pub trait Told {
    ghost use Rattle.scope_table.specs.declared.view.About.{About};

    ghost about: { About };
}

impl Told for Brand {
    ghost use Rattle.scope_table.specs.Rule.{no_unit};

    ghost about = { no_unit };
}

pub(crate) struct Tell<J> {
    of: PhantomData<J>,
}

impl<J: Told> Join<View> for Tell<J> {
    ghost both = { told_of };

    ghost spent = { spent J.about };
}

pub(crate) struct Together<J> {
    of: PhantomData<J>,
}

impl<J: Told> Join<View> for Together<J> {
    ghost both = { with_rights };

    ghost spent = { spent J.about };
}

pub(crate) struct OnceEach;

impl Play<(), View> for OnceEach {
    ghost then = { once_each };
}
