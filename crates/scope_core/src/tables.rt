//! Tables, what one thread answers over them, and how events change them.
ghost use Rattle.std.specs.Prelude.{◌≡◌, OnOk, OnErr, IfOk, replicate};
ghost use Rattle.m2_base.specs.Tables.{one_thread, no_rows};
ghost use Rattle.scope_core.specs.Events.{IsLawful, IsRun, IsPartOf, after, after_all, AreCountable, CanLook, Stays};

use crate::event::Event;
use crate::kept::{Kept, add_rows, close, reply_in};
use m2_base::{Memory, Reply};
use std::alloc::Global;
use std::marker::Model;

/// The tables of all scopes.
#[derive(Drop)]
pub struct Tables {
    list: Vec<Kept>,
}

impl Model for Tables {
    ghost use Rattle.std.specs.Prelude.{List};
    ghost use Rattle.m2_base.specs.Tables.{Table};
    ghost use Rattle.scope_core.specs.Kept.{tables_in};
    ghost use Rattle.scope_core.specs.Events.{AreCountable};

    ghost Value = { List Table };

    ghost view = { λ t. tables_in t.list.items };

    ghost invariant = { λ t. AreCountable (tables_in t.list.items) };
}

impl Tables {
    /// So many scopes, all empty and none complete.
    pub fn new(alloc: Global, scopes: u32) -> Result<Tables, Memory>
        ensures { IfOk result (λ tables. tables ≡ replicate scopes no_rows) }
    {
        let mut list = Vec::with_capacity(alloc, scopes as usize)?;
        for _ in 0..scopes {
            let scope = Kept::with_room(alloc, 0)?;
            list.push(scope)?;
        }
        Ok(Tables { list })
    }
}

/// Lets an event happen.
pub fn step(_alloc: Global, tables: &mut Tables, event: Event) -> Result<(), Memory>
    requires lawful { IsLawful tables.old event }
    requires countable { AreCountable (after tables.old event) }
    ensures ok { OnOk result (tables.new ≡ after tables.old event) }
    ensures err { OnErr result (tables.new ≡ tables.old) }
{
    match event {
        Event::Enter { scope, rows } => {
            add_rows(&mut tables.list, scope as usize, &rows)?;
            Ok(())
        }
        Event::Complete { scope } => {
            close(&mut tables.list, scope as usize);
            Ok(())
        }
    }
}

/// What one thread answers.
pub fn look(tables: &Tables, chain: &[u32], name: u32) -> Reply
    requires { CanLook tables.now chain.now name }
    ensures { result ≡ one_thread tables.now chain.now name }
{
    reply_in(&tables.list, chain, name)
}

/// Lets a run of events happen. A row that a look found before it, or an absence, is what the look answers after it.
/// Where memory runs out, only the first events of the run have happened.
pub fn settle(
    alloc: Global,
    tables: &mut Tables,
    run: Vec<Event>,
    chain: &[u32],
    name: u32,
) -> Result<(), Memory>
    requires run { IsRun tables.old run.items }
    requires countable { AreCountable (after_all tables.old run.items) }
    ensures ok { OnOk result (tables.new ≡ after_all tables.old run.items) }
    ensures err { OnErr result (IsPartOf tables.old tables.new run.items) }
    ensures stays { Stays (one_thread tables.old chain.now name) (one_thread tables.new chain.now name) }
{
    for event in run {
        step(alloc, tables, event)?;
    }
    Ok(())
}
