//! Units over the scopes of one thread.
ghost use Rattle.std.specs.Prelude.{◌≡◌, IfSome};
ghost use Rattle.def_import.specs.Answers.{IsWhole};
ghost use Rattle.supervisor.specs.Stands.{IsStand, first_scopes};

use def_import::{Gathered, gather};
use m2_base::{Output, Texts};
use m2_io::MemShelf;
use scope_core::PlainScopes;
use std::alloc::Global;
use std::collections::BTreeMap;
use stream_split::{cut, sizes, streams_have_their_places};
use supervisor::{run_turns, tasks_of};
use task_state::{Task, Turn};

/// The texts of the module A of these files, if nothing is wrong with its imports.
pub(crate) fn whole_texts(alloc: Global, files: &[(&str, &str)]) -> Option<Texts>
    ensures { IfSome result (λ texts. IsWhole texts) }
{
    let mut map = BTreeMap::new(alloc);
    for (name, text) in files {
        let name = name.to_string(alloc).ok()?;
        map.insert(name, text.as_bytes().to_vec(alloc).ok()?).ok()?;
    }
    let mut shelf = MemShelf::new(map, Vec::new(alloc), 0);
    match gather(alloc, &mut shelf, "A") {
        Ok(Gathered::Whole(texts)) => Some(texts),
        Ok(Gathered::Wrong(_, _)) | Err(_) => None,
    }
}

/// What the streams of a unit leave, with turns in this order.
pub(crate) fn outputs(alloc: Global, texts: &Texts, order: &[u32]) -> Option<Vec<Output>>
    requires { IsWhole texts.now }
{
    let _main = texts.main();
    streams_have_their_places();
    let streams = cut(alloc, texts).ok()?;
    let sizes = sizes(alloc, &streams).ok()?;
    let mut scopes = PlainScopes::new(alloc, texts, &sizes).ok()?;
    run_turns(alloc, texts, streams, &mut scopes, order).ok()
}

/// A turn of the task at this place, where none has had one.
fn turn_at(
    alloc: Global,
    texts: &Texts,
    scopes: &mut PlainScopes,
    tasks: &mut [Task],
    place: usize,
) -> Option<Turn>
    requires scopes { scopes.old ≡ first_scopes texts.now }
    requires stand { IsStand texts.now (first_scopes texts.now) tasks.old }
{
    if tasks.len() <= place || tasks[place].is_done() {
        return None;
    }
    scopes.move_to(place as u32 + 1);
    Some(tasks[place].turn(alloc, texts, scopes))
}

/// How the first turn of a stream ends, where no other has had one. The streams are counted from 0.
pub(crate) fn first_turn(alloc: Global, texts: &Texts, place: usize) -> Option<Turn>
    requires { IsWhole texts.now }
{
    let _main = texts.main();
    streams_have_their_places();
    let streams = cut(alloc, texts).ok()?;
    let sizes = sizes(alloc, &streams).ok()?;
    let mut scopes = PlainScopes::new(alloc, texts, &sizes).ok()?;
    let mut tasks = tasks_of(alloc, texts, streams).ok()?;
    turn_at(alloc, texts, &mut scopes, &mut tasks, place)
}
