//! The order in which the bodies of objects run.
ghost use Rattle.std.specs.Prelude.{◌≡◌, ◌<◌, ◌+◌, ◌∷◌, [], false, true, replicate, length, slice_get, slice_set, ◌^◌};
ghost use Rattle.std.specs.Prelude.{IfOk, IfSome, OnOk, option_map};
ghost use Rattle.object_file.specs.Directories.{IsDirectory, object_in};
ghost use Rattle.object_file.specs.Running.{IsRunningOrder};
ghost use Rattle.object_file.specs.Views.{import_of};
ghost use Rattle.object_file.specs.Ways.{IsOn, Enters, Steps, followed as spec_followed};

use crate::directory::Directory;
use crate::object::Object;
use crate::parts::ImportNote;
use std::alloc::{AllocError, Global};

/// An object on the way, and which of its imports is followed next.
#[derive(Clone, Copy)]
pub(crate) struct Frame {
    pub(crate) object: usize,
    pub(crate) next: usize,
}

/// A walk over objects.
#[derive(Drop)]
pub(crate) struct Walk {
    /// Whether it has come to the object of each number.
    pub(crate) marks: Vec<bool>,
    /// The objects that it is in, the outermost first.
    pub(crate) way: Vec<Frame>,
    /// Those that it has left.
    pub(crate) order: Vec<usize>,
}

/// The object of an import; InOut is the machine's own.
fn object_of(directory: &Directory, note: &ImportNote) -> Option<usize>
    ensures { result ≡ object_in directory.now (import_of note.now) }
{
    if note.name.as_slice() == b"InOut".as_slice() {
        return None;
    }
    directory.place(&note.name)
}

/// The import that is followed next.
fn followed<'o>(objects: &'o [Object], frame: &Frame) -> Option<&'o ImportNote>
    requires { frame.now.object < length objects.now }
    ensures import { option_map (λ i. import_of i.now) result ≡ spec_followed objects.now frame.now }
    ensures small { IfSome result (λ _. frame.now.next < 2 ^ 63) }
{
    objects[frame.object].imports().get(frame.next)
}

impl Walk {
    /// A walk over so many objects, before it comes to one.
    fn new(alloc: Global, count: usize) -> Result<Walk, AllocError>
        ensures marks { IfOk result (λ w. w.marks.items ≡ replicate count false) }
        ensures way { IfOk result (λ w. w.way.items ≡ []) }
        ensures order { IfOk result (λ w. w.order.items ≡ []) }
    {
        Ok(Walk {
            marks: vec![in alloc; false; count]?,
            way: Vec::new(alloc),
            order: Vec::new(alloc),
        })
    }

    /// Comes to an object, unless it came to it before.
    fn enter(&mut self, k: usize) -> Result<(), AllocError>
        requires { k < length self.old.marks.items }
        ensures { OnOk result (Enters k self.old self.new) }
    {
        if !self.marks[k] {
            self.marks[k] = true;
            self.way.push(Frame { object: k, next: 0 })?;
        }
        Ok(())
    }

    /// Follows the next import of an object, or leaves it.
    fn step(
        &mut self,
        objects: &[Object],
        directory: &Directory,
        frame: Frame,
    ) -> Result<(), AllocError>
        requires directory { IsDirectory directory.now objects.now }
        requires on { IsOn objects.now self.old }
        requires frame { frame.object < length objects.now }
        ensures { OnOk result (Steps objects.now frame self.old self.new) }
    {
        match followed(objects, &frame) {
            None => Ok(self.order.push(frame.object)?),
            Some(note) => {
                let next = frame.next + 1;
                self.way.push(Frame { next, ..frame })?;
                match object_of(directory, note) {
                    None => Ok(()),
                    Some(k) => self.enter(k),
                }
            }
        }
    }
}

/// The order in which the bodies of objects run, the first of which is the main module's.
pub(crate) fn running_order(
    alloc: Global,
    objects: &[Object],
    directory: &Directory,
) -> Result<Vec<usize>, AllocError>
    requires some { 0 < length objects.now }
    requires directory { IsDirectory directory.now objects.now }
    ensures { IfOk result (λ order. IsRunningOrder objects.now order.items) }
{
    let mut walk = Walk::new(alloc, objects.len())?;
    walk.enter(0)?;
    while let Some(frame) = walk.way.pop() {
        walk.step(objects, directory, frame)?;
    }
    Ok(walk.order)
}
