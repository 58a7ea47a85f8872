//! May the tree of a stream be handed to another thread, or be seen by many?
//!
//! It may, since all that it holds may. `Send` and `Sync` are proved for it in `proofs/Crossing`, over its parts,
//! because the search that finds them of other types gives up at a struct with so many large fields. A crate above
//! that sends what holds a tree gives its own fields' answers round these (`tree-send`, `tree-sync`). The functions do
//! nothing: that they are proved is what they say.
#![tactic(auto)]

use m2_base::Stream;

/// A value that another thread takes.
fn sent<T: Send>(value: T) -> T {
    value
}

/// A value that many threads see.
fn shared<T: Sync>(value: &T) -> &T {
    value
}

/// A tree that another thread takes.
pub fn sends_tree(tree: Stream) -> Stream {
    sent(tree)
}

/// A tree that many threads see.
pub fn shares_tree(tree: &Stream) -> &Stream {
    shared(tree)
}
