//! The tokens that are still to be read.
ghost use Rattle.std.specs.Prelude.{IsTrue};
ghost use Rattle.m2_parse.specs.Fitting.{all_fit};

use m2_base::Token;

/// The rest of a stream, which reading makes shorter. The values of its tokens fit what a tree or a fault has of them.
#[derive(Drop)]
pub struct Tokens<'a> {
    pub list: &'a [Token],
    pub ghost fitting: { IsTrue (all_fit list.now) },
}
