//! Comments, which nest.
ghost use Rattle.std.specs.Prelude.{◌≡◌, ◌≤◌, ◌<◌, ◌+◌, ◌^◌, length, drop, MatchOption, Some, None};
ghost use Rattle.m2_base.specs.Comments.{one_further as spec_one_further, in_comment as spec_in_comment};
ghost use Rattle.m2_base.specs.Comments.{behind_comment, opens_comment as spec_opens_comment};
ghost use Rattle.m2_lex.specs.Depths.{depth_of};

/// A place in a comment: how deep it is, and the byte before it, or 0 where that ended a `(*` or a `*)`.
#[derive(Clone, Copy)]
struct Depth {
    depth: usize,
    before: u8,
}

impl Depth {
    /// The place behind the `(*` that opens a comment.
    fn in_comment() -> Depth
        ensures { depth_of result ≡ spec_in_comment }
    {
        Depth {
            depth: 1,
            before: 0,
        }
    }

    /// The place one byte further.
    fn one_further(self, byte: u8) -> Depth
        requires { self.depth + 1 < 2 ^ 64 }
        ensures { depth_of result ≡ spec_one_further (depth_of self) byte }
    {
        match (self.before, byte) {
            (b'(', b'*') => Depth {
                depth: self.depth + 1,
                before: 0,
            },
            (b'*', b')') => Depth {
                depth: self.depth.saturating_sub(1),
                before: 0,
            },
            _ => Depth {
                depth: self.depth,
                before: byte,
            },
        }
    }
}

/// Whether the bytes begin with `(*`.
pub fn opens_comment(text: &[u8]) -> bool
    ensures { result ≡ spec_opens_comment text.now }
{
    text.starts_with(b"(*")
}

/// The length of the comment that the bytes begin with; none of an open one.
pub fn comment_len(text: &[u8]) -> Option<usize>
    requires { 2 ≤ length text.now }
    ensures { MatchOption result (behind_comment text.now ≡ None)
        (λ count. (2 < count) × (count ≤ length text.now) × (behind_comment text.now ≡ Some (drop count text.now))) }
{
    let mut place = Depth::in_comment();
    for (index, byte) in text[2..].iter().enumerate() {
        place = place.one_further(*byte);
        if place.depth == 0 {
            return Some(index + 3);
        }
    }
    None
}
