//! A search between the loads of its heads.
ghost use Rattle.std.specs.Prelude.{◌≡◌, ◌≢◌, ◌≤◌, ◌==◌, ◌↔◌, ℕ, List, [], length, Some, None, IsSome, IsNone};
ghost use Rattle.std.specs.Prelude.{if◌then◌else◌};
ghost use Rattle.m2_base.specs.Lists.{Each};
ghost use Rattle.m2_base.specs.Scopes.{IsTaken};
ghost use Rattle.m2_base.specs.Tables.{Table};
ghost use Rattle.m2_base.specs.declared.replies.Reply.{Reply as ReplyOf};
ghost use Rattle.m2_base.specs.declared.replies.Reply.TheVariants.{Absent};
ghost use Rattle.scope_core.specs.Flights.{next_of, reply_by, reply_of, with_load, heads_in, IsHitOf, IsTrueIn};
ghost use Rattle.scope_core.specs.Flights.{AreEqual, IsLawfulIn};

use m2_base::{Head, Place, Reply, Row};
use std::marker::Model;

/// A head that was loaded, and the first row of the name among those that it counts, with its place.
#[derive(Clone, Copy)]
pub struct Load {
    pub head: Head,
    pub hit: Option<(Place, Row)>,
}

/// A search of a name in a chain, as far as it has come: whoever has one loads the head of the scope that comes next
/// and looks through the rows that it counts. It takes no memory.
#[derive(Drop)]
pub struct Flight<'c> {
    chain: &'c [u32],
    name: u32,
    loads: [Load; 18],
    /// How many of them were taken.
    taken: usize,
    reply: Option<Reply>,
}

impl<'c> Model for Flight<'c> {
    ghost use Rattle.std.specs.Prelude.{take};
    ghost use Rattle.scope_core.specs.Flights.{Flown, IsFlying};

    ghost Value = { Flown };

    ghost view = { λ f. record { chain = f.chain.now; name = f.name; loads = take f.taken f.loads } };

    ghost invariant = { λ f. IsFlying f.chain.now f.name f.taken f.loads f.reply };
}

impl<'c> Flight<'c> {
    /// Nothing was loaded yet.
    pub fn start(chain: &'c [u32], name: u32) -> Flight<'c>
        requires short { length chain.now ≤ 18 }
        requires named { name ≢ 0 }
        ensures { result ≡ record { chain = chain.now; name = name; loads = [] } }
    {
        let none = Load {
            head: Head {
                scope: 0,
                count: 0,
                complete: false,
            },
            hit: None,
        };
        Flight {
            chain,
            name,
            loads: [none; 18],
            taken: 0,
            reply: first_reply(chain),
        }
    }

    /// The scope whose head is to be loaded; none, once there is a reply.
    pub fn next(&self) -> Option<u32>
        ensures { result ≡ next_of self.now }
    {
        match self.reply {
            Some(_) => None,
            None => self.chain.get(self.taken).copied(),
        }
    }

    /// The head was loaded, and `hit` is the first row of the name among those that it counts.
    pub fn took(&mut self, head: Head, hit: Option<(Place, Row)>)
        requires next { next_of self.old ≡ Some head.scope }
        requires hit { IsHitOf self.old.name head hit }
        ensures { self.new ≡ with_load self.old (record { head = head; hit = hit }) }
    {
        let load = Load { head, hit };
        self.loads[self.taken] = load;
        self.taken += 1;
        self.reply = reply_after(&load, first_reply(&self.chain[self.taken..]));
    }

    /// The reply, once it is there. Its heads are those of the chain's first scopes, and it comes from the last of
    /// them. Where heads of one scope are equal and each tells what its scope has in some tables, the reply is that of
    /// one thread in those tables as the heads show them.
    pub fn reply(&self) -> Option<Reply>
        ensures reply { result ≡ reply_of self.now.chain self.now.loads }
        ensures next { IsNone result ↔ IsSome (next_of self.now) }
        ensures taken { (reply : ReplyOf) → result ≡ Some reply
            → IsTaken self.now.chain (heads_in self.now.loads) reply }
        ensures lawful { (tables : List Table) (reply : ReplyOf) → result ≡ Some reply
            → AreEqual (heads_in self.now.loads) → Each (IsTrueIn tables self.now.name) self.now.loads
            → IsLawfulIn tables self.now.chain self.now.name (heads_in self.now.loads) reply }
    {
        self.reply
    }
}

/// The reply of a search in these scopes before anything is loaded.
fn first_reply(chain: &[u32]) -> Option<Reply>
    ensures { result ≡ reply_of chain.now [] }
{
    if chain.is_empty() {
        Some(Reply::Absent)
    } else {
        None
    }
}

/// The reply after a load, where `rest` is that of the scopes behind.
fn reply_after(load: &Load, rest: Option<Reply>) -> Option<Reply>
    ensures { result ≡ reply_by load.now.hit load.now.head rest }
{
    match load.hit {
        Some((place, row)) => Some(Reply::Found(place, row)),
        None if load.head.complete => rest,
        None => Some(Reply::DontKnowYet(load.head)),
    }
}
