//! The list of all changes, which only grows. It lies in the proofs alone; the program has its length.

ghost use Rattle.std.specs.Prelude.{◌≡◌, ◌-◌, ◌<◌, ◌≤◌, ◌^◌, ◌++◌, ◌∷◌, [], length, IfSome, MatchBool};
ghost use mathlib.Core.List.{IsPrefix};
ghost use Rattle.frames.specs.Growth.{head_of, list_at};

use crate::sample::Change;
use logbook::{Gain, Offer, Plain, Play, Rule, Seen, Start, Word};

/// The rule of the list.
pub struct Growth;

impl Rule<Change, u64> for Growth {
    ghost use Rattle.std.specs.Prelude.{[]};
    ghost use base.Fml.{ftrue};
    ghost use Rattle.frames.specs.Growth.{IsCounted};

    ghost holds = { λ cells log. IsCounted cells log };

    ghost first = { [] };

    ghost hinted = { λ n log. Unit {0} };

    ghost shows = { λ log. [] };

    ghost keeps = { λ names log. ftrue };

    ghost moves = { λ ask before after answer. Unit {0} };
}

/// Nothing is traded at a step.
pub struct Nothing;

impl Gain<Change, u64> for Nothing {
    ghost use base.Fml.{ftrue};

    ghost after = { λ names about answer. ftrue };
}

/// A step that adds a change.
pub struct Adding;

impl Play<Change, u64> for Adding {
    ghost use Rattle.frames.specs.Growth.{Adds};

    ghost then = { Adds };
}

impl Plain<Change, Change, u64> for Adding {
    ghost use Rattle.std.specs.Prelude.{None};

    ghost ask = { λ change. change };

    ghost state = { λ change. None };
}

/// The knowledge that the list has begun with certain changes. It has no bytes.
pub type Prefix = Seen<Change, u64, Growth>;

/// The end of the list, where its one writer adds.
#[derive(Drop)]
struct End {
    head: Word<Change, u64, Growth>,
    seen: Prefix,
    count: u64,
    ghost head_is: { head ≡ head_of seen.book },
    ghost counted: { count ≡ length seen.log },
}

impl End {
    fn new() -> End
        ensures { result.seen.log ≡ [] }
    {
        let (seen, mut first, _second) = Prefix::open(Start::alone(), 0, 0);
        End {
            head: Word::tracked(0, &mut first),
            seen,
            count: 0,
        }
    }

    /// Adds a change, and says whether it did. It did not where the list is longer than was seen.
    fn add(&mut self, change: Change) -> bool
        requires { self.old.count < 2 ^ 64 - 1 }
        ensures book { self.new.seen.book ≡ self.old.seen.book }
        ensures added { MatchBool result (self.new.seen.log ≡ self.old.seen.log ++ change ∷ []) (Unit {0}) }
    {
        let mut offer: Offer<Change, u64, Growth, Nothing> = self
            .seen
            .plain::<Nothing, Change, Adding>(&change);
        let mut pen = self.seen.no_pen();
        let count = self.count;
        let found = self
            .head
            .compare_exchange::<Adding, Nothing>(
                count,
                count + 1,
                &mut self.seen,
                &mut offer,
                &mut pen,
            );
        self.count = if found == count { count + 1 } else { found };
        found == count
    }
}

/// How the list stands to the changes that the writer added.
#[derive(Clone, Copy)]
pub enum Standing {
    /// It has these and no others.
    Level,
    /// It has this one more, since there was no memory to add it.
    Ahead(Change),
    /// It is longer than was seen. Nobody but the writer adds to it, so this is never so.
    Lost,
}

/// The list of all changes, with those that the writer added.
#[derive(Drop)]
pub struct ChangeLog {
    pub added: Prefix,
    end: End,
    standing: Standing,
    ghost same_book: { end.seen.book ≡ added.book },
    ghost stands: { end.seen.log ≡ list_at standing added.log end.seen.log },
}

impl ChangeLog {
    pub fn new() -> ChangeLog
        ensures { result.added.log ≡ [] }
    {
        let end = End::new();
        ChangeLog {
            added: end.seen.again(),
            end,
            standing: Standing::Level,
        }
    }

    /// What is known once a change follows those that were added. The change is added by `accept`.
    pub fn next(&mut self, change: Change) -> Option<Prefix>
        requires { length self.old.added.log < 2 ^ 64 - 1 }
        ensures added { self.new.added ≡ self.old.added }
        ensures book { IfSome result (λ next. next.book ≡ self.old.added.book) }
        ensures longer { IfSome result (λ next. next.log ≡ self.old.added.log ++ change ∷ []) }
        ensures end { IfSome result (λ next. self.new.end.seen ≡ next) }
    {
        let standing = self.standing;
        match standing {
            Standing::Level => {
                self.standing = Standing::Lost;
                if !self.end.add(change) {
                    return None;
                }
                self.standing = Standing::Ahead(change);
            }
            Standing::Ahead(waiting) if waiting == change => {}
            Standing::Ahead(_) | Standing::Lost => return None,
        }
        Some(self.end.seen.again())
    }

    /// Takes all changes of the list as added.
    pub fn accept(&mut self)
        ensures { self.new.added ≡ self.old.end.seen }
    {
        self.added = self.end.seen.again();
        self.standing = Standing::Level;
    }
}

/// Of two beginnings of one list the one that is no longer begins the other.
pub fn compare(one: &Prefix, other: &Prefix)
    requires { other.now.book ≡ one.now.book }
    ensures this { length one.now.log ≤ length other.now.log → IsPrefix one.now.log other.now.log }
    ensures that { length other.now.log ≤ length one.now.log → IsPrefix other.now.log one.now.log }
{
    let mut both = one.again();
    both.learn(other);
}
