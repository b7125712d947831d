//! The RAT candidates of a line, with their hints.
ghost use Rattle.std.specs.Prelude.{◌≡◌, map};
ghost use Rattle.lrat_rules.specs.Lines.{groups};
ghost use Rattle.lrat_text.specs.Grammar.{hint_of};

use lrat_text::Hint;
use std::marker::Model;

/// A RAT candidate: a clause that is resolved with the new one, and the hints for it.
#[derive(Clone, Copy)]
pub(crate) struct Group<'a> {
    pub(crate) id: u64,
    pub(crate) hints: &'a [Hint],
}

/// An iterator over the candidates in a list of hints.
#[derive(Drop)]
pub(crate) struct Groups<'a> {
    hints: &'a [Hint],
}

impl<'a> Model for Groups<'a> {
    ghost use Rattle.std.specs.Prelude.{List, map};
    ghost use Rattle.lrat_rules.specs.Groups as rules;
    ghost use Rattle.lrat_rules.specs.Lines.{groups};
    ghost use Rattle.lrat_text.specs.Grammar.{hint_of};

    ghost Value = { List rules.Group };

    ghost view = { λ g. groups (map hint_of g.hints.now) };
}

impl<'a> Groups<'a> {
    /// Returns the candidates of a list of hints.
    pub(crate) fn of(hints: &'a [Hint]) -> Groups<'a>
        ensures { result ≡ groups (map hint_of hints.now) }
    {
        Groups { hints }
    }
}

impl<'a> Iterator for Groups<'a> {
    ghost use Rattle.std.specs.Iterator.{YieldsFirstBy, item_count};
    ghost use Rattle.lrat_checker.specs.Grouping.{group_of};

    type Item = Group<'a>;

    ghost next_gives = { YieldsFirstBy group_of (λ left. left) };

    ghost remaining = { item_count (λ left. left) };

    fn next(&mut self) -> Option<Group<'a>> {
        while let Some((hint, rest)) = self.hints.split_first() {
            self.hints = rest;
            if let Hint::Against(id) = *hint {
                return Some(Group { id, hints: rest });
            }
        }
        None
    }
}
