// The aliases that are seen.
ghost use Rattle.std.specs.Prelude.{◌≡◌, option_map};
ghost use Rattle.sql_profile.specs.Scope.{found};
ghost use Rattle.sql_scope.specs.Steps.{aliases_in};

use crate::names::{Columns, Names};
use nq_model::Label;

// The aliases of a FROM, each with the columns of its source: names of a text 'a, and columns of
// its tables 't.
pub(crate) type Sources<'t, 'a> = Names<'a, &'t Columns<'a>>;

// The aliases of a FROM, and those of the FROMs around it.
#[derive(Clone, Copy)]
pub(crate) enum Scope<'s, 't, 'a> {
    Outermost,
    Inner(&'s Sources<'t, 'a>, &'s Scope<'s, 't, 'a>),
}

impl<'s, 't, 'a> Scope<'s, 't, 'a> {
    // The columns of the innermost source of that alias.
    #[tactic(auto, using(crate::proofs::Scopes::found_own, crate::proofs::Scopes::found_around))]
    pub(crate) fn find(&self, alias: &Label) -> Option<&'t Columns<'a>>
        ensures { option_map (λ columns. columns.now) result
            ≡ found alias.now (aliases_in self.now) }
    {
        match self {
            Scope::Outermost => None,
            Scope::Inner(own, around) => match own.get(alias) {
                Some(columns) => Some(*columns),
                None => around.find(alias),
            },
        }
    }
}
