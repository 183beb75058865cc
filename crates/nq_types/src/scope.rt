// The types of the variables in scope.
ghost use Rattle.std.specs.Prelude.{◌≡◌, option_map, slice_get};
ghost use Rattle.nq_model.specs.Types.{type_tree};
ghost use Rattle.nq_types.specs.Scopes.{types_in};

use nq_model::Ty;

// The types of the variables in scope, each borrowed from where it was found.
#[derive(Clone, Copy)]
pub(crate) enum Scope<'a> {
    Outermost,
    Inner(&'a Ty, &'a Scope<'a>),
}

impl<'a> Scope<'a> {
    // The type of the k-th variable outwards.
    pub(crate) fn get(&self, k: u64) -> Option<&Ty>
        ensures { option_map (λ ty. type_tree ty.now) result ≡ slice_get (types_in self.now) k }
    {
        match self {
            Scope::Outermost => None,
            Scope::Inner(ty, outer) => { if k == 0 { Some(*ty) } else { outer.get(k - 1) } }
        }
    }
}
