//! Sizes listed beside variables.

ghost use Rattle.std.specs.Prelude.{◌≡◌, length};
ghost use Rattle.std.specs.List.{zip};
ghost use Rattle.adopt_context.specs.Context.{value_in};

use dcop_base::VarId;

/// The size of a variable, at the variable's place in the second list; `None` exactly if the
/// variable is not in the first list.
#[tactic(auto, using(crate::proofs::SizeLaws::size_next))]
pub fn size_beside(vars: &[VarId], sizes: &[u16], var: VarId) -> Option<u16>
    requires { length sizes.now ≡ length vars.now }
    ensures { result ≡ value_in (zip vars.now sizes.now) var }
{
    for (k, other) in vars.iter().enumerate() {
        if *other == var {
            return Some(sizes[k]);
        }
    }
    None
}
