//! Problems made from a seed.

ghost use Rattle.std.specs.Prelude.{◌≡◌, IfOk};
ghost use Rattle.problem_text.specs.Numbered.{numbered_file};
ghost use Rattle.instance_make.specs.Limits.{CanMake};
ghost use Rattle.instance_make.specs.Generator.{made_problem};

use crate::draw::draw_tables;
use dcop_base::{NoMemory, PairList, Problem, SizeList};
use problem_text::ProblemFile;
use rand_core::SeedableRng;
use rand_xoshiro::SplitMix64;
use std::alloc::Global;

/// Makes a problem file from a seed: `vars` variables v0, v1 and so on with `size` values each, and
/// tables whose cells are from 0 to `top`.
///
/// Each variable but the first has `degree` tables with earlier variables, or one for each earlier
/// variable if there are fewer. A table is drawn from the stream of SplitMix64 (Steele, Lea and
/// Flood, OOPSLA 2014) that starts at the seed. One word, modulo the variable's number, gives the
/// partner; then one word for each cell, modulo `top + 1`, gives the cost. The same partner may be
/// drawn twice.
///
/// Limits: 1 to 1,000 variables, 1 to 16 values, a degree of 1 to 8, and a top of 0 to 1,000,000.
///
/// # Errors
///
/// [`NoMemory`] if memory runs out.
pub fn make_problem(
    alloc: Global,
    seed: u64,
    vars: u32,
    size: u16,
    degree: u32,
    top: u64,
) -> Result<ProblemFile, NoMemory>
    requires { CanMake vars size degree top }
    ensures { IfOk result (λ file. file ≡ numbered_file (made_problem seed vars size degree top)) }
{
    let mut words = SplitMix64::seed_from_u64(seed);
    let tables = draw_tables(alloc, &mut words, vars, size, degree, top)?;
    let sizes = vec![in alloc; size; vars as usize]?;
    let problem = Problem {
        sizes: SizeList::from_vec(sizes),
        tables,
        joints: PairList::from_vec(Vec::new(alloc)),
    };
    ProblemFile::numbered(alloc, problem)
}
