//! The text of a file that was read from a WCSP text.

ghost use Rattle.std.specs.Prelude.{◌≡◌, IfOk};
ghost use Rattle.solve_report.specs.Upgrade.{barred_text};

use dcop_base::{Bytes, NoMemory};
use problem_text::{ProblemFile, write_problem};
use std::alloc::Global;

/// The bar as a comment on a line of its own, then the canonical text of the file.
pub(crate) fn write_barred(alloc: Global, bar: u64, file: &ProblemFile) -> Result<Bytes, NoMemory>
    ensures { IfOk result (λ text. text ≡ barred_text bar file.now) }
{
    let canonical = write_problem(alloc, file)?;
    let mut text = String::new(alloc);
    write!(text, "# bar {bar}\n")?;
    let mut bytes = text.into_bytes();
    bytes.extend_from_slice(canonical.as_slice())?;
    Ok(Bytes::from_vec(bytes))
}
