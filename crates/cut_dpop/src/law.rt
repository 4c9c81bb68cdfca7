//! The law about the tables that are kept.

ghost use Rattle.cut_dpop.specs.Certificate.{KeptTablesCertify};

use run_laws::{cut_answers_are_optimal, cut_sets_are_one};

/// The tables that are kept of all turns of a cut form a certificate: they show that the values
/// with which the cut ends are optimal.
///
/// The law is the contract of a call that does nothing; code that needs the law calls it.
pub fn kept_tables_certify()
    ensures { KeptTablesCertify }
{
    cut_answers_are_optimal();
    cut_sets_are_one();
}
