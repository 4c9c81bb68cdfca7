//! The limits of the product, all in one place, with the proof that they are those of the
//! definitions.

ghost use Rattle.std.specs.Prelude.{◌≡◌};
ghost use Rattle.dcop_base.specs.Limits.{amount_limit, count_limit, variable_limit, size_limit, scope_limit, cost_limit, cell_limit};
ghost use Rattle.dcop_base.specs.Limits.{digit_limit, name_limit, input_limit, assignment_limit, joined_limit, sent_limit, turn_limit, budget_limit};

/// The greatest amount, 2^62. No cost, bound, threshold or UTIL cell is above it.
pub const CAP: u64 = 4_611_686_018_427_387_904;

/// The greatest count of cells that is reported, 2^64 - 1. A greater count is reported as this
/// number.
pub const MAX_COUNT: u64 = 18_446_744_073_709_551_615;

/// The most variables of a problem.
pub const MAX_VARIABLES: usize = 1_000;

/// The most values of a variable.
pub const MAX_SIZE: u16 = 1_024;

/// The most variables of a table of a problem.
pub const MAX_SCOPE: usize = 4;

/// The greatest cell of a table of a problem, 2^50.
pub const MAX_COST: u64 = 1_125_899_906_842_624;

/// The most cells of all tables of a problem together, 2^22.
pub const MAX_CELLS: u64 = 4_194_304;

/// The most digits of a number in a text.
pub const MAX_DIGITS: usize = 19;

/// The most bytes of a name.
pub const MAX_NAME: usize = 32;

/// The most bytes of an input, 2^28.
pub const MAX_INPUT: usize = 268_435_456;

/// The most assignments that the plain method tries, 2^16.
pub const MAX_ASSIGNMENTS: u64 = 65_536;

/// The most cells of an agent's joined table in a narrow tree, 2^20.
pub const MAX_JOINED_CELLS: u64 = 1_048_576;

/// The most cells that all agents of a light tree send together, 2^22.
pub const MAX_SENT_CELLS: u64 = 4_194_304;

/// The most turns of a cut, 2^16.
pub const MAX_TURNS: u64 = 65_536;

/// The greatest budget of deliveries.
pub const MAX_BUDGET: u64 = 10_000_000;

/// The limits of the code are those of the definitions. Does nothing; its contract is the law.
pub fn limits_agree()
    ensures amounts { CAP ≡ amount_limit }
    ensures counts { MAX_COUNT ≡ count_limit }
    ensures variables { MAX_VARIABLES ≡ variable_limit }
    ensures sizes { MAX_SIZE ≡ size_limit }
    ensures scopes { MAX_SCOPE ≡ scope_limit }
    ensures costs { MAX_COST ≡ cost_limit }
    ensures cells { MAX_CELLS ≡ cell_limit }
    ensures digits { MAX_DIGITS ≡ digit_limit }
    ensures names { MAX_NAME ≡ name_limit }
    ensures inputs { MAX_INPUT ≡ input_limit }
    ensures assignments { MAX_ASSIGNMENTS ≡ assignment_limit }
    ensures joined { MAX_JOINED_CELLS ≡ joined_limit }
    ensures sent { MAX_SENT_CELLS ≡ sent_limit }
    ensures turns { MAX_TURNS ≡ turn_limit }
    ensures budgets { MAX_BUDGET ≡ budget_limit }
{}
