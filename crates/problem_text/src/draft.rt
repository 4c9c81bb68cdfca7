//! What the lines of a text have declared so far.

ghost use Rattle.std.specs.Prelude.{◌≡◌, ◌⊎◌, None, IfOk, false};

use crate::cell_words::Summary;
use crate::file::Goal;
use crate::names::{Labels, Names};
use dcop_base::{NoMemory, Table};
use std::alloc::Global;
use std::marker::Model;

/// What the lines up to here declare: the beginning of a problem file.
#[derive(Debug, Drop)]
pub struct Draft {
    pub version: u8,
    pub goal: Goal,
    pub names: Names,
    pub labels: Vec<Labels>,
    pub sizes: Vec<u16>,
    pub tables: Vec<Table>,
    /// How many cells the tables have.
    pub cells: u64,
    /// The sum of the tables' greatest cells.
    pub sum: u64,
}

impl Model for Draft {
    ghost use Rattle.problem_text.specs.Declarations.{Declared};
    ghost use Rattle.problem_text.specs.Drafts.{IsCounted};

    ghost Value = { Declared };

    ghost view = { λ d. record { version = d.version; goal = d.goal; names = d.names; labels = d.labels.items; sizes = d.sizes.items; tables = d.tables.items } };

    ghost invariant = { λ d. IsCounted d.cells d.sum (record { version = d.version; goal = d.goal; names = d.names; labels = d.labels.items; sizes = d.sizes.items; tables = d.tables.items }) };
}

impl Draft {
    ghost use Rattle.problem_text.specs.Declarations.{version_alone, with_variable, with_table, is_among};
    ghost use Rattle.problem_text.specs.Drafts.{IsDraft};
    ghost use Rattle.problem_text.specs.Tables.{cells_fault};
    ghost use Rattle.problem_text.specs.Cells.{summary};

    /// A draft that declares only the version.
    pub fn new(alloc: Global, version: u8) -> Draft
        requires { (version ≡ 1) ⊎ (version ≡ 2) }
        ensures { result ≡ version_alone version }
    {
        Draft {
            version,
            goal: Goal::Min,
            names: Names::new(alloc),
            labels: Vec::new(alloc),
            sizes: Vec::new(alloc),
            tables: Vec::new(alloc),
            cells: 0,
            sum: 0,
        }
    }

    /// The same draft with this goal.
    pub fn with_goal(self, goal: Goal) -> Draft
        requires { self.version ≡ 2 }
        ensures { result ≡ record self { goal = goal } }
    {
        let Draft {
            version,
            goal: _,
            names,
            labels,
            sizes,
            tables,
            cells,
            sum,
        } = self;
        Draft {
            version,
            goal,
            names,
            labels,
            sizes,
            tables,
            cells,
            sum,
        }
    }

    /// The same draft with one more variable.
    pub fn with_variable(self, name: &str, labels: Labels, size: u16) -> Result<Draft, NoMemory>
        requires draft { IsDraft (with_variable self name.now labels size) }
        requires fresh { is_among self.names name.now ≡ false }
        ensures { IfOk result (λ d. d ≡ with_variable self name.now labels size) }
    {
        let Draft {
            version,
            goal,
            mut names,
            labels: mut all_labels,
            mut sizes,
            tables,
            cells,
            sum,
        } = self;
        names.push(name)?;
        all_labels.push(labels)?;
        sizes.push(size)?;
        Ok(Draft {
            version,
            goal,
            names,
            labels: all_labels,
            sizes,
            tables,
            cells,
            sum,
        })
    }

    /// The same draft with one more table, whose number of cells and greatest cell these are.
    pub fn with_table(self, table: Table, told: Summary) -> Result<Draft, NoMemory>
        requires draft { IsDraft (with_table self table) }
        requires told { summary table.cells ≡ told }
        requires sound { cells_fault self.tables table ≡ None }
        ensures { IfOk result (λ d. d ≡ with_table self table) }
    {
        let Draft {
            version,
            goal,
            names,
            labels,
            sizes,
            mut tables,
            cells,
            sum,
        } = self;
        tables.push(table)?;
        Ok(Draft {
            version,
            goal,
            names,
            labels,
            sizes,
            tables,
            cells: cells + told.count,
            sum: sum + told.greatest,
        })
    }
}
