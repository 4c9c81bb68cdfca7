//! The tables that DPOP agents made, as a certificate.

ghost use Rattle.std.specs.Prelude.{◌≡◌, map, option_map, IfOk};
ghost use Rattle.solve_methods.specs.Agreed.{certificate_with, node_util};

use certificate_text::{Certificate, Util, UtilList};
use dcop_base::{NoMemory, Table};
use minimised_problem::cells_of;
use protocol_steps::OptionList;
use solve_report::{NodeRow, NodeRowList};
use std::alloc::Global;

/// The certificate of the tables that the agents of these nodes made, if nodes are given.
pub(crate) fn certificate_of(
    alloc: Global,
    nodes: Option<NodeRowList>,
    tables: &OptionList<Table>,
) -> Result<Option<Certificate>, NoMemory>
    ensures { IfOk result (λ certificate. certificate ≡ option_map (certificate_with tables.now) nodes) }
{
    match nodes {
        Some(nodes) => Ok(Some(Certificate::Tables(utils_of(alloc, nodes, tables)?))),
        None => Ok(None),
    }
}

/// The tables that the agents of these nodes made.
fn utils_of(
    alloc: Global,
    nodes: NodeRowList,
    tables: &OptionList<Table>,
) -> Result<UtilList, NoMemory>
    ensures { IfOk result (λ utils. utils ≡ map (node_util tables.now) nodes) }
{
    let mut utils = Vec::with_capacity(alloc, nodes.as_slice().len())?;
    for node in nodes.into_vec() {
        utils.push(util_of(alloc, node, tables)?)?;
    }
    Ok(UtilList::from_vec(utils))
}

/// The table that the agent of a node made.
fn util_of(alloc: Global, node: NodeRow, tables: &OptionList<Table>) -> Result<Util, NoMemory>
    ensures { IfOk result (λ util. util ≡ node_util tables.now node) }
{
    let NodeRow {
        var,
        parent,
        separator,
    } = node;
    Ok(Util {
        var,
        parent,
        scope: separator,
        cells: cells_of(alloc, var, tables)?,
    })
}
