//! Trees, and their text.

ghost use Rattle.std.specs.Prelude.{◌≡◌, ◌++◌, length, map, OnOk, IfOk};
ghost use Rattle.std.specs.List.{flat_map, All};
ghost use Rattle.std.specs.String.{string_bytes};
ghost use Rattle.problem_text.specs.Canonical.{line};
ghost use Rattle.solve_report.specs.Tree.{IsNamedRow, node_words, tree_text};

use crate::refusal::bytes_of;
use certificate_text::parent_word;
use dcop_base::{Bytes, NoMemory, Sequence, VarId, VarList};
use problem_text::{Names, write_scope};
use std::alloc::Global;

/// A variable's place in a tree.
#[derive(Debug, Drop)]
pub struct NodeRow {
    /// The variable.
    pub var: VarId,
    /// The parent's variable; `None` at the root.
    pub parent: Option<VarId>,
    /// The variables of the separator, from the root down: the proper ancestors that share a table
    /// or a joint with the variable or with a descendant of it. It is empty at the root.
    pub separator: VarList,
}

/// The places of variables in a tree.
pub type NodeRowList = Sequence<NodeRow>;

/// The text of a tree: a line `status tree`, the deliveries, a line
/// `node NAME parent PARENT separator NAMES` for each of the nodes in their order, and `end`.
pub(crate) fn write_tree(
    alloc: Global,
    deliveries: u64,
    nodes: &[NodeRow],
    names: &Names,
) -> Result<Bytes, NoMemory>
    requires { All (IsNamedRow (length names.now)) nodes.now }
    ensures { IfOk result (λ text. text ≡ tree_text deliveries nodes.now names.now) }
{
    let mut text = String::new(alloc);
    write!(text, "status tree\ndeliveries {deliveries}\n")?;
    write_nodes(&mut text, names, nodes)?;
    text.push_str("end\n")?;
    Ok(bytes_of(text))
}

fn write_nodes(text: &mut String, names: &Names, nodes: &[NodeRow]) -> Result<(), NoMemory>
    requires { All (IsNamedRow (length names.now)) nodes.now }
    ensures { OnOk result (string_bytes text.new
        ≡ string_bytes text.old ++ flat_map line (map (node_words names.now) nodes.now)) }
{
    for node in nodes {
        write_node(text, names, node)?;
    }
    Ok(())
}

fn write_node(text: &mut String, names: &Names, node: &NodeRow) -> Result<(), NoMemory>
    requires { IsNamedRow (length names.now) node.now }
    ensures { OnOk result (string_bytes text.new
        ≡ string_bytes text.old ++ line (node_words names.now node.now)) }
{
    let name = names.name(node.var);
    let parent = parent_word(names, node.parent);
    write!(text, "node {name} parent {parent} separator")?;
    write_scope(text, names, node.separator.as_slice())?;
    Ok(text.push_str("\n")?)
}
