//! Replayed agents, and their text.

ghost use Rattle.std.specs.Prelude.{◌≡◌, ◌<◌, ◌∷◌, ◌++◌, length, map, OnOk, IfOk};
ghost use Rattle.std.specs.List.{flat_map, All};
ghost use Rattle.std.specs.String.{string_bytes};
ghost use Rattle.problem_text.specs.Canonical.{line};
ghost use Rattle.solve_report.specs.Replay.{IsNamedAgent, bound_word, ended_word, standing_words, state_words, agent_words, replay_text};

use crate::refusal::bytes_of;
use dcop_base::{Bytes, NoMemory, Sequence, Val, VarId};
use problem_text::Names;
use protocol_steps::Standing;
use std::alloc::Global;

/// The state that an agent has reached.
#[derive(Clone, Copy, Debug, PartialEq, Eq)]
pub struct AgentRow {
    /// Its variable.
    pub agent: VarId,
    /// Its value.
    pub value: Val,
    /// Its bounds and its threshold, in the costs of the problem solved.
    pub standing: Standing,
    /// Whether it has ended.
    pub ended: bool,
}

/// The states that agents have reached.
pub type AgentRowList = Sequence<AgentRow>;

/// The text of a replay: a line `status replay`, how many events were replayed, a line
/// `agent NAME value V lower L upper U threshold T ended E` for each of the agents in their order,
/// and `end`.
pub(crate) fn write_replay(
    alloc: Global,
    events: u64,
    agents: &[AgentRow],
    names: &Names,
) -> Result<Bytes, NoMemory>
    requires { All (IsNamedAgent (length names.now)) agents.now }
    ensures { IfOk result (λ text. text ≡ replay_text events agents.now names.now) }
{
    let mut text = String::new(alloc);
    write!(text, "status replay\nevents {events}\n")?;
    write_agents(&mut text, names, agents)?;
    text.push_str("end\n")?;
    Ok(bytes_of(text))
}

fn write_agents(text: &mut String, names: &Names, agents: &[AgentRow]) -> Result<(), NoMemory>
    requires { All (IsNamedAgent (length names.now)) agents.now }
    ensures { OnOk result (string_bytes text.new
        ≡ string_bytes text.old ++ flat_map line (map (agent_words names.now) agents.now)) }
{
    for row in agents {
        write_agent(text, names, row)?;
    }
    Ok(())
}

fn write_agent(text: &mut String, names: &Names, row: &AgentRow) -> Result<(), NoMemory>
    requires { IsNamedAgent (length names.now) row.now }
    ensures { OnOk result (string_bytes text.new
        ≡ string_bytes text.old ++ line (agent_words names.now row.now)) }
{
    let name = names.name(row.agent);
    write_state(text, name, row.value, row.standing, row.ended)
}

/// The state of the agent of the variable with this name.
fn write_state(
    text: &mut String,
    name: &str,
    value: Val,
    standing: Standing,
    ended: bool,
) -> Result<(), NoMemory>
    ensures { OnOk result (string_bytes text.new
        ≡ string_bytes text.old ++ line (state_words name.now value standing ended)) }
{
    write!(text, "agent {name}")?;
    write_standing(text, value, standing, ended)?;
    Ok(text.push_str("\n")?)
}

/// Writes the state of an agent: the words `value V lower L upper U threshold T ended E`, each
/// after a space.
///
/// # Errors
///
/// [`NoMemory`] if memory runs out.
pub fn write_standing(
    text: &mut String,
    value: Val,
    standing: Standing,
    ended: bool,
) -> Result<(), NoMemory>
    ensures { OnOk result (string_bytes text.new
        ≡ string_bytes text.old ++ flat_map (λ word. 32 ∷ word) (standing_words value standing ended)) }
{
    let value = value.0;
    let Standing {
        lower,
        upper,
        threshold,
    } = standing;
    write!(text, " value {value} lower {lower} upper ")?;
    write_bound(text, upper)?;
    let ended = ended_word(ended);
    Ok(write!(text, " threshold {threshold} ended {ended}")?)
}

/// The word for whether an agent has ended.
fn ended_word(ended: bool) -> &'static str
    ensures { result.now ≡ ended_word ended }
{
    if ended { "yes" } else { "no" }
}

/// Writes an upper bound, or `-` if there is none.
///
/// # Errors
///
/// [`NoMemory`] if memory runs out.
pub fn write_bound(text: &mut String, bound: Option<u64>) -> Result<(), NoMemory>
    ensures { OnOk result (string_bytes text.new ≡ string_bytes text.old ++ bound_word bound) }
{
    match bound {
        Some(bound) => Ok(write!(text, "{bound}")?),
        None => Ok(text.push_str("-")?),
    }
}
