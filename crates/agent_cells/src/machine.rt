//! The calls of a boxed machine.

ghost use Rattle.std.specs.Prelude.{◌≡◌, IfOk};
ghost use Rattle.protocol_steps.specs.View.{made_of};
ghost use Rattle.protocol_steps.specs.Machine.{MayStart, MayReact, IsBatch, IsStart, IsStep};
ghost use Rattle.agent_cells.specs.Receivers.{GoToNeighbours};

use dcop_base::NoMemory;
use protocol_steps::{Batch, Machine, Outbox};
use std::alloc::Global;

/// Starts a machine, and returns what it sends.
pub(crate) fn start_once(
    alloc: Global,
    machine: &mut Box<dyn Machine + Send>,
) -> Result<Outbox, NoMemory>
    requires ready { MayStart (meaning machine.old) }
    ensures origin { made_of (meaning machine.new) ≡ made_of (meaning machine.old) }
    ensures start { IfOk result (λ out. IsStart (meaning machine.old) (meaning machine.new) out) }
    ensures receivers { IfOk result (λ out. GoToNeighbours (meaning machine.old) out) }
{
    let mut out = Outbox::from_vec(Vec::new(alloc));
    machine.start(&mut out)?;
    Ok(out)
}

/// Activates a machine once on a batch, and returns what it sends.
pub(crate) fn react_once(
    alloc: Global,
    machine: &mut Box<dyn Machine + Send>,
    batch: &Batch,
) -> Result<Outbox, NoMemory>
    requires ready { MayReact (meaning machine.old) }
    requires batch { IsBatch (meaning machine.old) batch.now }
    ensures origin { made_of (meaning machine.new) ≡ made_of (meaning machine.old) }
    ensures step { IfOk result (λ out. IsStep (meaning machine.old) batch.now (meaning machine.new) out) }
    ensures receivers { IfOk result (λ out. GoToNeighbours (meaning machine.old) out) }
{
    let mut out = Outbox::from_vec(Vec::new(alloc));
    machine.react(batch, &mut out)?;
    Ok(out)
}
