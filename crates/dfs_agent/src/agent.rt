//! The token agent.

ghost use Rattle.std.specs.Prelude.{◌≡◌, ℕ, true, false, [], ◌↔◌, IfOk, OnOk, OnErr, IsErr, MatchOption, Some, None};
ghost use Rattle.std.specs.List.{All, Contains};
ghost use Rattle.protocol_steps.specs.declared.message.Message.TheVariants.{Token, Done};
ghost use Rattle.protocol_steps.specs.Ranges.{AreVariables};
ghost use Rattle.protocol_steps.specs.Token.{new_token, token_place};
ghost use Rattle.protocol_steps.specs.TokenStep.{look, pass_on, takes_token, takes_done, token_message, token_start, token_step};
ghost use Rattle.protocol_steps.specs.View.{TokenKind};
ghost use Rattle.protocol_steps.specs.Laws.{IsParentBeside};
ghost use Rattle.protocol_steps.specs.Knowledge.{IsKnowledge};
ghost use Rattle.dfs_agent.specs.Stage.{searching};
ghost use Rattle.dfs_agent.specs.Sound.{AreOthers};
ghost use Rattle.dfs_agent.specs.Search.{Gives, IsNew, IsRunning};

use crate::parts::{children_of, copy_of, count_of, done_for, place_of, token_for};
use crate::stage::Stage;
use crate::visited::{are_distinct_without, first_unvisited, lower_of};
use dcop_base::{MAX_VARIABLES, NoMemory, Private, Table, Val, VarId, VarList};
use protocol_steps::{Batch, Letter, Machine, Message, Outbox, Parcel, Standing};
use pseudotree::Place;
use std::alloc::Global;
use std::marker::Model;
use std::mem;

/// The most variables of a path that comes with a token, and of all subtrees that come back.
const MOST_OTHERS: usize = MAX_VARIABLES - 1;

/// A token agent: its part in the depth-first search of the graph. Contracts see its view.
///
/// It opens with the first token that arrives; the agent of variable 0 opens at its start. Then it
/// sends the token to its lowest neighbour that has not been visited, waits for the subtree that
/// comes back, and looks again. When no neighbour is left it ends, and sends its own subtree to its
/// parent.
#[derive(Debug, Drop)]
pub struct TokenAgent {
    alloc: Global,
    /// What it knows of the problem.
    own: Private,
    stage: Stage,
    /// The path that came with the token, until the place contains it.
    path: VarList,
    /// The subtrees that came back, one from each child, in the order of their return.
    kept: Vec<VarList>,
}

impl Model for TokenAgent {
    ghost use Rattle.protocol_steps.specs.Token.{TokenView};
    ghost use Rattle.dfs_agent.specs.Stage.{path_at, view_at};
    ghost use Rattle.dfs_agent.specs.Sound.{IsSound};

    ghost Value = { TokenView };

    ghost view = { λ a. view_at a.own a.stage (path_at a.stage a.path) a.kept.items };

    ghost invariant = { λ a. IsSound a.own a.stage (path_at a.stage a.path) a.kept.items };
}

impl TokenAgent {
    /// The agent that knows this part of a problem, before its start.
    ///
    /// # Errors
    ///
    /// [`NoMemory`] if memory runs out.
    pub fn new(alloc: Global, own: Private) -> Result<TokenAgent, NoMemory>
        requires { IsKnowledge own }
        ensures { IfOk result (λ agent. agent ≡ new_token own) }
    {
        Ok(TokenAgent {
            alloc,
            own,
            stage: Stage::Waiting,
            path: VarList::new(alloc),
            kept: Vec::new(alloc),
        })
    }

    /// The place that the agent found; `None` exactly if it has not ended.
    pub fn into_place(self) -> Option<Place>
        ensures { result ≡ token_place self }
    {
        let TokenAgent {
            alloc: _,
            own: _,
            stage,
            path: _,
            kept: _,
        } = self;
        match stage {
            Stage::Ended { place } => Some(place),
            _ => None,
        }
    }

    /// Sends the token on to the lowest neighbour that has not been visited, or ends the search.
    fn look(&mut self) -> Result<Option<Parcel>, NoMemory>
        requires { self.old.phase ≡ searching }
        ensures own { self.new.own ≡ self.old.own }
        ensures gives { IfOk result
            (Gives (look (record self.old { opened = true })) self.new) }
    {
        let neighbours = self.own.neighbours.as_slice();
        let path = self.path.as_slice();
        match first_unvisited(neighbours, path, self.kept.as_slice()) {
            Some(child) => self.pass_token(child),
            None => self.end(),
        }
    }

    /// Sends the token to a child.
    fn pass_token(&mut self, child: VarId) -> Result<Option<Parcel>, NoMemory>
        requires { self.old.phase ≡ searching }
        ensures own { self.new.own ≡ self.old.own }
        ensures gives { IfOk result
            (Gives (pass_on (record self.old { opened = true }) (Some child)) self.new) }
    {
        let parcel = token_for(self.alloc, child, self.path.as_slice(), self.own.me)?;
        self.stage = Stage::Open { child };
        Ok(Some(parcel))
    }

    /// Ends the search, and sends the subtree to the parent, if there is one.
    fn end(&mut self) -> Result<Option<Parcel>, NoMemory>
        requires { self.old.phase ≡ searching }
        ensures own { self.new.own ≡ self.old.own }
        ensures gives { IfOk result
            (Gives (pass_on (record self.old { opened = true }) None) self.new) }
    {
        let path = self.path.as_slice();
        let kept = self.kept.as_slice();
        let children = children_of(self.alloc, kept)?;
        let lower = lower_of(self.alloc, self.own.neighbours.as_slice(), path)?;
        let parcel = done_for(self.alloc, self.own.me, path, kept)?;
        let path = mem::replace(&mut self.path, VarList::new(self.alloc));
        let place = place_of(self.alloc, self.own.me, path, children, lower);
        self.stage = Stage::Ended { place };
        Ok(parcel)
    }

    /// Whether a token is taken.
    fn takes_token(&self, from: VarId, path: &VarList) -> bool
        requires running { IsRunning self.now }
        requires range { AreVariables path.now }
        ensures { result ≡ takes_token self.now from path.now }
    {
        if !matches!(self.stage, Stage::Closed) {
            return false;
        }
        let path = path.as_slice();
        if path.last() != Some(&from) || path.len() > MOST_OTHERS {
            return false;
        }
        are_distinct_without(path, self.own.me)
    }

    /// Opens with a token's path, if the token is taken.
    fn take_token(&mut self, from: VarId, path: &VarList) -> Result<Option<Parcel>, NoMemory>
        requires running { IsRunning self.old }
        requires near { Contains self.old.own.neighbours from }
        requires range { AreVariables path.now }
        ensures own { self.new.own ≡ self.old.own }
        ensures running { IfOk result (λ _. IsRunning self.new) }
        ensures gives { IfOk result (Gives (token_message self.old from (Token path.now)) self.new) }
    {
        if !self.takes_token(from, path) {
            return Ok(None);
        }
        self.path = copy_of(path)?;
        self.look()
    }

    /// Whether a child's subtree is taken.
    fn takes_done(&self, from: VarId, visited: &VarList) -> bool
        requires range { AreVariables visited.now }
        ensures { result ≡ takes_done self.now from visited.now }
    {
        let Stage::Open { child } = &self.stage else {
            return false;
        };
        let visited = visited.as_slice();
        *child == from
            && visited.first() == Some(&from)
            && count_of(self.kept.as_slice()) + visited.len() <= MOST_OTHERS
    }

    /// Keeps a child's subtree and looks for the next child, if the subtree is taken.
    fn take_done(&mut self, from: VarId, visited: &VarList) -> Result<Option<Parcel>, NoMemory>
        requires running { IsRunning self.old }
        requires range { AreVariables visited.now }
        ensures own { self.new.own ≡ self.old.own }
        ensures running { IfOk result (λ _. IsRunning self.new) }
        ensures gives { IfOk result
            (Gives (token_message self.old from (Done visited.now)) self.new) }
    {
        if !self.takes_done(from, visited) {
            return Ok(None);
        }
        self.kept.push(copy_of(visited)?)?;
        self.look()
    }

    /// Handles one message. A message that is not taken is ignored.
    fn handle(&mut self, letter: &Letter) -> Result<Option<Parcel>, NoMemory>
        requires running { IsRunning self.old }
        requires near { Contains self.old.own.neighbours letter.now.0 }
        ensures own { self.new.own ≡ self.old.own }
        ensures running { IfOk result (λ _. IsRunning self.new) }
        ensures gives { IfOk result
            (Gives (token_message self.old letter.now.0 letter.now.1) self.new) }
    {
        match &letter.message {
            Message::Token { path } => self.take_token(letter.from, path),
            Message::Done { visited } => self.take_done(letter.from, visited),
            _ => Ok(None),
        }
    }

    /// Handles all messages of a batch, in order. Puts what is sent into `parcels`.
    #[tactic(auto, using(crate::proofs::AgentLaws::leads_on, crate::proofs::AgentLaws::led_to))]
    fn handle_all(
        &mut self,
        letters: &[Letter],
        mut parcels: Vec<Parcel>,
    ) -> Result<Vec<Parcel>, NoMemory>
        requires running { IsRunning self.old }
        requires near { All (λ l. Contains self.old.own.neighbours l.0) letters.now }
        requires empty { parcels.items ≡ [] }
        ensures own { self.new.own ≡ self.old.own }
        ensures viewed { IfOk result (λ _. self.new ≡ (token_step self.old letters.now).view) }
        ensures sent { IfOk result (λ ps. ps.items ≡ (token_step self.old letters.now).sends) }
    {
        for letter in letters {
            if let Some(parcel) = self.handle(letter)? {
                parcels.push(parcel)?;
            }
        }
        Ok(parcels)
    }

    /// The agent fails for good.
    fn fail(&mut self) -> NoMemory
        ensures own { self.new.own ≡ self.old.own }
        ensures failed { self.new.phase.failed ≡ true }
    {
        self.stage = Stage::Failed;
        NoMemory
    }

    /// The start: the root opens with the empty path.
    fn open(&mut self) -> Result<Option<Parcel>, NoMemory>
        requires { IsNew self.old }
        ensures own { self.new.own ≡ self.old.own }
        ensures gives { IfOk result (Gives (token_start self.old) self.new) }
    {
        self.stage = Stage::Closed;
        if self.own.me != VarId(0) {
            return Ok(None);
        }
        self.path = VarList::new(self.alloc);
        self.look()
    }

    /// The start. Puts what is sent into `parcels`.
    fn begin(&mut self, mut parcels: Vec<Parcel>) -> Result<Vec<Parcel>, NoMemory>
        requires new { IsNew self.old }
        requires empty { parcels.items ≡ [] }
        ensures own { self.new.own ≡ self.old.own }
        ensures viewed { IfOk result (λ _. self.new ≡ (token_start self.old).view) }
        ensures sent { IfOk result (λ ps. ps.items ≡ (token_start self.old).sends) }
    {
        if let Some(parcel) = self.open()? {
            parcels.push(parcel)?;
        }
        Ok(parcels)
    }
}

/// The memory of an outbox, lent empty for what is sent; the outbox stays empty.
fn memory_of(alloc: Global, out: &mut Outbox) -> Vec<Parcel>
    requires { out.old ≡ [] }
    ensures empty { result.items ≡ [] }
    ensures out { out.new ≡ [] }
{
    mem::replace(out, Outbox::from_vec(Vec::new(alloc))).into_vec()
}

impl Machine for TokenAgent {
    ghost meaning = { λ a. TokenKind a };

    fn start(&mut self, out: &mut Outbox) -> Result<(), NoMemory> {
        if matches!(self.stage, Stage::Failed) {
            return Err(NoMemory);
        }
        let parcels = memory_of(self.alloc, out);
        let Ok(parcels) = self.begin(parcels) else {
            return Err(self.fail());
        };
        *out = Outbox::from_vec(parcels);
        Ok(())
    }

    fn react(&mut self, batch: &Batch, out: &mut Outbox) -> Result<(), NoMemory> {
        if matches!(self.stage, Stage::Failed) {
            return Err(NoMemory);
        }
        let parcels = memory_of(self.alloc, out);
        let Ok(parcels) = self.handle_all(batch.as_slice(), parcels) else {
            return Err(self.fail());
        };
        *out = Outbox::from_vec(parcels);
        Ok(())
    }

    fn ended(&self) -> bool {
        matches!(self.stage, Stage::Ended { .. })
    }

    fn value(&self) -> Val {
        Val(0)
    }

    fn standing(&self) -> Standing {
        Standing {
            lower: 0,
            upper: None,
            threshold: 0,
        }
    }

    fn table(&self) -> Option<&Table> {
        None
    }

    fn place(&self) -> Option<&Place> {
        match &self.stage {
            Stage::Ended { place } => Some(place),
            _ => None,
        }
    }
}
