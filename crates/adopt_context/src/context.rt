//! Contexts: what is known of the values of variables.

ghost use Rattle.std.specs.Prelude.{◌≡◌, ℕ, List, [], true, not, ◌==◌, IfOk, OnOk, OnErr};
ghost use Rattle.std.specs.List.{filter};
ghost use Rattle.adopt_context.specs.Context.{AscendsFrom, value_in, put, compatible, part_of, union, names_all};

use crate::pairs::{agree, join, name_each, others, put, stand_in, value_in};
use dcop_base::{NoMemory, Val, VarId, VarList};
use std::alloc::{AllocError, Global};
use std::marker::Model;

/// A finite map from variables to values, which contracts see as the list of its pairs. The
/// variables of the pairs are strictly ascending, so each is in at most one pair.
#[derive(Debug, Drop)]
pub struct AgentContext {
    pairs: Vec<(VarId, Val)>,
}

impl Model for AgentContext {
    ghost use Rattle.std.specs.Prelude.{ℕ, List};
    ghost use Rattle.adopt_context.specs.Context.{AscendsFrom};

    ghost Value = { List (ℕ × ℕ) };

    ghost view = { λ c. c.pairs.items };

    ghost invariant = { λ c. AscendsFrom 0 c.pairs.items };
}

impl AgentContext {
    /// The context that names no variable.
    pub fn new(alloc: Global) -> AgentContext
        ensures { result ≡ [] }
    {
        AgentContext {
            pairs: Vec::new(alloc),
        }
    }

    /// The value of a variable; `None` exactly if the context does not name it.
    pub fn get(&self, var: VarId) -> Option<Val>
        ensures { result ≡ value_in self.now var }
    {
        value_in(self.pairs.as_slice(), var)
    }

    /// The pairs of a variable and its value, by ascending variables.
    pub fn pairs(&self) -> &[(VarId, Val)]
        ensures pairs { result.now ≡ self.now }
        ensures ascend { AscendsFrom 0 result.now }
    {
        self.pairs.as_slice()
    }

    /// Whether no variable has different values in the two contexts.
    pub fn compatible(&self, other: &AgentContext) -> bool
        ensures { result ≡ compatible self.now other.now }
    {
        agree(self.pairs.as_slice(), other.pairs.as_slice())
    }

    /// Whether the other context names each variable of this one, with the same value.
    pub fn part_of(&self, other: &AgentContext) -> bool
        ensures { result ≡ part_of self.now other.now }
    {
        stand_in(self.pairs.as_slice(), other.pairs.as_slice())
    }

    /// Whether all these variables are named.
    pub fn names_all(&self, vars: &VarList) -> bool
        ensures { result ≡ names_all self.now vars.now }
    {
        name_each(self.pairs.as_slice(), vars.as_slice())
    }

    /// Gives the variable this value. A value that it had is replaced.
    ///
    /// # Errors
    ///
    /// [`NoMemory`] if memory runs out. The context is then unchanged.
    pub fn set(&mut self, var: VarId, value: Val) -> Result<(), NoMemory>
        ensures given { OnOk result (self.new ≡ put self.old var value) }
        ensures kept { OnErr result (self.new ≡ self.old) }
    {
        put(&mut self.pairs, var, value)
    }

    /// Removes all pairs. The context keeps its memory.
    pub fn clear(&mut self)
        ensures { self.new ≡ [] }
    {
        self.pairs.clear();
    }

    /// Adds the pairs of a compatible context.
    ///
    /// # Errors
    ///
    /// [`NoMemory`] if memory runs out. The context is then unchanged.
    pub fn union(&mut self, other: &AgentContext) -> Result<(), NoMemory>
        requires { compatible self.old other.now ≡ true }
        ensures joined { OnOk result (self.new ≡ union self.old other.now) }
        ensures kept { OnErr result (self.new ≡ self.old) }
    {
        join(&mut self.pairs, other.pairs.as_slice())
    }

    /// The context without the pair of a variable.
    ///
    /// # Errors
    ///
    /// [`NoMemory`] if memory runs out.
    pub fn without(&self, var: VarId) -> Result<AgentContext, NoMemory>
        ensures { IfOk result (λ context. context ≡ filter (λ p. not (p.0 == var)) self.now) }
    {
        let pairs = others(self.pairs.as_slice(), var, *self.pairs.allocator())?;
        Ok(AgentContext { pairs })
    }

    /// A context with the same pairs.
    ///
    /// # Errors
    ///
    /// [`NoMemory`] if memory runs out.
    pub fn copy(&self) -> Result<AgentContext, NoMemory>
        ensures { IfOk result (λ context. context ≡ self.now) }
    {
        Ok(AgentContext {
            pairs: self.pairs.clone()?,
        })
    }
}

impl Clone for AgentContext {
    ghost is_clone = { λ context copy. copy ≡ context };

    fn clone(&self) -> Result<Self, AllocError> {
        Ok(AgentContext {
            pairs: self.pairs.clone()?,
        })
    }
}
