//! Distinct names in order, each found by its bytes.

ghost use Rattle.std.specs.Prelude.{◌≡◌, ℕ, [], ◌<◌, ◌≤◌, List, Some, length, map, position, slice_get, not, IfOk, OnOk, OnErr};
ghost use Rattle.std.specs.List.{IsDistinct, list_any};
ghost use Rattle.std.specs.Str.{bytes_eq};
ghost use Rattle.std.specs.String.{string_bytes};
ghost use Rattle.problem_text.specs.Names.{with_name};
ghost use Rattle.dcop_base.specs.Limits.{variable_limit, size_limit};

use dcop_base::{MAX_SIZE, MAX_VARIABLES, NoMemory, Val, VarId};
use indexmap::IndexSet;
use std::alloc::Global;
use std::marker::Model;

/// Distinct names in order. Contracts see them as the list of their bytes.
#[derive(Debug, Drop)]
pub struct NameSet {
    set: IndexSet<String>,
}

impl Model for NameSet {
    ghost Value = { List (List ℕ) };

    ghost view = { λ n. map (λ s. string_bytes s) n.set.keys };

    ghost invariant = { λ n. IsDistinct bytes_eq (map (λ s. string_bytes s) n.set.keys) };
}

impl NameSet {
    /// No names. This takes no memory; memory for names is taken from `alloc` when they are added.
    pub fn new(alloc: Global) -> NameSet
        ensures { result ≡ [] }
    {
        NameSet {
            set: IndexSet::new(alloc),
        }
    }

    /// How many names there are.
    pub fn len(&self) -> usize
        ensures many { result ≡ length self.now }
        ensures distinct { IsDistinct bytes_eq self.now }
    {
        self.set.len()
    }

    /// The name at this position.
    pub fn name(&self, place: usize) -> &str
        requires { place < length self.now }
        ensures { slice_get self.now place ≡ Some result.now }
    {
        self.set.as_slice()[place].as_str()
    }

    /// The position of this name; `None` exactly when it is not among the names.
    pub fn position(&self, name: &str) -> Option<usize>
        ensures { result ≡ position (bytes_eq name.now) self.now }
    {
        self.set.get_index_of(name)
    }

    /// The value with this name; `None` exactly when no value has it.
    pub fn find_value(&self, name: &str) -> Option<Val>
        requires { length self.now ≤ size_limit }
        ensures { result ≡ position (bytes_eq name.now) self.now }
    {
        match self.position(name) {
            None => None,
            Some(place) => Some(Val(place as u16)),
        }
    }

    /// Adds a name at the end. Returns false, and leaves the names unchanged, exactly when the name
    /// is already among them.
    ///
    /// # Errors
    ///
    /// [`NoMemory`] if memory runs out. The names are then unchanged.
    pub fn push(&mut self, name: &str) -> Result<bool, NoMemory>
        ensures added { IfOk result (λ added. added ≡ not (list_any (bytes_eq name.now) self.old)) }
        ensures names { OnOk result (self.new ≡ with_name self.old name.now) }
        ensures err { OnErr result (self.new ≡ self.old) }
    {
        let owned = String::from_str(*self.set.allocator(), name)?;
        Ok(self.set.insert(owned)?)
    }
}

/// The value names of one variable, value 0 first.
pub type Labels = NameSet;

/// The names of the variables, in order: at most [`MAX_VARIABLES`], all of them distinct.
#[derive(Debug, Drop)]
pub struct Names {
    list: NameSet,
}

impl Model for Names {
    ghost Value = { List (List ℕ) };

    ghost view = { λ n. n.list };

    ghost invariant = { λ n. length n.list ≤ variable_limit };
}

impl Names {
    /// No names. This takes no memory; memory for names is taken from `alloc` when they are added.
    pub fn new(alloc: Global) -> Names
        ensures { result ≡ [] }
    {
        Names {
            list: NameSet::new(alloc),
        }
    }

    /// How many names there are, which is the number of variables.
    pub fn len(&self) -> usize
        ensures many { result ≡ length self.now }
        ensures few { result ≤ variable_limit }
        ensures distinct { IsDistinct bytes_eq self.now }
    {
        self.list.len()
    }

    /// The name of this variable.
    pub fn name(&self, var: VarId) -> &str
        requires { var < length self.now }
        ensures { slice_get self.now var ≡ Some result.now }
    {
        self.list.name(var.0 as usize)
    }

    /// The variable with this name; `None` exactly when no variable has it.
    pub fn find(&self, name: &str) -> Option<VarId>
        ensures { result ≡ position (bytes_eq name.now) self.now }
    {
        match self.list.position(name) {
            None => None,
            Some(place) => Some(VarId(place as u32)),
        }
    }

    /// Names the next variable. Returns false, and leaves the names unchanged, exactly when the
    /// name is already among them.
    ///
    /// # Errors
    ///
    /// [`NoMemory`] if memory runs out. The names are then unchanged.
    pub fn push(&mut self, name: &str) -> Result<bool, NoMemory>
        requires { length self.old < variable_limit }
        ensures added { IfOk result (λ added. added ≡ not (list_any (bytes_eq name.now) self.old)) }
        ensures names { OnOk result (self.new ≡ with_name self.old name.now) }
        ensures err { OnErr result (self.new ≡ self.old) }
    {
        self.list.push(name)
    }
}
