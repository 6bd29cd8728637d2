//! Equal values with memory of their own.
ghost use Rattle.std.specs.Prelude.{◌≡◌, IfOk};
ghost use Rattle.flow_model.specs.Rows.{below};
ghost use Rattle.flow_model.specs.Scopes.{part};

use crate::graphs::{Container, Value};
use crate::instances::{Part, Path};
use crate::lists::List;
use crate::names::Name;
use std::alloc::{AllocError, Global};

impl Value {
    /// An equal value.
    pub fn copy(&self, alloc: Global) -> Result<Value, AllocError>
        ensures { IfOk result (λ v. v ≡ self.now) }
    {
        match self {
            Value::Whole(number) => Ok(Value::Whole(*number)),
            Value::Text(text) => Ok(Value::Text(text.copy(alloc)?)),
        }
    }
}

impl Container {
    /// An equal container.
    pub fn copy(&self, alloc: Global) -> Result<Container, AllocError>
        ensures { IfOk result (λ c. c ≡ self.now) }
    {
        let mut values = List::with_capacity(alloc, self.values.len())?;
        for value in self.values.as_slice() {
            values.push(value.copy(alloc)?)?;
        }
        Ok(Container { values })
    }
}

impl Part {
    /// An equal part.
    pub fn copy(&self, alloc: Global) -> Result<Part, AllocError>
        ensures { IfOk result (λ q. q ≡ self.now) }
    {
        Ok(Part {
            name: self.name.copy(alloc)?,
            attempt: self.attempt,
        })
    }
}

impl Path {
    /// An equal path.
    pub fn copy(&self, alloc: Global) -> Result<Path, AllocError>
        ensures { IfOk result (λ p. p ≡ self.now) }
    {
        let mut parts = List::with_capacity(alloc, self.parts.len())?;
        for part in self.parts.as_slice() {
            parts.push(part.copy(alloc)?)?;
        }
        Ok(Path {
            root: self.root,
            parts,
        })
    }

    /// The path of an attempt of an activity of this scope.
    pub fn below(&self, alloc: Global, name: &Name, attempt: u64) -> Result<Path, AllocError>
        ensures { IfOk result (λ p. p ≡ below self.now (part name.now attempt)) }
    {
        let mut parts = List::with_capacity(alloc, self.parts.len().saturating_add(1))?;
        for part in self.parts.as_slice() {
            parts.push(part.copy(alloc)?)?;
        }
        parts.push(Part {
            name: name.copy(alloc)?,
            attempt,
        })?;
        Ok(Path {
            root: self.root,
            parts,
        })
    }
}
