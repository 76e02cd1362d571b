//! What a dyndep file says of one build statement.
ghost use Rattle.std.specs.Prelude.{◌≡◌, IfOk, OnOk, OnErr};
ghost use Rattle.rev_dyndep.specs.Told.{without};

use rev_paths::{Name, Paths};
use std::alloc::{AllocError, Global};
use std::marker::Model;

/// What a dyndep file says of the build statement that makes an output.
pub struct Told {
    pub(crate) output: Name,
    pub(crate) outputs: Vec<Name>,
    pub(crate) inputs: Vec<Name>,
    pub(crate) restat: bool,
    pub(crate) line: u64,
}

impl Drop for Told {
    fn drop(self) {
        let Told {
            output: _output,
            outputs: _outputs,
            inputs: _inputs,
            restat: _restat,
            line: _line,
        } = self;
    }
}

impl Model for Told {
    ghost use Rattle.rev_dyndep.specs.Told.{ToldValue};

    ghost Value = { ToldValue };

    ghost view = { λ told. record {
      output = told.output;
      outputs = told.outputs.items;
      inputs = told.inputs.items;
      restat = told.restat;
      line = told.line;
    } };
}

// Paths but for those of a set.
fn without(alloc: Global, set: &Paths, paths: &[Name]) -> Result<Vec<Name>, AllocError>
    ensures { IfOk result (λ left. left.items ≡ without set.now paths.now) }
{
    let mut left = Vec::new(alloc);
    for path in paths {
        if set.find(path).is_none() {
            left.push(path.copy()?)?;
        }
    }
    Ok(left)
}

impl Told {
    /// The output of the build statement that the statement begins with.
    pub fn output(&self) -> &Name
        ensures { result.now ≡ self.now.output }
    {
        &self.output
    }

    /// The implicit outputs that it says.
    pub fn outputs(&self) -> &[Name]
        ensures { result.now ≡ self.now.outputs }
    {
        &self.outputs
    }

    /// The implicit inputs that it says.
    pub fn inputs(&self) -> &[Name]
        ensures { result.now ≡ self.now.inputs }
    {
        &self.inputs
    }

    /// Whether it says `restat`.
    pub fn restat(&self) -> bool
        ensures { result ≡ self.now.restat }
    {
        self.restat
    }

    /// The number of its first line, from 1.
    pub fn line(&self) -> u64
        ensures { result ≡ self.now.line }
    {
        self.line
    }
    /// Takes paths out of what it says: some of its outputs, and some of its inputs.
    ///
    /// # Errors
    /// [`AllocError`] only where an allocation was refused; nothing is then changed.
    pub fn leave_out(
        &mut self,
        alloc: Global,
        outputs: &Paths,
        inputs: &Paths,
    ) -> Result<(), AllocError>
        ensures left { OnOk result (self.new ≡ record self.old {
          outputs = without outputs.now self.old.outputs;
          inputs = without inputs.now self.old.inputs;
        }) }
        ensures err { OnErr result (self.new ≡ self.old) }
    {
        let left_outputs = without(alloc, outputs, &self.outputs)?;
        let left_inputs = without(alloc, inputs, &self.inputs)?;
        self.outputs = left_outputs;
        self.inputs = left_inputs;
        Ok(())
    }
}
