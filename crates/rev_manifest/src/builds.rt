//! The edges of a manifest.
ghost use Rattle.std.specs.Prelude.{◌≡◌, IfOk};
ghost use Rattle.std.specs.Arc.{arc_slice_items};

use rev_paths::Name;
use rev_scopes::SharedText;
use std::alloc::AllocError;
use std::marker::Model;
use std::sync::ArcSlice;

/// An edge of a manifest: the paths of its build line, and the values of its rule's variables.
pub struct Build {
    pub(crate) phony: bool,
    pub(crate) explicit_outs: Vec<Name>,
    pub(crate) implicit_outs: Vec<Name>,
    pub(crate) explicit: Vec<Name>,
    pub(crate) implicit: Vec<Name>,
    pub(crate) order_only: Vec<Name>,
    pub(crate) validations: Vec<Name>,
    pub(crate) command: SharedText,
    pub(crate) depfile: Vec<u8>,
    pub(crate) rspfile: Vec<u8>,
    pub(crate) keeps_deps: bool,
    pub(crate) restat: bool,
    pub(crate) generator: bool,
    pub(crate) pool: Option<u32>,
    pub(crate) file: u64,
    pub(crate) line: u64,
}

impl Drop for Build {
    fn drop(self) {
        let Build {
            phony: _phony,
            explicit_outs: _explicit_outs,
            implicit_outs: _implicit_outs,
            explicit: _explicit,
            implicit: _implicit,
            order_only: _order_only,
            validations: _validations,
            command: _command,
            depfile: _depfile,
            rspfile: _rspfile,
            keeps_deps: _keeps_deps,
            restat: _restat,
            generator: _generator,
            pool: _pool,
            file: _file,
            line: _line,
        } = self;
    }
}

impl Model for Build {
    ghost use Rattle.rev_manifest.specs.Builds.{BuildValue};

    ghost Value = { BuildValue };

    ghost view = { λ build. record {
      phony = build.phony;
      explicit_outs = build.explicit_outs.items;
      implicit_outs = build.implicit_outs.items;
      explicit = build.explicit.items;
      implicit = build.implicit.items;
      order_only = build.order_only.items;
      validations = build.validations.items;
      command = build.command;
      depfile = build.depfile.items;
      rspfile = build.rspfile.items;
      keeps_deps = build.keeps_deps;
      restat = build.restat;
      generator = build.generator;
      pool = build.pool;
      file = build.file;
      line = build.line;
    } };
}

impl Build {
    /// Whether its rule is `phony`.
    pub fn phony(&self) -> bool
        ensures { result ≡ self.now.phony }
    {
        self.phony
    }

    /// The outputs before `|`, each once, at its first place.
    pub fn explicit_outs(&self) -> &[Name]
        ensures { result.now ≡ self.now.explicit_outs }
    {
        &self.explicit_outs
    }

    /// The outputs after `|` that are none of those, each once.
    pub fn implicit_outs(&self) -> &[Name]
        ensures { result.now ≡ self.now.implicit_outs }
    {
        &self.implicit_outs
    }

    /// The inputs before `|`.
    pub fn explicit(&self) -> &[Name]
        ensures { result.now ≡ self.now.explicit }
    {
        &self.explicit
    }

    /// The inputs after `|`.
    pub fn implicit(&self) -> &[Name]
        ensures { result.now ≡ self.now.implicit }
    {
        &self.implicit
    }

    /// The inputs after `||`, which come first and never give a reason to run (Ninja manual, order-only dependencies).
    pub fn order_only(&self) -> &[Name]
        ensures { result.now ≡ self.now.order_only }
    {
        &self.order_only
    }

    /// The paths after `|@`.
    pub fn validations(&self) -> &[Name]
        ensures { result.now ≡ self.now.validations }
    {
        &self.validations
    }

    /// The command that is compared with the recorded one. A phony edge has none.
    pub fn command(&self) -> &[u8]
        ensures { result.now ≡ self.now.command }
    {
        self.command.as_bytes()
    }

    /// The same bytes, for another type whose values share them.
    ///
    /// # Errors
    /// [`AllocError`] where there are more copies than can be counted.
    pub fn shared_command(&self) -> Result<ArcSlice<u8>, AllocError>
        ensures { IfOk result (λ bytes. arc_slice_items bytes ≡ self.now.command) }
    {
        self.command.to_shared()
    }

    /// Where its command leaves its depfile, as its rule says; empty where it leaves none. A phony edge has none.
    pub fn depfile(&self) -> &[u8]
        ensures { result.now ≡ self.now.depfile }
    {
        &self.depfile
    }

    /// Where its response file is written before its command runs, as its rule says; empty where there is none. A phony
    /// edge has none.
    pub fn rspfile(&self) -> &[u8]
        ensures { result.now ≡ self.now.rspfile }
    {
        &self.rspfile
    }

    /// Whether the listing of a depfile is kept.
    pub fn keeps_deps(&self) -> bool
        ensures { result ≡ self.now.keeps_deps }
    {
        self.keeps_deps
    }

    /// Whether outputs that a command leaves alone count as unchanged (Ninja manual, restat).
    pub fn restat(&self) -> bool
        ensures { result ≡ self.now.restat }
    {
        self.restat
    }

    /// Whether the edge does not run for a change of its command alone (Ninja manual, generator).
    pub fn generator(&self) -> bool
        ensures { result ≡ self.now.generator }
    {
        self.generator
    }

    /// The number of its pool, if it has one, which is below the number of the manifest's pools.
    pub fn pool(&self) -> Option<u32>
        ensures { result ≡ self.now.pool }
    {
        self.pool
    }

    /// The place of its file among those given, from 0.
    pub fn file(&self) -> u64
        ensures { result ≡ self.now.file }
    {
        self.file
    }

    /// The number of the first line of its build statement, from 1.
    pub fn line(&self) -> u64
        ensures { result ≡ self.now.line }
    {
        self.line
    }
}
