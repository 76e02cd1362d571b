//! The variables that a rule has.
ghost use Rattle.std.specs.Prelude.{◌≡◌};
ghost use Rattle.rev_scopes.specs.RuleNames.{name_of, is_needed, variable_named};

/// A variable that a rule may bind (Ninja manual, rule variables).
#[derive(Clone, Copy, Debug, PartialEq, Eq)]
pub enum RuleVariable {
    /// `command`: the command line.
    Command,
    /// `depfile`: the file that the command writes its prerequisites to.
    Depfile,
    /// `deps`: how prerequisites are kept.
    Deps,
    /// `msvc_deps_prefix`: what stands before a prerequisite in the output of Microsoft's compilers.
    MsvcDepsPrefix,
    /// `description`: what is shown in place of the command.
    Description,
    /// `generator`: the edge does not run for a change of its command alone.
    Generator,
    /// `restat`: outputs that the command leaves alone count as unchanged.
    Restat,
    /// `rspfile`: the file that the command's arguments are written to.
    Rspfile,
    /// `rspfile_content`: what is written to it.
    RspfileContent,
    /// `pool`: the pool in which the command runs.
    Pool,
}

impl RuleVariable {
    /// How the variable is written.
    pub fn name(self) -> &'static [u8]
        ensures { result.now ≡ name_of self }
    {
        match self {
            RuleVariable::Command => b"command",
            RuleVariable::Depfile => b"depfile",
            RuleVariable::Deps => b"deps",
            RuleVariable::MsvcDepsPrefix => b"msvc_deps_prefix",
            RuleVariable::Description => b"description",
            RuleVariable::Generator => b"generator",
            RuleVariable::Restat => b"restat",
            RuleVariable::Rspfile => b"rspfile",
            RuleVariable::RspfileContent => b"rspfile_content",
            RuleVariable::Pool => b"pool",
        }
    }

    /// Whether it is one of those that are expanded for each edge.
    pub(crate) fn is_needed(self) -> bool
        ensures { result ≡ is_needed self }
    {
        !matches!(
            self,
            RuleVariable::MsvcDepsPrefix | RuleVariable::Description | RuleVariable::Rspfile
        )
    }

    /// The variable that is written so, if there is one.
    pub fn named(name: &[u8]) -> Option<RuleVariable>
        ensures { result ≡ variable_named name.now }
    {
        const ALL: [RuleVariable; 10] = [
            RuleVariable::Command,
            RuleVariable::Depfile,
            RuleVariable::Deps,
            RuleVariable::MsvcDepsPrefix,
            RuleVariable::Description,
            RuleVariable::Generator,
            RuleVariable::Restat,
            RuleVariable::Rspfile,
            RuleVariable::RspfileContent,
            RuleVariable::Pool,
        ];
        ALL.iter().copied().find(|variable| name == variable.name())
    }
}
