//! What mends the races of a recording: a patch of its manifest, or what to tell the generator that wrote it.
ghost use Rattle.std.specs.Prelude.{◌≡◌, OnOk};
ghost use Rattle.rev_graph.specs.Graph.{successor_lists};
ghost use Rattle.rev_races.specs.Searches.{IsKept};
ghost use Rattle.rev_ranks.specs.Graph.{graph_of};

use crate::minimal::minimal;
use crate::own::{Own, with_own};
use crate::statements::{Statement, patch_name, push_patches, statement_at, statements_of};
use indexmap::IndexMap;
use rev_clashes::SideFile;
use rev_conflicts_text::{Finding, Reverse};
use rev_graph::Graph;
use rev_manifest::Manifest;
use rev_patch::{Author, Change, author_of};
use rev_patched::{Amendments, Order, amendments_for, patch_for, writable_output};
use rev_paths::Name;
use rev_races::{Search, no_search, search_for};
use rev_races_text::{
    Clash, Kind, RaceFinding, Sources, push_clash, push_edge, push_made, push_placed,
};
use rev_shown::push_shown;
use rev_waits::steps;
use std::alloc::{AllocError, Global};

// The most mends that are tried one after the other where all of them together make a cycle.
const MOST_TRIED: usize = 64;

/// An order that mends races: the user's build statement by its file and line, a user, and the maker. `is_order_only`
/// says that the order is to stand behind `||`, and not behind `|`.
#[derive(Clone, Copy, PartialEq, Eq, PartialOrd, Ord)]
pub(crate) struct Mend {
    pub(crate) file: u64,
    pub(crate) line: u64,
    pub(crate) maker: u32,
    pub(crate) is_order_only: bool,
    pub(crate) user: u32,
}

// A path that the build statement of an edge is to have behind a `|`: among its outputs, or among its inputs.
#[derive(Clone, Copy)]
struct Naming<'a> {
    file: u64,
    line: u64,
    edge: u32,
    path: &'a Name,
    is_output: bool,
}

// Why a mend is not in the patch.
#[derive(Clone, Copy)]
enum Left {
    // No output of the maker can be written on a build line.
    Unwritable,
    // The statement stands in a file that `patch` does not find.
    Elsewhere,
    // The statement makes another command too, for which the maker waits.
    Shared,
    // With the orders before it a command waits for itself.
    Cycle,
}

// Adds the mend by which a user waits for a maker.
fn add_mend(
    sources: &Sources<'_>,
    maker: u32,
    user: u32,
    is_order_only: bool,
    mends: &mut Vec<Mend>,
) -> Result<(), AllocError> {
    match sources.builds.get(user as usize) {
        Some(build) => mends.push(Mend {
            file: build.file(),
            line: build.line(),
            maker,
            is_order_only,
            user,
        })?,
        None => {}
    }
    Ok(())
}

// Adds the mend of a finding. Where either order can be right, it is the one of this recording.
fn add_finding(
    sources: &Sources<'_>,
    finding: &Finding<'_>,
    mends: &mut Vec<Mend>,
) -> Result<(), AllocError> {
    let (maker, user) = (finding.maker, finding.user);
    match finding.mending.reverse {
        Some(reverse) if reverse.is_here => add_mend(sources, user, maker, true, mends),
        _ => add_mend(sources, maker, user, !finding.mending.is_listed, mends),
    }
}

// The mends of races and of findings, each statement and maker once, by file and line.
fn mends_of(
    alloc: Global,
    sources: &Sources<'_>,
    races: &[RaceFinding<'_>],
    findings: &[Finding<'_>],
) -> Result<Vec<Mend>, AllocError> {
    let mut all = Vec::new(alloc);
    for race in races {
        if race.kind == Kind::Race {
            add_mend(sources, race.maker, race.user, true, &mut all)?;
        }
    }
    for finding in findings {
        if finding.is_mended_by_order() {
            add_finding(sources, finding, &mut all)?;
        }
    }
    all.sort_unstable();
    once(alloc, &all)
}

// Of the mends of one statement and one maker, which stand beside each other, the first: one behind a `|`, where there is
// one.
fn once(alloc: Global, all: &[Mend]) -> Result<Vec<Mend>, AllocError> {
    let mut mends: Vec<Mend> = Vec::new(alloc);
    for mend in all {
        let is_there = mends.last().is_some_and(|last| {
            last.file == mend.file && last.line == mend.line && last.maker == mend.maker
        });
        if !is_there {
            mends.push(*mend)?;
        }
    }
    Ok(mends)
}

// Whether an edge waits for one of those of a statement, or is one.
fn waits_back(
    alloc: Global,
    graph: &Graph,
    steps: &[Vec<u32>],
    maker: u32,
    statement: &[Statement],
    search: &mut Search,
) -> Result<bool, AllocError>
    requires steps { graph_of steps.now ≡ successor_lists graph.now.manifest.builds }
    requires kept { IsKept graph.now.manifest.builds search.old.edge search.old.waited.items }
    ensures { OnOk result (IsKept graph.now.manifest.builds search.new.edge search.new.waited.items) }
{
    if maker >= graph.edges() {
        return Ok(false);
    }
    search_for(alloc, graph, steps, maker, search)?;
    for other in statement {
        if other.edge == maker
            || search
                .waited
                .get(other.edge as usize)
                .copied()
                .unwrap_or(false)
        {
            return Ok(true);
        }
    }
    Ok(false)
}

// For each mend whether its statement makes several edges, for one of which the maker waits, or which it is.
fn shared(
    alloc: Global,
    graph: &Graph,
    statements: &[Statement],
    mends: &[Mend],
) -> Result<Vec<bool>, AllocError> {
    let steps = steps(alloc, graph)?;
    let mut search = no_search(alloc);
    let mut marks = Vec::new(alloc);
    for mend in mends {
        let statement = statement_at(statements, mend.file, mend.line);
        let mut back = false;
        if statement.len() > 1 {
            back = waits_back(alloc, graph, &steps, mend.maker, statement, &mut search)?;
        }
        marks.push(back)?;
    }
    Ok(marks)
}

// What a patch is made of: the files, the manifest that they say, its graph, the statements of its edges, and the
// user's own manifest, where that is another one.
#[derive(Clone, Copy)]
struct Patched<'a> {
    sources: &'a Sources<'a>,
    manifest: &'a Manifest,
    graph: &'a Graph,
    statements: &'a [Statement],
    own: Option<Own<'a>>,
}

// The changed lines of files that make additions to the manifest that they say; none where an edge would wait for
// itself.
fn changes_in(
    alloc: Global,
    files: &[(Vec<u8>, Vec<u8>)],
    manifest: &Manifest,
    amendments: &Amendments<'_>,
) -> Result<Option<Vec<Vec<Change>>>, AllocError> {
    if amendments.outputs.is_empty() && amendments.inputs.is_empty() {
        return patch_for(alloc, files, manifest, &amendments.orders);
    }
    amendments_for(alloc, files, manifest, amendments)
}

impl<'a> Patched<'a> {
    // Why a mend is in no patch, whatever other mends there are. `shared` says that its statement makes an edge for
    // which the maker waits.
    fn left(self, alloc: Global, mend: Mend, shared: bool) -> Result<Option<Left>, AllocError> {
        if self.output(mend.maker).is_none() {
            return Ok(Some(Left::Unwritable));
        }
        if !self.is_found(alloc, mend.file)? {
            return Ok(Some(Left::Elsewhere));
        }
        if shared {
            return Ok(Some(Left::Shared));
        }
        Ok(None)
    }

    // The output of an edge that a line of the patch names. It is one of the edge's own line: Ninja takes what a dyndep
    // file says for a source until it has loaded the file.
    fn output(self, edge: u32) -> Option<&'a Name> {
        match self.own {
            Some(own) => own.output(edge),
            None => writable_output(self.sources.builds.get(edge as usize)?),
        }
    }

    // Whether `patch` finds a file.
    fn is_found(self, alloc: Global, file: u64) -> Result<bool, AllocError> {
        match self.sources.files.get(file as usize) {
            Some((name, _)) => Ok(patch_name(alloc, name)?.is_some()),
            None => Ok(false),
        }
    }

    // Adds a path to each edge that a statement makes.
    fn push_path(
        self,
        orders: &mut Vec<Order<'a>>,
        file: u64,
        line: u64,
        path: &'a Name,
    ) -> Result<(), AllocError> {
        for statement in statement_at(self.statements, file, line) {
            orders.push(Order {
                edge: statement.edge,
                path,
            })?;
        }
        Ok(())
    }

    // Adds the order of a mend.
    fn push_order(self, amendments: &mut Amendments<'a>, mend: Mend) -> Result<(), AllocError> {
        let Some(path) = self.output(mend.maker) else {
            return Ok(());
        };
        if mend.is_order_only {
            return self.push_path(&mut amendments.orders, mend.file, mend.line, path);
        }
        self.push_path(&mut amendments.inputs, mend.file, mend.line, path)
    }

    // Adds the path of a naming.
    fn push_naming_path(
        self,
        amendments: &mut Amendments<'a>,
        naming: Naming<'a>,
    ) -> Result<(), AllocError> {
        let Naming {
            file,
            line,
            path,
            is_output,
            ..
        } = naming;
        if is_output {
            return self.push_path(&mut amendments.outputs, file, line, path);
        }
        self.push_path(&mut amendments.inputs, file, line, path)
    }

    // What mends and namings add to edges.
    fn amendments(
        self,
        alloc: Global,
        mends: &[Mend],
        namings: &[Naming<'a>],
    ) -> Result<Amendments<'a>, AllocError> {
        let mut amendments = Amendments {
            outputs: Vec::new(alloc),
            inputs: Vec::new(alloc),
            orders: Vec::new(alloc),
        };
        for naming in namings {
            self.push_naming_path(&mut amendments, *naming)?;
        }
        for mend in mends {
            self.push_order(&mut amendments, *mend)?;
        }
        Ok(amendments)
    }

    // The changed lines for some mends and namings; none where with all of them a command waits for itself. Where the
    // user's own manifest is another one, the lines are those of its files.
    fn changes(
        self,
        alloc: Global,
        mends: &[Mend],
        namings: &[Naming<'a>],
    ) -> Result<Option<Vec<Vec<Change>>>, AllocError> {
        let amendments = self.amendments(alloc, mends, namings)?;
        let changes = changes_in(alloc, self.sources.files, self.manifest, &amendments)?;
        let Some(own) = self.own else {
            return Ok(changes);
        };
        if changes.is_none() {
            return Ok(None);
        }
        changes_in(alloc, own.plain, own.manifest, &amendments)
    }

    // The files that a patch changes.
    fn files(self) -> &'a [(Vec<u8>, Vec<u8>)] {
        with_own(self.sources.files, self.own)
    }

    // Whether the patch can have a naming: `patch` finds its file, and the statement makes no other edge.
    fn has_naming(self, alloc: Global, naming: Naming<'_>) -> Result<bool, AllocError> {
        if statement_at(self.statements, naming.file, naming.line).len() != 1 {
            return Ok(false);
        }
        self.is_found(alloc, naming.file)
    }

    // The namings that the patch can have, each where it can stand beside those before it; adds what the others are.
    fn named(
        self,
        alloc: Global,
        text: &mut Vec<u8>,
        namings: &[Naming<'a>],
    ) -> Result<Vec<Naming<'a>>, AllocError> {
        let mut taken = Vec::new(alloc);
        for naming in namings {
            if self.has_naming(alloc, *naming)? {
                taken.push(*naming)?;
            } else {
                push_naming(text, self.sources, *naming)?;
            }
        }
        if taken.is_empty() || self.changes(alloc, &[], &taken)?.is_some() {
            return Ok(taken);
        }
        self.one_by_one(alloc, text, &taken)
    }

    // Of namings that a patch cannot have together those that it can have, each beside those before it.
    fn one_by_one(
        self,
        alloc: Global,
        text: &mut Vec<u8>,
        namings: &[Naming<'a>],
    ) -> Result<Vec<Naming<'a>>, AllocError> {
        let mut taken = Vec::new(alloc);
        for (number, naming) in namings.iter().enumerate() {
            taken.push(*naming)?;
            if number >= MOST_TRIED || self.changes(alloc, &[], &taken)?.is_none() {
                let _refused = taken.pop();
                push_naming(text, self.sources, *naming)?;
            }
        }
        Ok(taken)
    }

    // Adds why a mend is not in the patch.
    fn push_left(self, text: &mut Vec<u8>, mend: Mend, left: Left) -> Result<(), AllocError> {
        text.extend_from_slice(b"# not in this patch: ")?;
        push_placed(text, self.sources, mend.user)?;
        text.extend_from_slice(b" is to wait for ")?;
        push_edge(text, self.sources, mend.maker)?;
        text.extend_from_slice(match left {
            Left::Unwritable => b", no output of which can be written on a build line\n",
            Left::Elsewhere =>
                b"; patch does not find that file, so add it to the statement there\n",
            Left::Shared => b", which waits for another command of the same statement\n",
            Left::Cycle => b"; with the orders below a command would wait for itself\n",
        })
    }

    // The mends that a patch can have each by itself; adds why the others are in none.
    fn takable(
        self,
        alloc: Global,
        text: &mut Vec<u8>,
        mends: &[Mend],
    ) -> Result<Vec<Mend>, AllocError> {
        let shared = shared(alloc, self.graph, self.statements, mends)?;
        let mut taken = Vec::new(alloc);
        for (mend, shared) in mends.iter().zip(shared.iter()) {
            match self.left(alloc, *mend, *shared)? {
                Some(left) => self.push_left(text, *mend, left)?,
                None => taken.push(*mend)?,
            }
        }
        Ok(taken)
    }

    // The mends that a patch can have together, each where it can stand beside those before it; adds why the others are
    // not in it.
    fn together(
        self,
        alloc: Global,
        text: &mut Vec<u8>,
        mends: &[Mend],
        namings: &[Naming<'a>],
    ) -> Result<Vec<Mend>, AllocError> {
        let mut taken = Vec::new(alloc);
        for mend in mends {
            taken.push(*mend)?;
            if self.changes(alloc, &taken, namings)?.is_none() {
                let _refused = taken.pop();
                self.push_left(text, *mend, Left::Cycle)?;
            }
        }
        Ok(taken)
    }

    // Adds the patch of the files.
    fn push(
        self,
        alloc: Global,
        text: &mut Vec<u8>,
        mends: &[Mend],
        namings: &[Naming<'a>],
    ) -> Result<(), AllocError> {
        let mends = self.takable(alloc, text, mends)?;
        let namings = self.named(alloc, text, namings)?;
        let few = minimal(alloc, self.graph, self.sources.builds, &mends)?;
        if let Some(changes) = self.changes(alloc, &few, &namings)? {
            return push_patches(alloc, text, self.files(), &changes);
        }
        if mends.len() > MOST_TRIED {
            return text.extend_from_slice(
                b"# no patch: with all these orders together a command waits for itself; add some, and ask again\n",
            );
        }
        let mends = self.together(alloc, text, &mends, &namings)?;
        match self.changes(alloc, &mends, &namings)? {
            Some(changes) => push_patches(alloc, text, self.files(), &changes),
            None => Ok(()),
        }
    }
}

// Adds what a generator is to be told of one mend.
fn push_hint(
    text: &mut Vec<u8>,
    sources: &Sources<'_>,
    mend: Mend,
    author: Author,
) -> Result<(), AllocError> {
    text.extend_from_slice(b"# ")?;
    push_placed(text, sources, mend.user)?;
    text.extend_from_slice(b" is to wait for ")?;
    push_edge(text, sources, mend.maker)?;
    match author {
        Author::CMake => text.extend_from_slice(
            b": add_dependencies(U M), where target U has the first and target M makes the second\n",
        ),
        Author::Meson => text.extend_from_slice(
            b": dependencies: declare_dependency(sources: M) at the target of the first, where M makes the second\n",
        ),
        Author::Hand | Author::Generator => {
            text.extend_from_slice(b": an order-only input in what the generator writes\n")
        }
    }
}

// Adds what a generator is to be told.
fn push_hints(
    text: &mut Vec<u8>,
    sources: &Sources<'_>,
    mends: &[Mend],
    author: Author,
) -> Result<(), AllocError> {
    text.extend_from_slice(b"# no patch: the manifest is generated by ")?;
    text.extend_from_slice(match author {
        Author::CMake => b"CMake; in CMakeLists.txt:\n",
        Author::Meson => b"Meson; in meson.build:\n",
        Author::Hand | Author::Generator => b"what its first comment names; there:\n",
    })?;
    for mend in mends {
        push_hint(text, sources, *mend, author)?;
    }
    Ok(())
}

// Adds what no order mends.
fn push_others(
    text: &mut Vec<u8>,
    sources: &Sources<'_>,
    races: &[RaceFinding<'_>],
) -> Result<(), AllocError> {
    for race in races {
        if race.kind != Kind::Race {
            text.extend_from_slice(b"# no order mends that ")?;
            push_placed(text, sources, race.user)?;
            text.extend_from_slice(b" uses ")?;
            push_made(text, sources, race.maker, race.path)?;
            text.extend_from_slice(b"\n")?;
        }
    }
    Ok(())
}

// Adds the line that says which path a statement is to name behind a `|`.
fn push_naming(
    text: &mut Vec<u8>,
    sources: &Sources<'_>,
    naming: Naming<'_>,
) -> Result<(), AllocError> {
    text.extend_from_slice(if naming.is_output {
        b"# behind a | among its outputs, "
    } else {
        b"# behind a | among its inputs, "
    })?;
    push_placed(text, sources, naming.edge)?;
    text.extend_from_slice(b" is to name ")?;
    push_shown(text, naming.path.as_bytes())?;
    text.extend_from_slice(b"\n")
}

// Adds the line that says that no order mends a finding.
fn push_unordered(
    text: &mut Vec<u8>,
    sources: &Sources<'_>,
    finding: &Finding<'_>,
) -> Result<(), AllocError> {
    text.extend_from_slice(b"# no order mends that ")?;
    push_placed(text, sources, finding.user)?;
    text.extend_from_slice(b" meets ")?;
    push_edge(text, sources, finding.maker)?;
    text.extend_from_slice(b" at ")?;
    push_made(text, sources, finding.maker, finding.path)?;
    text.extend_from_slice(b"\n")
}

// Adds the line that says which order of two the patch has, where the other one can be right too.
fn push_either(
    text: &mut Vec<u8>,
    sources: &Sources<'_>,
    finding: &Finding<'_>,
    reverse: Reverse<'_>,
) -> Result<(), AllocError> {
    let (last, first) = if reverse.is_here {
        (finding.maker, finding.user)
    } else {
        (finding.user, finding.maker)
    };
    text.extend_from_slice(b"# either can come last at ")?;
    push_made(text, sources, finding.maker, finding.path)?;
    text.extend_from_slice(b": as here, ")?;
    push_placed(text, sources, last)?;
    text.extend_from_slice(b" waits for ")?;
    push_placed(text, sources, first)?;
    text.extend_from_slice(b"; turn it round where the first is to come last\n")
}

// Adds what is to be done about findings beside orders and namings.
fn push_findings(
    text: &mut Vec<u8>,
    sources: &Sources<'_>,
    findings: &[Finding<'_>],
) -> Result<(), AllocError> {
    for finding in findings {
        if let Some(reverse) = finding.mending.reverse {
            push_either(text, sources, finding, reverse)?;
        }
        let is_named = finding.is_to_be_listed() || finding.is_to_be_declared();
        if !is_named && !finding.is_mended_by_order() {
            push_unordered(text, sources, finding)?;
        }
    }
    Ok(())
}

// The paths that statements are to name behind a `|` besides orders.
fn namings_of<'a>(
    alloc: Global,
    sources: &Sources<'_>,
    findings: &[Finding<'a>],
) -> Result<Vec<Naming<'a>>, AllocError> {
    let mut namings = Vec::new(alloc);
    let mut declared = IndexMap::new(alloc);
    for finding in findings {
        if finding.is_to_be_listed() {
            push_path(sources, finding.user, finding.path, false, &mut namings)?;
        }
        if finding.is_to_be_declared() && !declared.contains_key(finding.path) {
            declared.insert(finding.path.copy()?, ())?;
            push_path(sources, finding.maker, finding.path, true, &mut namings)?;
        }
    }
    Ok(namings)
}

// Adds a path that the statement of an edge is to name.
fn push_path<'a>(
    sources: &Sources<'_>,
    edge: u32,
    path: &'a Name,
    is_output: bool,
    namings: &mut Vec<Naming<'a>>,
) -> Result<(), AllocError> {
    if let Some(build) = sources.builds.get(edge as usize) {
        namings.push(Naming {
            file: build.file(),
            line: build.line(),
            edge,
            path,
            is_output,
        })?;
    }
    Ok(())
}

// Adds what no order mends either.
fn push_clashes(
    text: &mut Vec<u8>,
    sources: &Sources<'_>,
    clashes: &[Clash],
) -> Result<(), AllocError> {
    for clash in clashes {
        text.extend_from_slice(match clash.kind {
            SideFile::Depfile => b"# a depfile of its own mends this: ",
            SideFile::ResponseFile => b"# a response file of its own mends this: ",
        })?;
        push_clash(text, sources, clash)?;
    }
    Ok(())
}

// Adds the patch of a manifest that nobody generated.
fn push_patch(
    alloc: Global,
    text: &mut Vec<u8>,
    sources: &Sources<'_>,
    graph: &Graph,
    manifest: &Manifest,
    own: Option<Own<'_>>,
    mends: &[Mend],
    namings: &[Naming<'_>],
) -> Result<(), AllocError> {
    let statements = statements_of(alloc, sources.builds)?;
    let patched = Patched {
        sources,
        manifest,
        graph,
        statements: &statements,
        own,
    };
    patched.push(alloc, text, mends, namings)
}

/// What mends races, where an order does: a patch of the manifest's files, or, where a generator wrote them, the lines
/// that the generator has to write. A line outside of the patch begins with `#`: what no order mends, clashes among it,
/// and which orders the patch cannot have. The patched files say the manifest with the orders of the patch and nothing
/// else. Where dyndep files say something of the manifest, the patch is one of the user's own files (`own`).
///
/// # Errors
/// [`AllocError`] only where an allocation was refused.
pub fn mend_text(
    alloc: Global,
    manifest: &Manifest,
    graph: &Graph,
    sources: &Sources<'_>,
    own: Option<Own<'_>>,
    races: &[RaceFinding<'_>],
    clashes: &[Clash],
    findings: &[Finding<'_>],
) -> Result<Vec<u8>, AllocError> {
    let mut text = Vec::new(alloc);
    push_findings(&mut text, sources, findings)?;
    push_others(&mut text, sources, races)?;
    push_clashes(&mut text, sources, clashes)?;
    let mends = mends_of(alloc, sources, races, findings)?;
    let namings = namings_of(alloc, sources, findings)?;
    if mends.is_empty() && namings.is_empty() {
        return Ok(text);
    }
    let author = match sources.files.first() {
        Some((_, bytes)) => author_of(bytes),
        None => Author::Hand,
    };
    if author == Author::Hand {
        push_patch(
            alloc, &mut text, sources, graph, manifest, own, &mends, &namings,
        )?;
        return Ok(text);
    }
    for naming in &namings {
        push_naming(&mut text, sources, *naming)?;
    }
    let few = minimal(alloc, graph, sources.builds, &mends)?;
    if !few.is_empty() {
        push_hints(&mut text, sources, &few, author)?;
    }
    Ok(text)
}
