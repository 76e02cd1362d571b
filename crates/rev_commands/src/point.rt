//! What a break waits for.
ghost use Rattle.std.specs.Prelude.{◌≡◌, ◌↔◌, IfOk, IsTrue};

use rev_paths::Name;
use std::alloc::AllocError;

/// Events of one kind, and, where an output or a path is named, of that edge or path alone. An edge is named by any of
/// its outputs.
#[derive(Debug, PartialEq, Eq)]
pub enum Point {
    /// A start of the edge that has this output.
    Start(Name),
    /// A finish of the edge that has this output.
    Finish(Name),
    /// A fail of the edge that has this output.
    Fail(Name),
    /// An abort of the edge that has this output.
    Abort(Name),
    /// A clean of the edge that has this output.
    Clean(Name),
    /// A pass of the edge that has this output.
    Pass(Name),
    /// A touch of this path.
    Touch(Name),
    /// Any plan.
    Plan,
    /// Any interrupt.
    Interrupt,
}

impl Drop for Point {
    fn drop(self) {
        match self {
            Point::Start(_part) => {}
            Point::Finish(_part) => {}
            Point::Fail(_part) => {}
            Point::Abort(_part) => {}
            Point::Clean(_part) => {}
            Point::Pass(_part) => {}
            Point::Touch(_part) => {}
            Point::Plan => {}
            Point::Interrupt => {}
        }
    }
}

impl Point {
    /// Whether two points are equal.
    pub fn same(&self, other: &Point) -> bool
        ensures { IsTrue result ↔ (self.now ≡ other.now) }
    {
        self == other
    }

    /// An equal point.
    pub fn copy(&self) -> Result<Point, AllocError>
        ensures { IfOk result (λ copy. copy ≡ self.now) }
    {
        match self {
            Point::Start(out) => Ok(Point::Start(out.copy()?)),
            Point::Finish(out) => Ok(Point::Finish(out.copy()?)),
            Point::Fail(out) => Ok(Point::Fail(out.copy()?)),
            Point::Abort(out) => Ok(Point::Abort(out.copy()?)),
            Point::Clean(out) => Ok(Point::Clean(out.copy()?)),
            Point::Pass(out) => Ok(Point::Pass(out.copy()?)),
            Point::Touch(path) => Ok(Point::Touch(path.copy()?)),
            Point::Plan => Ok(Point::Plan),
            Point::Interrupt => Ok(Point::Interrupt),
        }
    }
}
