//! Laws of reading.
ghost use Rattle.rev_manifest.specs.Laws.{ValuesAreDerived};

/// A name has a value at an edge exactly where a finite derivation gives it. So a variable that needs itself has none.
pub fn values_are_derived()
    ensures { ValuesAreDerived }
{}
