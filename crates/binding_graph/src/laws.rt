//! A law of settled values.

ghost use Rattle.binding_graph.specs.Laws.{AcyclicDetermine};

/// Bindings of which no chain leads from a property back to itself have exactly one settled state over given other
/// values.
pub fn acyclic_determine()
    ensures { AcyclicDetermine }
{}
