// The worked edges of the rules, proved as rows of one list.
#![tactic(auto)]

ghost use Rattle.edges.specs.Edges.{EdgesHold};

// Carries the list: what the definitions give at each edge is what the rules say.
pub fn edges_hold()
    ensures { EdgesHold }
{}
