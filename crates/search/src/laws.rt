// The law of the search, and examples. They need no code: what is proved of each function is its contract.
ghost use Rattle.search.specs.Law.{LawStands};
ghost use Rattle.search.specs.Examples.{WorkedTickets, WorkedPoints, WorkedCalls};

// For every well-formed ticket and every chooser the answers to any list of calls keep the law: `holds` and `fails` mean that, a
// decision stays and is the only one, courses that are alike answer alike, and the work is bounded and counted.
pub fn search_law()
    ensures { LawStands }
{}

// Searches worked out by hand are those that the definitions compute, and the law says of one that the inequality is true at every point
// of its box, and of another at which point it is false.
pub fn worked_searches()
    ensures tickets { WorkedTickets }
    ensures points { WorkedPoints }
    ensures calls { WorkedCalls }
{}
