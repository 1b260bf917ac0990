// The case that was not taken yet.
ghost use Rattle.std.specs.Prelude.{◌≡◌, List, IfOk};
ghost use Rattle.algebra.specs.Pair.{Pair};
ghost use Rattle.ticket.specs.Law.{content};
ghost use Rattle.chooser.specs.Choice.{Meaning};
ghost use Rattle.search.specs.Search.{untaken, untaken_search};
ghost use Rattle.case.specs.Model.{ticket_of, model};

use crate::case::Case;
use crate::record::Record;
use crate::waiting::Waiting;
use arrayvec::ArrayVec;
use number::Number;
use std::alloc::{AllocError, Global};
use std::marker::PhantomData;
use ticket::{Axis, Relation, SizedTicket, Term, Ticket};

// The ticket of -1 > 0 between 0 and 1, without these ends. Its one term does not drift, so every kind of number carries it.
fn untaken_ticket(heap: Global) -> Result<SizedTicket, AllocError>
    ensures { IfOk result (λ t. content t.ticket ≡ untaken) }
{
    let axis = Axis {
        degree: 1,
        lower: 0,
        upper: 1,
        lower_open: true,
        upper_open: true,
    };
    let term = Term {
        exponents: [0; 4],
        coefficient: -1,
        drift: 0,
    };
    let ticket = Ticket {
        axes: vec![in heap; axis]?,
        terms: vec![in heap; term]?,
        relation: Relation::Greater,
        depth: 0,
    };
    Ok(ticket.sized(false).unwrap())
}

impl<K: Number> Case<K> {
    // A case of which no ticket was taken yet. It stands as that of -1 > 0 between 0 and 1 without these ends, at depth 0, where the one
    // box was examined and set aside for depth.
    pub fn new(heap: Global) -> Result<Case<K>, AllocError>
        ensures ticket { IfOk result (λ k. ticket_of k ≡ untaken) }
        ensures stands { (work : List Pair) (μ : Meaning) → IfOk result (λ k. model k work ≡ untaken_search K.limit μ) }
    {
        let ticket = untaken_ticket(heap)?;
        let mut degrees = ArrayVec::new();
        degrees.push(1);
        Ok(Case {
            ticket,
            degrees,
            size: 2,
            depth: 0,
            waiting: Waiting::empty(),
            examined: 1,
            aside_depth: 1,
            aside_range: 0,
            corner: None,
            found: Record::whole(),
            kind: PhantomData,
        })
    }
}
