// A case: the search for a ticket's answer, box by box, over a workspace that is lent to each call.
#![tactic(auto)]

mod case;
mod ceilings;
mod deepening;
mod judgement;
mod judging;
mod making;
mod part;
mod pointing;
mod record;
mod running;
mod telling;
#[cfg(test)]
mod tests;
mod waiting;
