// What a run of tidy keeps beside the table.
use tidy_agenda::Agenda;
use tidy_holders::Holders;

// The link that holds each slot, and the slots at which a rule may be due. The table is lent beside them: a firing
// writes it in several steps, and an invariant over both would have to hold after each.
#[derive(Drop)]
pub struct Notes {
    pub holders: Holders,
    pub agenda: Agenda,
}
