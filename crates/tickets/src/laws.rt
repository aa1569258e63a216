// The laws of tickets. Each function's contract is a law; there is nothing to compute.
ghost use Rattle.tickets.specs.Examples.{Examples};
ghost use Rattle.tickets.specs.Laws.{ReadsBack, OnlyWritten, NeverAlike};

use crate::TicketWeight;

// A ticket that may be written is read, as the same word and multipliers.
pub fn written_tickets_read_back<W: TicketWeight>()
    ensures { ReadsBack W.Weight.kind W.codec }
{}

// Bytes that are read at all are the ticket of what is read, and no other bytes read as the same.
pub fn only_written_tickets_are_read<W: TicketWeight>()
    ensures only { OnlyWritten W.Weight.kind W.codec }
    ensures unlike { NeverAlike W.Weight.kind W.codec }
{}

// Written tickets, by computation.
pub fn worked_tickets()
    ensures { Examples }
{}
