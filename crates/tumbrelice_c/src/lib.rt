// What C links: each call of `tumbrelice` under its name, with the same promise. Nothing is done here.
#![tactic(auto)]

mod makings; // makings.rt: a ring or a vector on lent slots
mod rings; // rings.rt: the calls on a ring
mod vectors; // vectors.rt: the calls on a vector
mod parts; // parts.rt: the parts that a vector lends
mod two; // two.rt: the calls that change two containers
mod compare; // compare.rt: whether two containers hold the same list
mod ring_walks; // ring_walks.rt: a cursor over a ring
mod vector_walks; // vector_walks.rt: a cursor over a vector
mod forms; // forms.rt: the stored form
mod records; // records.rt: a record of comma-separated text
